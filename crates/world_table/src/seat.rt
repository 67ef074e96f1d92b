// What is kept of players.
ghost use Rattle.std.specs.Prelude.{◌≡◌, ◌==◌, ℕ, OnOk, OnErr, if◌then◌else◌};
ghost use Rattle.world_table.specs.Kept.{seat_at};

use net_core::{Memory, Player};

/// Where a player looks from, and its team, 0 for none.
#[derive(Clone, Copy)]
pub(crate) struct Seat {
    pub x: i32,
    pub y: i32,
    pub team: u8,
}

/// The seat of a player of whom nothing is known.
const EMPTY: Seat = Seat {
    x: 0,
    y: 0,
    team: 0,
};

/// The seat of a player.
pub(crate) fn seat_for(seats: &[Seat], player: Player) -> Seat
    ensures { result ≡ seat_at seats.now player }
{
    match seats.get(usize::from(player.0)) {
        Some(seat) => *seat,
        None => EMPTY,
    }
}

/// Puts a player's seat, in a list that grows to the player's number. After `Memory` the seats are
/// those from before.
pub(crate) fn put_seat(seats: &mut Vec<Seat>, player: Player, seat: Seat) -> Result<(), Memory>
    ensures each { OnOk result ((p : ℕ) → seat_at seats.new.items p
        ≡ (if p == player then seat else seat_at seats.old.items p)) }
    ensures err { OnErr result (seats.new.items ≡ seats.old.items) }
{
    let place = usize::from(player.0);
    if place >= seats.len() {
        seats.resize(place + 1, EMPTY)?;
    }
    seats[place] = seat;
    Ok(())
}
