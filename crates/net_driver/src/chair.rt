// The players who joined, and where their ends are.
ghost use Rattle.std.specs.Prelude.{◌≡◌, ◌==◌, OnOk, OnErr, nat_le, map, slice_get, Some};
ghost use Rattle.std.specs.List.{position};
ghost use Rattle.protocol_model.specs.Search.{insert_in_order};
ghost use Rattle.net_driver.specs.declared.chair.Chair.{Chair as ChairSpec};
ghost use Rattle.net_driver.specs.Chairs.{sits_before, dead_for, place_in, living_key};

use net_core::{Memory, Player};

/// Where a player's end is: under a key while it lives; a dead one is dropped, but for the greatest
/// packet number that it took.
#[derive(Clone, Copy, Debug, PartialEq, Eq)]
pub(crate) enum Place {
    Living(usize),
    Dead(u64),
}

/// A player who joined.
#[derive(Clone, Copy, Debug, PartialEq, Eq)]
pub(crate) struct Chair {
    pub player: Player,
    pub place: Place,
}

/// Where a player's end is; `None` exactly where the player didn't join.
pub(crate) fn place_of(chairs: &[Chair], player: Player) -> Option<Place>
    ensures { result ≡ place_in chairs.now player }
{
    let chair = chairs.iter().find(|chair| chair.player == player)?;
    Some(chair.place)
}

/// The key of a player's end; `None` exactly where the player has no living end.
pub(crate) fn key_of(chairs: &[Chair], player: Player) -> Option<usize>
    ensures { result ≡ living_key (place_in chairs.now player) }
{
    match place_of(chairs, player) {
        Some(Place::Living(key)) => Some(key),
        _ => None,
    }
}

/// The chair at a place, counted from 0.
pub(crate) fn chair_at(chairs: &[Chair], i: usize) -> Option<Chair>
    ensures { result ≡ slice_get chairs.now i }
{
    chairs.get(i).copied()
}

/// The key of an end that is alive.
pub(crate) fn living(place: Place) -> Option<usize>
    ensures { result ≡ living_key (Some place) }
{
    match place {
        Place::Living(key) => Some(key),
        Place::Dead(_) => None,
    }
}

/// Puts a player's chair in its place by number. After `Memory` the chairs are as they were.
pub(crate) fn add_chair(chairs: &mut Vec<Chair>, player: Player, place: Place) -> Result<(), Memory>
    ensures ok { OnOk result (chairs.new.items
        ≡ insert_in_order sits_before
        (record { player = player; place = place }) chairs.old.items) }
    ensures err { OnErr result (chairs.new.items ≡ chairs.old.items) }
{
    let i = match first_from(chairs.as_slice(), player) {
        Some(i) => i,
        None => chairs.len(),
    };
    match chairs.insert(i, Chair { player, place }) {
        Ok(()) => Ok(()),
        Err(_) => Err(Memory),
    }
}

/// The first chair that doesn't sit before a player's.
fn first_from(chairs: &[Chair], player: Player) -> Option<usize>
    ensures { result ≡ position (λ (c : ChairSpec). nat_le player c.player) chairs.now }
{
    chairs.iter().position(|chair| is_from(chair, player))
}

/// A player's end is dead, and took this greatest number.
pub(crate) fn put_dead(chairs: &mut Vec<Chair>, player: Player, top: u64)
    ensures { chairs.new.items ≡ map (dead_for player top) chairs.old.items }
{
    for i in 0..chairs.len() {
        chairs[i] = marked(&chairs[i], player, top);
    }
}

/// The chair, its end dead if it is the player's.
fn marked(chair: &Chair, player: Player, top: u64) -> Chair
    ensures { result ≡ dead_for player top chair.now }
{
    if chair.player == player {
        Chair {
            player,
            place: Place::Dead(top),
        }
    } else {
        *chair
    }
}

/// The chair is the player's, or one behind it.
fn is_from(chair: &Chair, player: Player) -> bool
    ensures { result ≡ nat_le player chair.now.player }
{
    chair.player.0 >= player.0
}
