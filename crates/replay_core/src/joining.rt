// The places of the players who joined.
ghost use Rattle.std.specs.Prelude.{◌≡◌, nat_le, OnOk};
ghost use Rattle.std.specs.List.{position};
ghost use Rattle.protocol_model.specs.Search.{insert_in_order};
ghost use Rattle.replay_places.specs.declared.place.Place.{Place as PlaceSpec};
ghost use Rattle.replay_core.specs.Lines.{sits_before, place_among};

use net_core::{Memory, Player};
use replay_places::Place;

/// Puts a place among the others by its player's number.
pub(crate) fn add_place<'a>(places: &mut Vec<Place<'a>>, place: Place<'a>) -> Result<(), Memory>
    ensures { OnOk result
        (places.new.items ≡ insert_in_order sits_before place.entry places.old.items) }
{
    let i = place_for(places.as_slice(), place.player);
    places.insert(i, place)?;
    Ok(())
}

/// Where a new place of a player goes: before the first that doesn't stand before the player's,
/// else behind all.
fn place_for(places: &[Place<'_>], player: Player) -> usize
    ensures { result ≡ place_among player places.now }
{
    match first_from(places, player) {
        Some(i) => i,
        None => places.len(),
    }
}

/// The first place that doesn't stand before a player's.
fn first_from(places: &[Place<'_>], player: Player) -> Option<usize>
    ensures { result ≡ position (λ (k : PlaceSpec). nat_le player k.player) places.now }
{
    places.iter().position(|place| stands_from(place, player))
}

/// The place is the player's, or one behind it.
fn stands_from(place: &Place<'_>, player: Player) -> bool
    ensures { result ≡ nat_le player place.now.player }
{
    place.player.0 >= player.0
}
