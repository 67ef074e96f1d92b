// The closes of a tick.
ghost use Rattle.std.specs.Prelude.{◌≡◌, ℕ, List, true};
ghost use Rattle.std.specs.List.{fold};
ghost use Rattle.connection_model.specs.Feed.{Past};
ghost use Rattle.connection_model.specs.State.{state_of, is_closed};
ghost use Rattle.connection_model.specs.Pack.{after_close, after_closes};
ghost use Rattle.turn_laws.specs.Turns.{AreLive};

/// An actor that is closed makes no close, so those of a tick are the closes of the actors that
/// aren't, in ascending order.
pub fn closes_are_of_live_actors()
    ensures passed { (past : Past) (a : ℕ) → is_closed (state_of past a) ≡ true
        → after_close past a ≡ past }
    ensures live { (past : Past) (live : List ℕ) → AreLive past live
        → after_closes past ≡ fold after_close past live }
{}
