// The state of an actor's channel, and the index that an open takes.
ghost use Rattle.std.specs.Prelude.{◌≡◌, ◌≤◌, ◌<◌, ◌-◌, ◌==◌, ℕ, Some, true, false, if◌then◌else◌};
ghost use Rattle.connection_model.specs.Feed.{Past};
ghost use Rattle.connection_model.specs.Bunches.{has_arrived, have_arrived, span, is_opening, is_closing, is_sleeping};
ghost use Rattle.connection_model.specs.State.{Mark, Opened, Opening, closed_as, state_of, last_mark, is_held, free_index};
ghost use Rattle.sender_laws.specs.States.{IsLast, is_pending};

/// While an open or a close is the last message on its index, the state follows from the span
/// alone; a state with nothing under way stays as more arrives.
pub fn state_by_span()
    ensures opens { (past : Past) (a : ℕ) (mark : Mark) → last_mark past a ≡ Some mark
        → is_opening mark.message ≡ true → IsLast past mark → 1 ≤ mark.number
        → have_arrived past mark.channel 1 (mark.number - 1) ≡ true
        → state_of past a ≡ (if span past mark.channel == 0 then Opened else Opening) }
    ensures closes { (past : Past) (a : ℕ) (mark : Mark) → last_mark past a ≡ Some mark
        → is_closing mark.message ≡ true → IsLast past mark
        → state_of past a ≡ closed_as (span past mark.channel == 0) (is_sleeping mark.message) }
    ensures stays { (past later : Past) (a : ℕ)
        → ((ch n : ℕ) → has_arrived past ch n ≡ true → has_arrived later ch n ≡ true)
        → last_mark later a ≡ last_mark past a → is_pending (state_of past a) ≡ false
        → state_of later a ≡ state_of past a }
{}

/// An index that is free, and below which none is, is the one that an open takes.
pub fn free_index_is_least()
    ensures { (past : Past) (r : ℕ) → 1 ≤ r → is_held past r ≡ false → span past r ≡ 0
        → ((ch : ℕ) → 1 ≤ ch → ch < r → span past ch ≡ 0 → is_held past ch ≡ true)
        → free_index past ≡ r }
{}
