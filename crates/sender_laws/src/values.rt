// Sampled values of an actor, and the changes noted between two of them.
ghost use Rattle.std.specs.Prelude.{◌≡◌, ◌≤◌, ◌++◌, ℕ, List, Some, None};
ghost use Rattle.change_model.specs.Changes.{Sample, noted_tick};
ghost use Rattle.sender_laws.specs.Values.{value_now, value_by, AreInTurn, AreAbove};

/// Where no change is noted above a tick, the value sampled by then is the value now.
pub fn unnoted_values_stay()
    ensures { (samples : List Sample) (tick place : ℕ) → noted_tick samples tick place ≡ None
        → value_now samples place ≡ value_by samples tick place }
{}

/// Above the tick at which a change was noted last, nothing is noted.
pub fn noted_last_is_newest()
    ensures { (samples : List Sample) (tick place noted : ℕ) → AreInTurn samples → tick ≤ noted
        → noted_tick samples tick place ≡ Some noted → noted_tick samples noted place ≡ None }
{}

/// Later samples leave the values of a tick.
pub fn later_samples_leave_values()
    ensures { (later samples : List Sample) (tick place : ℕ) → AreAbove tick later
        → value_by (later ++ samples) tick place ≡ value_by samples tick place }
{}
