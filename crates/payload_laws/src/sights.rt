// What a server shows a player can be spelled.
ghost use Rattle.std.specs.Prelude.{ℕ, List};
ghost use Rattle.protocol_model.specs.World.{Edits};
ghost use Rattle.protocol_model.specs.Sight.{Seen};
ghost use Rattle.table_model.specs.Rules.{Entry};
ghost use Rattle.connection_model.specs.Feed.{Past};
ghost use Rattle.connection_model.specs.Carry.{due_pairs};
ghost use Rattle.payload_laws.specs.Limits.{HasLimits, IsActor, AreValues};
ghost use Rattle.payload_laws.specs.Accepted.{IsShown, StandsIn};

/// Each entry that is shown has an actor's guid, a class of the table that keeps its limits, and
/// ascending handles with values that fit their kinds.
pub fn sight_can_be_spelled()
    ensures actor { (entries : List Entry) (edits : Edits) (player : ℕ) (seen : Seen)
        → IsShown entries edits player seen → IsActor seen.actor }
    ensures limits { (entries : List Entry) (edits : Edits) (player : ℕ) (seen : Seen)
        → IsShown entries edits player seen → HasLimits seen.class }
    ensures stands { (entries : List Entry) (edits : Edits) (player : ℕ) (seen : Seen)
        → IsShown entries edits player seen → StandsIn entries seen.class }
    ensures values { (entries : List Entry) (edits : Edits) (player : ℕ) (seen : Seen)
        → IsShown entries edits player seen → AreValues seen.class 0 seen.values }
{}

/// The handles that are due ascend, with values that fit their kinds.
pub fn due_values_fit()
    ensures { (past : Past) (seen : Seen) → AreValues seen.class 0 seen.values
        → AreValues seen.class 0 (due_pairs past seen) }
{}
