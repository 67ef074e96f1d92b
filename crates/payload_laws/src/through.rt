// What a sender makes goes through at the reader.
//
// These laws give the premises of `reading` from what both ends know.
ghost use Rattle.std.specs.Prelude.{◌≡◌, ◌<◌, ℕ, List, Bool, Some, filter, length};
ghost use Rattle.protocol_model.specs.Side.{Side};
ghost use Rattle.protocol_model.specs.Value.{Class, Call, Arg, Segment, class_guid};
ghost use Rattle.protocol_model.specs.World.{Edits};
ghost use Rattle.protocol_model.specs.Sight.{Seen};
ghost use Rattle.table_model.specs.Rules.{Entry};
ghost use Rattle.table_model.specs.Grammar.{table_of};
ghost use Rattle.connection_model.specs.Feed.{Past};
ghost use Rattle.connection_model.specs.Carry.{due_pairs};
ghost use Rattle.connection_model.specs.CallAnswers.{call_class, fitting_call};
ghost use Rattle.connection_model.specs.Items.{update_pairs};
ghost use Rattle.connection_model.specs.Copies.{copy_class, copy_on};
ghost use Rattle.payload_laws.specs.Limits.{HasLimits, IsActor, AreValues};
ghost use Rattle.payload_laws.specs.Accepted.{IsShown};
ghost use Rattle.payload_laws.specs.Passing.{MayOpen, OpenPasses, UpdatePasses, CallPasses, reading_side};

/// An open of what a server shows goes through at a client that may take it (`MayOpen`).
pub fn open_goes_through()
    ensures { (entries : List Entry) (edits : Edits) (player : ℕ) (seen : Seen) (past : Past)
        (ch : ℕ) (is_exported : Segment → Bool)
        → IsShown entries edits player seen → MayOpen entries past ch is_exported seen
        → OpenPasses (table_of entries) past ch (filter is_exported seen.class.path) seen.actor
        (class_guid seen.class) seen.class seen.values }
{}

/// An update of the due handles of what a server shows goes through where the actor's copy holds
/// the channel and is of its class.
pub fn update_goes_through()
    ensures { (seen : Seen) (made past : Past) (ch : ℕ)
        → HasLimits seen.class → AreValues seen.class 0 seen.values
        → 0 < length (due_pairs made seen)
        → copy_on past ch ≡ Some seen.actor → copy_class past seen.actor ≡ Some seen.class
        → UpdatePasses past ch seen.actor seen.class (update_pairs seen (due_pairs made seen)) }
{}

/// A call that fits its class at one side goes through at the other, where that knows the actor by
/// the same class.
pub fn call_goes_through()
    ensures { (side : Side) (past : Past) (actor number : ℕ) (call : Call) (args : List Arg)
        (class : Class) → HasLimits class → IsActor actor
        → fitting_call side number args class ≡ Some call
        → call_class (reading_side side) past actor ≡ Some class
        → CallPasses (reading_side side) past actor number call args }
{}
