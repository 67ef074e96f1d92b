// What a sender doesn't see.
ghost use Rattle.std.specs.Prelude.{◌≡◌, ◌≢◌, ℕ, List, Some, true};
ghost use Rattle.protocol_model.specs.Value.{Call, Arg};
ghost use Rattle.protocol_model.specs.Payload.{Calls};
ghost use Rattle.connection_model.specs.Feed.{Past};
ghost use Rattle.connection_model.specs.Bunches.{after_making};
ghost use Rattle.connection_model.specs.State.{state_of, index_of};
ghost use Rattle.shadow_changes.specs.Samples.{Samples};
ghost use Rattle.sender_laws.specs.Acts.{IsAlike};
ghost use Rattle.sender_laws.specs.States.{is_pending};
ghost use Rattle.sender_steps.specs.Sender.{Sender};
ghost use Rattle.sender_steps.specs.Stands.{Keeps};

/// A sender is right about each past in which the same was done and moved; what was heard, handed
/// on or waits may differ.
pub fn alike_is_unseen()
    ensures { (s : Sender) (past later : Past) (samples : Samples) → IsAlike past later
        → Keeps s past samples → Keeps s later samples }
{}

/// A sender is right about the same past with a reliable call made, on the index of its actor, on
/// which no open or close is under way.
pub fn call_is_unseen()
    ensures { (s : Sender) (past : Past) (samples : Samples) (ch actor number : ℕ) (call : Call)
        (args : List Arg) → index_of past actor ≡ Some ch
        → ((a : ℕ) → is_pending (state_of past a) ≡ true → index_of past a ≢ Some ch)
        → Keeps s past samples
        → Keeps s (after_making past ch (Calls actor number call args)) samples }
{}
