// What an end knows to have arrived was received whole at the other.
//
// These laws tie what a server takes for true of its client (which segments it knows, which actors
// are opened there or closed) to what the client received. Most are of two linked ends.
ghost use Rattle.std.specs.Prelude.{◌≡◌, ℕ, Bool, true, Some};
ghost use Rattle.protocol_model.specs.Payload.{Closes};
ghost use Rattle.connection_model.specs.Feed.{End, Past};
ghost use Rattle.connection_model.specs.Bunches.{have_arrived};
ghost use Rattle.connection_model.specs.Exports.{is_known};
ghost use Rattle.connection_model.specs.State.{Mark, last_mark, state_of, is_opened};
ghost use Rattle.connection_laws.specs.Run.{IsRun};
ghost use Rattle.connection_laws.specs.Link.{IsLink, BothWays};
ghost use Rattle.headline_laws.specs.Whole.{OpensClear, ArrivesWhole, ExportReceived, MarkReceived, IsReceived};
ghost use Rattle.headline_laws.specs.Marks.{ClosesArrived, ClosesReceived, MarksFit, marks_of};
ghost use Rattle.headline_laws.specs.Position.{PartsInPlace};

/// When an open is made, all before it on its index has arrived.
pub fn opens_are_clear()
    ensures { (end : End) (past : Past) → IsRun end past → OpensClear past }
{}

/// A message whose bunches have arrived, with all before it on its index, was received whole at the
/// other end.
pub fn what_arrived_was_received()
    ensures { (left right : End) (l r : Past) → left.version ≡ right.version
        → IsLink left right l r → BothWays ArrivesWhole l r }
{}

/// Where an end takes a segment for known, the other received an open whole that exports it.
pub fn known_was_received()
    ensures { (left right : End) (l r : Past) (guid : ℕ) → left.version ≡ right.version
        → IsLink left right l r → is_known l guid ≡ true → ExportReceived l r guid }
{}

/// Where an actor is opened, the other end received its open whole; where its close has arrived
/// with all before it, the other end received that.
pub fn marks_were_received()
    ensures opened { (left right : End) (l r : Past) (actor : ℕ) → left.version ≡ right.version
        → IsLink left right l r → is_opened (state_of l actor) ≡ true → MarkReceived l r actor }
    ensures closed { (left right : End) (l r : Past) (actor : ℕ) (mark : Mark) (closed : ℕ)
        (sleeps : Bool) → left.version ≡ right.version → IsLink left right l r
        → last_mark l actor ≡ Some mark
        → mark.message ≡ Closes closed sleeps → have_arrived l mark.channel 1 mark.number ≡ true
        → IsReceived l r mark.channel (mark.number, mark.message) }
{}

/// An actor is opened again, or gone, only after its close had arrived: each close of it but the
/// last mark was received whole at the other end.
pub fn closes_were_received()
    ensures arrived { (end : End) (past : Past) (actor : ℕ) → IsRun end past
        → ClosesArrived past actor }
    ensures received { (left right : End) (l r : Past) (actor : ℕ) → left.version ≡ right.version
        → IsLink left right l r → ClosesReceived l r actor }
{}

/// What an end applied on an index is whole messages and then some parts of the next one, and these
/// are kept.
pub fn parts_are_in_place()
    ensures { (left right : End) (l r : Past) → left.version ≡ right.version
        → IsLink left right l r → BothWays PartsInPlace l r }
{}

/// An actor's opens and closes come in pairs, each close right after the open on the same index.
pub fn marks_come_in_pairs()
    ensures { (end : End) (past : Past) (actor : ℕ) → IsRun end past
        → MarksFit (marks_of past actor) }
{}
