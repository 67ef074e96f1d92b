// What holds of the two ends of each player of a script of whom no datagram was forged.
ghost use Rattle.std.specs.Prelude.{◌≡◌, List};
ghost use Rattle.protocol_model.specs.Value.{Table};
ghost use Rattle.script_model.specs.Lines.{Line};
ghost use Rattle.connection_model.specs.Feed.{End, Event};
ghost use Rattle.connection_model.specs.Past.{past_of};
ghost use Rattle.replication_model.specs.Story.{Player};
ghost use Rattle.connection_laws.specs.Link.{IsLink};
ghost use Rattle.connection_laws.specs.Talk.{IsTalk};
ghost use Rattle.connection_laws.specs.Delivered.{ReadsRight, ReceivesPrefixes};
ghost use Rattle.connection_laws.specs.Honest.{IsHonestPlayer, AllRead, IsTalking, BetweenEnds};

/// Two ends that hear ticks, calls and each other's packets are linked, whatever comes late, twice
/// or never.
pub fn talks_are_linked()
    ensures { (left right : End) (l r : List Event) → left.version ≡ right.version
        → IsTalk left right l r → IsLink left right (past_of left l) (past_of right r) }
{}

/// The two ends of such a player talk, where each packet is read back from its bytes.
pub fn stories_talk()
    ensures { (table : Table) (lines : List Line) (p : Player) → IsHonestPlayer table lines p
        → AllRead table lines p.number → IsTalking table p }
{}

/// So, after all lines of a script, numbers are read right between them, and on each index the
/// whole payloads received are a prefix of the messages made.
pub fn stories_deliver()
    ensures read { (table : Table) (lines : List Line) (p : Player)
        → IsHonestPlayer table lines p → AllRead table lines p.number
        → BetweenEnds ReadsRight table p }
    ensures received { (table : Table) (lines : List Line) (p : Player)
        → IsHonestPlayer table lines p → AllRead table lines p.number
        → BetweenEnds ReceivesPrefixes table p }
{}
