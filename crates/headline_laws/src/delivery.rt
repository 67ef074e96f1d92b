// The laws of linked ends, for each player of whom no datagram was forged, after any lines over an
// accepted table whose edits are accepted.
ghost use Rattle.std.specs.Prelude.{◌≡◌, ℕ, List};
ghost use Rattle.protocol_model.specs.Side.{AtServer};
ghost use Rattle.script_model.specs.Lines.{Line};
ghost use Rattle.connection_model.specs.Feed.{End, Past};
ghost use Rattle.connection_model.specs.Handed.{handed_on, queued_on};
ghost use Rattle.replication_model.specs.Headline.{IsPrefix};
ghost use Rattle.replication_model.specs.Story.{Player, past_at};
ghost use Rattle.protocol_model.specs.Side.{Side};
ghost use Rattle.table_model.specs.Rules.{Entry};
ghost use Rattle.table_model.specs.Grammar.{table_of};
ghost use Rattle.connection_laws.specs.Run.{IsRun};
ghost use Rattle.connection_laws.specs.Honest.{IsHonestPlayer, BetweenEnds};
ghost use Rattle.connection_laws.specs.Delivered.{ReadsRight, ReceivesPrefixes, NeverOverruns, AllJoin};
ghost use Rattle.headline_laws.specs.Placed.{PlacedAtClient, HandsFirstAll};
ghost use Rattle.headline_laws.specs.Players.{ArePlayable, AreLinked};
ghost use Rattle.headline_laws.specs.Turns.{HandsSame};

/// The two ends are linked.
pub fn honest_players_are_linked()
    ensures { (entries : List Entry) (lines : List Line) (p : Player) → ArePlayable entries lines
        → IsHonestPlayer (table_of entries) lines p → AreLinked (table_of entries) p }
{}

/// Numbers are read right, and on each index the whole payloads received are a prefix of the
/// messages made.
pub fn honest_players_deliver()
    ensures read { (entries : List Entry) (lines : List Line) (p : Player)
        → ArePlayable entries lines → IsHonestPlayer (table_of entries) lines p
        → BetweenEnds ReadsRight (table_of entries) p }
    ensures received { (entries : List Entry) (lines : List Line) (p : Player)
        → ArePlayable entries lines → IsHonestPlayer (table_of entries) lines p
        → BetweenEnds ReceivesPrefixes (table_of entries) p }
{}

/// No bunch finds 512 held, and joining refuses no part that is applied.
pub fn honest_players_fit()
    ensures overruns { (entries : List Entry) (lines : List Line) (p : Player)
        → ArePlayable entries lines → IsHonestPlayer (table_of entries) lines p
        → BetweenEnds NeverOverruns (table_of entries) p }
    ensures joins { (entries : List Entry) (lines : List Line) (p : Player) (side : Side)
        → ArePlayable entries lines → IsHonestPlayer (table_of entries) lines p
        → AllJoin (past_at (table_of entries) side p) }
{}

/// As long as no datagram closed an end, what it handed on from each index was read from the first
/// messages made there at the other end, one by one.
pub fn honest_players_hand_on()
    ensures { (entries : List Entry) (lines : List Line) (p : Player) → ArePlayable entries lines
        → IsHonestPlayer (table_of entries) lines p → HandsFirstAll (table_of entries) p }
{}

/// What a server makes and sends is in its place at a client.
pub fn servers_place_right()
    ensures { (end : End) (past : Past) → end.side ≡ AtServer → IsRun end past
        → PlacedAtClient end past }
{}

/// Where the messages handed on are a prefix of those made, the calls handed over at one side are a
/// prefix of those queued at the other, each once, on every index.
pub fn same_messages_same_calls()
    ensures { (from to : Past) (ch : ℕ) → HandsSame from to
        → IsPrefix (handed_on to ch) (queued_on from ch) }
{}
