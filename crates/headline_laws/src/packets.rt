// Every packet that an end sends is read back from its bytes.
ghost use Rattle.std.specs.Prelude.{◌≡◌, ℕ, List, Some, Ok};
ghost use Rattle.std.specs.List.{AllByRecursion};
ghost use Rattle.protocol_model.specs.Packet.{Packet, Spells, spelling_of};
ghost use Rattle.protocol_model.specs.PacketReading.{packet_of};
ghost use Rattle.protocol_model.specs.Side.{Side};
ghost use Rattle.script_model.specs.Lines.{Line};
ghost use Rattle.connection_model.specs.Feed.{End, Event};
ghost use Rattle.connection_model.specs.Past.{past_of};
ghost use Rattle.replication_model.specs.Headline.{HasJoined};
ghost use Rattle.replication_model.specs.Story.{Player, story_of, past_at};
ghost use Rattle.table_model.specs.Facts.{IsTable};
ghost use Rattle.table_model.specs.Rules.{Entry};
ghost use Rattle.table_model.specs.Grammar.{table_of};
ghost use Rattle.connection_laws.specs.Honest.{IsHonestPlayer, AllRead, IsTalking};
ghost use Rattle.connection_laws.specs.Talk.{packet_at};
ghost use Rattle.payload_laws.specs.Spelling.{KnowsLimits};
ghost use Rattle.headline_laws.specs.Fits.{EventFits, PastFits, MessagesShort};
ghost use Rattle.headline_laws.specs.Players.{ArePlayable};

/// Whatever an end hears, forged or not, each packet that it sends has a spelling, of at most 1,024
/// bytes, from which it is read back. The sights that it is shown must fit.
pub fn every_packet_spells()
    ensures fits { (end : End) (entries : List Entry) (feed : List Event) → IsTable entries
        → end.table ≡ table_of entries → AllByRecursion EventFits feed
        → PastFits end (past_of end feed) }
    ensures spells { (end : End) (entries : List Entry) (feed : List Event) (k : ℕ) (p : Packet)
        → IsTable entries → end.table ≡ table_of entries → AllByRecursion EventFits feed
        → packet_at end (past_of end feed) k ≡ Some p
        → Spells end.version p (spelling_of end.version p) }
    ensures read { (end : End) (entries : List Entry) (feed : List Event) (k : ℕ) (p : Packet)
        → IsTable entries → end.table ≡ table_of entries → AllByRecursion EventFits feed
        → packet_at end (past_of end feed) k ≡ Some p
        → packet_of end.version (spelling_of end.version p) ≡ Ok p }
{}

/// So is each packet of each player of a script, over an accepted table and accepted edits.
pub fn stories_are_read()
    ensures { (entries : List Entry) (lines : List Line) (player : ℕ) → ArePlayable entries lines
        → AllRead (table_of entries) lines player }
{}

/// So the two ends of a player of whom no datagram was forged talk: each hears the other's packets.
pub fn honest_players_talk()
    ensures { (entries : List Entry) (lines : List Line) (p : Player) → ArePlayable entries lines
        → IsHonestPlayer (table_of entries) lines p → IsTalking (table_of entries) p }
{}

/// Whatever an end hears, each class by which it may read has limits.
pub fn ends_know_limits()
    ensures { (end : End) (entries : List Entry) (feed : List Event) → IsTable entries
        → end.table ≡ table_of entries → AllByRecursion EventFits feed
        → KnowsLimits end.side end.table (past_of end feed) }
{}

/// Each message that a player's end makes has at most ten parts, whatever is forged.
pub fn messages_are_short()
    ensures { (entries : List Entry) (lines : List Line) (p : Player) (side : Side)
        → ArePlayable entries lines → HasJoined (story_of (table_of entries) lines).0 p
        → MessagesShort (past_at (table_of entries) side p) }
{}
