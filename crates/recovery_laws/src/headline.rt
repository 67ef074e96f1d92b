// The laws of recovery by the lines of a script, for each player of whom no datagram was forged.
//
// `ArePlayable entries lines` says that the class table is accepted, and that the edits of the
// lines are accepted over it; `AreRead table lines` that a file gives the table and a script reads
// the lines.
ghost use Rattle.std.specs.Prelude.{◌≡◌, ℕ, List, Some};
ghost use Rattle.protocol_model.specs.Side.{AtClient};
ghost use Rattle.protocol_model.specs.Value.{Table};
ghost use Rattle.script_model.specs.Lines.{Line};
ghost use Rattle.connection_model.specs.Fates.{taken_of};
ghost use Rattle.connection_model.specs.Copies.{copy_channel};
ghost use Rattle.replication_model.specs.Headline.{CopiesSettled, Holds};
ghost use Rattle.replication_model.specs.Story.{Player, story_of, past_at};
ghost use Rattle.table_model.specs.Rules.{Entry};
ghost use Rattle.table_model.specs.Grammar.{table_of};
ghost use Rattle.connection_laws.specs.Honest.{IsHonestPlayer};
ghost use Rattle.connection_laws.specs.Taken.{Falls};
ghost use Rattle.headline_laws.specs.Players.{ArePlayable};
ghost use Rattle.headline_laws.specs.Read.{AreRead};
ghost use Rattle.recovery_laws.specs.Asleep.{CopiesSleeping};
ghost use Rattle.recovery_laws.specs.Started.{Recovers};
ghost use Rattle.recovery_laws.specs.Recovered.{
  TalksFaithfully,
  OpenedLast,
  KeepsInitial,
  SleepsAtBoth,
  AppliesLooseOnce,
};

use headline_laws::scripts::{scripts_hand_over_once, scripts_have_fair_verdicts};

/// The two ends of such a player talk, and the client is faithful.
pub fn players_talk_faithfully()
    ensures { (entries : List Entry) (lines : List Line) (p : Player) → ArePlayable entries lines
        → IsHonestPlayer (table_of entries) lines p → TalksFaithfully entries lines p }
{}

/// Of each settled actor the client has a copy of its class, open on the index that it holds, with
/// each updatable handle as the player sees it.
pub fn copies_are_settled()
    ensures { (entries : List Entry) (lines : List Line) (p : Player) → ArePlayable entries lines
        → IsHonestPlayer (table_of entries) lines p
        → CopiesSettled (table_of entries) (story_of (table_of entries) lines).0 p }
{}

/// A copy with a channel came of an open that the server made, and an initial-only property of it
/// has the world's value at the tick that made the open last applied.
pub fn copies_keep_initial_values()
    ensures opening { (entries : List Entry) (lines : List Line) (p : Player) (a ch : ℕ)
        → ArePlayable entries lines → IsHonestPlayer (table_of entries) lines p
        → copy_channel (past_at (table_of entries) AtClient p) a ≡ Some ch
        → OpenedLast entries lines p a ch }
    ensures value { (entries : List Entry) (lines : List Line) (p : Player) (a ch : ℕ)
        → ArePlayable entries lines → IsHonestPlayer (table_of entries) lines p
        → (o : OpenedLast entries lines p a ch) → KeepsInitial entries lines p a ch o }
{}

/// Where an actor sleeps at the server the client's copy sleeps, with each handle that was
/// updatable when the dormant close was made as the player saw it then.
pub fn copies_sleep_as_seen()
    ensures { (entries : List Entry) (lines : List Line) (p : Player) (a : ℕ)
        → ArePlayable entries lines → IsHonestPlayer (table_of entries) lines p
        → SleepsAtBoth entries p a }
{}

/// Calls are handed over as prefixes of those queued, and settled actors are copied: over an
/// accepted table and accepted edits, and after each prefix of the lines of every accepted script
/// over every accepted file of classes.
pub fn headline_holds()
    ensures edits { (entries : List Entry) (lines : List Line) → ArePlayable entries lines
        → Holds (table_of entries) lines }
    ensures scripts { (table : Table) (lines : List Line) → AreRead table lines
        → Holds table lines }
{}

/// In an accepted script's story each actor that sleeps at the server is copied asleep, as the
/// player saw it at its dormant close.
pub fn scripts_copy_sleepers()
    ensures { (table : Table) (lines : List Line) (p : Player) → AreRead table lines
        → IsHonestPlayer table lines p → CopiesSleeping table p }
{}

/// In an accepted script's story unreliable calls come once at most, no datagram of the player is
/// answered as malformed or closes an end, sleeping actors are copied asleep, and each copy that has
/// a channel started with a line of the script: a tick in which the server made the open that the
/// client applied last, and whose initial-only values the copy has.
pub fn scripts_recover()
    ensures { (table : Table) (lines : List Line) → AreRead table lines → Recovers table lines }
{
    scripts_hand_over_once();
    scripts_have_fair_verdicts();
}

/// The packets that a client takes have ascending numbers, and of each it hands on what is
/// unreliable in it, each message once: so no unreliable call is handed over twice.
pub fn unreliable_messages_come_once()
    ensures taken { (entries : List Entry) (p : Player)
        → Falls (taken_of (past_at (table_of entries) AtClient p)) }
    ensures applied { (entries : List Entry) (lines : List Line) (p : Player)
        → ArePlayable entries lines → IsHonestPlayer (table_of entries) lines p
        → AppliesLooseOnce entries p }
{}
