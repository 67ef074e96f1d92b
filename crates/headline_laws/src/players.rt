// What is so of each player of whom no datagram was forged, after any lines over an accepted table
// whose edits are accepted. Nothing else is taken for granted.
ghost use Rattle.std.specs.Prelude.{◌≡◌, ℕ, List};
ghost use Rattle.script_model.specs.Lines.{Line};
ghost use Rattle.replication_model.specs.Headline.{IsHonest, HandsOverPrefixes};
ghost use Rattle.replication_model.specs.Story.{Player};
ghost use Rattle.table_model.specs.Rules.{Entry};
ghost use Rattle.table_model.specs.Grammar.{table_of};
ghost use Rattle.connection_laws.specs.Honest.{IsHonestPlayer};
ghost use Rattle.headline_laws.specs.Fair.{HasFairVerdicts};
ghost use Rattle.headline_laws.specs.Follows.{PlayerFollows};
ghost use Rattle.headline_laws.specs.Players.{ArePlayable};

/// The client follows the server: on each channel a prefix of the messages made was handed on, each
/// as it was made, and the copies are those that these messages leave.
pub fn clients_follow_their_server()
    ensures { (entries : List Entry) (lines : List Line) (p : Player) → ArePlayable entries lines
        → IsHonestPlayer (table_of entries) lines p → PlayerFollows entries lines p }
{}

/// In both directions and on each channel, the reliable calls handed over are a prefix of those
/// queued, each once.
pub fn calls_are_handed_over_as_prefixes()
    ensures { (entries : List Entry) (lines : List Line) (p : Player) → ArePlayable entries lines
        → IsHonestPlayer (table_of entries) lines p → HandsOverPrefixes (table_of entries) p }
{}

/// No datagram of the player is answered as malformed, nor closes an end, at either side.
pub fn honest_verdicts_are_fair()
    ensures { (entries : List Entry) (lines : List Line) (player : ℕ)
        → ArePlayable entries lines → IsHonest lines player
        → HasFairVerdicts (table_of entries) lines player }
{}
