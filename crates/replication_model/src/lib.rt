// The definitions of both ends: what a server and its players' clients do over a script's lines,
// the transcript of it, and what is promised of settled actors and reliable calls.
//
//     script ── lines ──▶ story ────────────────────▶ reports ──▶ transcript
//                         edits of the world
//                         of each player:
//                           server's feed ─ past_of ─▶ packets ─┐  delivered by lines,
//                           client's feed ─ past_of ─▶ packets ─┘  lost, late or forged
//
// It has definitions, laws about them and no code. It stands on `connection_model` for each end and
// on `script_model` for lines and texts. `proofs/` has worked scripts whose whole transcripts the
// checker computes; the expected texts were compared with an independent program.
//
// It promises that nothing happened before the first line, and that a delivery that loses none
// delivers each. What it says of settled actors and of calls (`Headline`) is a statement: it is not
// proved here.
//
// A program that replays scripts cites it so:
//
//     pub fn replay(script: &[u8], out: &mut Vec<u8>) -> Result<(), ReplayError>
//         ensures transcript {
//             OnOk result (replay_of table script.entry ≡ Ok out.new)
//         }
#![tactic(auto)]

ghost use Rattle.std.specs.Prelude.{◌≡◌, [], ℕ, true};
ghost use Rattle.protocol_model.specs.Side.{Side};
ghost use Rattle.protocol_model.specs.Value.{Table};
ghost use Rattle.script_model.specs.Lines.{Line};
ghost use Rattle.replication_model.specs.Story.{feed_after, is_kept, story_of, first_story};

/// Before the first line nothing was told, and no end of any player heard anything.
pub fn before_all_lines()
    ensures story { (table : Table) → (story_of table []).0 ≡ first_story }
    ensures reports { (table : Table) → (story_of table []).1 ≡ [] }
    ensures feeds { (table : Table) (side : Side) (player : ℕ)
        → feed_after table [] side player ≡ [] }
{}

/// A delivery of new packets that loses none delivers each.
pub fn no_loss_keeps_all()
    ensures { (number : ℕ) → is_kept 0 number ≡ true }
{}
