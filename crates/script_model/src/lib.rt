// The definitions of a replay's texts: which lines a script has, why a line is refused, and how
// each report of the transcript is written.
//
//     bytes ── pieces ──▶ texts ── spelled_of ──▶ spelled ── refusal_of ──▶ lines, or the first bad
//              at 10               word, fields              first reason   line with its reason
//
//     reports ── report_text ──▶ lines of the transcript
//
// It has definitions, laws about them and no code. It stands on `protocol_model`, and knows nothing
// of what a connection does: what the lines do is said in `replication_model`. It promises that a
// script without bytes is accepted, and `proofs/` computes one refusal for each reason.
//
// A reader of scripts cites it so:
//
//     pub fn read(table: &Table, script: &[u8]) -> Result<Lines, ScriptRefusal>
//         ensures lines { OnOk result (λ lines. Reads table false script.entry lines) }
//         ensures refused { OnErr result (λ bad. BadLine table false script.entry bad.line bad.why) }
#![tactic(auto)]

ghost use Rattle.std.specs.Prelude.{◌≡◌, [], Bool, Ok};
ghost use Rattle.protocol_model.specs.Value.{Table};
ghost use Rattle.script_model.specs.ScriptRules.{script_of};

/// A script without bytes is accepted, and has no lines.
pub fn empty_script()
    ensures { (table : Table) (live : Bool) → script_of table live [] ≡ Ok [] }
{}
