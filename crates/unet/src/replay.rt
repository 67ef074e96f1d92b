// A script that is read whole, and then replayed.
ghost use Rattle.std.specs.Prelude.{◌≡◌, IfOk, OnErr};
ghost use Rattle.protocol_model.specs.BuiltIn.{built_in_table};
ghost use Rattle.program_model.specs.Refused.{line_word};
ghost use Rattle.class_layout.specs.Tables.{table_in};
ghost use Rattle.net_core.specs.Counts.{WriteCause};
ghost use Rattle.transcripts.specs.Takes.{TakesPrefix};
ghost use Rattle.unet.specs.Ends.{EndsWith};
ghost use Rattle.unet.specs.Outcome.{outcome_of_script, script_refused};
ghost use Rattle.unet.specs.Said.{said_of};

use crate::said::{Said, tell};
use crate::status::{ALL_DONE, BAD_SCRIPT};
use class_layout::Classes;
use net_core::{Memory, Sink, WriteRefusal};
use protocol_model::LineWhy;
use script_reading::{ScriptRefusal, read_script};
use std::alloc::Global;
use transcripts::play;

/// Replays the script over the built-in table.
pub fn replay_built_in<S: Sink>(
    alloc: Global,
    script: &[u8],
    out: &mut S,
) -> Result<u8, WriteRefusal>
    ensures done { IfOk result (λ status. EndsWith (outcome_of_script built_in_table script.now)
        status (S.taken out.old) (S.taken out.new)) }
    ensures early { OnErr result (TakesPrefix (S.taken out.old) (S.taken out.new)
        (outcome_of_script built_in_table script.now).text) }
    ensures cause { WriteCause (S.faults out.old) (S.faults out.new) result }
{
    match Classes::builtin(alloc) {
        Ok(classes) => replay(alloc, &classes, script, out),
        Err(_) => Err(WriteRefusal::Memory),
    }
}

/// Reads the script whole, and then replays it; or says which line is refused.
pub fn replay<S: Sink>(
    alloc: Global,
    classes: &Classes,
    script: &[u8],
    out: &mut S,
) -> Result<u8, WriteRefusal>
    ensures done { IfOk result (λ status. EndsWith
        (outcome_of_script (table_in classes.now) script.now) status
        (S.taken out.old) (S.taken out.new)) }
    ensures early { OnErr result (TakesPrefix (S.taken out.old) (S.taken out.new)
        (outcome_of_script (table_in classes.now) script.now).text) }
    ensures cause { WriteCause (S.faults out.old) (S.faults out.new) result }
{
    match read_script(alloc, script, classes, false) {
        Ok(lines) => {
            play(alloc, classes, lines.as_slice(), out)?;
            Ok(ALL_DONE)
        }
        Err(ScriptRefusal::BadLine { line, why }) => {
            let said = refused_script(alloc, line, why)?;
            tell(out, &said)
        }
        Err(ScriptRefusal::Memory) => Err(WriteRefusal::Memory),
    }
}

/// What is said of a script whose line of this number is refused.
pub fn refused_script(alloc: Global, line: usize, why: LineWhy) -> Result<Said, Memory>
    ensures { IfOk result (λ said. said_of said ≡ script_refused line why) }
{
    let why = why_word(why);
    let text = format!(in alloc; "unet: script refused at line {line}: {why}\n")?;
    Ok(Said {
        status: BAD_SCRIPT,
        text,
    })
}

/// The name of the reason.
fn why_word(why: LineWhy) -> &'static str
    ensures { result.now ≡ line_word why }
{
    match why {
        LineWhy::TooLong => "TooLong",
        LineWhy::NotText => "NotText",
        LineWhy::Shape => "Shape",
        LineWhy::Place => "Place",
        LineWhy::Range => "Range",
        LineWhy::NoPlayer => "NoPlayer",
        LineWhy::Taken => "Taken",
        LineWhy::NoClass => "NoClass",
        LineWhy::NoActor => "NoActor",
        LineWhy::NoName => "NoName",
        LineWhy::Kind => "Kind",
        LineWhy::Value => "Value",
        LineWhy::Full => "Full",
    }
}
