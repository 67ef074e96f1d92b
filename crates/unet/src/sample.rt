// The summary of a sample.
ghost use Rattle.std.specs.Prelude.{◌≡◌, IfOk, OnErr};
ghost use Rattle.class_layout.specs.Tables.{table_in};
ghost use Rattle.net_core.specs.Counts.{WriteCause};
ghost use Rattle.transcripts.specs.Takes.{TakesPrefix};
ghost use Rattle.unet.specs.Ends.{EndsWith};
ghost use Rattle.unet.specs.Outcome.{outcome_of_sample, outcome_of_summary};
ghost use Rattle.unet.specs.Said.{said_of};
ghost use Rattle.unet.specs.Statuses.{IsOfFile};

use crate::replay::refused_script;
use crate::said::{Said, tell};
use crate::status::ALL_DONE;
use class_layout::Classes;
use net_core::{Memory, Sink, WriteRefusal};
use sample_script::sample_script;
use sample_summary::summary;
use script_reading::{ScriptRefusal, read_script};
use std::alloc::Global;

/// Says the summary of a sample of so many ticks.
pub fn say_sample<S: Sink>(alloc: Global, ticks: u32, out: &mut S) -> Result<u8, WriteRefusal>
    ensures done { IfOk result (λ status. EndsWith (outcome_of_sample ticks) status
        (S.taken out.old) (S.taken out.new)) }
    ensures early { OnErr result (TakesPrefix (S.taken out.old) (S.taken out.new)
        (outcome_of_sample ticks).text) }
    ensures status { IfOk result (λ status. IsOfFile status) }
    ensures cause { WriteCause (S.faults out.old) (S.faults out.new) result }
{
    let said = sample(alloc, ticks)?;
    tell(out, &said)
}

/// What is said of a sample of so many ticks.
fn sample(alloc: Global, ticks: u32) -> Result<Said, Memory>
    ensures { IfOk result (λ said. said_of said ≡ outcome_of_sample ticks) }
{
    let classes = Classes::builtin(alloc)?;
    let script = sample_script(alloc, ticks as u64)?;
    let said = sum_up(alloc, &classes, ticks, script.as_bytes())?;
    Ok(said)
}

/// What is said of a script as that of a sample of so many ticks.
fn sum_up(alloc: Global, classes: &Classes, ticks: u32, script: &[u8]) -> Result<Said, Memory>
    ensures { IfOk result (λ said. said_of said
        ≡ outcome_of_summary ticks (table_in classes.now) script.now) }
{
    match read_script(alloc, script, classes, false) {
        Ok(lines) => {
            let text = summary(alloc, classes, ticks, lines.as_slice())?;
            Ok(Said {
                status: ALL_DONE,
                text,
            })
        }
        Err(ScriptRefusal::BadLine { line, why }) => refused_script(alloc, line, why),
        Err(ScriptRefusal::Memory) => Err(Memory),
    }
}
