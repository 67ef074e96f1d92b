// What a run does once its last file was read.
ghost use Rattle.std.specs.Prelude.{◌≡◌, IfOk, OnErr, IsErrOf};
ghost use Rattle.net_core.specs.Counts.{WriteCause, WriteShortage};
ghost use Rattle.unet.specs.Causes.{AnswerCause};
ghost use Rattle.transcripts.specs.Takes.{TakesPrefix};
ghost use Rattle.unet.specs.Ends.{EndsWith};
ghost use Rattle.unet.specs.Outcome.{after_read, built_in_outcome};
ghost use Rattle.unet.specs.Statuses.{all_done, IsOfCommand, IsOfFile};
ghost use Rattle.unet.specs.Stopped.{outcome_of_work};

use crate::check::{check, check_built_in};
use crate::replay::{replay, replay_built_in};
use crate::said::{refuse_file, tell};
use crate::show::show_packets;
use class_layout::Classes;
use net_core::{Blob, ReadRefusal, Sink, WriteRefusal};
use protocol_model::Version;
use std::alloc::Global;

/// What is made of the last file that a run reads.
#[derive(Clone, Copy)]
pub enum Work<'a> {
    /// It is a script, to be replayed over this table.
    Replay(&'a Classes),
    /// It is a script, to be replayed over the built-in table.
    ReplayBuiltIn,
    /// It is a class table, to be summed up.
    Check,
    /// It is a file of hex lines, to be shown.
    Show(Version),
}

/// Does the work on what the read of the file `name` answered, and answers the status. A refusal of
/// the outside ends it early. No clause asks that a folder tells what it has: they speak of the
/// bytes that the read answered.
pub fn answer<S: Sink>(
    alloc: Global,
    work: &Work<'_>,
    name: &str,
    read: Result<Blob, ReadRefusal>,
    out: &mut S,
) -> Result<u8, WriteRefusal>
    ensures done { IfOk result (λ status. EndsWith
        (after_read name.now (outcome_of_work work.now) read) status
        (S.taken out.old) (S.taken out.new)) }
    ensures early { OnErr result (TakesPrefix (S.taken out.old) (S.taken out.new)
        (after_read name.now (outcome_of_work work.now) read).text) }

    // What was done has a status of its own.
    ensures status { IfOk result (λ status. IsOfCommand status) }

    // A read that failed ends the run so.
    ensures read_failed { IsErrOf read ReadRefusal.Failed → IsErrOf result WriteRefusal.Failed }
    ensures read_starved { IsErrOf read ReadRefusal.Memory → IsErrOf result WriteRefusal.Memory }

    ensures cause { AnswerCause read (S.faults out.old) (S.faults out.new) result }

    // Want of memory hides no missing file, unless it was the sink's.
    ensures shortage { IsErrOf read ReadRefusal.Missing
        → WriteShortage (S.shortages out.old) (S.shortages out.new) result }
{
    match read {
        Ok(file) => do_work(alloc, work, file.as_slice(), out),
        Err(ReadRefusal::Missing) => refuse_file(name, out),
        Err(ReadRefusal::Failed) => Err(WriteRefusal::Failed),
        Err(ReadRefusal::Memory) => Err(WriteRefusal::Memory),
    }
}

/// Does the work on the file's bytes.
fn do_work<S: Sink>(
    alloc: Global,
    work: &Work<'_>,
    file: &[u8],
    out: &mut S,
) -> Result<u8, WriteRefusal>
    ensures done { IfOk result (λ status. EndsWith (outcome_of_work work.now file.now) status
        (S.taken out.old) (S.taken out.new)) }
    ensures early { OnErr result (TakesPrefix (S.taken out.old) (S.taken out.new)
        (outcome_of_work work.now file.now).text) }
    ensures status { IfOk result (λ status. IsOfFile status) }
    ensures cause { WriteCause (S.faults out.old) (S.faults out.new) result }
{
    match *work {
        Work::Replay(classes) => replay(alloc, classes, file, out),
        Work::ReplayBuiltIn => replay_built_in(alloc, file, out),
        Work::Check => {
            let said = check(alloc, file)?;
            tell(out, &said)
        }
        Work::Show(version) => {
            let said = show_packets(alloc, version, file)?;
            tell(out, &said)
        }
    }
}

/// Says what the built-in table has.
pub fn say_built_in<S: Sink>(alloc: Global, out: &mut S) -> Result<u8, WriteRefusal>
    ensures done { IfOk result (λ status. EndsWith built_in_outcome status
        (S.taken out.old) (S.taken out.new)) }
    ensures early { OnErr result (TakesPrefix (S.taken out.old) (S.taken out.new)
        built_in_outcome.text) }
    ensures status { IfOk result (λ status. status ≡ all_done) }
    ensures cause { WriteCause (S.faults out.old) (S.faults out.new) result }
{
    let said = check_built_in(alloc)?;
    tell(out, &said)
}
