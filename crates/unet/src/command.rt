// What a run does of its command: it reads the files that the command names, and answers for them.
ghost use Rattle.std.specs.Prelude.{◌≡◌, false, None, Some, IfOk, IsErrOf};
ghost use Rattle.program_model.specs.Words.{Check, Replay, Sample, Show, is_built_in};
ghost use Rattle.net_core.specs.Counts.{Rose};
ghost use Rattle.net_core.specs.Folder.{Folder, contents_of};
ghost use Rattle.class_layout.specs.Tables.{table_in};
ghost use Rattle.unet.specs.Causes.{FaultOf};
ghost use Rattle.unet.specs.Runs.{Runs, RunsOver, LacksFirst};
ghost use Rattle.unet.specs.Statuses.{IsOfCommand};
ghost use Rattle.unet.specs.Words.{command_in};

use crate::answer::{Work, answer, say_built_in};
use crate::sample::say_sample;
use crate::table::{table_of, tell_stop};
use crate::words::{Command, is_built_in};
use class_layout::Classes;
use net_core::{Files, Sink, WriteRefusal};
use protocol_model::Version;
use std::alloc::Global;

/// Does what a command asks for. A refusal of the outside ends it early.
pub fn do_command<F: Files, S: Sink>(
    alloc: Global,
    command: &Command<'_>,
    files: &mut F,
    out: &mut S,
) -> Result<u8, WriteRefusal>
    ensures runs { Runs (F.folder files.old) (command_in command.now) result
        (S.taken out.old) (S.taken out.new) (F.reads files.old) (F.reads files.new) }
    ensures status { IfOk result (λ status. IsOfCommand status) }
    ensures cause { FaultOf (F.faults files.old) (S.faults out.old)
        (F.faults files.new) (S.faults out.new) result }
    ensures memory { (folder : Folder) → F.folder files.old ≡ Some folder
        → LacksFirst folder (Some (command_in command.now)) → IsErrOf result WriteRefusal.Memory
        → Rose (S.shortages out.old) (S.shortages out.new) }
    ensures folder { F.folder files.new ≡ F.folder files.old }
{
    match *command {
        Command::Replay { classes, script } => replay(alloc, classes, script, files, out),
        Command::Check { classes } => check(alloc, classes, files, out),
        Command::Show { version, file } => show(alloc, version, file, files, out),
        Command::Sample { ticks } => sample(alloc, ticks, files, out),
    }
}

/// Shows the packets of a file.
fn show<F: Files, S: Sink>(
    alloc: Global,
    version: Version,
    name: &str,
    files: &mut F,
    out: &mut S,
) -> Result<u8, WriteRefusal>
    ensures runs { Runs (F.folder files.old) (Show version name.now) result
        (S.taken out.old) (S.taken out.new) (F.reads files.old) (F.reads files.new) }
    ensures status { IfOk result (λ status. IsOfCommand status) }
    ensures cause { FaultOf (F.faults files.old) (S.faults out.old)
        (F.faults files.new) (S.faults out.new) result }
    ensures memory { (folder : Folder) → F.folder files.old ≡ Some folder
        → contents_of folder name.now ≡ None → IsErrOf result WriteRefusal.Memory
        → Rose (S.shortages out.old) (S.shortages out.new) }
    ensures folder { F.folder files.new ≡ F.folder files.old }
{
    let read = files.read(name);
    answer(alloc, &Work::Show(version), name, read, out)
}

/// Sums up a sample, which reads no file.
fn sample<F: Files, S: Sink>(
    alloc: Global,
    ticks: u32,
    files: &mut F,
    out: &mut S,
) -> Result<u8, WriteRefusal>
    ensures runs { Runs (F.folder files.old) (Sample ticks) result
        (S.taken out.old) (S.taken out.new) (F.reads files.old) (F.reads files.new) }
    ensures status { IfOk result (λ status. IsOfCommand status) }
    ensures cause { FaultOf (F.faults files.old) (S.faults out.old)
        (F.faults files.new) (S.faults out.new) result }
    ensures folder { F.folder files.new ≡ F.folder files.old }
{
    say_sample(alloc, ticks, out)
}

/// Sums up a class table.
fn check<F: Files, S: Sink>(
    alloc: Global,
    name: &str,
    files: &mut F,
    out: &mut S,
) -> Result<u8, WriteRefusal>
    ensures runs { Runs (F.folder files.old) (Check name.now) result
        (S.taken out.old) (S.taken out.new) (F.reads files.old) (F.reads files.new) }
    ensures status { IfOk result (λ status. IsOfCommand status) }
    ensures cause { FaultOf (F.faults files.old) (S.faults out.old)
        (F.faults files.new) (S.faults out.new) result }
    ensures memory { (folder : Folder) → F.folder files.old ≡ Some folder
        → is_built_in name.now ≡ false → contents_of folder name.now ≡ None
        → IsErrOf result WriteRefusal.Memory
        → Rose (S.shortages out.old) (S.shortages out.new) }
    ensures folder { F.folder files.new ≡ F.folder files.old }
{
    if is_built_in(name) {
        return say_built_in(alloc, out);
    }
    let read = files.read(name);
    answer(alloc, &Work::Check, name, read, out)
}

/// Replays a script. Over the built-in table the script is read first, so that want of memory hides
/// no missing one.
fn replay<F: Files, S: Sink>(
    alloc: Global,
    classes: &str,
    script: &str,
    files: &mut F,
    out: &mut S,
) -> Result<u8, WriteRefusal>
    ensures runs { Runs (F.folder files.old) (Replay classes.now script.now) result
        (S.taken out.old) (S.taken out.new) (F.reads files.old) (F.reads files.new) }
    ensures status { IfOk result (λ status. IsOfCommand status) }
    ensures cause { FaultOf (F.faults files.old) (S.faults out.old)
        (F.faults files.new) (S.faults out.new) result }
    ensures memory { (folder : Folder) → F.folder files.old ≡ Some folder
        → LacksFirst folder (Some (Replay classes.now script.now))
        → IsErrOf result WriteRefusal.Memory
        → Rose (S.shortages out.old) (S.shortages out.new) }
    ensures folder { F.folder files.new ≡ F.folder files.old }
{
    if is_built_in(classes) {
        let read = files.read(script);
        return answer(alloc, &Work::ReplayBuiltIn, script, read, out);
    }
    let read = files.read(classes);
    match table_of(alloc, read) {
        Ok(table) => replay_over(alloc, &table, script, files, out),
        Err(stop) => tell_stop(alloc, classes, stop, out),
    }
}

/// Replays a script over a table that was read.
fn replay_over<F: Files, S: Sink>(
    alloc: Global,
    table: &Classes,
    script: &str,
    files: &mut F,
    out: &mut S,
) -> Result<u8, WriteRefusal>
    ensures runs { RunsOver (F.folder files.old) (table_in table.now) script.now result
        (S.taken out.old) (S.taken out.new) (F.reads files.old) (F.reads files.new) }
    ensures status { IfOk result (λ status. IsOfCommand status) }
    ensures cause { FaultOf (F.faults files.old) (S.faults out.old)
        (F.faults files.new) (S.faults out.new) result }
    ensures folder { F.folder files.new ≡ F.folder files.old }
{
    let read = files.read(script);
    answer(alloc, &Work::Replay(table), script, read, out)
}
