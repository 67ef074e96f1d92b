// What a run does: the words, then what they ask for.
ghost use Rattle.std.specs.Prelude.{◌≡◌, ◌⊎◌, map, string_bytes, Some, None};
ghost use Rattle.script_model.specs.Lines.{Text};
ghost use Rattle.replication_model.specs.Headline.{Holds};
ghost use Rattle.isolation_laws.specs.Told.{ServesEachAlone};
ghost use Rattle.program_model.specs.Words.{Replay, command_of};
ghost use Rattle.net_core.specs.Counts.{Rose};
ghost use Rattle.net_core.specs.Folder.{Folder};
ghost use Rattle.unet.specs.Causes.{NoFault, OneFault};
ghost use Rattle.unet.specs.Ends.{Ends};
ghost use Rattle.unet.specs.Headline.{KeepsThroughout};
ghost use Rattle.unet.specs.Outcome.{outcome_of, words_refused};
ghost use Rattle.unet.specs.Runs.{RunsWords, TakesTranscript, LacksFirst};
ghost use Rattle.unet.specs.Statuses.{all_done, words_unknown, outside_failed, no_memory, IsEarly, IsStatus, status_of};

use crate::command::do_command;
use crate::status::{NO_MEMORY, OUTSIDE_FAILED, WORDS_UNKNOWN};
use crate::words::command_of;
use net_core::{Files, Sink, WriteRefusal, write_all};
use std::alloc::Global;

/// Does what the words say, and answers the status: one of those of `specs/Statuses`.
///
/// Words that aren't understood, a missing file, a refused class table, and a script or a file of
/// packets with a bad line write one line that says so, and nothing else. Where a read or a write
/// failed, or there was no memory, a prefix of what would have been written was.
pub fn run<F: Files, S: Sink>(alloc: Global, words: &[String], files: &mut F, out: &mut S) -> u8
    ensures statuses { IsStatus result }

    // The run ends as the definition says of what its reads answered, told folder or not, and the
    // files are read in turn: each once, none for words that aren't understood, and no script where
    // the table is refused.
    ensures answered { RunsWords (F.folder files.old) (map string_bytes words.now) result
        (S.taken out.old) (S.taken out.new) (F.reads files.old) (F.reads files.new) }

    // Where the folder is told, the run ends as the definition says of it.
    ensures outcome { (folder : Folder) → F.folder files.old ≡ Some folder
        → Ends (outcome_of folder (map string_bytes words.now))
        result (S.taken out.old) (S.taken out.new) }

    // So each status comes exactly where the definition has it, or the run ended early.
    ensures status { (folder : Folder) → F.folder files.old ≡ Some folder
        → (result ≡ (outcome_of folder (map string_bytes words.now)).status) ⊎ IsEarly result }

    // A replay's output is the transcript of its script over its table.
    ensures transcript { (classes script : Text)
        → command_of (map string_bytes words.now) ≡ Some (Replay classes script)
        → result ≡ all_done
        → (folder : Folder) → F.folder files.old ≡ Some folder
        → TakesTranscript folder classes script (S.taken out.old) (S.taken out.new) }

    // The headline, after each line of the script: reliable calls are handed over as a prefix of those
    // queued, and each settled actor's copy is the actor as its player sees it.
    ensures headline { (classes script : Text)
        → command_of (map string_bytes words.now) ≡ Some (Replay classes script)
        → result ≡ all_done
        → (folder : Folder) → F.folder files.old ≡ Some folder
        → KeepsThroughout Holds folder classes script (S.taken out.old) (S.taken out.new) }

    // And each connection is served as if it were alone: its packets are those of a server that hears
    // its feed and nothing else, which holds what the player may see.
    ensures isolation { (classes script : Text)
        → command_of (map string_bytes words.now) ≡ Some (Replay classes script)
        → result ≡ all_done
        → (folder : Folder) → F.folder files.old ≡ Some folder
        → KeepsThroughout ServesEachAlone folder classes script (S.taken out.old)
        (S.taken out.new) }

    // The words alone decide whether they are understood.
    ensures words_refused { result ≡ words_unknown
        → command_of (map string_bytes words.now) ≡ None }
    ensures words_first { command_of (map string_bytes words.now) ≡ None
        → (result ≡ words_unknown) ⊎ IsEarly result }

    // Want of memory hides neither unknown words nor a missing file, where it is the first that is
    // read, unless it was the sink's.
    ensures words_memory { command_of (map string_bytes words.now) ≡ None → result ≡ no_memory
        → Rose (S.shortages out.old) (S.shortages out.new) }
    ensures file_memory { (folder : Folder) → F.folder files.old ≡ Some folder
        → LacksFirst folder (command_of (map string_bytes words.now)) → result ≡ no_memory
        → Rose (S.shortages out.old) (S.shortages out.new) }

    ensures fault { result ≡ outside_failed
        → OneFault (F.faults files.old) (S.faults out.old) (F.faults files.new) (S.faults out.new) }
    ensures no_fault { (result ≡ outside_failed)
        ⊎ NoFault (F.faults files.old) (S.faults out.old) (F.faults files.new) (S.faults out.new) }

    ensures folder { F.folder files.new ≡ F.folder files.old }
{
    match command_of(words) {
        Some(command) => status_of(do_command(alloc, &command, files, out)),
        None => refuse_words(out),
    }
}

/// The status with which a run ends: that of what was done, or of the outside's refusal.
fn status_of(done: Result<u8, WriteRefusal>) -> u8
    ensures { result ≡ status_of done }
{
    match done {
        Ok(status) => status,
        Err(WriteRefusal::Failed) => OUTSIDE_FAILED,
        Err(WriteRefusal::Memory) => NO_MEMORY,
    }
}

/// Says that the words aren't understood, which takes no memory.
fn refuse_words<S: Sink>(out: &mut S) -> u8
    ensures ended { Ends words_refused result (S.taken out.old) (S.taken out.new) }
    ensures statuses { (result ≡ words_unknown) ⊎ IsEarly result }
    ensures memory { result ≡ no_memory → Rose (S.shortages out.old) (S.shortages out.new) }
    ensures fault { result ≡ outside_failed → Rose (S.faults out.old) (S.faults out.new) }
    ensures no_fault { (result ≡ outside_failed) ⊎ (S.faults out.new ≡ S.faults out.old) }
{
    match write_all(out, b"unet: words not understood\n") {
        Ok(()) => WORDS_UNKNOWN,
        Err(WriteRefusal::Failed) => OUTSIDE_FAILED,
        Err(WriteRefusal::Memory) => NO_MEMORY,
    }
}
