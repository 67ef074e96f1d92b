// From the program's words to its exit status.
ghost use Rattle.std.specs.Prelude.{◌≡◌, ◌≢◌, ◌⊎◌, [], ℕ, List, drop, map, string_bytes, IfOk, IfErr, IsErr, OnErr, Some};
ghost use Rattle.std.specs.Io.KnownBytes.{Keeps};
ghost use Rattle.std.specs.IoError.{error_kind};
ghost use Rattle.std.specs.Process.{exit_status};
ghost use Rattle.std.specs.Vec.Iter.{into_iter_items};
ghost use Rattle.net_core.specs.Folder.{Folder};
ghost use Rattle.unet.specs.Causes.{NoFault, OneFault};
ghost use Rattle.unet.specs.Ends.{Ends};
ghost use Rattle.unet.specs.Outcome.{outcome_of};
ghost use Rattle.unet.specs.Runs.{RunsWords};
ghost use Rattle.unet.specs.Statuses.{no_memory, outside_failed};

use crate::run::run;
use crate::status::NO_MEMORY;
use net_core::{Files, Sink};
use std::alloc::{AllocError, Global};
use std::env::Args;
use std::io;
use std::io::ErrorKind;
use std::process::ExitCode;

/// The words after the program's name. Where one of them is no text there are none, which no run
/// understands.
pub fn words_of(alloc: Global, args: io::Result<Args>) -> Result<Vec<String>, AllocError>
    ensures all { IfOk args (λ args. IfOk result (λ words.
        words.items ≡ drop 1 (into_iter_items args))) }
    ensures no_text { IfErr args (λ error. error_kind error ≢ ErrorKind.OutOfMemory
        → IfOk result (λ words. words.items ≡ [])) }
    ensures memory { IfErr args (λ error. error_kind error ≡ ErrorKind.OutOfMemory → IsErr result) }
{
    match args {
        Ok(mut args) => {
            let _program = args.next();
            collected(alloc, args)
        }
        Err(error) if error.kind() == ErrorKind::OutOfMemory => Err(AllocError),
        Err(_) => Ok(Vec::new(alloc)),
    }
}

/// The words that are left.
fn collected(alloc: Global, mut args: Args) -> Result<Vec<String>, AllocError>
    ensures { IfOk result (λ words. words.items ≡ into_iter_items args) }
{
    let mut words = Vec::new(alloc);
    while let Some(word) = args.next() {
        words.push(word)?;
    }
    Ok(words)
}

/// Runs what the words say, and ends with its status. Without memory for the words nothing is read
/// or written.
pub fn start<F: Files, S: Sink>(
    alloc: Global,
    words: Result<Vec<String>, AllocError>,
    files: &mut F,
    out: &mut S,
) -> ExitCode
    ensures no_words { OnErr words (exit_status result ≡ no_memory) }
    ensures untouched { OnErr words ((files.new ≡ files.old) × (out.new ≡ out.old)) }
    ensures answered { IfOk words (λ words. RunsWords (F.folder files.old)
        (map string_bytes words.items) (exit_status result)
        (S.taken out.old) (S.taken out.new) (F.reads files.old) (F.reads files.new)) }
    ensures outcome { IfOk words (λ words. (folder : Folder) → F.folder files.old ≡ Some folder
        → Ends (outcome_of folder (map string_bytes words.items)) (exit_status result)
        (S.taken out.old) (S.taken out.new)) }
    ensures fault { exit_status result ≡ outside_failed
        → OneFault (F.faults files.old) (S.faults out.old) (F.faults files.new) (S.faults out.new) }
    ensures no_fault { (exit_status result ≡ outside_failed)
        ⊎ NoFault (F.faults files.old) (S.faults out.old) (F.faults files.new) (S.faults out.new) }
{
    match words {
        Ok(words) => ExitCode::from(run(alloc, &words, files, out)),
        Err(_) => ExitCode::from(NO_MEMORY),
    }
}
