// A text that is written whole, and the status with which the run ends then.
ghost use Rattle.std.specs.Prelude.{◌≡◌, IfOk, OnErr};
ghost use Rattle.net_core.specs.Counts.{WriteCause, WriteShortage};
ghost use Rattle.transcripts.specs.Takes.{TakesPrefix};
ghost use Rattle.unet.specs.Ends.{EndsWith};
ghost use Rattle.unet.specs.Outcome.{file_missing, table_refused};
ghost use Rattle.unet.specs.Said.{said_of};

use crate::status::{BAD_TABLE, NO_FILE};
use net_core::{Memory, Sink, WriteRefusal, write_all};
use std::alloc::Global;
use table_text::{Place, TableWhy, refused_text};

/// A status, and all that is written with it.
#[derive(Debug, Drop)]
pub struct Said {
    pub status: u8,
    pub text: String,
}

/// Hands the text to the sink, and answers the status.
pub fn tell<S: Sink>(out: &mut S, said: &Said) -> Result<u8, WriteRefusal>
    ensures done { IfOk result (λ status. EndsWith (said_of said.now) status
        (S.taken out.old) (S.taken out.new)) }
    ensures early { OnErr result (TakesPrefix (S.taken out.old) (S.taken out.new)
        (said_of said.now).text) }
    ensures cause { WriteCause (S.faults out.old) (S.faults out.new) result }
{
    write_all(out, said.text.as_bytes())?;
    Ok(said.status)
}

/// Says that there is no file of that name, which takes no memory.
pub fn refuse_file<S: Sink>(name: &str, out: &mut S) -> Result<u8, WriteRefusal>
    ensures done { IfOk result (λ status. EndsWith (file_missing name.now) status
        (S.taken out.old) (S.taken out.new)) }
    ensures early { OnErr result (TakesPrefix (S.taken out.old) (S.taken out.new)
        (file_missing name.now).text) }
    ensures cause { WriteCause (S.faults out.old) (S.faults out.new) result }
    ensures shortage { WriteShortage (S.shortages out.old) (S.shortages out.new) result }
{
    write_all(out, b"unet: no file ")?;
    write_all(out, name.as_bytes())?;
    write_all(out, b"\n")?;
    Ok(NO_FILE)
}

/// What is said of a table that breaks a rule.
pub fn refused_table(alloc: Global, place: Place, why: TableWhy) -> Result<Said, Memory>
    ensures { IfOk result (λ said. said_of said ≡ table_refused place why) }
{
    Ok(Said {
        status: BAD_TABLE,
        text: refused_text(alloc, place, why)?,
    })
}
