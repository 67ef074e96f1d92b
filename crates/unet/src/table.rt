// The class table of a run.
ghost use Rattle.std.specs.Prelude.{◌≡◌, ℕ, List, IfOk, IfErr, OnErr, IsErrOf, Ok};
ghost use Rattle.protocol_model.specs.Value.{Table};
ghost use Rattle.table_model.specs.Grammar as grammar;
ghost use Rattle.class_layout.specs.Tables.{table_in};
ghost use Rattle.net_core.specs.Counts.{WriteCause, WriteShortage};
ghost use Rattle.unet.specs.Causes.{AnswerCause};
ghost use Rattle.transcripts.specs.Takes.{TakesPrefix};
ghost use Rattle.unet.specs.Ends.{EndsAs, EndsWith};
ghost use Rattle.unet.specs.Outcome.{Outcome, ReadAnswer, after_read, table_refused, with_table};
ghost use Rattle.unet.specs.Statuses.{IsOfCommand};
ghost use Rattle.unet.specs.Stopped.{StopsAt};

use crate::said::{refuse_file, refused_table, tell};
use class_layout::{Classes, TableRefusal};
use net_core::{Blob, ReadRefusal, Sink, WriteRefusal};
use std::alloc::Global;
use table_text::{Place, TableWhy};

/// Why a table's file gives no table.
#[derive(Clone, Copy, Debug)]
pub enum Stop {
    /// There is no such file.
    Missing,
    /// The first rule that it breaks, and where.
    Refused { place: Place, why: TableWhy },
    /// The read failed.
    Failed,
    /// There was no memory.
    Memory,
}

/// The table of the bytes that a read answered.
pub fn table_of(alloc: Global, read: Result<Blob, ReadRefusal>) -> Result<Classes, Stop>
    ensures table { IfOk result (λ classes. (file : List ℕ) × (read ≡ Ok file)
        × (grammar.table_in file ≡ Ok (table_in classes))) }
    ensures stop { IfErr result (λ stop. StopsAt stop read) }
{
    match read {
        Ok(file) => accepted(alloc, file.as_slice()),
        Err(ReadRefusal::Missing) => Err(Stop::Missing),
        Err(ReadRefusal::Failed) => Err(Stop::Failed),
        Err(ReadRefusal::Memory) => Err(Stop::Memory),
    }
}

/// The table of these bytes.
fn accepted(alloc: Global, file: &[u8]) -> Result<Classes, Stop>
    ensures table { IfOk result (λ classes.
        grammar.table_in file.now ≡ Ok (table_in classes)) }
    ensures stop { IfErr result (λ stop. StopsAt stop (Ok file.now)) }
{
    match Classes::read(alloc, file) {
        Ok(classes) => Ok(classes),
        Err(TableRefusal::BadTable { place, why }) => Err(Stop::Refused { place, why }),
        Err(TableRefusal::Memory) => Err(Stop::Memory),
    }
}

/// Says why there is no table.
pub fn tell_stop<S: Sink>(
    alloc: Global,
    name: &str,
    stop: Stop,
    out: &mut S,
) -> Result<u8, WriteRefusal>
    ensures ends { (next : Table → Outcome) (read : ReadAnswer) → StopsAt stop read
        → EndsAs (after_read name.now (with_table next) read) result
        (S.taken out.old) (S.taken out.new) }
    ensures cause { (read : ReadAnswer) → StopsAt stop read
        → AnswerCause read (S.faults out.old) (S.faults out.new) result }
    ensures status { IfOk result (λ status. IsOfCommand status) }
    ensures failed { stop ≡ Stop.Failed → IsErrOf result WriteRefusal.Failed }
    ensures shortage { stop ≡ Stop.Missing
        → WriteShortage (S.shortages out.old) (S.shortages out.new) result }
{
    match stop {
        Stop::Missing => refuse_file(name, out),
        Stop::Refused { place, why } => refuse_table(alloc, place, why, out),
        Stop::Failed => Err(WriteRefusal::Failed),
        Stop::Memory => Err(WriteRefusal::Memory),
    }
}

/// Says which rule of a table is broken, and where.
fn refuse_table<S: Sink>(
    alloc: Global,
    place: Place,
    why: TableWhy,
    out: &mut S,
) -> Result<u8, WriteRefusal>
    ensures done { IfOk result (λ status. EndsWith (table_refused place why) status
        (S.taken out.old) (S.taken out.new)) }
    ensures early { OnErr result (TakesPrefix (S.taken out.old) (S.taken out.new)
        (table_refused place why).text) }
    ensures cause { WriteCause (S.faults out.old) (S.faults out.new) result }
{
    let said = refused_table(alloc, place, why)?;
    tell(out, &said)
}
