// The summary of a class table.
ghost use Rattle.std.specs.Prelude.{◌≡◌, IfOk};
ghost use Rattle.unet.specs.Outcome.{outcome_of_table, built_in_outcome};
ghost use Rattle.unet.specs.Said.{said_of};

use crate::said::{Said, refused_table};
use crate::status::ALL_DONE;
use class_layout::{Classes, TableRefusal};
use net_core::Memory;
use std::alloc::Global;
use table_text::check_text;

/// What is said of a table's file.
pub fn check(alloc: Global, file: &[u8]) -> Result<Said, Memory>
    ensures { IfOk result (λ said. said_of said ≡ outcome_of_table file.now) }
{
    match Classes::read(alloc, file) {
        Ok(classes) => Ok(Said {
            status: ALL_DONE,
            text: check_text(alloc, &classes)?,
        }),
        Err(TableRefusal::BadTable { place, why }) => refused_table(alloc, place, why),
        Err(TableRefusal::Memory) => Err(Memory),
    }
}

/// What is said of the built-in table.
pub fn check_built_in(alloc: Global) -> Result<Said, Memory>
    ensures { IfOk result (λ said. said_of said ≡ built_in_outcome) }
{
    let classes = Classes::builtin(alloc)?;
    Ok(Said {
        status: ALL_DONE,
        text: check_text(alloc, &classes)?,
    })
}
