// Why a class table is refused.
ghost use Rattle.std.specs.Prelude.{◌≡◌, true, false, OnOk, IfErr};
ghost use Rattle.class_members.specs.Agreement.{refusal_at};

use net_core::Memory as NoMemory;
use table_model::{Place, TableWhy};
use thiserror::Error;

/// Why a class table isn't read.
#[derive(Clone, Copy, Debug, PartialEq, Eq, Error)]
pub enum TableRefusal {
    /// The first rule that the file breaks, and where. The file is looked at from left to right.
    #[error("class table refused at {place}: {why:?}")]
    BadTable { place: Place, why: TableWhy },
    /// There was no memory for the table.
    #[error("no memory for the class table")]
    Memory,
}

/// Why one object of a table isn't taken.
#[derive(Clone, Copy, Debug, Error)]
pub enum Fault {
    /// The first rule that the object breaks.
    #[error("{0:?}")]
    Broken(TableWhy),
    /// There was no memory for what the object tells.
    #[error("no memory for the class table")]
    Memory,
}

impl From<TableWhy> for Fault {
    ghost use Rattle.std.specs.Prelude.{◌≡◌};
    ghost use Rattle.class_members.specs.declared.refusal.Fault.TheVariants.{Broken};

    ghost from_gives = { λ why e. e ≡ Broken why };

    fn from(why: TableWhy) -> Fault {
        Fault::Broken(why)
    }
}

impl From<NoMemory> for Fault {
    ghost use Rattle.std.specs.Prelude.{◌≡◌};
    ghost use Rattle.class_members.specs.declared.refusal.Fault.TheVariants.{Memory};

    ghost from_gives = { λ _ e. e ≡ Memory };

    fn from(_refused: NoMemory) -> Fault {
        Fault::Memory
    }
}

/// The rule holds, or this is why not.
pub fn must(holds: bool, why: TableWhy) -> Result<(), Fault>
    ensures holds { OnOk result (holds ≡ true) }
    ensures broken { IfErr result (λ fault. (holds ≡ false) × (fault ≡ Fault.Broken why)) }
{
    if holds {
        Ok(())
    } else {
        Err(Fault::Broken(why))
    }
}

impl Fault {
    /// The refusal of a table in which this fault stands at that place.
    pub fn at(self, place: Place) -> TableRefusal
        ensures { result ≡ refusal_at place self }
    {
        match self {
            Fault::Broken(why) => TableRefusal::BadTable { place, why },
            Fault::Memory => TableRefusal::Memory,
        }
    }
}

impl From<NoMemory> for TableRefusal {
    ghost use Rattle.std.specs.Prelude.{◌≡◌};
    ghost use Rattle.class_members.specs.declared.refusal.TableRefusal.TheVariants.{Memory};

    ghost from_gives = { λ _ e. e ≡ Memory };

    fn from(_refused: NoMemory) -> TableRefusal {
        TableRefusal::Memory
    }
}
