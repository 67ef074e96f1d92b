// The trait through which a program reads files.
ghost use Rattle.std.specs.Prelude.{◌≡◌, ℕ, Option, IfOk, IsErrOf};
ghost use Rattle.net_core.specs.Counts.{ReadCause, Rose};
ghost use Rattle.net_core.specs.Folder.{Folder, Gives, Has, Lacks};

use bit_io::{Blob, Memory};
use thiserror::Error;

/// Why a file was not read.
#[derive(Clone, Copy, Debug, PartialEq, Eq, Error)]
pub enum ReadRefusal {
    /// There is no file of that name.
    #[error("there is no such file")]
    Missing,
    /// The outside failed, and the count of faults rose by one.
    #[error("the file could not be read")]
    Failed,
    /// There was no memory for the contents.
    #[error("there was no memory for the file")]
    Memory,
}

impl From<Memory> for ReadRefusal {
    ghost use Rattle.std.specs.Prelude.{◌≡◌};
    ghost use Rattle.net_core.specs.declared.outside.files.ReadRefusal.TheVariants as read;

    ghost from_gives = { λ _ e. e ≡ read.Memory };

    fn from(_memory: Memory) -> ReadRefusal {
        ReadRefusal::Memory
    }
}

/// Files that are read by name.
pub trait Files {
    /// The folder, where it is told.
    ghost folder: { Self → Option Folder };

    /// How many reads there were. One kept in a `u64` stays at the greatest value.
    ghost reads: { Self → ℕ };

    /// How many reads have failed. One kept in a `u64` stays at the greatest value.
    ghost faults: { Self → ℕ };

    /// The contents of the first file of that name. `Missing` comes exactly where a told folder has
    /// none, so want of memory hides no missing file. `Failed` comes exactly where the count of
    /// faults rose, by one; every other answer leaves it.
    fn read(&mut self, name: &str) -> Result<Blob, ReadRefusal>
        ensures folder { folder self.new ≡ folder self.old }
        ensures found { IfOk result (λ contents. Gives (folder self.old) name.now contents) }
        ensures missing { IsErrOf result ReadRefusal.Missing → Lacks (folder self.old) name.now }
        ensures memory { IsErrOf result ReadRefusal.Memory → Has (folder self.old) name.now }
        ensures read { Rose (reads self.old) (reads self.new) }
        ensures cause { ReadCause (faults self.old) (faults self.new) result };
}
