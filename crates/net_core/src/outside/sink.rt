// The trait through which a program writes its output.
ghost use Rattle.std.specs.Prelude.{◌≤◌, ◌<◌, List, ℕ, Option, length, IfOk};
ghost use Rattle.net_core.specs.Counts.{WriteCause, WriteShortage};
ghost use Rattle.net_core.specs.Taken.{Takes};

use bit_io::Memory;
use thiserror::Error;

/// Why a write took nothing.
#[derive(Clone, Copy, Debug, PartialEq, Eq, Error)]
pub enum WriteRefusal {
    /// The outside failed, and the count of faults rose by one.
    #[error("the output could not be written")]
    Failed,
    /// There was no memory for the bytes.
    #[error("there was no memory for the output")]
    Memory,
}

impl From<Memory> for WriteRefusal {
    ghost use Rattle.std.specs.Prelude.{◌≡◌};
    ghost use Rattle.net_core.specs.declared.outside.sink.WriteRefusal.TheVariants as write;

    ghost from_gives = { λ _ e. e ≡ write.Memory };

    fn from(_memory: Memory) -> WriteRefusal {
        WriteRefusal::Memory
    }
}

/// What takes bytes in order.
pub trait Sink {
    /// All the bytes that were taken, where they are told.
    ghost taken: { Self → Option (List ℕ) };

    /// How many writes have failed. One kept in a `u64` stays at the greatest value.
    ghost faults: { Self → ℕ };

    /// How many writes had no memory, counted likewise.
    ghost shortages: { Self → ℕ };

    /// Takes a prefix of a piece that isn't empty, and answers its length: at least one. A refusal
    /// takes nothing. `Failed` comes exactly where the count of faults rose, and `Memory` exactly
    /// where that of shortages did, by one; every other answer leaves the count.
    fn write(&mut self, bytes: &[u8]) -> Result<usize, WriteRefusal>
        requires { 0 < length bytes.now }
        ensures count { IfOk result (λ n. (0 < n) × (n ≤ length bytes.now)) }
        ensures taken { Takes (taken self.old) (taken self.new) result bytes.now }
        ensures cause { WriteCause (faults self.old) (faults self.new) result }
        ensures shortage { WriteShortage (shortages self.old) (shortages self.new) result };
}
