// What stops the reading of a payload.
use bit_io::{Memory, Short};
use protocol_model::Cause;
use thiserror::Error;

/// Why a payload isn't read.
#[derive(Clone, Copy, Debug, PartialEq, Eq, Error)]
pub enum Stop {
    /// Bits are missing.
    #[error("bits are missing")]
    Short,
    /// A field breaks a rule, with so many bits left from its first bit on: the payload is bad there,
    /// or the rule has a cause of its own.
    #[error("a field breaks a rule, {left} bits before the end")]
    Broken { left: usize, cause: Option<Cause> },
    /// There was no memory for what was read.
    #[error("out of memory")]
    Memory,
}

impl From<Short> for Stop {
    ghost use Rattle.std.specs.Prelude.{◌≡◌};
    ghost use Rattle.payload_reading.specs.declared.stop.Stop.TheVariants.{Short};

    ghost from_gives = { λ _ e. e ≡ Short };

    fn from(_short: Short) -> Stop {
        Stop::Short
    }
}

impl From<Memory> for Stop {
    ghost use Rattle.std.specs.Prelude.{◌≡◌};
    ghost use Rattle.payload_reading.specs.declared.stop.Stop.TheVariants as Stop;

    ghost from_gives = { λ _ e. e ≡ Stop.Memory };

    fn from(_memory: Memory) -> Stop {
        Stop::Memory
    }
}
