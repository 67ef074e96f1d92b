// Why scripts aren't read.
use net_core::Memory;
use protocol_model::LineWhy;
use thiserror::Error;

/// Why a script isn't read.
#[derive(Clone, Copy, Debug, PartialEq, Eq, Error)]
pub enum ScriptRefusal {
    /// This line, counted from 1, is the first bad one, and this the first reason against it. A
    /// script of more than 67,108,864 bytes is refused at line 1, as `TooLong`.
    #[error("line {line} is refused")]
    BadLine { line: usize, why: LineWhy },
    /// There was no memory for the lines.
    #[error("out of memory")]
    Memory,
}

/// Why a line isn't read.
#[derive(Clone, Copy)]
pub(crate) enum Stop {
    Why(LineWhy),
    Memory,
}

impl From<Memory> for Stop {
    ghost use Rattle.std.specs.Prelude.{◌≡◌};
    ghost use Rattle.script_reading.specs.declared.refusal.Stop.TheVariants as stop;

    ghost from_gives = { λ _ e. e ≡ stop.Memory };

    fn from(_memory: Memory) -> Stop {
        Stop::Memory
    }
}

impl From<LineWhy> for Stop {
    ghost use Rattle.std.specs.Prelude.{◌≡◌};
    ghost use Rattle.script_reading.specs.declared.refusal.Stop.TheVariants as stop;

    ghost from_gives = { λ why e. e ≡ stop.Why why };

    fn from(why: LineWhy) -> Stop {
        Stop::Why(why)
    }
}
