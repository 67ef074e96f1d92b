// Why a line isn't shown.
ghost use Rattle.std.specs.Prelude.{◌≡◌, IfOk, string_bytes};
ghost use Rattle.program_model.specs.Shown.{fault_text, line_refused_text};
ghost use Rattle.packet_text.specs.Faults.{fault_of};

use event_text::why_word;
use net_core::Memory;
use protocol_model::Why;
use std::alloc::Global;
use thiserror::Error;

/// Why a line isn't shown.
#[derive(Clone, Copy, Debug, PartialEq, Eq, Error)]
pub enum LineFault {
    /// It isn't an even number of hex digits.
    #[error("not hex")]
    NotHex,
    /// Its bytes are no packet: the first rule that they break, and the bit where it is broken.
    #[error("no packet: {why:?} at bit {at}")]
    NoPacket { at: usize, why: Why },
}

/// Why a file isn't shown.
#[derive(Clone, Copy, Debug, PartialEq, Eq, Error)]
pub enum ShowRefusal {
    /// The first bad line, counted from 1.
    #[error("line {line}: {fault}")]
    BadLine { line: usize, fault: LineFault },
    /// There was no memory.
    #[error("out of memory")]
    Memory,
}

impl From<Memory> for ShowRefusal {
    ghost use Rattle.std.specs.Prelude.{◌≡◌};
    ghost use Rattle.packet_text.specs.declared.refused.ShowRefusal.TheVariants as refusal;

    ghost from_gives = { λ _ e. e ≡ refusal.Memory };

    fn from(_memory: Memory) -> ShowRefusal {
        ShowRefusal::Memory
    }
}

/// The line that tells which line of the file is the first bad one, and why.
pub fn refused_text(alloc: Global, line: usize, fault: LineFault) -> Result<String, Memory>
    ensures { IfOk result (λ text. string_bytes text ≡ line_refused_text (line, fault_of fault)) }
{
    let text = match fault {
        LineFault::NotHex => format!(in alloc; "unet: line {line}: not hex\n")?,
        LineFault::NoPacket { at, why } => {
            let why = why_word(why);
            format!(in alloc; "unet: line {line}: bit {at} {why}\n")?
        }
    };
    Ok(text)
}
