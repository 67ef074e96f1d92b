// Why a packet isn't heard to its end.
use bit_io::Memory;
use protocol_model::Cause;

/// Why no more of a packet is heard.
#[derive(Clone, Copy, Debug)]
pub enum Halt {
    /// A rule was broken, which closes the end.
    Broken(Cause),
    /// There was no memory for what was heard.
    Memory,
}

impl From<Memory> for Halt {
    ghost use Rattle.std.specs.Prelude.{◌≡◌};
    ghost use Rattle.client_hearing.specs.declared.halt.Halt.TheVariants as Halt;

    ghost from_gives = { λ _ e. e ≡ Halt.Memory };

    fn from(_memory: Memory) -> Halt {
        Halt::Memory
    }
}
