// What stops the reading of a packet.
use bit_io::Short;
use protocol_model::Why;
use std::alloc::AllocFailed;

/// Bits are missing, or a field breaks a rule, with so many bits left from its first bit on.
#[derive(Clone, Copy, Debug, PartialEq, Eq)]
pub enum Fault {
    Short,
    Broken { left: usize, why: Why },
}

impl From<Short> for Fault {
    ghost use Rattle.std.specs.Prelude.{◌≡◌};
    ghost use Rattle.packet_codec.specs.declared.fault.Fault.TheVariants.{Short};

    ghost from_gives = { λ _ e. e ≡ Short };

    fn from(_short: Short) -> Fault {
        Fault::Short
    }
}

/// The bytes are at fault, or there was no memory.
#[derive(Clone, Copy, Debug, PartialEq, Eq)]
pub enum Stop {
    Fault(Fault),
    Memory,
}

impl From<Fault> for Stop {
    ghost use Rattle.std.specs.Prelude.{◌≡◌};
    ghost use Rattle.packet_codec.specs.declared.fault.Stop.TheVariants as Stop;

    ghost from_gives = { λ fault e. e ≡ Stop.Fault fault };

    fn from(fault: Fault) -> Stop {
        Stop::Fault(fault)
    }
}

impl<T: Drop> From<AllocFailed<T>> for Stop {
    ghost use Rattle.std.specs.Prelude.{◌≡◌};
    ghost use Rattle.packet_codec.specs.declared.fault.Stop.TheVariants as Stop;

    ghost from_gives = { λ _ e. e ≡ Stop.Memory };

    fn from(_failed: AllocFailed<T>) -> Stop {
        Stop::Memory
    }
}
