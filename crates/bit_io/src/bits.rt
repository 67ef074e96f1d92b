// Bits that are kept.
ghost use Rattle.std.specs.Prelude.{◌≡◌, ◌<◌, ◌≤◌, ◌*◌, ◌^◌, length};
ghost use Rattle.protocol_model.specs.Bits.{digits};
ghost use Rattle.protocol_laws.specs.Packed.{number_of_bytes};
ghost use Rattle.bit_io.specs.Lent.{slice_bits};

use crate::lent::BitSlice;
use std::marker::Model;

/// A list of bits, kept in packed bytes.
#[derive(Debug, Drop)]
pub struct Bits {
    bytes: Vec<u8>,
    len: usize,
}

impl Model for Bits {
    ghost use Rattle.std.specs.Prelude.{◌*◌, ◌≤◌, ◌<◌, ◌^◌, List, Bool, length};
    ghost use Rattle.protocol_model.specs.Bits.{digits};
    ghost use Rattle.protocol_laws.specs.Packed.{number_of_bytes};

    ghost Value = { List Bool };

    ghost view = { λ b. digits b.len (number_of_bytes b.bytes.items) };

    ghost invariant = { λ b. (b.len ≤ 8 * length b.bytes.items) × (length b.bytes.items < 2 ^ 58) };
}

impl Bits {
    /// The first bits of the bytes.
    pub(crate) fn from_bytes(bytes: Vec<u8>, len: usize) -> Bits
        requires within { len ≤ 8 * length bytes.items }
        requires small { length bytes.items < 2 ^ 58 }
        ensures { result ≡ digits len (number_of_bytes bytes.items) }
    {
        Bits { bytes, len }
    }

    /// How many bits there are.
    pub fn len(&self) -> usize
        ensures { result ≡ length self.now }
    {
        self.len
    }

    /// All the bits, lent without copying.
    pub fn lend(&self) -> BitSlice<'_>
        ensures { slice_bits result ≡ self.now }
    {
        lent(self.bytes.as_slice(), self.len)
    }
}

/// The first bits of the bytes.
fn lent(bytes: &[u8], len: usize) -> BitSlice<'_>
    requires within { len ≤ 8 * length bytes.now }
    requires small { length bytes.now < 2 ^ 58 }
    ensures { slice_bits result ≡ digits len (number_of_bytes bytes.now) }
{
    BitSlice {
        bytes,
        from: 0,
        to: len,
    }
}
