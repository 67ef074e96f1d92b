// Lent bits.
ghost use Rattle.std.specs.Prelude.{◌≡◌, ◌<◌, ◌≤◌, ◌+◌, ◌*◌, ◌^◌, IfOk, slice_get, length};
ghost use Rattle.bit_io.specs.Between.{bits_between};
ghost use Rattle.bit_io.specs.Lent.{bits_left, slice_bits};

use crate::bits::Bits;
use crate::blob::Memory;
use crate::lent::{BitReader, BitSlice};
use crate::reader::bit_count;
use crate::words::bits_at;
use crate::writer::BitWriter;
use std::alloc::Global;

impl<'a> BitSlice<'a> {
    /// How many bits there are.
    pub fn len(&self) -> usize
        ensures count { result ≡ length (slice_bits self.now) }
        ensures places { self.now.from + result ≡ self.now.to }
    {
        bit_count(self.bytes, self.from, self.to)
    }

    /// Bit `index`. `None` exactly past the end.
    pub fn get(&self, index: usize) -> Option<bool>
        ensures { result ≡ slice_get (slice_bits self.now) index }
    {
        bit_at(self.bytes, self.from, self.to, index)
    }

    /// Reads these bits from the first on.
    pub fn reader(&self) -> BitReader<'a>
        ensures bytes { result.bytes ≡ self.now.bytes }
        ensures place { result.place ≡ self.now.from }
        ensures to { result.to ≡ self.now.to }
        ensures left { bits_left result ≡ slice_bits self.now }
    {
        BitReader {
            bytes: self.bytes,
            place: self.from,
            to: self.to,
        }
    }

    /// A copy of the bits.
    pub fn keep(&self, alloc: Global) -> Result<Bits, Memory>
        ensures { IfOk result (λ bits. bits ≡ slice_bits self.now) }
    {
        let mut writer = BitWriter::with_room(alloc, self.len())?;
        writer.put_slice(*self);
        Ok(writer.into_bits())
    }
}

/// Bit `index` of those from one place to another.
fn bit_at(bytes: &[u8], from: usize, to: usize, index: usize) -> Option<bool>
    requires order { from ≤ to }
    requires within { to ≤ 8 * length bytes.now }
    requires small { length bytes.now < 2 ^ 58 }
    ensures { result ≡ slice_get (bits_between bytes.now from to) index }
{
    if index >= to - from {
        return None;
    }
    Some(bits_at(bytes, from + index, 1) == 1)
}
