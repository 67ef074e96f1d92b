// Writing bits into room that was taken at once.
ghost use Rattle.std.specs.Prelude.{◌≡◌, ◌∷◌, [], ◌<◌, ◌≤◌, ◌+◌, ◌^◌, length, IfOk};
ghost use Rattle.protocol_model.specs.Bits.{digits, bytes_of, int_bits, packed_bits, fixed_bits};
ghost use Rattle.protocol_laws.specs.Packed.{number_of_bytes};
ghost use Rattle.bit_io.specs.Written.{Appends, IsClear};
ghost use Rattle.bit_io.specs.Lent.{slice_bits};

use crate::bits::Bits;
use crate::blob::{Blob, Memory};
use crate::lent::BitSlice;
use crate::numbers::{packed_word, width_of};
use crate::words::{add_bits, add_slice, low_bits};
use std::alloc::Global;
use std::marker::Model;

/// The most bits for which a writer asks memory; for more it answers `Memory` at once.
const MOST_BITS: usize = 1 << 60;

/// Appends numbers and bits. All its room is taken at once, so no `put` can fail.
#[derive(Drop)]
pub struct BitWriter {
    bytes: Vec<u8>,
    len: usize,
}

impl Model for BitWriter {
    ghost use Rattle.std.specs.Prelude.{◌*◌, ◌-◌, length};
    ghost use Rattle.protocol_model.specs.Bits.{digits};
    ghost use Rattle.protocol_laws.specs.Packed.{number_of_bytes};
    ghost use Rattle.bit_io.specs.Written.{Written, IsClear};

    ghost Value = { Written };

    ghost view = { λ w. record {
      bits = digits w.len (number_of_bytes w.bytes.items);
      spare = 8 * length w.bytes.items - w.len;
    } };

    ghost invariant = { λ w. IsClear w.bytes.items w.len };
}

impl BitWriter {
    /// An empty writer with room for `bits` bits, and for fewer than eight more.
    /// `Memory` where there is no such room.
    pub fn with_room(alloc: Global, bits: usize) -> Result<BitWriter, Memory>
        ensures empty { IfOk result (λ w. w.bits ≡ []) }
        ensures room { IfOk result (λ w. bits ≤ w.spare) }
        ensures most { IfOk result (λ w. w.spare < bits + 8) }
    {
        if bits > MOST_BITS {
            return Err(Memory);
        }
        Ok(BitWriter {
            bytes: vec![in alloc; 0; (bits + 7) / 8]?,
            len: 0,
        })
    }

    /// How many bits were put.
    pub fn len(&self) -> usize
        ensures { result ≡ length self.now.bits }
    {
        self.len
    }

    /// How many bits can still be put.
    pub fn spare(&self) -> usize
        ensures { result ≡ self.now.spare }
    {
        8 * self.bytes.len() - self.len
    }

    /// Appends a bit.
    pub fn put_bit(&mut self, bit: bool)
        requires { 1 ≤ self.old.spare }
        ensures { Appends self.old self.new (bit ∷ []) }
    {
        add_bits(&mut self.bytes, self.len, bit as u64, 1);
        self.len += 1;
    }

    /// Appends a number below `max` in as few bits as tell it apart, after Unreal's
    /// `SerializeInt`.
    pub fn put_int(&mut self, value: u32, max: u32)
        requires below { value < max }
        requires room { 32 ≤ self.old.spare }
        ensures { Appends self.old self.new (int_bits max value) }
    {
        let width = width_of(max, value);
        add_bits(
            &mut self.bytes,
            self.len,
            low_bits(value as u64, width),
            width,
        );
        self.len += width as usize;
    }

    /// Appends a number's shortest packed spelling, after Unreal's `SerializeIntPacked`.
    pub fn put_packed(&mut self, value: u32)
        requires room { 40 ≤ self.old.spare }
        ensures { Appends self.old self.new (packed_bits value) }
    {
        let (word, width) = packed_word(value);
        add_bits(&mut self.bytes, self.len, word, width);
        self.len += width as usize;
    }

    /// Appends a number in `width` bits, 1 to 64, lowest first.
    pub fn put_fixed(&mut self, value: u64, width: u32)
        requires least { 1 ≤ width }
        requires most { width ≤ 64 }
        requires fits { value < 2 ^ width }
        requires room { width ≤ self.old.spare }
        ensures { Appends self.old self.new (fixed_bits width value) }
    {
        add_bits(&mut self.bytes, self.len, value, width);
        self.len += width as usize;
    }

    /// Appends the bits of a slice, whole words at a time.
    pub fn put_slice(&mut self, slice: BitSlice)
        requires { length (slice_bits slice) ≤ self.old.spare }
        ensures { Appends self.old self.new (slice_bits slice.entry) }
    {
        let count = slice.to - slice.from;
        add_slice(&mut self.bytes, self.len, slice.bytes, slice.from, count);
        self.len += count;
    }

    /// The bits, then 0 bits to the byte's end.
    pub fn finish(self) -> Blob
        ensures { result ≡ bytes_of self.bits }
    {
        let len = self.len;
        let BitWriter { mut bytes, len: _ } = self;
        cut(&mut bytes, len);
        Blob::from_vec(bytes)
    }

    /// The bits alone.
    pub fn into_bits(self) -> Bits
        ensures { result ≡ self.bits }
    {
        let len = self.len;
        let BitWriter { bytes, len: _ } = self;
        Bits::from_bytes(bytes, len)
    }
}

/// Cuts the bytes behind the last that has one of the bits.
fn cut(bytes: &mut Vec<u8>, len: usize)
    requires clear { IsClear bytes.old.items len }
    ensures { bytes.new.items ≡ bytes_of (digits len (number_of_bytes bytes.old.items)) }
{
    bytes.truncate((len + 7) / 8);
}
