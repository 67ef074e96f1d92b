// Reading numbers and parts from lent bytes.
ghost use Rattle.std.specs.Prelude.{◌≡◌, ◌∷◌, ◌<◌, ◌≤◌, ◌+◌, ◌*◌, ◌^◌, take, IfOk, OnOk, OnErr, MatchResult, [], Some, None, Ok, Err, length};
ghost use Rattle.protocol_model.specs.Bits.{bits_of, int_width, packed_bits};
ghost use Rattle.protocol_model.specs.Numbers.{leading_bits, leading_fixed, leading_int, leading_packed};
ghost use Rattle.bit_io.specs.Between.{bits_between};
ghost use Rattle.bit_io.specs.Lent.{bits_left, slice_bits, MovesBy};

use crate::lent::{BitReader, BitSlice, Short};
use crate::numbers::{fixed_at, int_at, packed_at};
use protocol_model::NumRefusal;

impl<'a> BitReader<'a> {
    /// Reads bits 0 to `to - 1` of the bytes.
    pub fn new(bytes: &'a [u8], to: usize) -> BitReader<'a>
        requires within { to ≤ 8 * length bytes.now }
        requires small { length bytes.now < 2 ^ 58 }
        ensures bytes { result.bytes ≡ bytes.entry }
        ensures place { result.place ≡ 0 }
        ensures to { result.to ≡ to }
        ensures left { bits_left result ≡ take to (bits_of bytes.now) }
    {
        BitReader {
            bytes,
            place: 0,
            to,
        }
    }

    /// The place of the next bit, counted from the first bit of the bytes.
    pub fn at(&self) -> usize
        ensures { result ≡ self.now.place }
    {
        self.place
    }

    /// How many bits are left.
    pub fn left(&self) -> usize
        ensures count { result ≡ length (bits_left self.now) }
        ensures places { self.now.place + result ≡ self.now.to }
    {
        bit_count(self.bytes, self.place, self.to)
    }

    /// The next bit. `Short` exactly where none is left; the reader then stays where it was.
    pub fn bit(&mut self) -> Result<bool, Short>
        ensures exact { MatchResult result
            (λ b. bits_left self.old ≡ b ∷ bits_left self.new)
            (λ _. bits_left self.old ≡ []) }
        ensures moves { OnOk result (MovesBy self.old self.new 1) }
        ensures err { OnErr result (self.new ≡ self.old) }
    {
        let Some(value) = fixed_at(self.bytes, self.place, self.to, 1) else {
            return Err(Short);
        };
        self.place += 1;
        Ok(value == 1)
    }

    /// The number below `max` whose spelling begins the bits left, which are left out from then on.
    /// `Short` exactly where no spelling begins them; the reader then stays where it was.
    pub fn int(&mut self, max: u32) -> Result<u32, Short>
        requires { 1 ≤ max }
        ensures exact { MatchResult result
            (λ v. leading_int max (bits_left self.old) ≡ Some (v, bits_left self.new))
            (λ _. leading_int max (bits_left self.old) ≡ None) }
        ensures below { IfOk result (λ v. v < max) }
        ensures moves { IfOk result (λ v. MovesBy self.old self.new (int_width max v)) }
        ensures err { OnErr result (self.new ≡ self.old) }
    {
        let Some((value, width)) = int_at(self.bytes, self.place, self.to, max) else {
            return Err(Short);
        };
        self.place += width as usize;
        Ok(value)
    }

    /// The number in the next `width` bits, 1 to 64 of them, lowest first. `Short` exactly where
    /// fewer are left; the reader then stays where it was.
    pub fn fixed(&mut self, width: u32) -> Result<u64, Short>
        requires least { 1 ≤ width }
        requires most { width ≤ 64 }
        ensures exact { MatchResult result
            (λ v. leading_fixed width (bits_left self.old) ≡ Some (v, bits_left self.new))
            (λ _. leading_fixed width (bits_left self.old) ≡ None) }
        ensures below { IfOk result (λ v. v < 2 ^ width) }
        ensures moves { OnOk result (MovesBy self.old self.new width) }
        ensures err { OnErr result (self.new ≡ self.old) }
    {
        let Some(value) = fixed_at(self.bytes, self.place, self.to, width) else {
            return Err(Short);
        };
        self.place += width as usize;
        Ok(value)
    }

    /// The packed number that begins the bits left. `Short` where a group that is needed isn't
    /// whole, `Padded` where the spelling isn't the shortest one or the number isn't below 2^32;
    /// the reader then stays where it was.
    pub fn packed(&mut self) -> Result<u32, NumRefusal>
        ensures exact { MatchResult result
            (λ v. leading_packed (bits_left self.old) ≡ Ok (v, bits_left self.new))
            (λ why. leading_packed (bits_left self.old) ≡ Err why) }
        ensures moves { IfOk result (λ v. MovesBy self.old self.new (length (packed_bits v))) }
        ensures err { OnErr result (self.new ≡ self.old) }
    {
        let (value, end) = packed_at(self.bytes, self.place, self.to, 5, true)?;
        self.place = end;
        Ok(value)
    }

    /// Lends the next `count` bits without copying them. `Short` exactly where fewer are left; the
    /// reader then stays where it was.
    pub fn take(&mut self, count: usize) -> Result<BitSlice<'a>, Short>
        ensures exact { MatchResult result
            (λ s. leading_bits count (bits_left self.old)
            ≡ Some (slice_bits s, bits_left self.new))
            (λ _. leading_bits count (bits_left self.old) ≡ None) }
        ensures bytes { IfOk result (λ s. s.bytes ≡ self.old.bytes) }
        ensures from { IfOk result (λ s. s.from ≡ self.old.place) }
        ensures to { IfOk result (λ s. s.to ≡ self.old.place + count) }
        ensures moves { OnOk result (MovesBy self.old self.new count) }
        ensures err { OnErr result (self.new ≡ self.old) }
    {
        if self.to - self.place < count {
            return Err(Short);
        }
        let from = self.place;
        self.place += count;
        Ok(BitSlice {
            bytes: self.bytes,
            from,
            to: self.place,
        })
    }
}

/// How many bits stand from one place to another.
pub(crate) fn bit_count(bytes: &[u8], from: usize, to: usize) -> usize
    requires order { from ≤ to }
    requires within { to ≤ 8 * length bytes.now }
    ensures count { result ≡ length (bits_between bytes.now from to) }
    ensures places { from + result ≡ to }
{
    to - from
}
