// Parts of bytes that were lent, and readers over them, both seen by their fields.
//
// The two types stand apart from their methods (`slice`, `reader`), since the definitions that those
// methods cite are about them.
ghost use Rattle.std.specs.Prelude.{◌<◌, ◌≤◌, ◌*◌, ◌^◌, length};

use thiserror::Error;

/// Too few bits are left.
#[derive(Clone, Copy, Debug, PartialEq, Eq, Error)]
#[error("too few bits are left")]
pub struct Short;

/// The bits of some bytes from one place up to another, lent without copying.
///
/// Places count bits: bit i is bit `i % 8` of byte `i / 8`, the least significant one first.
#[derive(Clone, Copy, Debug)]
pub struct BitSlice<'a> {
    pub bytes: &'a [u8],
    pub from: usize,
    pub to: usize,
    pub ghost ordered: { from ≤ to },
    pub ghost within: { to ≤ 8 * length bytes.now },
    pub ghost small: { length bytes.now < 2 ^ 58 },
}

/// Reads bits of some bytes from a place up to the end of what it may read.
#[derive(Debug, Drop)]
pub struct BitReader<'a> {
    pub bytes: &'a [u8],
    pub place: usize,
    pub to: usize,
    pub ghost ordered: { place ≤ to },
    pub ghost within: { to ≤ 8 * length bytes.now },
    pub ghost small: { length bytes.now < 2 ^ 58 },
}
