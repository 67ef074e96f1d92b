// Packets that bring a client up to its limit of copies.
use crate::tests::drafts::{Draft, Sketch, sure};
use net_core::Memory;
use std::alloc::Global;

/// How many Pawns a packet opens.
const OPENS: u64 = 64;

/// The Pawns of a packet's number: 64 opens, of guids from 16,384 on and channels from 2 on.
pub(crate) fn opening(alloc: Global, number: u64) -> Result<Vec<u8>, Memory> {
    let mut draft = Draft::new(alloc, number)?;
    for i in 0..OPENS {
        let before = number.wrapping_sub(2).wrapping_mul(OPENS).wrapping_add(i);
        draft.bunch(&Sketch {
            opens: true,
            ..sure(
                (before % 10_000) as u16 + 2,
                1,
                &[packed(before.wrapping_mul(2)), (5 * 2, 8), (0, 8)],
            )
        })?;
    }
    draft.finish()
}

/// The spelling, in three groups, of a number and 16,384.
fn packed(n: u64) -> (u64, usize) {
    let n = n.wrapping_add(16_384);
    let low = n % 128 * 2 + 1;
    let middle = n / 128 % 128 * 2 + 1;
    let high = n / 16_384 % 128 * 2;
    (low + middle * 256 + high * 65_536, 24)
}
