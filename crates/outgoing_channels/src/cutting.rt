// A payload in parts.
ghost use Rattle.std.specs.Prelude.{◌≡◌, ◌+◌, ◌<◌, ◌≤◌, ℕ, length, slice_get, Some, IfOk};
ghost use Rattle.protocol_model.specs.Limits.{payload_bits};
ghost use Rattle.protocol_model.specs.Payload.{part_count, piece_at};
ghost use Rattle.outgoing_channels.specs.Slots.{ArePieces};

use bit_io::{Bits, Memory};
use partial_bunches::{cut, parts};
use std::alloc::Global;
use std::collections::VecDeque;

/// A copy of the i-th piece of a payload.
fn piece(alloc: Global, payload: &Bits, i: usize) -> Result<Bits, Memory>
    requires most { length payload.now ≤ payload_bits }
    requires i { i < part_count (length payload.now) }
    ensures { IfOk result (λ bits. bits ≡ piece_at payload.now i) }
{
    let place = cut(payload.len(), i);
    let mut reader = payload.lend().reader();
    let Ok(_) = reader.take(place.start) else {
        return Err(Memory);
    };
    let Ok(bits) = reader.take(place.end - place.start) else {
        return Err(Memory);
    };
    bits.keep(alloc)
}

/// Copies of the pieces of a payload after the first, `count` with it.
fn pieces_after(alloc: Global, payload: &Bits, count: usize) -> Result<VecDeque<Bits>, Memory>
    requires most { length payload.now ≤ payload_bits }
    requires count { count ≡ part_count (length payload.now) }
    ensures count { IfOk result (λ rest. length rest.items + 1 ≡ count) }
    ensures pieces { IfOk result (λ rest. (j : ℕ) → j + 1 < count
        → slice_get rest.items j ≡ Some (piece_at payload.now (j + 1))) }
{
    let mut rest = VecDeque::new(alloc);
    for i in 1..count {
        let bits = piece(alloc, payload, i)?;
        rest.push_back(bits)?;
    }
    Ok(rest)
}

/// The pieces of a payload: the first, and those after it. A payload that is one piece isn't
/// copied.
pub(crate) fn cut_up(alloc: Global, payload: Bits) -> Result<(Bits, VecDeque<Bits>), Memory>
    requires most { length payload ≤ payload_bits }
    ensures count { IfOk result (λ p. length p.1.items + 1 ≡ part_count (length payload)) }
    ensures pieces { IfOk result (λ p. ArePieces payload p.0 p.1.items) }
{
    let count = parts(payload.len());
    if count == 1 {
        return Ok((payload, VecDeque::new(alloc)));
    }
    let first = piece(alloc, &payload, 0)?;
    let rest = pieces_after(alloc, &payload, count)?;
    Ok((first, rest))
}
