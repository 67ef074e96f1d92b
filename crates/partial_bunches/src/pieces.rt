// Where a payload is cut.
ghost use Rattle.std.specs.Prelude.{◌≡◌, ◌<◌, ◌≤◌, ◌+◌, ◌*◌, min};
ghost use Rattle.protocol_model.specs.Limits.{payload_bits};
ghost use Rattle.protocol_model.specs.Payload.{part_count};
ghost use Rattle.partial_bunches.specs.Joins.{piece_of};

use protocol_model::Part;
use protocol_model::limits::PART_BITS;

/// A piece of a payload: its bits from `start` up to `end`, and where it stands.
#[derive(Clone, Copy, Debug, PartialEq, Eq)]
pub struct Piece {
    pub start: usize,
    pub end: usize,
    pub part: Part,
}

/// How many parts a payload of `bits` bits, at most 70,000, has: 1 to 10.
pub fn parts(bits: usize) -> usize
    requires { bits ≤ payload_bits }
    ensures { result ≡ part_count bits }
{
    if bits <= PART_BITS {
        1
    } else {
        (bits + (PART_BITS - 1)) / PART_BITS
    }
}

/// The i-th piece, counted from 0, of a payload of `bits` bits.
pub fn cut(bits: usize, i: usize) -> Piece
    requires bits { bits ≤ payload_bits }
    requires i { i < part_count bits }
    ensures { result ≡ piece_of bits i }
{
    let count = parts(bits);
    let start = PART_BITS * i;
    let part = if count == 1 {
        Part::Whole
    } else if i == 0 {
        Part::First
    } else if i + 1 == count {
        Part::Last
    } else {
        Part::Middle
    };
    Piece {
        start,
        end: bits.min(start + PART_BITS),
        part,
    }
}
