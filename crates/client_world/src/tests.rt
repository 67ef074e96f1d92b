// That calls succeed with ample memory, and that a client of the built-in classes says, keeps and
// sends what was meant: each way in which a datagram ends it, and each answer to a call.
mod closing;
mod copying;
mod deeds;
mod drafts;
mod piles;
mod sending;

/// A server's first packet: the open of Pawn 2 on channel 1, which is at (10, -3) and has 75 hp.
pub(crate) const FIRST: [u8; 45] = [
    0x01, 0x80, 0x19, 0x00, 0x24, 0x00, 0x9d, 0x04, 0x02, 0x03, 0x00, 0xe2, 0x28, 0xac, 0xad, 0x4c,
    0xc1, 0x80, 0x80, 0x0a, 0xbb, 0x73, 0x23, 0x50, 0x10, 0x50, 0x00, 0x00, 0x00, 0x20, 0xe8, 0xff,
    0xff, 0xff, 0x37, 0x80, 0xb0, 0xc4, 0x80, 0x03, 0x00, 0x00, 0x00, 0x00, 0x40,
];

/// The Pawn.
pub(crate) const PAWN: u32 = 2;

/// An update without a value.
pub(crate) const NO_VALUE: [(u64, usize); 2] = [(0, 1), (0, 8)];

/// An update: the Pawn has 50 hp.
pub(crate) const HALF: [(u64, usize); 4] = [(0, 1), (4 * 2, 8), (50, 8), (0, 8)];

/// An update: the Pawn has 60 hp.
pub(crate) const MORE: [(u64, usize); 4] = [(0, 1), (4 * 2, 8), (60, 8), (0, 8)];

/// An update: the player has the Pawn.
pub(crate) const OWNED: [(u64, usize); 4] = [(0, 1), (3 * 2, 8), (1, 1), (0, 8)];

/// An open of the Pawn without a value; of another Pawn.
pub(crate) const OPEN: [(u64, usize); 3] = [(2 * 2, 8), (5 * 2, 8), (0, 8)];

pub(crate) const OTHER: [(u64, usize); 3] = [(4 * 2, 8), (5 * 2, 8), (0, 8)];

/// The Pawn is gone; actor 4 is.
pub(crate) const GONE: [(u64, usize); 2] = [(2, 8), (2 * 2, 8)];

pub(crate) const OTHER_GONE: [(u64, usize); 2] = [(2, 8), (4 * 2, 8)];

/// The server's call `hurt` of the Pawn, by 9.
pub(crate) const HURT: [(u64, usize); 4] = [(1, 1), (2 * 2, 8), (2 * 2, 8), (9, 8)];
