// The statuses with which a run ends. Contracts name them by `specs/Statuses`, which refuses another
// number.

/// All was done.
pub const ALL_DONE: u8 = 0;

/// The words aren't understood.
pub const WORDS_UNKNOWN: u8 = 2;

/// There is no file of the name.
pub const NO_FILE: u8 = 3;

/// The class table is refused.
pub const BAD_TABLE: u8 = 4;

/// A line of the script is refused.
pub const BAD_SCRIPT: u8 = 5;

/// A read or a write failed.
pub const OUTSIDE_FAILED: u8 = 6;

/// There was no memory.
pub const NO_MEMORY: u8 = 8;

/// A line of the packets' file is bad.
pub const BAD_PACKETS: u8 = 9;
