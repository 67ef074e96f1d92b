// What a book answers to numbers that came in packets.
use thiserror::Error;

/// What an acknowledgement did.
#[derive(Clone, Copy, Debug, PartialEq, Eq)]
pub enum Acked {
    /// Its number isn't above the greatest one that moved before.
    Ignored,
    /// Packet `to` arrived, and those above `from` and below `to` are lost.
    Moved { from: u64, to: u64 },
}

/// A packet isn't new: `number` is its number, and `last` the greatest one taken before.
#[derive(Clone, Copy, Debug, PartialEq, Eq, Error)]
#[error("packet {number} is not above {last}")]
pub struct Old {
    pub number: i64,
    pub last: u64,
}

/// A packet is acknowledged that wasn't sent: `acked` is its number, and `sent` the last one sent.
#[derive(Clone, Copy, Debug, PartialEq, Eq, Error)]
#[error("packet {acked} is acknowledged, and {sent} was the last one sent")]
pub struct BadAck {
    pub acked: i64,
    pub sent: u64,
}
