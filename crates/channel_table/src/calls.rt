// Unreliable calls that wait for a tick.
use bit_io::{BitSlice, Bits};
use net_core::Guid;

/// An unreliable call that waits, with its payload.
#[derive(Debug, Drop)]
pub struct WaitingCall {
    pub actor: Guid,
    pub call: u16,
    pub bits: Bits,
}

/// An unreliable call that waits, lent.
#[derive(Clone, Copy, Debug)]
pub struct Waiting<'a> {
    pub actor: Guid,
    pub call: u16,
    pub bits: BitSlice<'a>,
}
