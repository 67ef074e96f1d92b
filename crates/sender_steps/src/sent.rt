// What is under way to a client.
use net_core::{Guid, GuidList};

/// An update of an actor, with the packet in which it went.
#[derive(Clone, Copy, Debug)]
pub struct UpdateSent {
    pub packet: u64,
    pub actor: Guid,
}

/// An open that exports segments: its channel, the number of its last part, and the guids of the
/// segments.
#[derive(Debug, Drop)]
pub struct OpenSent {
    pub channel: u16,
    pub last: u64,
    pub guids: GuidList,
}
