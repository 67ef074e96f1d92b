// Acts, in order.
ghost use Rattle.std.specs.Prelude.{◌≡◌};
ghost use Rattle.live_model.specs.Outside.{same_peer};

use bit_io::Blob;
use live_links::Peer;
use net_core::Items;

/// What a live end does outside.
#[derive(Debug, Drop)]
pub enum Act {
    /// Sends a datagram on an end of the link, from 0.
    Sends { end: usize, to: Peer, bytes: Blob },
    /// Writes text.
    Writes { text: Blob },
}

/// Acts in order.
pub type ActList = Items<Act>;

/// The two are one peer.
pub fn same_peer(one: Peer, other: Peer) -> bool
    ensures { result ≡ same_peer one other }
{
    one == other
}
