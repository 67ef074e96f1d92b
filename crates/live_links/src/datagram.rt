// A datagram with a peer.
ghost use Rattle.std.specs.Prelude.{◌≡◌, IfOk};

use crate::link::Peer;
use bit_io::{Blob, Memory};
use std::alloc::Global;
use std::marker::Model;

/// A datagram with the peer that it goes to, or comes from.
#[derive(Debug, Drop)]
pub struct Datagram {
    pub peer: Peer,
    pub bytes: Blob,
}

impl Model for Datagram {
    ghost use Rattle.std.specs.Prelude.{ℕ, List};
    ghost use Rattle.live_model.specs.Outside.{Peer};

    ghost Value = { Peer × List ℕ };

    ghost view = { λ d. (d.peer, d.bytes) };
}

impl Datagram {
    /// A datagram that holds a copy of these bytes.
    pub fn copied(alloc: Global, peer: Peer, bytes: &[u8]) -> Result<Datagram, Memory>
        ensures { IfOk result (λ d. d ≡ (peer, bytes.now)) }
    {
        Ok(Datagram {
            peer,
            bytes: Blob::from_vec(bytes.to_vec(alloc)?),
        })
    }
}
