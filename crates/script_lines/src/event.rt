// What the lines of a script tell.
use net_core::{Blob, Guid, Items, Player};
use protocol_model::{CallAnswer, Verdict};
use value_codec::{Handed, PairList};

/// The answer to a delivery.
#[derive(Clone, Copy, Debug, PartialEq, Eq)]
pub enum Delivery {
    /// What the end that hears says of the packet.
    Says(Verdict),
    /// No packet of that number was sent.
    Absent,
    /// The packet is more than 8,192 below the last one that was taken.
    Late,
}

/// What a line tells, each event as one line of the transcript. Packets count from 1.
#[derive(Debug, Drop)]
pub enum Event {
    /// A player joined.
    Joined {
        player: Player,
    },
    /// An actor was spawned.
    Actor {
        actor: Guid,
    },
    /// The server sent a packet to a player's client.
    Sent {
        player: Player,
        packet: u64,
        bytes: Blob,
    },
    /// A player's client sent a packet.
    ClientSent {
        player: Player,
        packet: u64,
        bytes: Blob,
    },
    /// The server's end of a player's connection stalled.
    Stalled {
        player: Player,
    },
    /// The client's end of a player's connection stalled.
    ClientStalled {
        player: Player,
    },
    /// The server received a call from a player.
    Handed {
        player: Player,
        handed: Handed,
    },
    /// A player's client received a call.
    ClientHanded {
        player: Player,
        handed: Handed,
    },
    /// A packet of the server was delivered to a player's client.
    Down {
        player: Player,
        packet: u64,
        answer: Delivery,
    },
    /// A packet of a player's client was delivered to the server.
    Up {
        player: Player,
        packet: u64,
        answer: Delivery,
    },
    /// Bytes that nobody sent reached the server as from a player.
    Forged {
        player: Player,
        verdict: Verdict,
    },
    /// Bytes that nobody sent reached a player's client.
    ClientForged {
        player: Player,
        verdict: Verdict,
    },
    /// The server made a call to a player.
    Called {
        player: Player,
        answer: CallAnswer,
    },
    /// A player's client made a call.
    ClientCalled {
        player: Player,
        answer: CallAnswer,
    },
    /// How many copies a player's client holds.
    Copies {
        player: Player,
        count: usize,
    },
    /// A copy that a player's client holds: its class is a place in the table, its channel is there
    /// while it is open, and each of its class's handles has a value, ascending from 1.
    Copied {
        player: Player,
        actor: Guid,
        class: u16,
        channel: Option<u16>,
        values: PairList,
    },
    /// Whether nothing of an actor is left to be sent to a player.
    Settled {
        player: Player,
        actor: Guid,
        holds: bool,
    },
}

/// What a line tells, in order.
pub type EventList = Items<Event>;
