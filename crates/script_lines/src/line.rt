// Lines of a script that were read.
use net_core::{Blob, Guid, Items, Player};
use protocol_model::Version;
use value_codec::ArgList;
use world_table::Edit;

/// A line with its names read.
///
/// A packet's number counts from 1, and is at most 1,000,000. A call is named by its number in its
/// actor's class, counted from 1.
#[derive(Debug, Drop)]
pub enum Line {
    /// A player joins, and may be sent so many bits a tick, 1 to 1,000,000.
    Join {
        player: Player,
        budget: u32,
        version: Version,
    },
    /// The world changes.
    Edit(Edit),
    /// The server ticks.
    Tick,
    /// A player's client ticks.
    ClientTick {
        player: Player,
    },
    /// A packet of the server is delivered to a player's client.
    Down {
        player: Player,
        packet: u32,
    },
    /// A packet of a player's client is delivered to the server.
    Up {
        player: Player,
        packet: u32,
    },
    /// Each packet of the server since the last line of this kind is delivered to a player's
    /// client, but those whose number is a multiple of `every`, at most 1,000; 0 loses none.
    DownNew {
        player: Player,
        every: u32,
    },
    /// The same with the packets of a player's client.
    UpNew {
        player: Player,
        every: u32,
    },
    /// The server makes a call to a player.
    Call {
        player: Player,
        actor: Guid,
        call: u16,
        args: ArgList,
    },
    /// The server makes a call to each player.
    Multi {
        actor: Guid,
        call: u16,
        args: ArgList,
    },
    /// A player's client makes a call.
    ClientCall {
        player: Player,
        actor: Guid,
        call: u16,
        args: ArgList,
    },
    /// The copies of a player's client are told.
    Dump {
        player: Player,
    },
    /// Whether nothing of an actor is left to be sent to a player is told.
    Settled {
        player: Player,
        actor: Guid,
    },
    /// Bytes, at most 2,048, are delivered to the server as from a player.
    Forge {
        player: Player,
        bytes: Blob,
    },
    /// Bytes, at most 2,048, are delivered to a player's client.
    ClientForge {
        player: Player,
        bytes: Blob,
    },
}

/// The lines of a script.
pub type LineList = Items<Line>;
