// Whole runs of a client, byte for byte: what it sends and writes.
ghost use Rattle.std.specs.Prelude.{OnOk, IfOk};
ghost use Rattle.live_client.specs.Callers.{Stands};

use crate::{Act, ActList, Caller, Classes, Memory, Peer, Player, Version};
use bit_io::Blob;
use event_text::bytes_text;
use std::alloc::Global;
use std::test::Fail;

/// What the server sends.
const WELCOME: [u8; 8] = [0x55, 0x4e, 0x52, 0x31, 2, 1, 2, 0];

/// A Welcome of player 257.
const OTHERS: [u8; 8] = [0x55, 0x4e, 0x52, 0x31, 2, 1, 1, 0];

const FAILURE: [u8; 7] = [0x55, 0x4e, 0x52, 0x31, 3, 2, 0];

/// A server's first packet: the open of Pawn 2 on channel 1, which is at (10, -3) and has 75 hp.
const FIRST: [u8; 45] = [
    0x01, 0x80, 0x19, 0x00, 0x24, 0x00, 0x9d, 0x04, 0x02, 0x03, 0x00, 0xe2, 0x28, 0xac, 0xad, 0x4c,
    0xc1, 0x80, 0x80, 0x0a, 0xbb, 0x73, 0x23, 0x50, 0x10, 0x50, 0x00, 0x00, 0x00, 0x20, 0xe8, 0xff,
    0xff, 0xff, 0x37, 0x80, 0xb0, 0xc4, 0x80, 0x03, 0x00, 0x00, 0x00, 0x00, 0x40,
];

/// What is asked of a client.
#[derive(Clone, Copy)]
enum Deed<'a> {
    Asks,
    /// A datagram from this port.
    Hears(u16, &'a [u8]),
    Ticks,
    Ends,
}

/// A peer of this port.
fn peer(port: u16) -> Peer {
    Peer {
        ip: [127, 0, 0, 1],
        port,
    }
}

/// One deed.
fn does(caller: &mut Caller<'_>, deed: &Deed<'_>, acts: &mut ActList) -> Result<(), Memory>
    requires { Stands caller.old }
    ensures { OnOk result (Stands caller.new) }
{
    match deed {
        Deed::Asks => caller.ask(acts)?,
        Deed::Hears(port, bytes) => caller.hear(peer(*port), bytes, acts)?,
        Deed::Ticks => caller.tick(acts)?,
        Deed::Ends => caller.tell_end(acts)?,
    }
    Ok(())
}

/// All deeds.
fn does_all(caller: &mut Caller<'_>, deeds: &[Deed<'_>], acts: &mut ActList) -> Result<(), Memory>
    requires { Stands caller.old }
    ensures { OnOk result (Stands caller.new) }
{
    for deed in deeds {
        does(caller, deed, acts)?;
    }
    Ok(())
}

/// An act: a datagram by its end, its port and its bytes, or the text.
fn put_act(alloc: Global, act: &Act, text: &mut Blob) -> Result<(), Memory> {
    match act {
        Act::Sends { end, to, bytes } => {
            let bytes = bytes_text(alloc, bytes.as_slice())?;
            let port = to.port;
            let line = format!(in alloc; "{end} {port} {bytes}\n")?;
            text.extend_from_slice(line.as_bytes())
        }
        Act::Writes { text: line } => text.extend_from_slice(line.as_slice()),
    }
}

/// The acts, one after another.
fn text_of(alloc: Global, acts: &[Act]) -> Result<Blob, Memory> {
    let mut text = Blob::new(alloc);
    for act in acts {
        put_act(alloc, act, &mut text)?;
    }
    Ok(text)
}

/// What player 258, whose server is at port 7777, does.
fn played(alloc: Global, classes: &Classes, deeds: &[Deed<'_>]) -> Result<Blob, Memory> {
    let server = peer(7777);
    let mut caller = Caller::new(
        alloc,
        classes,
        [7; 20],
        Version::One,
        server,
        0,
        Player(258),
    )?;
    let mut acts = ActList::new(alloc);
    does_all(&mut caller, deeds, &mut acts)?;
    text_of(alloc, acts.as_slice())
}

#[test]
fn it_asks_until_it_is_welcomed(rt: HostRuntime) -> Result<(), Fail> {
    let classes = Classes::builtin(rt.alloc())?;
    let deeds = [
        Deed::Asks,
        Deed::Hears(7777, &OTHERS),
        Deed::Hears(7778, &WELCOME),
        Deed::Hears(7777, &FIRST),
        Deed::Ticks,
        Deed::Asks,
        Deed::Hears(7777, &WELCOME),
        Deed::Asks,
    ];
    let asked = "0 7777 554e5231010102070707070707070707070707070707070707070700\n\
                 0 7777 554e5231010102070707070707070707070707070707070707070700\n";
    let text = played(rt.alloc(), &classes, &deeds)?;
    assert!(rt; text.as_slice() == asked.as_bytes());
    Ok(())
}

#[test]
fn a_failure_refuses_it_before_a_welcome_alone(rt: HostRuntime) -> Result<(), Fail> {
    let classes = Classes::builtin(rt.alloc())?;
    let deeds = [
        Deed::Hears(7778, &FAILURE),
        Deed::Ends,
        Deed::Hears(7777, &FAILURE),
        Deed::Ends,
        Deed::Hears(7777, &WELCOME),
        Deed::Hears(7777, &FAILURE),
        Deed::Ends,
    ];
    let told = "unet: not welcomed: 0\nunet: not welcomed: 2\ncopies 258 0\n";
    let text = played(rt.alloc(), &classes, &deeds)?;
    assert!(rt; text.as_slice() == told.as_bytes());
    Ok(())
}

#[test]
fn a_welcomed_client_hears_its_server_and_tells_its_copies(rt: HostRuntime) -> Result<(), Fail> {
    let classes = Classes::builtin(rt.alloc())?;
    let deeds = [
        Deed::Hears(7777, &WELCOME),
        Deed::Hears(7778, &FIRST),
        Deed::Hears(7777, &FIRST),
        Deed::Hears(7777, &FIRST),
        Deed::Hears(7777, &WELCOME),
        Deed::Hears(7777, &[]),
        Deed::Ticks,
        Deed::Ends,
    ];
    let told = "got 258 taken\n\
                got 258 old\n\
                got 258 malformed 0 Empty\n\
                0 7777 01c00020\n\
                csent 258 1 01c00020\n\
                copies 258 1\n\
                copy 258 1 Pawn open x=10 y=-3 role=0 hp=75 ammo=0 team=0 aim=0\n";
    let text = played(rt.alloc(), &classes, &deeds)?;
    assert!(rt; text.as_slice() == told.as_bytes());
    Ok(())
}
