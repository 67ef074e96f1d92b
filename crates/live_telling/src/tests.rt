// Acts byte for byte, which the clauses say in terms of definitions.
use crate::{
    Act, ActList, Memory, Peer, Side, Teller, tell, tell_absent, tell_got, tell_refused, tell_tick,
};
use bit_io::Blob;
use class_layout::Classes;
use event_text::bytes_text;
use link_end::{Sent, SentList};
use net_core::{Guid, Player};
use protocol_model::{Verdict, Why};
use script_lines::{Event, EventList};
use std::alloc::Global;
use std::test::Fail;

/// An act: a datagram by its end, its port and its bytes, or the text.
fn put_act(alloc: Global, act: &Act, text: &mut Blob) -> Result<(), Memory> {
    match act {
        Act::Sends { end, to, bytes } => {
            let bytes = bytes_text(alloc, bytes.as_slice())?;
            let port = to.port;
            let line = format!(in alloc; "{end} {port} {bytes}\n")?;
            text.extend_from_slice(line.as_bytes())
        }
        Act::Writes { text: line } => text.extend_from_slice(line.as_slice()),
    }
}

/// The acts, one after another.
fn text_of(alloc: Global, acts: &[Act]) -> Result<Blob, Memory> {
    let mut text = Blob::new(alloc);
    for act in acts {
        put_act(alloc, act, &mut text)?;
    }
    Ok(text)
}

/// Two events.
fn events(alloc: Global) -> Result<EventList, Memory> {
    let player = Player(258);
    let mut events = EventList::new(alloc);
    events.push(Event::Joined { player })?;
    events.push(Event::Actor { actor: Guid(4) })?;
    Ok(events)
}

/// Their lines, and one of each other kind.
fn lines(alloc: Global) -> Result<ActList, Memory> {
    let classes = Classes::builtin(alloc)?;
    let player = Player(258);
    let events = events(alloc)?;
    let mut acts = ActList::new(alloc);
    tell(alloc, &classes, &events, &mut acts)?;
    let why = Why::Empty;
    tell_got(alloc, player, Verdict::Malformed { at: 0, why }, &mut acts)?;
    tell_got(alloc, player, Verdict::Taken { number: 3 }, &mut acts)?;
    tell_absent(alloc, player, &mut acts)?;
    tell_refused(alloc, 2, &mut acts)?;
    Ok(acts)
}

#[test]
fn lines_are_written(rt: HostRuntime) -> Result<(), Fail> {
    let acts = lines(rt.alloc())?;
    let text = text_of(rt.alloc(), acts.as_slice())?;
    let told = "joined 258\n\
                actor 2\n\
                got 258 malformed 0 Empty\n\
                got 258 taken\n\
                call 258 absent\n\
                unet: not welcomed: 2\n";
    assert!(rt; text.as_slice() == told.as_bytes());
    Ok(())
}

/// A packet of one byte, of this number.
fn packet(alloc: Global, number: u64, byte: u8) -> Result<Sent, Memory> {
    let mut bytes = Blob::new(alloc);
    bytes.push(byte)?;
    Ok(Sent { number, bytes })
}

/// A tick that sent packets 3 and 4, and stalled.
fn tick(alloc: Global, side: Side) -> Result<Blob, Memory> {
    let classes = Classes::builtin(alloc)?;
    let teller = Teller {
        side,
        player: Player(7),
        end: 1,
        to: Peer {
            ip: [127, 0, 0, 1],
            port: 7777,
        },
    };
    let mut sent = SentList::new(alloc);
    sent.push(packet(alloc, 3, 0xa0)?)?;
    sent.push(packet(alloc, 4, 0x0b)?)?;
    let mut acts = ActList::new(alloc);
    tell_tick(alloc, &classes, teller, sent, true, &mut acts)?;
    text_of(alloc, acts.as_slice())
}

#[test]
fn each_packet_is_sent_before_its_line(rt: HostRuntime) -> Result<(), Fail> {
    let server = tick(rt.alloc(), Side::Server)?;
    let told = "1 7777 a0\nsent 7 3 a0\n1 7777 0b\nsent 7 4 0b\nstalled 7\n";
    assert!(rt; server.as_slice() == told.as_bytes());
    let client = tick(rt.alloc(), Side::Client)?;
    let told = "1 7777 a0\ncsent 7 3 a0\n1 7777 0b\ncsent 7 4 0b\ncstalled 7\n";
    assert!(rt; client.as_slice() == told.as_bytes());
    Ok(())
}
