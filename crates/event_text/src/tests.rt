// Worked examples.
use super::*;
use net_core::{Guid, Handle, Items, Player};
use protocol_model::{CallAnswer, CallVerdict, Cause, PartWhy, Verdict, Why};
use script_lines::{Arg, Delivery, Handed, Pair, Value};
use std::alloc::Global;
use std::test::Fail;

// An event at a time, since an array of them, which own memory, takes minutes to prove.
fn is_printed(alloc: Global, classes: &Classes, event: Event, line: &str) -> Result<bool, Memory> {
    let mut out = Blob::new(alloc);
    print(alloc, &mut out, classes, &event)?;
    Ok(out.as_slice() == line.as_bytes())
}

fn says(alloc: Global, classes: &Classes, answer: Delivery, line: &str) -> Result<bool, Memory> {
    let event = Event::Down {
        player: Player(1),
        packet: 2,
        answer,
    };
    is_printed(alloc, classes, event, line)
}

#[test]
fn plain_events_have_their_words(rt: HostRuntime) -> Result<(), Fail> {
    let alloc = rt.alloc();
    let classes = Classes::builtin(alloc)?;
    let player = Player(1000);
    let actor = Guid(14);
    let joined = Event::Joined { player };
    assert!(rt; is_printed(alloc, &classes, joined, "joined 1000\n")?);
    let spawned = Event::Actor { actor };
    assert!(rt; is_printed(alloc, &classes, spawned, "actor 7\n")?);
    let stalled = Event::Stalled { player };
    assert!(rt; is_printed(alloc, &classes, stalled, "stalled 1000\n")?);
    let stalled = Event::ClientStalled { player };
    assert!(rt; is_printed(alloc, &classes, stalled, "cstalled 1000\n")?);
    let copies = Event::Copies { player, count: 0 };
    assert!(rt; is_printed(alloc, &classes, copies, "copies 1000 0\n")?);
    Ok(())
}

#[test]
fn what_is_asked_has_its_words(rt: HostRuntime) -> Result<(), Fail> {
    let alloc = rt.alloc();
    let classes = Classes::builtin(alloc)?;
    let player = Player(1000);
    let actor = Guid(14);
    for (holds, line) in [
        (true, "settled 1000 7 yes\n"),
        (false, "settled 1000 7 no\n"),
    ] {
        let event = Event::Settled {
            player,
            actor,
            holds,
        };
        assert!(rt; is_printed(alloc, &classes, event, line)?, "{line}");
    }
    let answer = CallAnswer::Queued;
    let called = Event::Called { player, answer };
    assert!(rt; is_printed(alloc, &classes, called, "call 1000 queued\n")?);
    let answer = CallAnswer::WindowFull;
    let called = Event::ClientCalled { player, answer };
    assert!(rt; is_printed(alloc, &classes, called, "ccall 1000 windowfull\n")?);
    Ok(())
}

#[test]
fn forged_bytes_have_their_words(rt: HostRuntime) -> Result<(), Fail> {
    let alloc = rt.alloc();
    let classes = Classes::builtin(alloc)?;
    let player = Player(1000);
    let verdict = Verdict::Dead;
    let forged = Event::Forged { player, verdict };
    assert!(rt; is_printed(alloc, &classes, forged, "forge 1000 dead\n")?);
    let verdict = Verdict::Malformed {
        at: 15,
        why: Why::Short,
    };
    let forged = Event::ClientForged { player, verdict };
    let line = "cforge 1000 malformed 15 Short\n";
    assert!(rt; is_printed(alloc, &classes, forged, line)?);
    Ok(())
}

#[test]
fn answers_have_their_words(rt: HostRuntime) -> Result<(), Fail> {
    let alloc = rt.alloc();
    let classes = Classes::builtin(alloc)?;
    let taken = Delivery::Says(Verdict::Taken { number: 9 });
    assert!(rt; says(alloc, &classes, taken, "down 1 2 taken\n")?);
    let old = Delivery::Says(Verdict::Old {
        number: -1,
        last: 4,
    });
    assert!(rt; says(alloc, &classes, old, "down 1 2 old\n")?);
    assert!(rt; says(alloc, &classes, Delivery::Absent, "down 1 2 absent\n")?);
    assert!(rt; says(alloc, &classes, Delivery::Late, "down 1 2 late\n")?);
    Ok(())
}

#[test]
fn causes_have_their_words(rt: HostRuntime) -> Result<(), Fail> {
    let alloc = rt.alloc();
    let classes = Classes::builtin(alloc)?;
    let part = Cause::BadPart {
        channel: 5,
        why: PartWhy::NoFirst,
    };
    for (cause, line) in [
        (
            Cause::BadAck { acked: -3, sent: 0 },
            "down 1 2 closed BadAck -3 0\n",
        ),
        (part, "down 1 2 closed BadPart 5 NoFirst\n"),
        (
            Cause::BadPayload { channel: 1, at: 33 },
            "down 1 2 closed BadPayload 1 33\n",
        ),
        (Cause::NamesFull, "down 1 2 closed NamesFull\n"),
    ] {
        let closed = Delivery::Says(Verdict::Closed(cause));
        assert!(rt; says(alloc, &classes, closed, line)?, "{line}");
    }
    Ok(())
}

fn bytes(alloc: Global, bytes: &[u8]) -> Result<Blob, Memory> {
    let mut kept = Blob::new(alloc);
    kept.extend_from_slice(bytes)?;
    Ok(kept)
}

// A Pawn's call with a value and bytes.
fn fire(alloc: Global, call: u16) -> Result<Handed, Memory> {
    let mut args = Items::new(alloc);
    args.push(Arg::Scalar(Value::I32(-7)))?;
    args.push(Arg::Bytes(bytes(alloc, b"\x00\xab")?))?;
    args.push(Arg::Bytes(Blob::new(alloc)))?;
    Ok(Handed {
        actor: Guid(2),
        class: 0,
        call,
        verdict: CallVerdict::Run,
        args,
    })
}

fn pawn(alloc: Global, class: u16, channel: Option<u16>) -> Result<Event, Memory> {
    let mut values = Items::new(alloc);
    for (prop, value) in [
        (1, Value::I32(10)),
        (2, Value::I32(-3)),
        (3, Value::Bool(true)),
        (4, Value::U8(75)),
    ] {
        values.push(Pair {
            prop: Handle(prop),
            value,
        })?;
    }
    Ok(Event::Copied {
        player: Player(1),
        actor: Guid(2),
        class,
        channel,
        values,
    })
}

#[test]
fn packets_are_in_hex(rt: HostRuntime) -> Result<(), Fail> {
    let alloc = rt.alloc();
    let classes = Classes::builtin(alloc)?;
    let player = Player(1);
    let sent = Event::Sent {
        player,
        packet: 12,
        bytes: bytes(alloc, b"\x00\xabZ")?,
    };
    assert!(rt; is_printed(alloc, &classes, sent, "sent 1 12 00ab5a\n")?);
    let sent = Event::ClientSent {
        player,
        packet: 1,
        bytes: Blob::new(alloc),
    };
    assert!(rt; is_printed(alloc, &classes, sent, "csent 1 1 -\n")?);
    Ok(())
}

#[test]
fn calls_name_what_the_table_has(rt: HostRuntime) -> Result<(), Fail> {
    let alloc = rt.alloc();
    let classes = Classes::builtin(alloc)?;
    let player = Player(1);
    let handed = fire(alloc, 1)?;
    let event = Event::Handed { player, handed };
    assert!(rt; is_printed(alloc, &classes, event, "handed 1 1 fire run -7 00ab -\n")?);
    let handed = fire(alloc, 9)?;
    let event = Event::ClientHanded { player, handed };
    assert!(rt; is_printed(alloc, &classes, event, "chanded 1 1  run -7 00ab -\n")?);
    Ok(())
}

#[test]
fn copies_name_what_the_table_has(rt: HostRuntime) -> Result<(), Fail> {
    let alloc = rt.alloc();
    let classes = Classes::builtin(alloc)?;
    for (class, channel, line) in [
        (0, Some(1), "copy 1 1 Pawn open x=10 y=-3 role=1 hp=75\n"),
        (0, None, "copy 1 1 Pawn asleep x=10 y=-3 role=1 hp=75\n"),
        (300, None, "copy 1 1  asleep x=10 y=-3 role=1 =75\n"),
    ] {
        let copy = pawn(alloc, class, channel)?;
        assert!(rt; is_printed(alloc, &classes, copy, line)?, "{line}");
    }
    Ok(())
}
