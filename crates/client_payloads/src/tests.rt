// Payloads of the built-in Pawn and Flag: what is read of good ones, and each cause at its bit.
ghost use Rattle.std.specs.Prelude.{◌≡◌, length, IfOk};
ghost use Rattle.actor_copies.specs.Kept.{ArePlaced};

use crate::{
    BitReader, Classes, CopyList, First, Guid, Names, PairList, Payload, ReadOpen, Stop, open,
    unopened,
};
use protocol_model::Cause;
use std::alloc::Global;
use std::process::Abort;
use std::test::Fail;

/// Actor 2, a Pawn, has the only copy: on channel 5, or without a channel.
fn copies_with(alloc: Global, classes: &Classes, asleep: bool) -> Result<CopyList, Fail>
    ensures { IfOk result (λ copies. ArePlaced (length classes.now.classes) copies) }
{
    let mut copies = CopyList::new(alloc);
    if classes.count() == 0 {
        return Err(Fail::from("no class"));
    }
    let read = ReadOpen {
        actor: Guid(2),
        class: 0,
        values: PairList::new(alloc),
    };
    copies.open(classes, 5, read)?;
    if !asleep {
        return Ok(copies);
    }
    copies.close(5, true);
    Ok(copies)
}

/// What a payload that doesn't open is read as, by its name.
fn unopened_as(
    rt: &impl Abort,
    alloc: Global,
    payload: (&[u8], usize),
    first: First,
    asleep: bool,
) -> Result<Result<&'static str, Stop>, Fail> {
    let classes = Classes::builtin(alloc)?;
    let copies = copies_with(alloc, &classes, asleep)?;
    let (bytes, bits) = payload;
    assert!(rt; bytes.len() <= 64 && bits <= 8 * bytes.len());
    let mut reader = BitReader::new(bytes, bits);
    match unopened(alloc, &mut reader, &classes, &copies, first) {
        Ok(Payload::Gone(_)) => Ok(Ok("gone")),
        Ok(Payload::Close) => Ok(Ok("close")),
        Ok(Payload::Update(_)) => Ok(Ok("update")),
        Ok(Payload::Call(_)) => Ok(Ok("call")),
        Err(stop) => Ok(Err(stop)),
    }
}

/// A plain bunch of a channel.
fn plain(channel: u16, reliable: bool) -> First {
    First {
        channel,
        closes: false,
        sleeps: false,
        reliable,
    }
}

fn broken(left: usize, cause: Option<Cause>) -> Result<&'static str, Stop> {
    Err(Stop::Broken { left, cause })
}

#[test]
fn a_payload_is_read_by_its_channel_and_flags(rt: HostRuntime) -> Result<(), Fail> {
    let close = First {
        channel: 5,
        closes: true,
        sleeps: false,
        reliable: true,
    };
    let of_2 = Some(Cause::UnknownGuid { guid: 2 });
    let of_4 = Some(Cause::UnknownGuid { guid: 4 });
    let call = [0x09, 0x08, 0xc6, 0x00];
    let other = [0x11, 0x08, 0xc6, 0x00];
    let update = [0x04, 0x0e, 0x00, 0x00, 0x00, 0x00, 0x00];
    let on_6 = Some(Cause::BadChannel { channel: 6 });
    for (payload, first, asleep, read) in [
        ((&[0x02, 0x04][..], 16), plain(0, true), true, Ok("gone")),
        (
            (&[0x02, 0x04][..], 16),
            plain(0, true),
            false,
            broken(0, of_2),
        ),
        (
            (&[0x04, 0x04][..], 16),
            plain(0, true),
            true,
            broken(16, None),
        ),
        (
            (&[0x02, 0x06][..], 16),
            plain(0, true),
            true,
            broken(8, None),
        ),
        ((&[][..], 0), close, false, Ok("close")),
        ((&[0x00][..], 8), close, false, broken(8, None)),
        ((&call[..], 25), plain(5, true), false, Ok("call")),
        ((&other[..], 25), plain(5, true), false, broken(16, of_4)),
        ((&call[..], 25), plain(5, false), false, broken(16, None)),
        ((&update[..], 49), plain(5, false), false, Ok("update")),
        ((&update[..], 48), plain(5, false), false, Err(Stop::Short)),
        ((&update[..], 49), plain(6, false), false, broken(48, on_6)),
        ((&update[..], 49), plain(5, true), false, broken(49, None)),
    ] {
        let answer = unopened_as(&rt, rt.alloc(), payload, first, asleep)?;
        assert!(rt; answer == read);
    }
    Ok(())
}

/// The actor and the class of an open that came on channel 6.
fn open_as(
    rt: &impl Abort,
    alloc: Global,
    payload: (&[u8], usize),
    exports: bool,
    asleep: bool,
) -> Result<Result<(Guid, u16), Stop>, Fail> {
    let classes = Classes::builtin(alloc)?;
    let copies = copies_with(alloc, &classes, asleep)?;
    let mut names = Names::new(alloc);
    let (bytes, bits) = payload;
    assert!(rt; bytes.len() <= 64 && bits <= 8 * bytes.len());
    let mut reader = BitReader::new(bytes, bits);
    match open(
        alloc,
        &mut reader,
        &classes,
        &mut names,
        &copies,
        6,
        exports,
    ) {
        Ok(read) => Ok(Ok((read.actor, read.class))),
        Err(stop) => Ok(Err(stop)),
    }
}

#[test]
fn an_open_is_refused_in_the_order_of_its_fields(rt: HostRuntime) -> Result<(), Fail> {
    let pawn = [
        0x04, 0x06, 0x00, 0xc4, 0x51, 0x58, 0x5b, 0x99, 0x82, 0x01, 0x01, 0x15, 0x76, 0xe7, 0x46,
        0xa0, 0x20, 0x70, 0x00, 0x00, 0x00, 0x00, 0x00,
    ];
    let flag = [
        0x04, 0x06, 0x00, 0xc4, 0x51, 0x58, 0x5b, 0x99, 0x83, 0x01, 0x61, 0xc4, 0x16, 0x76, 0x46,
        0xe0, 0x00, 0x00,
    ];
    let no_outer = [
        0x02, 0x0a, 0x06, 0x04, 0x54, 0xd8, 0x9d, 0x1b, 0x81, 0x02, 0x00,
    ];
    let twice = [
        0x04, 0x06, 0x00, 0xc4, 0x51, 0x58, 0x5b, 0x99, 0x01, 0x00, 0x31, 0x15, 0xd6, 0x56, 0x46,
        0xa0, 0x00, 0x00,
    ];
    let names_none = [0x04, 0x0a, 0x00];
    let broken = |left, cause| Err(Stop::Broken { left, cause });
    let unknown = |guid| Some(Cause::UnknownGuid { guid });
    let clash = |guid| Some(Cause::Clash { guid });
    for (payload, exports, asleep, read) in [
        ((&pawn[..], 180), true, true, Ok((Guid(2), 0))),
        ((&pawn[..], 180), true, false, broken(56, clash(2))),
        ((&pawn[..], 179), true, true, Err(Stop::Short)),
        ((&flag[..], 140), true, true, broken(8, clash(2))),
        ((&no_outer[..], 86), true, true, broken(24, unknown(3))),
        ((&twice[..], 140), true, true, broken(24, clash(3))),
        ((&names_none[..], 24), false, true, broken(8, unknown(5))),
        ((&names_none[..1], 8), false, true, Err(Stop::Short)),
    ] {
        let answer = open_as(&rt, rt.alloc(), payload, exports, asleep)?;
        assert!(rt; answer == read);
    }
    Ok(())
}
