// What bunches hand on, with ample memory, and which rule each breaks.
use crate::{Bunch, Cause, Delivered, IncomingChannels, Memory, PartWhy};
use bit_io::{BitSlice, BitWriter, Bits};
use protocol_model::Part;
use std::alloc::Global;
use std::process::Abort;
use std::test::Fail;

/// `count` bits, all of them 1.
fn ones(alloc: Global, count: usize) -> Result<Bits, Memory> {
    let mut writer = BitWriter::with_room(alloc, count)?;
    for _ in 0..count {
        if writer.spare() > 0 {
            writer.put_bit(true);
        }
    }
    Ok(writer.into_bits())
}

/// A whole reliable bunch of an actor's channel.
fn reliable(channel: u16, seq: u16, payload: BitSlice<'_>) -> Bunch<'_> {
    Bunch {
        opens: false,
        closes: false,
        sleeps: false,
        reliable: true,
        channel,
        exports: false,
        part: Part::Whole,
        seq,
        kind: 2,
        payload,
    }
}

/// An unreliable bunch.
fn loose(channel: u16, payload: BitSlice<'_>) -> Bunch<'_> {
    let mut b = reliable(channel, 0, payload);
    b.reliable = false;
    b.kind = 0;
    b
}

/// How many bits the payloads handed on have: of each 10,000 plus its bits.
fn bits_of(delivered: &Delivered) -> usize {
    let mut sum = 0usize;
    for message in delivered.whole.iter() {
        sum = sum
            .saturating_add(10_000)
            .saturating_add(message.bits.len());
    }
    sum
}

/// What a bunch hands on and the rule that it breaks are these.
fn hears(
    rt: &impl Abort,
    channels: &mut IncomingChannels,
    b: &Bunch,
    bits: usize,
    cause: Option<Cause>,
) -> Result<(), Memory> {
    let delivered = channels.receive(b)?;
    assert_eq!(rt; bits_of(&delivered), bits);
    assert_eq!(rt; delivered.cause, cause);
    Ok(())
}

#[test]
fn bunches_are_handed_on_in_order_and_once(rt: HostRuntime) -> Result<(), Fail> {
    let few = ones(rt.alloc(), 7)?;
    let mut channels = IncomingChannels::new(rt.alloc(), true);
    for (seq, bits) in [
        (1, 10_007),
        (3, 0),
        (4, 0),
        (3, 0),
        (2, 30_021),
        (2, 0),
        (5, 10_007),
    ] {
        hears(
            &rt,
            &mut channels,
            &reliable(9, seq, few.lend()),
            bits,
            None,
        )?;
    }
    hears(
        &rt,
        &mut channels,
        &reliable(8, 1, few.lend()),
        10_007,
        None,
    )?;
    hears(&rt, &mut channels, &loose(9, few.lend()), 10_007, None)?;
    Ok(())
}

#[test]
fn parts_are_joined_across_a_gap(rt: HostRuntime) -> Result<(), Fail> {
    let full = ones(rt.alloc(), 7000)?;
    let few = ones(rt.alloc(), 30)?;
    let mut channels = IncomingChannels::new(rt.alloc(), true);
    let mut first = reliable(1, 1, full.lend());
    first.part = Part::First;
    let mut last = reliable(1, 2, few.lend());
    last.part = Part::Last;
    hears(&rt, &mut channels, &last, 0, None)?;
    hears(&rt, &mut channels, &first, 17_030, None)?;
    Ok(())
}

#[test]
fn one_more_than_512_held_is_an_overrun(rt: HostRuntime) -> Result<(), Fail> {
    let few = ones(rt.alloc(), 1)?;
    let mut channels = IncomingChannels::new(rt.alloc(), true);
    for seq in 2..258 {
        hears(&rt, &mut channels, &reliable(1, seq, few.lend()), 0, None)?;
        hears(&rt, &mut channels, &reliable(2, seq, few.lend()), 0, None)?;
    }
    hears(&rt, &mut channels, &reliable(1, 5, few.lend()), 0, None)?;
    let overrun = Some(Cause::Overrun { channel: 3 });
    hears(&rt, &mut channels, &reliable(3, 2, few.lend()), 0, overrun)?;
    hears(
        &rt,
        &mut channels,
        &reliable(1, 1, few.lend()),
        2_570_257,
        None,
    )?;
    hears(&rt, &mut channels, &reliable(3, 2, few.lend()), 0, None)?;
    Ok(())
}

#[test]
fn each_rule_has_its_cause(rt: HostRuntime) -> Result<(), Fail> {
    let few = ones(rt.alloc(), 7)?;
    let bad = Some(Cause::BadChannel { channel: 4 });
    let part = Some(Cause::BadPart {
        channel: 4,
        why: PartWhy::NoFirst,
    });
    for (server, kind, opens, part_of, cause) in [
        (true, 1, false, Part::Whole, bad),
        (true, 2, true, Part::Whole, bad),
        (false, 2, false, Part::Last, bad),
        (true, 2, false, Part::Last, part),
    ] {
        let mut channels = IncomingChannels::new(rt.alloc(), server);
        let mut b = reliable(4, 1, few.lend());
        b.kind = kind;
        b.opens = opens;
        b.part = part_of;
        hears(&rt, &mut channels, &b, 0, cause)?;
    }
    let mut channels = IncomingChannels::new(rt.alloc(), true);
    let control = Some(Cause::BadChannel { channel: 0 });
    hears(&rt, &mut channels, &loose(0, few.lend()), 0, control)?;
    Ok(())
}

#[test]
fn a_channel_closes_and_opens_again(rt: HostRuntime) -> Result<(), Fail> {
    let few = ones(rt.alloc(), 7)?;
    let mut channels = IncomingChannels::new(rt.alloc(), false);
    let bad = Some(Cause::BadChannel { channel: 4 });
    for (seq, opens, closes, bits, cause) in [
        (1, true, false, 10_007, None),
        (2, false, false, 10_007, None),
        (3, false, true, 10_007, None),
        (4, true, false, 10_007, None),
        (5, true, false, 0, bad),
    ] {
        let mut b = reliable(4, seq, few.lend());
        b.opens = opens;
        b.closes = closes;
        hears(&rt, &mut channels, &b, bits, cause)?;
    }
    Ok(())
}
