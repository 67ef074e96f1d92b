// That calls succeed with ample memory, and that packets are those that were meant: by their bytes,
// their sizes, and the ticks in which they go.
ghost use Rattle.std.specs.Prelude.{◌≡◌, ◌≤◌, IfOk, OnOk, IsErrOf};
ghost use Rattle.protocol_model.specs.Limits.{budget_limit, part_bits};
ghost use Rattle.link_end.specs.Trials.{IsIdle, IsEnding, IsTicking};

use super::*;
use bit_io::{BitSlice, Memory};
use packet_codec::bunch_bits;
use protocol_model::Part;
use std::alloc::Global;
use std::process::Abort;
use std::test::Fail;

/// Bits of payloads.
const ZEROS: [u8; 1000] = [0; 1000];

fn new_end(alloc: Global, version: Version, budget: u32) -> Result<LinkEnd, Memory>
    requires least { 1 ≤ budget }
    requires most { budget ≤ budget_limit }
    ensures { IfOk result (λ l. IsIdle l) }
{
    let link = LinkEnd::new(alloc, budget, version)?;
    Ok(link)
}

fn begin(link: &mut LinkEnd) -> Result<(), Memory>
    requires { IsIdle link.old }
    ensures { OnOk result (IsTicking link.new) }
{
    if link.stalled() {
        return Err(Memory);
    }
    link.begin_tick()?;
    Ok(())
}

/// Offers a reliable bunch of channel 0 with a payload of so many bits.
fn offer(rt: &impl Abort, link: &mut LinkEnd, bits: usize) -> Result<u64, OfferRefusal>
    requires ticking { IsTicking link.old }
    requires bits { bits ≤ part_bits }
    ensures ok { OnOk result (IsTicking link.new) }
    ensures no_room { IsErrOf result OfferRefusal.NoRoom → IsEnding link.new }
{
    let payload = BitSlice {
        bytes: &ZEROS,
        from: 0,
        to: bits,
    };
    assert!(rt; payload.len() < 8192);
    let bunch = Bunch {
        opens: false,
        closes: false,
        sleeps: false,
        reliable: true,
        channel: 0,
        exports: false,
        part: Part::Whole,
        seq: 1,
        kind: 1,
        payload,
    };
    assert!(rt; bunch_bits(Version::One, &bunch) <= ENTRY_MOST);
    assert!(rt; bunch_bits(Version::Two, &bunch) <= ENTRY_MOST);
    let rec = Rec::Bunch(bunch);
    match link.offer(&rec) {
        Ok(number) => Ok(number),
        Err(OfferRefusal::NoRoom) => Err(OfferRefusal::NoRoom),
        Err(OfferRefusal::Memory) => Err(OfferRefusal::Memory),
    }
}

/// Offers so many bunches, up to the first that finds no room, and answers how many were packed.
fn fill(rt: &impl Abort, link: &mut LinkEnd, bits: usize, offers: u32) -> Result<u32, Memory>
    requires ticking { IsTicking link.old }
    requires bits { bits ≤ part_bits }
    ensures { OnOk result (IsEnding link.new) }
{
    for count in 0..offers {
        match offer(rt, link, bits) {
            Ok(_) => {}
            Err(OfferRefusal::NoRoom) => return Ok(count),
            Err(OfferRefusal::Memory) => return Err(Memory),
        }
    }
    Ok(offers)
}

fn end(link: &mut LinkEnd) -> Result<SentList, Memory>
    requires { IsEnding link.old }
    ensures { OnOk result (IsIdle link.new) }
{
    let sent = link.end_tick()?;
    Ok(sent)
}

fn take<'a>(link: &mut LinkEnd, bytes: &'a [u8]) -> Result<Arrival<'a>, TakeRefusal>
    requires { IsIdle link.old }
    ensures { OnOk result (IsIdle link.new) }
{
    let arrival = link.take(bytes)?;
    match arrival.bad {
        None => Ok(arrival),
        Some(_) => Err(TakeRefusal::Memory),
    }
}

/// A tick that offers so many bunches: how many were packed, and the packets.
fn tick(
    rt: &impl Abort,
    link: &mut LinkEnd,
    bits: usize,
    offers: u32,
) -> Result<(u32, SentList), Memory>
    requires idle { IsIdle link.old }
    requires bits { bits ≤ part_bits }
    ensures { OnOk result (IsIdle link.new) }
{
    begin(link)?;
    let count = fill(rt, link, bits, offers)?;
    let sent = end(link)?;
    Ok((count, sent))
}

/// The packets have so many entries and so many bytes, one after another.
fn are_packed(
    rt: &impl Abort,
    there: &mut LinkEnd,
    sent: &SentList,
    packets: &[(usize, usize)],
) -> Result<(), Fail>
    requires { IsIdle there.old }
    ensures { OnOk result (IsIdle there.new) }
{
    assert_eq!(rt; sent.len(), packets.len());
    'packets: for (packet, (entries, bytes)) in sent.as_slice().iter().zip(packets) {
        assert_eq!(rt; packet.bytes.as_slice().len(), *bytes);
        let Ok(arrival) = take(there, packet.bytes.as_slice()) else {
            return Err(Fail::from("refused"));
        };
        assert_eq!(rt; arrival.number, packet.number);
        assert_eq!(rt; arrival.entries.len(), *entries);
    }
    Ok(())
}

/// One packet was sent, which has these bytes.
fn has_bytes(rt: &impl Abort, sent: &SentList, bytes: &[u8]) -> Result<(), Fail> {
    assert_eq!(rt; sent.len(), 1);
    for packet in sent.as_slice() {
        assert_eq!(rt; packet.bytes.as_slice(), bytes);
    }
    Ok(())
}

/// An end with this budget offers so many bunches in a tick, of which so many go, in these packets.
fn packs(
    rt: &impl Abort,
    alloc: Global,
    version: Version,
    budget: u32,
    bits: usize,
    offers: u32,
    packed: u32,
    packets: &[(usize, usize)],
) -> Result<(), Fail> {
    assert!(rt; budget >= 1 && budget <= 1_000_000 && bits <= 7000);
    let mut here = new_end(alloc, version, budget)?;
    let mut there = new_end(alloc, version, 1)?;
    let (count, sent) = tick(rt, &mut here, bits, offers)?;
    assert_eq!(rt; count, packed);
    are_packed(rt, &mut there, &sent, packets)?;
    Ok(())
}

/// An end that took a packet answers with these bytes, though nothing is offered.
fn answers(rt: &impl Abort, alloc: Global, version: Version, bytes: &[u8]) -> Result<(), Fail> {
    let mut here = new_end(alloc, version, 1)?;
    let mut there = new_end(alloc, version, 1)?;
    let (_, sent) = tick(rt, &mut here, 0, 1)?;
    for packet in sent.as_slice() {
        let Ok(_) = take(&mut there, packet.bytes.as_slice()) else {
            return Err(Fail::from("refused"));
        };
    }
    assert_eq!(rt; there.top(), 1);
    let (_, answer) = tick(rt, &mut there, 0, 0)?;
    has_bytes(rt, &answer, bytes)?;
    are_packed(rt, &mut here, &answer, &[(1, bytes.len())])?;
    Ok(())
}

/// An end that sent a packet asks with these bytes in the eighth tick after it, and in none before.
fn asks(rt: &impl Abort, alloc: Global, version: Version, bytes: &[u8]) -> Result<(), Fail> {
    let mut here = new_end(alloc, version, 1)?;
    let (_, sent) = tick(rt, &mut here, 0, 1)?;
    assert_eq!(rt; sent.len(), 1);
    'silent: for _ in 0..7u32 {
        let (_, sent) = tick(rt, &mut here, 0, 0)?;
        assert_eq!(rt; sent.len(), 0);
    }
    let (_, sent) = tick(rt, &mut here, 0, 0)?;
    has_bytes(rt, &sent, bytes)?;
    Ok(())
}

/// An end that hears nothing stalls after so many ticks of so many packets, and one of the last
/// ones.
fn stalls(
    rt: &impl Abort,
    alloc: Global,
    version: Version,
    ticks: u32,
    packets: usize,
    last: usize,
) -> Result<(), Fail> {
    let mut here = new_end(alloc, version, 1_000_000)?;
    'unheard: for _ in 0..ticks {
        let (_, sent) = tick(rt, &mut here, 7000, 200)?;
        assert_eq!(rt; sent.len(), packets);
        assert!(rt; !here.stalled());
    }
    let (_, sent) = tick(rt, &mut here, 7000, 200)?;
    assert_eq!(rt; sent.len(), last);
    assert!(rt; here.stalled());
    Ok(())
}

#[test]
fn packets_hold_the_bunches_that_fit(rt: HostRuntime) -> Result<(), Fail> {
    let (one, two) = (Version::One, Version::Two);
    // bunches of 72 bits
    packs(
        &rt,
        rt.alloc(),
        one,
        100_000,
        25,
        255,
        255,
        &[(113, 1019), (113, 1019), (29, 263)],
    )?;
    packs(
        &rt,
        rt.alloc(),
        two,
        100_000,
        32,
        255,
        255,
        &[(112, 1016), (112, 1016), (31, 287)],
    )?;
    // bunches of 344 bits, and a budget for one packet
    packs(&rt, rt.alloc(), one, 1, 297, 40, 23, &[(23, 991)])?;
    packs(&rt, rt.alloc(), one, 1, 297, 17, 17, &[(17, 733)])?;
    Ok(())
}

#[test]
fn a_packet_begins_while_those_before_it_are_below_the_budget(rt: HostRuntime) -> Result<(), Fail> {
    let (one, two) = (Version::One, Version::Two);
    packs(&rt, rt.alloc(), one, 1, 4000, 9, 2, &[(2, 1014)])?;
    packs(&rt, rt.alloc(), one, 8112, 4000, 9, 2, &[(2, 1014)])?;
    packs(
        &rt,
        rt.alloc(),
        one,
        8113,
        4000,
        9,
        4,
        &[(2, 1014), (2, 1014)],
    )?;
    packs(
        &rt,
        rt.alloc(),
        one,
        16224,
        4000,
        9,
        4,
        &[(2, 1014), (2, 1014)],
    )?;
    packs(
        &rt,
        rt.alloc(),
        one,
        16225,
        4000,
        9,
        6,
        &[(2, 1014), (2, 1014), (2, 1014)],
    )?;
    packs(&rt, rt.alloc(), two, 8144, 4000, 9, 2, &[(2, 1018)])?;
    packs(
        &rt,
        rt.alloc(),
        two,
        8145,
        4000,
        9,
        4,
        &[(2, 1018), (2, 1018)],
    )?;
    Ok(())
}

#[test]
fn a_packet_taken_is_answered(rt: HostRuntime) -> Result<(), Fail> {
    // an acknowledgement of 1
    answers(&rt, rt.alloc(), Version::One, &[0x01, 0xc0, 0x00, 0x20])?;
    // no entries, and 1 in the head
    answers(
        &rt,
        rt.alloc(),
        Version::Two,
        &[0x01, 0x40, 0x00, 0x80, 0x00, 0x00, 0x00, 0x80],
    )?;
    Ok(())
}

#[test]
fn an_empty_packet_asks_after_eight_ticks(rt: HostRuntime) -> Result<(), Fail> {
    asks(&rt, rt.alloc(), Version::One, &[0x02, 0x40])?;
    asks(
        &rt,
        rt.alloc(),
        Version::Two,
        &[0x02, 0x00, 0x00, 0x00, 0x00, 0x00, 0x00, 0x80],
    )?;
    Ok(())
}

#[test]
fn an_end_stalls_at_4096_open_packets(rt: HostRuntime) -> Result<(), Fail> {
    // 28 * 142 + 120, and 29 * 141 + 7
    stalls(&rt, rt.alloc(), Version::One, 28, 142, 120)?;
    stalls(&rt, rt.alloc(), Version::Two, 29, 141, 7)?;
    Ok(())
}
