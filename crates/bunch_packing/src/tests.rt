// That bunches go in their order, in the packets that were meant: by their bytes, their sizes and
// the ticks in which they go.
ghost use Rattle.std.specs.Prelude.{◌≡◌, ◌+◌, ◌<◌, ◌≤◌, ◌^◌, [], true, IfOk, OnOk};
ghost use Rattle.protocol_model.specs.Limits.{budget_limit};
ghost use Rattle.bunch_packing.specs.Trials.{AreIdle, AreFresh, ArePacking, AreEnding};

use super::*;
use bit_io::{BitWriter, Bits, Memory};
use channel_table::{ChannelTable, Mark};
use link_end::{LinkEnd, SentList, Version};
use std::alloc::Global;
use std::process::Abort;
use std::test::Fail;

/// A payload without bits, as that of a close.
fn no_bits(alloc: Global) -> Result<Bits, Memory>
    ensures { IfOk result (λ bits. bits ≡ []) }
{
    Ok(BitWriter::with_room(alloc, 0)?.into_bits())
}

fn begin(link: &mut LinkEnd, table: &ChannelTable) -> Result<(), Memory>
    requires { AreIdle link.old table.now }
    ensures { OnOk result (AreFresh link.new table.now) }
{
    if link.stalled() {
        return Err(Memory);
    }
    link.begin_tick()?;
    Ok(())
}

/// Makes a close on channel 1, where there is room for one.
fn close(alloc: Global, link: &LinkEnd, table: &mut ChannelTable) -> Result<(), Memory>
    requires fresh { AreFresh link.now table.old }
    requires few { table.old.made.count < 2 ^ 60 }
    ensures fresh { OnOk result (AreFresh link.now table.new) }
    ensures count { OnOk result (table.new.made.count ≡ table.old.made.count + 1) }
{
    if table.room(1) == 0 {
        return Err(Memory);
    }
    let payload = no_bits(alloc)?;
    push(table, 1, Mark::Closes { sleeps: false }, payload)?;
    Ok(())
}

/// Offers so many unreliable bunches on channel 3, up to the first that finds no room, and answers
/// how many were packed.
fn fill(alloc: Global, link: &mut LinkEnd, table: &ChannelTable, offers: u32) -> Result<u32, Memory>
    requires { ArePacking link.old table.now }
    ensures { OnOk result (AreEnding link.new table.now) }
{
    let payload = no_bits(alloc)?;
    for count in 0..offers {
        let Some(_) = offer_loose(link, 3, payload.lend())? else {
            return Ok(count);
        };
    }
    Ok(offers)
}

fn end(link: &mut LinkEnd, table: &ChannelTable) -> Result<SentList, Memory>
    requires { AreEnding link.old table.now }
    ensures { OnOk result (AreIdle link.new table.now) }
{
    let sent = link.end_tick()?;
    Ok(sent)
}

/// Offers all that is due.
fn due(link: &mut LinkEnd, table: &mut ChannelTable) -> Result<bool, Memory>
    requires { AreFresh link.old table.old }
    ensures ready { IfOk result (λ kept. kept ≡ true → ArePacking link.new table.new) }
    ensures ending { OnOk result (AreEnding link.new table.new) }
    ensures count { table.new.made.count ≡ table.old.made.count }
{
    let kept = offer_due(link, table)?;
    Ok(kept)
}

/// Offers what is due, and then so many unreliable bunches: whether all that was due was packed,
/// and how many of the others were.
fn offer_all(
    alloc: Global,
    link: &mut LinkEnd,
    table: &mut ChannelTable,
    loose: u32,
) -> Result<(bool, u32), Memory>
    requires { AreFresh link.old table.old }
    ensures ending { OnOk result (AreEnding link.new table.new) }
    ensures count { table.new.made.count ≡ table.old.made.count }
{
    if !due(link, table)? {
        return Ok((false, 0));
    }
    let packed = fill(alloc, link, table, loose)?;
    Ok((true, packed))
}

/// A tick that makes so many closes, offers what is due, and then so many unreliable bunches:
/// whether all that was due was packed, how many of the others were, and the packets.
fn tick(
    alloc: Global,
    link: &mut LinkEnd,
    table: &mut ChannelTable,
    closes: u32,
    loose: u32,
) -> Result<(bool, u32, SentList), Memory>
    requires idle { AreIdle link.old table.old }
    requires few { table.old.made.count < 2 ^ 32 }
    ensures idle { OnOk result (AreIdle link.new table.new) }
    ensures count { OnOk result (table.new.made.count ≡ table.old.made.count + closes) }
{
    begin(link, table)?;
    for _ in 0..closes {
        close(alloc, link, table)?;
    }
    let (kept, packed) = offer_all(alloc, link, table, loose)?;
    let sent = end(link, table)?;
    Ok((kept, packed, sent))
}

/// An end of a server before its first tick.
fn new_both(alloc: Global, version: Version, budget: u32) -> Result<(LinkEnd, ChannelTable), Memory>
    requires least { 1 ≤ budget }
    requires most { budget ≤ budget_limit }
    ensures idle { IfOk result (λ b. AreIdle b.0 b.1) }
    ensures none { IfOk result (λ b. b.1.made.count ≡ 0) }
{
    let link = LinkEnd::new(alloc, budget, version)?;
    let table = ChannelTable::new(alloc, true)?;
    Ok((link, table))
}

/// A tick's packets are one with these bytes.
fn has_bytes(rt: &impl Abort, alloc: Global, version: Version, bytes: &[u8]) -> Result<(), Fail> {
    let (mut link, mut table) = new_both(alloc, version, 1)?;
    let (kept, packed, sent) = tick(alloc, &mut link, &mut table, 2, 1)?;
    assert!(rt; kept && packed == 1);
    assert_eq!(rt; sent.len(), 1);
    for packet in sent.as_slice() {
        assert_eq!(rt; packet.bytes.as_slice(), bytes);
    }
    Ok(())
}

/// What is packed in two ticks with room for one packet each, the first of which makes so many
/// closes, and each of which offers so many unreliable bunches.
fn packs(
    rt: &impl Abort,
    alloc: Global,
    version: Version,
    closes: u32,
    loose: u32,
    ticks: [(bool, u32, usize); 2],
) -> Result<(), Fail> {
    let (mut link, mut table) = new_both(alloc, version, 1)?;
    let (kept, packed, sent) = tick(alloc, &mut link, &mut table, closes, loose)?;
    assert!(rt; kept == ticks[0].0 && packed == ticks[0].1);
    assert_eq!(rt; bytes_of(&sent), ticks[0].2);
    let (kept, packed, sent) = tick(alloc, &mut link, &mut table, 0, loose)?;
    assert!(rt; kept == ticks[1].0 && packed == ticks[1].1);
    assert_eq!(rt; bytes_of(&sent), ticks[1].2);
    Ok(())
}

/// How many bytes the last packet has.
fn bytes_of(sent: &SentList) -> usize {
    let mut bytes = 0;
    for packet in sent.as_slice() {
        bytes = packet.bytes.as_slice().len();
    }
    bytes
}

#[test]
fn due_bunches_go_before_loose_ones(rt: HostRuntime) -> Result<(), Fail> {
    has_bytes(
        &rt,
        rt.alloc(),
        Version::One,
        &[
            0x01, 0x80, 0x32, 0x00, 0x40, 0x00, 0x02, 0x00, 0xca, 0x00, 0x00, 0x02, 0x08, 0x00,
            0xc0, 0x00, 0x00, 0x00, 0x10,
        ],
    )?;
    has_bytes(
        &rt,
        rt.alloc(),
        Version::Two,
        &[
            0x01, 0x00, 0x00, 0x00, 0x00, 0x00, 0x00, 0x80, 0x52, 0x00, 0x01, 0x08, 0x00, 0x94,
            0x02, 0x10, 0x40, 0x00, 0x00, 0x06, 0x00, 0x00, 0x01,
        ],
    )?;
    Ok(())
}

#[test]
fn nothing_goes_after_a_bunch_that_found_no_room(rt: HostRuntime) -> Result<(), Fail> {
    for (version, closes, loose, ticks) in [
        (Version::One, 2, 300, [(true, 237, 1022), (true, 240, 1022)]),
        (Version::One, 170, 5, [(false, 0, 1021), (true, 5, 67)]),
        (Version::Two, 2, 400, [(true, 297, 1022), (true, 301, 1024)]),
        (Version::Two, 200, 5, [(false, 0, 1024), (true, 5, 84)]),
    ] {
        packs(&rt, rt.alloc(), version, closes, loose, ticks)?;
    }
    Ok(())
}
