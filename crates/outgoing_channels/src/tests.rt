// That calls succeed with ample memory, and that the answers are those that were meant.
ghost use Rattle.std.specs.Prelude.{◌≡◌, ◌∷◌, [], true, IfOk};
ghost use Rattle.protocol_model.specs.Payload.{Message};
ghost use Rattle.connection_model.specs.Feed.{Deed};
ghost use Rattle.connection_model.specs.Bunches.{after_making};
ghost use Rattle.outgoing_channels.specs.Keeps.{KeepsMade};

use crate::{IndexSet, Mark, Memory, OutgoingChannels};
use bit_io::{BitWriter, Bits};
use partial_bunches::parts;
use protocol_model::Part;
use std::alloc::Global;
use std::test::Fail;

/// A payload without bits, as that of a close.
fn no_bits(alloc: Global) -> Result<Bits, Memory>
    ensures { IfOk result (λ bits. bits ≡ []) }
{
    Ok(BitWriter::with_room(alloc, 0)?.into_bits())
}

/// `count` bits, all of them 1.
fn ones(alloc: Global, count: usize) -> Result<Bits, Memory> {
    let mut writer = BitWriter::with_room(alloc, count)?;
    for _ in 0..count {
        if writer.spare() > 0 {
            writer.put_bit(true);
        }
    }
    Ok(writer.into_bits())
}

/// The close of actor 2 was made on channel 3, and packet 7 is begun.
fn closing(alloc: Global) -> Result<OutgoingChannels, Memory>
    ensures keeps { IfOk result (λ t. KeepsMade t
        (Deed.Sent 7 1 [] ∷ after_making [] 3 (Message.Closes 2 true))) }
    ensures high { IfOk result (λ t. t.high ≡ 0) }
{
    let mut channels = OutgoingChannels::new(alloc)?;
    let payload = no_bits(alloc)?;
    channels.push(3, Mark::Closes { sleeps: true }, payload)?;
    Ok(channels)
}

/// The same, after packet 7 carried it.
fn carried_once(alloc: Global) -> Result<OutgoingChannels, Memory>
    ensures { IfOk result (λ t. t.high ≡ 0) }
{
    let mut channels = closing(alloc)?;
    channels.carried(3, 1, 7);
    Ok(channels)
}

#[test]
fn a_payload_is_due_until_it_is_carried(rt: HostRuntime) -> Result<(), Fail> {
    let mut channels = OutgoingChannels::new(rt.alloc())?;
    assert_eq!(rt; channels.room(3), 256);
    assert_eq!(rt; channels.due(0, 0), None);
    let payload = no_bits(rt.alloc())?;
    assert_eq!(rt;
        channels.push(3, Mark::Closes { sleeps: true }, payload)?,
        1
    );
    assert_eq!(rt; channels.span(3), 1);
    assert_eq!(rt; channels.room(3), 255);
    for (channel, from, want) in [
        (0, 0, Some((3, 1))),
        (3, 1, Some((3, 1))),
        (3, 2, None),
        (4, 0, None),
    ] {
        assert_eq!(rt; channels.due(channel, from), want);
    }
    Ok(())
}

#[test]
fn what_a_lost_packet_carried_is_due_again(rt: HostRuntime) -> Result<(), Fail> {
    let mut channels = carried_once(rt.alloc())?;
    assert_eq!(rt; channels.due(0, 0), None);
    channels.moved(8);
    assert_eq!(rt; channels.due(0, 0), Some((3, 1)));
    assert_eq!(rt; channels.span(3), 1);
    Ok(())
}

#[test]
fn what_arrived_gives_room_and_leaves_its_channel(rt: HostRuntime) -> Result<(), Fail> {
    let mut channels = carried_once(rt.alloc())?;
    assert_eq!(rt; channels.active().next(0), Some(3));
    channels.moved(7);
    assert_eq!(rt; channels.due(0, 0), None);
    assert_eq!(rt; channels.span(3), 0);
    assert_eq!(rt; channels.room(3), 256);
    assert_eq!(rt; channels.active().next(0), None);
    let gone = channels.bunch(3, 1);
    assert!(rt; gone.is_none());
    Ok(())
}

#[test]
fn a_mark_goes_to_the_bunches_that_it_concerns(rt: HostRuntime) -> Result<(), Fail> {
    let mut channels = OutgoingChannels::new(rt.alloc())?;
    let payload = ones(rt.alloc(), 14_001)?;
    let bits = payload.len();
    assert!(rt; bits <= 70_000);
    let count = parts(bits);
    let room = channels.room(9);
    assert!(rt; count <= room as usize);
    let mark = Mark::Opens { exports: true };
    channels.push(9, mark, payload)?;
    assert_eq!(rt; channels.span(9), 3);
    for (number, seq, opens, part, bits) in [
        (1, 1, true, Part::First, 7000),
        (2, 2, false, Part::Middle, 7000),
        (3, 3, false, Part::Last, 1),
    ] {
        let Some(bunch) = channels.bunch(9, number) else {
            panic!(rt; "it was made");
        };
        assert!(rt; bunch.opens == opens && bunch.exports == opens && !bunch.closes);
        assert!(rt; bunch.part == part && bunch.seq == seq && bunch.channel == 9);
        assert_eq!(rt; bunch.payload.len(), bits);
    }
    Ok(())
}

#[test]
fn the_least_index_that_no_set_has_is_found(rt: HostRuntime) -> Result<(), Fail> {
    let mut bound = IndexSet::new(rt.alloc())?;
    let mut kept = IndexSet::new(rt.alloc())?;
    assert_eq!(rt; bound.least_outside(&kept), 1);
    for index in 1..8193 {
        bound.put(index, true);
    }
    assert_eq!(rt; bound.least_outside(&kept), 8193);
    kept.put(8193, true);
    assert_eq!(rt; bound.least_outside(&kept), 8194);
    assert_eq!(rt; kept.next(0), Some(8193));
    assert_eq!(rt; kept.next(8194), None);
    bound.put(5, false);
    assert_eq!(rt; bound.least_outside(&kept), 5);
    for index in 0..32_768 {
        kept.put(index, true);
    }
    assert_eq!(rt; bound.least_outside(&kept), 32_768);
    assert_eq!(rt; kept.next(32_767), Some(32_767));
    Ok(())
}
