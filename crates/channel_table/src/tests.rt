// Channels of a server and of a client as their layers above use them.
ghost use Rattle.std.specs.Prelude.{◌≡◌, ◌<◌, ◌≤◌, ◌∷◌, [], true, IfOk};
ghost use Rattle.protocol_model.specs.Limits.{channels_two};
ghost use Rattle.protocol_model.specs.Side.{AtServer};
ghost use Rattle.protocol_model.specs.Payload.{Message};
ghost use Rattle.connection_model.specs.Feed.{Deed};
ghost use Rattle.connection_model.specs.Bunches.{after_making};
ghost use Rattle.channel_table.specs.Keeps.{Keeps};

use crate::laws::unseen_by_the_table;
use crate::{Bunch, Cause, ChannelTable, FateMove, Mark};
use bit_io::{BitWriter, Bits, Memory};
use net_core::Guid;
use protocol_model::Part;
use std::alloc::Global;
use std::test::Fail;

/// A payload without bits, as that of a close.
fn no_bits(alloc: Global) -> Result<Bits, Memory>
    ensures { IfOk result (λ bits. bits ≡ []) }
{
    Ok(BitWriter::with_room(alloc, 0)?.into_bits())
}

/// At a server the close of actor 2 was made on channel 1, and packet 7 is begun.
fn closing(alloc: Global) -> Result<ChannelTable, Memory>
    ensures { IfOk result (λ t. Keeps t AtServer
        (Deed.Sent 7 1 [] ∷ after_making [] 1 (Message.Closes 2 true))) }
{
    unseen_by_the_table();
    let mut table = ChannelTable::new(alloc, true)?;
    let payload = no_bits(alloc)?;
    table.push(1, Mark::Closes { sleeps: true }, payload)?;
    Ok(table)
}

/// The same, after packet 7 carried it.
fn carried_once(alloc: Global) -> Result<ChannelTable, Memory>
    ensures { IfOk result (λ t. t.high ≡ 0) }
{
    let mut table = closing(alloc)?;
    table.carried(1, 1, 7);
    Ok(table)
}

#[test]
fn an_index_is_used_again_once_all_on_it_has_arrived(rt: HostRuntime) -> Result<(), Fail> {
    for (to, due, span, free) in [(8, Some((1, 1)), 1, 2), (7, None, 0, 1)] {
        let mut table = carried_once(rt.alloc())?;
        assert!(rt; table.due(0, 0).is_none() && table.free_index() == 2);
        table.moved(FateMove { from: 0, to });
        assert!(rt; table.due(0, 0) == due && table.span(1) == span);
        assert!(rt; table.free_index() == free);
    }
    Ok(())
}

#[test]
fn a_bound_index_is_not_free(rt: HostRuntime) -> Result<(), Fail> {
    let mut table = ChannelTable::new(rt.alloc(), true)?;
    assert!(rt; table.free_index() == 1 && table.actor_at(1).is_none());
    assert!(rt; table.channel_of(Guid(2)).is_none());
    table.bind(1, Guid(2))?;
    assert!(rt; table.free_index() == 2 && table.actor_at(1) == Some(Guid(2)));
    assert!(rt; table.channel_of(Guid(2)) == Some(1));
    table.unbind(1);
    assert!(rt; table.free_index() == 1 && table.actor_at(1).is_none());
    assert!(rt; table.channel_of(Guid(2)).is_none());
    Ok(())
}

/// Binds a channel to an actor where both are free.
fn bind_free(table: &mut ChannelTable, channel: u16, actor: Guid) -> Result<bool, Memory>
    requires index { 1 ≤ channel }
    requires most { channel < channels_two }
{
    if table.actor_at(channel).is_none() && table.channel_of(actor).is_none() {
        table.bind(channel, actor)?;
        return Ok(true);
    }
    Ok(false)
}

#[test]
fn a_channel_that_is_given_up_leaves_the_others_bound(rt: HostRuntime) -> Result<(), Fail> {
    let mut table = ChannelTable::new(rt.alloc(), true)?;
    for (channel, actor) in [(1, 11), (2, 12), (3, 13), (4, 14)] {
        assert!(rt; bind_free(&mut table, channel, Guid(actor))?);
    }
    table.unbind(2);
    assert!(rt; bind_free(&mut table, 2, Guid(20))?);
    table.unbind(1);
    for (channel, actor) in [(2, 20), (3, 13), (4, 14)] {
        assert!(rt; table.actor_at(channel) == Some(Guid(actor)));
        assert!(rt; table.channel_of(Guid(actor)) == Some(channel));
    }
    for actor in [11, 12] {
        assert!(rt; table.channel_of(Guid(actor)).is_none());
    }
    assert!(rt; table.free_index() == 1);
    Ok(())
}

/// Queues a call without bits for actor 2.
fn queue_one(table: &mut ChannelTable, alloc: Global, call: u16) -> Result<bool, Memory> {
    let payload = no_bits(alloc)?;
    let kept = table.queue(Guid(2), call, payload)?;
    Ok(kept)
}

/// The number of the call that waits at a place.
fn waits_at(table: &ChannelTable, place: usize) -> Option<u16> {
    match table.waiting(place) {
        Some(waiting) => Some(waiting.call),
        None => None,
    }
}

#[test]
fn a_257th_call_does_not_wait(rt: HostRuntime) -> Result<(), Fail> {
    let mut table = ChannelTable::new(rt.alloc(), false)?;
    for call in 1..257u16 {
        assert!(rt; queue_one(&mut table, rt.alloc(), call)?);
    }
    assert!(rt; !queue_one(&mut table, rt.alloc(), 257)?);
    for (place, call) in [(0, Some(1)), (255, Some(256)), (256, None)] {
        assert!(rt; waits_at(&table, place) == call);
    }
    table.clear_waiting();
    assert!(rt; table.waiting(0).is_none());
    assert!(rt; queue_one(&mut table, rt.alloc(), 257)?);
    Ok(())
}

#[test]
fn a_client_has_a_channel_from_its_open_on(rt: HostRuntime) -> Result<(), Fail> {
    let mut table = ChannelTable::new(rt.alloc(), false)?;
    let payload = no_bits(rt.alloc())?;
    let opening = Bunch {
        opens: true,
        closes: false,
        sleeps: false,
        reliable: true,
        channel: 1,
        exports: false,
        part: Part::Whole,
        seq: 1,
        kind: 2,
        payload: payload.lend(),
    };
    let update = Bunch {
        opens: false,
        reliable: false,
        seq: 0,
        kind: 0,
        ..opening
    };
    let early = table.receive(&update)?;
    assert!(rt; early.cause == Some(Cause::BadChannel { channel: 1 }) && early.whole.is_empty());
    let first = table.receive(&opening)?;
    assert!(rt; first.cause.is_none() && first.whole.len() == 1);
    let second = table.receive(&update)?;
    assert!(rt; second.cause.is_none() && second.whole.len() == 1);
    let again = table.receive(&opening)?;
    assert!(rt; again.cause.is_none() && again.whole.is_empty());
    Ok(())
}
