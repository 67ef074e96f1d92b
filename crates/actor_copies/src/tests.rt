// That copies come, sleep, wake and go as was meant, and are found by actor and by channel.
use crate::{ActorCopy, CopyList, ReadOpen};
use class_layout::{Classes, Handle, Pair, PairList, Value};
use net_core::Guid;
use std::alloc::Global;
use std::test::Fail;

/// What is applied. An open and an update bring this x, if there is one.
#[derive(Clone, Copy)]
enum Deed {
    Open(u16, u32, Option<i32>),
    Update(u16, Option<i32>),
    Close(u16),
    Sleep(u16),
    Gone(u32),
}

fn values(alloc: Global, x: Option<i32>) -> Result<PairList, Fail> {
    let mut list = PairList::new(alloc);
    if let Some(x) = x {
        list.push(Pair {
            prop: Handle(1),
            value: Value::I32(x),
        })?;
    }
    Ok(list)
}

/// Opens, where the channel is free.
fn open(
    alloc: Global,
    classes: &Classes,
    copies: &mut CopyList,
    channel: u16,
    actor: u32,
    x: Option<i32>,
) -> Result<(), Fail> {
    if copies.on_channel(channel).is_some() || classes.count() == 0 {
        return Ok(());
    }
    let values = values(alloc, x)?;
    let read = ReadOpen {
        actor: Guid(actor),
        class: 0,
        values,
    };
    copies.open(classes, channel, read)?;
    Ok(())
}

fn apply(alloc: Global, classes: &Classes, copies: &mut CopyList, deed: Deed) -> Result<(), Fail> {
    match deed {
        Deed::Open(channel, actor, x) => open(alloc, classes, copies, channel, actor, x)?,
        Deed::Update(channel, x) => copies.update(channel, &values(alloc, x)?),
        Deed::Close(channel) => copies.close(channel, false),
        Deed::Sleep(channel) => copies.close(channel, true),
        Deed::Gone(actor) => copies.remove(Guid(actor)),
    }
    Ok(())
}

/// The copy is of this actor, on this channel, and has this x.
fn is_as(copy: &ActorCopy, actor: u32, channel: Option<u16>, x: i32) -> bool {
    copy.actor == Guid(actor)
        && copy.channel == channel
        && copy.values.len() >= 3
        && copy.values.as_slice()[0].value == Value::I32(x)
}

fn are_as(copies: &CopyList, shown: &[(u32, Option<u16>, i32)]) -> Result<bool, Fail> {
    let list = copies.in_order()?;
    let mut same = list.len() == shown.len();
    for (copy, (actor, channel, x)) in list.iter().zip(shown.iter()) {
        same = same && is_as(copy, *actor, *channel, *x);
    }
    Ok(same)
}

#[test]
fn copies_come_sleep_wake_and_go(rt: HostRuntime) -> Result<(), Fail> {
    let classes = Classes::builtin(rt.alloc())?;
    let mut copies = CopyList::new(rt.alloc());
    for (deed, shown) in [
        (Deed::Open(5, 2, Some(7)), [(2, Some(5), 7)].as_slice()),
        (
            Deed::Open(3, 6, Some(1)),
            [(2, Some(5), 7), (6, Some(3), 1)].as_slice(),
        ),
        (
            Deed::Open(9, 4, None),
            [(2, Some(5), 7), (4, Some(9), 0), (6, Some(3), 1)].as_slice(),
        ),
        (
            Deed::Update(3, Some(8)),
            [(2, Some(5), 7), (4, Some(9), 0), (6, Some(3), 8)].as_slice(),
        ),
        (
            Deed::Update(77, Some(1)),
            [(2, Some(5), 7), (4, Some(9), 0), (6, Some(3), 8)].as_slice(),
        ),
        (
            Deed::Sleep(5),
            [(2, None, 7), (4, Some(9), 0), (6, Some(3), 8)].as_slice(),
        ),
        (
            Deed::Update(5, Some(9)),
            [(2, None, 7), (4, Some(9), 0), (6, Some(3), 8)].as_slice(),
        ),
        (
            Deed::Open(11, 2, None),
            [(2, Some(11), 7), (4, Some(9), 0), (6, Some(3), 8)].as_slice(),
        ),
        (
            Deed::Close(9),
            [(2, Some(11), 7), (6, Some(3), 8)].as_slice(),
        ),
        (
            Deed::Gone(4),
            [(2, Some(11), 7), (6, Some(3), 8)].as_slice(),
        ),
        (Deed::Sleep(11), [(2, None, 7), (6, Some(3), 8)].as_slice()),
        (Deed::Gone(2), [(6, Some(3), 8)].as_slice()),
        (
            Deed::Open(9, 4, None),
            [(4, Some(9), 0), (6, Some(3), 8)].as_slice(),
        ),
    ] {
        apply(rt.alloc(), &classes, &mut copies, deed)?;
        assert!(rt; are_as(&copies, shown)?);
    }
    assert!(rt; copies.contains(Guid(6)));
    assert!(rt; !copies.contains(Guid(2)));
    assert!(rt; copies.on_channel(9).is_some());
    assert!(rt; copies.on_channel(5).is_none());
    Ok(())
}
