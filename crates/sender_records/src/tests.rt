// That records say what was meant, and that calls succeed with ample memory.
use crate::{ActorRecord, ActorState};
use class_layout::{Classes, Pair, Value};
use net_core::{Guid, Handle};
use shadow_changes::Change;
use std::test::Fail;

fn hp(value: u8) -> [Pair; 2] {
    [
        Pair {
            prop: Handle(3),
            value: Value::Bool(false),
        },
        Pair {
            prop: Handle(4),
            value: Value::U8(value),
        },
    ]
}

fn hp_changed(tick: u64) -> [Change; 1] {
    [Change {
        prop: Handle(4),
        tick,
    }]
}

#[test]
fn a_changed_value_is_due_until_an_update_carries_it(rt: HostRuntime) -> Result<(), Fail> {
    let classes = Classes::builtin(rt.alloc())?;
    let Some(pawn) = classes.class(0) else {
        return Err(Fail::new("the table has no class"));
    };
    let mut record = ActorRecord::new(rt.alloc(), Guid(2));
    record.shows(1, true, false);
    record.opens(1, 1, pawn, false, &hp(100), 0)?;
    record.handles.compares(2, pawn, false, &hp(100), &[])?;
    assert!(rt; !record.handles.is_marked(Handle(4)));
    record
        .handles
        .compares(3, pawn, false, &hp(75), &hp_changed(3))?;
    assert!(rt; record.handles.is_marked(Handle(4)));
    assert_eq!(rt; record.handles.compared(), 3);
    Ok(())
}

#[test]
fn a_value_is_due_again_once_its_packet_is_lost(rt: HostRuntime) -> Result<(), Fail> {
    let classes = Classes::builtin(rt.alloc())?;
    let Some(pawn) = classes.class(0) else {
        return Err(Fail::new("the table has no class"));
    };
    let mut record = ActorRecord::new(rt.alloc(), Guid(2));
    record.shows(1, true, false);
    record.opens(1, 1, pawn, false, &hp(1), 0)?;
    // to 2 in packet 5, which is lost, and back to 1
    let values = hp(2);
    record
        .handles
        .compares(2, pawn, false, &values, &hp_changed(2))?;
    assert!(rt; record.handles.is_marked(Handle(4)));
    record.carries(2, 5, &values);
    assert!(rt; !record.handles.is_marked(Handle(4)));
    record.moves(4, 6, true);
    // the client has 1 from the open, and the definition sends it again all the same
    let values = hp(1);
    record
        .handles
        .compares(3, pawn, false, &values, &hp_changed(3))?;
    assert!(rt; record.handles.is_marked(Handle(4)));
    record.carries(3, 7, &values);
    assert!(rt; !record.handles.has_arrived(&values[1], true));
    record.moves(6, 7, true);
    assert!(rt; record.handles.has_arrived(&values[1], true));
    Ok(())
}

#[test]
fn an_open_that_arrives_is_opened_and_a_dormant_close_sleeps(rt: HostRuntime) -> Result<(), Fail> {
    let mut record = ActorRecord::new(rt.alloc(), Guid(2));
    record.life.opens(1);
    assert!(rt; record.life.state == ActorState::Opening);
    record.moves(0, 1, true);
    assert!(rt; record.life.state == ActorState::Opened);
    record.closes(true, 7);
    record.moves(1, 2, false);
    assert!(rt; record.life.state == ActorState::Closing);
    record.moves(2, 3, true);
    assert!(rt; record.life.is_quiet(true, 7) && !record.life.is_quiet(true, 8));
    assert!(rt; record.life.index.is_none());
    Ok(())
}

#[test]
fn idle_ticks_and_waited_ticks_count_from_the_last_sight(rt: HostRuntime) {
    let mut record = ActorRecord::new(rt.alloc(), Guid(2));
    record.shows(4, true, true);
    record.shows(6, true, false);
    assert_eq!(rt; record.service.idle(9), 3);
    assert_eq!(rt; record.service.waited(9), 6);
    assert!(rt; !record.service.owned(6));
}
