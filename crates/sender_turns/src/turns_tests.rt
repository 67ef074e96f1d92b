// What no clause says of turns: that they are found with ample memory, and what scores, ties and
// due handles mean.
use crate::turns::{Turn, find_turns};
use crate::{Pair, PairList, Seen, Sight};
use bit_io::Memory;
use class_layout::{Classes, Value};
use net_core::{Guid, Handle};
use sender_records::ActorRecord;
use shadow_changes::Shadows;
use std::alloc::Global;
use std::collections::HashMap;
use std::test::Fail;

/// A relevant actor of the first class, and its health.
fn seen(alloc: Global, actor: u32, health: u8) -> Result<Seen, Memory> {
    let mut values = PairList::new(alloc);
    values.push(Pair {
        prop: Handle(4),
        value: Value::U8(health),
    })?;
    Ok(Seen {
        actor: Guid(actor),
        class: 0,
        owns: false,
        relevant: true,
        destroyed: false,
        dormant: false,
        flush: 0,
        values,
    })
}

/// The turns have these actors, places in the sight, and whether each opens.
fn are(turns: &[Turn], wanted: &[(u32, usize, bool)]) -> bool {
    if turns.len() != wanted.len() {
        return false;
    }
    for (turn, (actor, place, opens)) in turns.iter().zip(wanted.iter()) {
        if turn.actor.0 != *actor || turn.place != *place || turn.opens != *opens {
            return false;
        }
    }
    true
}

#[test]
fn who_waited_longer_goes_first_and_then_the_lower_guid(rt: HostRuntime) -> Result<(), Fail> {
    let classes = Classes::builtin(rt.alloc())?;
    let changes = Shadows::new(rt.alloc());
    let mut records = HashMap::new(rt.alloc());
    let mut sight = Sight::new(rt.alloc());
    // each actor with the tick of its first sight
    for (actor, first) in [(2, 3), (4, 1), (6, 1)] {
        let mut record = ActorRecord::new(rt.alloc(), Guid(actor));
        record.shows(first, true, false);
        if records.insert(actor, record).is_err() {
            return Err(Fail::new("no memory"));
        }
        sight.push(seen(rt.alloc(), actor, 100)?)?;
    }
    let turns = find_turns(
        rt.alloc(),
        &mut records,
        sight.as_slice(),
        3,
        &changes,
        &classes,
    )?;
    assert!(rt;
        are(
            turns.as_slice(),
            &[(4, 1, true), (6, 2, true), (2, 0, true)]
        )
    );
    Ok(())
}

/// Actor 4 stood still, and lost health at tick 2.
fn damaged(alloc: Global) -> Result<Shadows, Memory> {
    let mut changes = Shadows::new(alloc);
    let before = [Value::I32(0), Value::I32(0), Value::U8(100)];
    changes.sample(Guid(4), 1, &before)?;
    let now = [Value::I32(0), Value::I32(0), Value::U8(75)];
    changes.sample(Guid(4), 2, &now)?;
    Ok(changes)
}

#[test]
fn an_opened_actor_has_its_turn_where_a_value_changed(rt: HostRuntime) -> Result<(), Fail> {
    let classes = Classes::builtin(rt.alloc())?;
    let Some(pawn) = classes.class(0) else {
        return Err(Fail::new("the table has no class"));
    };
    let changes = damaged(rt.alloc())?;
    let mut records = HashMap::new(rt.alloc());
    let mut sight = Sight::new(rt.alloc());
    // each actor with its health at ticks 1 and 2
    for (actor, before, now) in [(2, 100, 100), (4, 100, 75)] {
        let mut record = ActorRecord::new(rt.alloc(), Guid(actor));
        record.shows(1, true, false);
        let opened = seen(rt.alloc(), actor, before)?;
        record.opens(1, 1, pawn, false, opened.values.as_slice(), 1)?;
        record.life.hears(true);
        record.shows(2, true, false);
        if records.insert(actor, record).is_err() {
            return Err(Fail::new("no memory"));
        }
        sight.push(seen(rt.alloc(), actor, now)?)?;
    }
    let turns = find_turns(
        rt.alloc(),
        &mut records,
        sight.as_slice(),
        2,
        &changes,
        &classes,
    )?;
    assert!(rt; are(turns.as_slice(), &[(4, 1, false)]));
    Ok(())
}
