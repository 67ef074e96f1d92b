// Worked examples: what a server sends, byte for byte.
use crate::playing::{Deed, first_other};
use class_layout::Classes;
use std::test::Fail;
use value_codec::Value;

/// A table of one class, whose only property has a switch.
const LAMP: &[u8] =
    br#"{"classes":[{"name":"Lamp","path":"/Lamp","parent":null,"relevancy":"always","cull":0,"priority":1,"properties":[{"name":"glow","type":"u8","cond":"custom","init":7}],"calls":[]}]}"#;

/// An update that was lost is made good by a later one.
const LOST_UPDATE: &[Deed<'static>] = &[
    Deed::Spawn(0, 0),
    Deed::Ticks(&[(
        1,
        "0180190024009d04020300e228acad4cc180800abb73235010000000002000000000308040c680030000000040",
    )]),
    Deed::Takes(1, "01c00020"),
    Deed::Set(2, 4, Value::U8(1)),
    Deed::Ticks(&[(1, "02c000000200640008010001")]),
    Deed::Takes(1, "02400120"),
    Deed::Set(2, 4, Value::U8(2)),
    Deed::Ticks(&[(1, "034001000200640008020001")]),
    Deed::Set(2, 1, Value::I32(5)),
    Deed::Ticks(&[(1, "040004008801040a0000000002")]),
    Deed::Takes(1, "04400220"),
    Deed::Set(2, 4, Value::U8(1)),
    Deed::Ticks(&[(1, "054002000200640008010001")]),
    Deed::Settles(1, 2, false),
    Deed::Takes(1, "05c00220"),
    Deed::Settles(1, 2, true),
];

#[test]
fn a_lost_update_is_made_good(rt: HostRuntime) -> Result<(), Fail> {
    let classes = Classes::builtin(rt.alloc())?;
    assert!(rt; first_other(rt.alloc(), &classes, 1, 8000, LOST_UPDATE)? == None);
    Ok(())
}

/// An open that was lost goes again, and later values wait for it.
const LOST_OPEN: &[Deed<'static>] = &[
    Deed::Spawn(0, 0),
    Deed::Ticks(&[(
        1,
        "0180190024009d04020300e228acad4cc180800abb73235010000000002000000000308040c680030000000040",
    )]),
    Deed::Set(2, 4, Value::U8(1)),
    Deed::Set(2, 4, Value::U8(2)),
    Deed::Set(2, 4, Value::U8(3)),
    Deed::Set(2, 4, Value::U8(4)),
    Deed::Set(2, 4, Value::U8(5)),
    Deed::Set(2, 4, Value::U8(6)),
    Deed::Set(2, 4, Value::U8(7)),
    Deed::Set(2, 4, Value::U8(8)),
    Deed::Set(2, 4, Value::U8(9)),
    Deed::Set(2, 4, Value::U8(10)),
    Deed::Quiet(7),
    Deed::Ticks(&[(1, "0240")]),
    Deed::Takes(1, "01400120"),
    Deed::Ticks(&[(
        1,
        "03c000c00c0012804e028101007114d656a660404085ddb911280800000000100000000018402063c0010000000020",
    )]),
    Deed::Takes(1, "02c00120"),
    Deed::Ticks(&[(1, "0440010002006400080a0001")]),
];

#[test]
fn an_open_that_was_lost_goes_again(rt: HostRuntime) -> Result<(), Fail> {
    let classes = Classes::builtin(rt.alloc())?;
    assert!(rt; first_other(rt.alloc(), &classes, 1, 8000, LOST_OPEN)? == None);
    Ok(())
}

/// A change of owner makes the role, and what the new owner sees, due.
const OWNERS: &[Deed<'static>] = &[
    Deed::Spawn(0, 0),
    Deed::Own(2, 1),
    Deed::Ticks(&[
        (
            1,
            "0180190024009d04020300e228acad4cc180800abb73235010000000002000000000308840a600000000c00040",
        ),
        (
            2,
            "0180190024009d04020300e228acad4cc180800abb73235010000000002000000000308040c680030000000040",
        ),
    ]),
    Deed::Takes(1, "01c00020"),
    Deed::Takes(2, "01c00020"),
    Deed::Set(2, 5, Value::U32(9)),
    Deed::Ticks(&[(1, "02c000000200c4000a090000000001"), (2, "02c00020")]),
    Deed::Own(2, 2),
    Deed::Ticks(&[
        (1, "03000400d0010c38000000000004"),
        (2, "03000400d0010c2a240000000004"),
    ]),
];

#[test]
fn a_change_of_owner_tells_each_player_its_own(rt: HostRuntime) -> Result<(), Fail> {
    let classes = Classes::builtin(rt.alloc())?;
    assert!(rt; first_other(rt.alloc(), &classes, 2, 8000, OWNERS)? == None);
    Ok(())
}

/// Actors that were out of sight for five ticks are closed.
const OUT_OF_SIGHT: &[Deed<'static>] = &[
    Deed::Spawn(600, 800),
    Deed::Spawn(600, 801),
    Deed::Spawn(-600, -800),
    Deed::Spawn(1000, 0),
    Deed::Spawn(10000, 10000),
    Deed::Ticks(&[(
        1,
        "0180190024009d04020300e228acad4cc180800abb73235010c01200002000190000308040c680030000000080290024009d04020300e228acad4cc180800abb7363501040edffff2700e7ffff378040c680030000000080390024009d04020300e228acad4cc180800abb73835010401f00002000000000308040c680030000000040",
    )]),
    Deed::View(1, 10600, 10800),
    Deed::Ticks(&[(
        1,
        "0280490024009d04020300e228acad4cc180800abb73a35010803801002080380100308040c680030000000040",
    )]),
    Deed::Quiet(3),
    Deed::Ticks(&[(1, "03803200800002004a010002080028070008200010")]),
];

#[test]
fn actors_out_of_sight_are_closed(rt: HostRuntime) -> Result<(), Fail> {
    let classes = Classes::builtin(rt.alloc())?;
    assert!(rt; first_other(rt.alloc(), &classes, 1, 100000, OUT_OF_SIGHT)? == None);
    Ok(())
}

/// A dormant actor sleeps until it is flushed, and is gone once it is destroyed.
const DORMANT: &[Deed<'static>] = &[
    Deed::Spawn(0, 0),
    Deed::Ticks(&[(
        1,
        "0180190024009d04020300e228acad4cc180800abb73235010000000002000000000308040c680030000000040",
    )]),
    Deed::Takes(1, "01c00020"),
    Deed::Dormant(2),
    Deed::Ticks(&[(1, "02c000401b0040000180")]),
    Deed::Set(2, 4, Value::U8(5)),
    Deed::Quiet(1),
    Deed::Takes(1, "02400120"),
    Deed::Set(2, 4, Value::U8(6)),
    Deed::Ticks(&[(1, "03400120")]),
    Deed::Flush(2),
    Deed::Ticks(&[(
        1,
        "048019006000cd020205010000000002000000000308060c38000000000004",
    )]),
    Deed::Takes(1, "03400220"),
    Deed::Ticks(&[(1, "05c001401b0080000180")]),
    Deed::Takes(1, "04c00220"),
    Deed::Destroy(2),
    Deed::Ticks(&[(1, "064002000100041008204010")]),
];

#[test]
fn a_dormant_actor_sleeps_until_it_is_flushed(rt: HostRuntime) -> Result<(), Fail> {
    let classes = Classes::builtin(rt.alloc())?;
    assert!(rt; first_other(rt.alloc(), &classes, 1, 8000, DORMANT)? == None);
    Ok(())
}

/// A value whose switch is off is left out, and no update waits for it.
const SWITCHED_OFF: &[Deed<'static>] = &[
    Deed::Spawn(0, 0),
    Deed::Switch(2, 4, false),
    Deed::Ticks(&[(
        1,
        "018019002400bd020103008229ac0d8ec040000000008000000000c00040",
    )]),
    Deed::Takes(1, "01c00020"),
    Deed::Set(2, 4, Value::U8(9)),
    Deed::Ticks(&[(1, "02c00020")]),
    Deed::Switch(2, 4, true),
    Deed::Ticks(&[(1, "03000400c80010120002")]),
    Deed::Switch(2, 4, false),
    Deed::Set(2, 4, Value::U8(1)),
    Deed::Takes(1, "02c00120"),
    Deed::Settles(1, 2, true),
];

#[test]
fn a_switched_off_value_is_left_out(rt: HostRuntime) -> Result<(), Fail> {
    let classes = Classes::read(rt.alloc(), LAMP)?;
    assert!(rt; first_other(rt.alloc(), &classes, 1, 8000, SWITCHED_OFF)? == None);
    Ok(())
}

/// A value that came back is sent where one between was lost.
const CAME_BACK: &[Deed<'static>] = &[
    Deed::Spawn(0, 0),
    Deed::Ticks(&[(
        1,
        "0180190024009d04020300e228acad4cc180800abb73235010000000002000000000308040c680030000000040",
    )]),
    Deed::Takes(1, "01c00020"),
    Deed::Set(2, 4, Value::U8(1)),
    Deed::Ticks(&[(1, "02c000000200640008010001")]),
    Deed::Takes(1, "02400120"),
    Deed::Set(2, 4, Value::U8(2)),
    Deed::Ticks(&[(1, "034001000200640008020001")]),
    Deed::Set(2, 4, Value::U8(1)),
    Deed::Ticks(&[(1, "04000400c80010020002")]),
    Deed::Takes(1, "03400220"),
    Deed::Ticks(&[(1, "05c00120")]),
    Deed::Settles(1, 2, true),
    Deed::Takes(1, "04c00220"),
    Deed::Settles(1, 2, true),
];

#[test]
fn a_value_that_came_back_is_sent_where_another_was_lost(rt: HostRuntime) -> Result<(), Fail> {
    let classes = Classes::builtin(rt.alloc())?;
    assert!(rt; first_other(rt.alloc(), &classes, 1, 8000, CAME_BACK)? == None);
    Ok(())
}

/// Opens that find no room in a tick's budget go in the next one.
const MANY_OPENS: &[Deed<'static>] = &[
    Deed::Spawns(40),
    Deed::Sends(&[(1, 991)]),
    Deed::Sends(&[(1, 733)]),
    Deed::Quiet(1),
];

#[test]
fn opens_fill_a_packet_and_go_on(rt: HostRuntime) -> Result<(), Fail> {
    let classes = Classes::builtin(rt.alloc())?;
    assert!(rt; first_other(rt.alloc(), &classes, 1, 1, MANY_OPENS)? == None);
    Ok(())
}
