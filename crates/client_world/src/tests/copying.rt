// What datagrams do to copies, and which calls they hand over.
use crate::tests::deeds::{Deed, first_wrong};
use crate::tests::drafts::{Sketch, loose, sure};
use crate::tests::{GONE, HALF, HURT, MORE, OPEN};
use crate::{Classes, Verdict};
use protocol_model::{Cause, Why};
use std::process::Abort;
use std::test::Fail;

#[test]
fn the_first_packet_makes_a_copy(rt: HostRuntime) -> Result<(), Fail> {
    let classes = Classes::builtin(rt.alloc())?;
    let why = Why::Empty;
    let deeds = [
        Deed::Has(0, 0),
        Deed::Empty(Verdict::Malformed { at: 0, why }),
        Deed::First(Verdict::Taken { number: 1 }),
        Deed::Has(1, 1),
        Deed::Pawn(Some((10, -3, 75))),
        Deed::First(Verdict::Old { number: 1, last: 1 }),
        Deed::Has(1, 1),
    ];
    assert!(rt; first_wrong(rt.alloc(), &classes, &deeds)?.is_none());
    Ok(())
}

/// What is said of the first packet, cut after each number of bytes.
const CUTS: [(usize, Why); 44] = [
    (0, Why::Short),
    (15, Why::Short),
    (20, Why::Short),
    (24, Why::NoEnd),
    (37, Why::Short),
    (40, Why::NoEnd),
    (55, Why::Short),
    (58, Why::Short),
    (65, Why::Short),
    (73, Why::Short),
    (80, Why::NoEnd),
    (95, Why::Short),
    (101, Why::Short),
    (111, Why::Short),
    (119, Why::Short),
    (126, Why::Short),
    (135, Why::Short),
    (143, Why::Short),
    (151, Why::Short),
    (155, Why::Short),
    (167, Why::Short),
    (174, Why::Short),
    (181, Why::Short),
    (190, Why::Short),
    (196, Why::Short),
    (206, Why::Short),
    (208, Why::NoEnd),
    (216, Why::NoEnd),
    (224, Why::NoEnd),
    (237, Why::Short),
    (247, Why::Short),
    (255, Why::Short),
    (263, Why::Short),
    (271, Why::Short),
    (277, Why::Short),
    (287, Why::Short),
    (295, Why::Short),
    (303, Why::Short),
    (311, Why::Short),
    (313, Why::Short),
    (320, Why::NoEnd),
    (328, Why::NoEnd),
    (336, Why::NoEnd),
    (344, Why::NoEnd),
];

#[test]
fn a_packet_that_was_cut_is_malformed(rt: HostRuntime) -> Result<(), Fail> {
    let classes = Classes::builtin(rt.alloc())?;
    let deeds = [
        Deed::Cuts(&CUTS),
        Deed::First(Verdict::Taken { number: 1 }),
        Deed::Pawn(Some((10, -3, 75))),
    ];
    assert!(rt; first_wrong(rt.alloc(), &classes, &deeds)?.is_none());
    Ok(())
}

#[test]
fn an_old_packet_puts_no_old_value_back(rt: HostRuntime) -> Result<(), Fail> {
    let classes = Classes::builtin(rt.alloc())?;
    let deeds = [
        Deed::First(Verdict::Taken { number: 1 }),
        Deed::Hears(3, loose(1, &MORE), Verdict::Taken { number: 3 }),
        Deed::Hears(2, loose(1, &HALF), Verdict::Old { number: 2, last: 3 }),
        Deed::Pawn(Some((10, -3, 60))),
    ];
    assert!(rt; first_wrong(rt.alloc(), &classes, &deeds)?.is_none());
    Ok(())
}

#[test]
fn a_reliable_call_is_handed_over_once(rt: HostRuntime) -> Result<(), Fail> {
    let classes = Classes::builtin(rt.alloc())?;
    let deeds = [
        Deed::First(Verdict::Taken { number: 1 }),
        Deed::Hands(2, sure(1, 2, &HURT), 1),
        Deed::Hands(3, sure(1, 2, &HURT), 0),
        Deed::Hands(4, sure(1, 3, &HURT), 1),
    ];
    assert!(rt; first_wrong(rt.alloc(), &classes, &deeds)?.is_none());
    Ok(())
}

#[test]
fn a_copy_sleeps_and_is_gone(rt: HostRuntime) -> Result<(), Fail> {
    let classes = Classes::builtin(rt.alloc())?;
    let sleeping = Sketch {
        closes: true,
        sleeps: true,
        ..sure(1, 2, &[])
    };
    let unknown = Cause::UnknownGuid { guid: 2 };
    let deeds = [
        Deed::First(Verdict::Taken { number: 1 }),
        Deed::Hears(2, sleeping, Verdict::Taken { number: 2 }),
        Deed::Pawn(Some((10, -3, 75))),
        Deed::Hears(3, sure(0, 1, &GONE), Verdict::Taken { number: 3 }),
        Deed::Has(0, 3),
        Deed::Hears(4, sure(0, 2, &GONE), Verdict::Closed(unknown)),
    ];
    assert!(rt; first_wrong(rt.alloc(), &classes, &deeds)?.is_none());
    Ok(())
}

#[test]
fn a_copy_that_comes_again_begins_anew(rt: HostRuntime) -> Result<(), Fail> {
    let classes = Classes::builtin(rt.alloc())?;
    let closing = Sketch {
        closes: true,
        ..sure(1, 2, &[])
    };
    let opening = Sketch {
        opens: true,
        ..sure(1, 3, &OPEN)
    };
    let deeds = [
        Deed::First(Verdict::Taken { number: 1 }),
        Deed::Hears(2, closing, Verdict::Taken { number: 2 }),
        Deed::Pawn(None),
        Deed::Hears(3, opening, Verdict::Taken { number: 3 }),
        Deed::Pawn(Some((0, 0, 100))),
    ];
    assert!(rt; first_wrong(rt.alloc(), &classes, &deeds)?.is_none());
    Ok(())
}
