// Datagrams that end a client, by each cause.
use crate::tests::deeds::{Deed, first_wrong};
use crate::tests::drafts::{Sketch, loose, part_of, sure};
use crate::tests::{HALF, HURT, NO_VALUE, OPEN, OTHER_GONE, PAWN};
use crate::{CallAnswer, Classes, Memory, Verdict};
use protocol_model::{Cause, Part, PartWhy};
use std::alloc::Global;
use std::process::Abort;
use std::test::Fail;

/// The first packet.
const START: Deed<'static> = Deed::First(Verdict::Taken { number: 1 });

/// The bunch closes by this cause, as the second packet that the client takes.
fn closes(
    alloc: Global,
    classes: &Classes,
    bunch: Sketch<'_>,
    cause: Cause,
) -> Result<bool, Memory> {
    let deeds = [START, Deed::Hears(2, bunch, Verdict::Closed(cause))];
    Ok(first_wrong(alloc, classes, &deeds)?.is_none())
}

#[test]
fn bunches_that_break_a_rule_close(rt: HostRuntime) -> Result<(), Fail> {
    let classes = Classes::builtin(rt.alloc())?;
    let opening = Sketch {
        opens: true,
        ..sure(2, 1, &OPEN)
    };
    let cases = [
        (loose(9, &HALF), Cause::BadChannel { channel: 9 }),
        (sure(9, 1, &HURT), Cause::BadChannel { channel: 9 }),
        (loose(1, &NO_VALUE), Cause::BadPayload { channel: 1, at: 1 }),
        (sure(0, 1, &OTHER_GONE), Cause::UnknownGuid { guid: 4 }),
        (opening, Cause::Clash { guid: 2 }),
    ];
    for (bunch, cause) in cases {
        assert!(rt; closes(rt.alloc(), &classes, bunch, cause)?);
    }
    Ok(())
}

#[test]
fn parts_that_join_nothing_close(rt: HostRuntime) -> Result<(), Fail> {
    let classes = Classes::builtin(rt.alloc())?;
    let closing = Sketch {
        closes: true,
        ..part_of(1, 2, Part::First, 0)
    };
    let cases = [
        (part_of(0, 1, Part::Whole, 7001), PartWhy::Oversize),
        (part_of(0, 1, Part::Lone, 8), PartWhy::Lone),
        (closing, PartWhy::Flags),
        (part_of(0, 1, Part::Last, 8), PartWhy::NoFirst),
        (part_of(0, 1, Part::First, 6999), PartWhy::FewBits),
    ];
    for (bunch, why) in cases {
        let channel = bunch.channel;
        let cause = Cause::BadPart { channel, why };
        assert!(rt; closes(rt.alloc(), &classes, bunch, cause)?);
    }
    Ok(())
}

/// The second bunch of a packet closes, as a part that doesn't join the first one.
fn closes_behind<'x>(
    alloc: Global,
    classes: &Classes,
    first: Sketch<'x>,
    last: Sketch<'x>,
    why: PartWhy,
) -> Result<bool, Memory> {
    let channel = last.channel;
    let said = Verdict::Closed(Cause::BadPart { channel, why });
    let deeds = [START, Deed::HearsTwo(2, first, last, said)];
    Ok(first_wrong(alloc, classes, &deeds)?.is_none())
}

#[test]
fn parts_behind_a_first_one_close(rt: HostRuntime) -> Result<(), Fail> {
    let classes = Classes::builtin(rt.alloc())?;
    let first = part_of(0, 1, Part::First, 7000);
    let opening = Sketch {
        opens: true,
        ..part_of(2, 1, Part::First, 7000)
    };
    let again = Sketch {
        opens: true,
        ..part_of(2, 2, Part::Middle, 0)
    };
    let cases = [
        (first, part_of(0, 2, Part::First, 0), PartWhy::Restart),
        (first, part_of(0, 2, Part::Whole, 0), PartWhy::Inside),
        (opening, again, PartWhy::Opens),
    ];
    for (first, last, why) in cases {
        assert!(rt; closes_behind(rt.alloc(), &classes, first, last, why)?);
    }
    Ok(())
}

#[test]
fn what_was_not_sent_and_what_is_too_much_closes(rt: HostRuntime) -> Result<(), Fail> {
    let classes = Classes::builtin(rt.alloc())?;
    let bad = Cause::BadAck { acked: 5, sent: 0 };
    let deeds = [START, Deed::Acks(2, 5, Verdict::Closed(bad))];
    assert!(rt; first_wrong(rt.alloc(), &classes, &deeds)?.is_none());
    let why = PartWhy::TooMany;
    let said = Verdict::Closed(Cause::BadPart { channel: 0, why });
    let last = part_of(0, 11, Part::Last, 8);
    let deeds = [START, Deed::TenParts, Deed::Hears(12, last, said)];
    assert!(rt; first_wrong(rt.alloc(), &classes, &deeds)?.is_none());
    Ok(())
}

#[test]
fn the_513th_bunch_past_gaps_closes(rt: HostRuntime) -> Result<(), Fail> {
    let classes = Classes::builtin(rt.alloc())?;
    // Bunches 2 to 501 of channel 0, which wait for its first one, and then 3 to 14 of channel 1.
    let deeds = [
        START,
        Deed::Holds(2, 0, 2, Verdict::Taken { number: 2 }),
        Deed::Holds(3, 0, 102, Verdict::Taken { number: 3 }),
        Deed::Holds(4, 0, 202, Verdict::Taken { number: 4 }),
        Deed::Holds(5, 0, 302, Verdict::Taken { number: 5 }),
        Deed::Holds(6, 0, 402, Verdict::Taken { number: 6 }),
        Deed::Holds(7, 1, 3, Verdict::Closed(Cause::Overrun { channel: 1 })),
    ];
    assert!(rt; first_wrong(rt.alloc(), &classes, &deeds)?.is_none());
    Ok(())
}

#[test]
fn the_8193rd_copy_closes(rt: HostRuntime) -> Result<(), Fail> {
    let classes = Classes::builtin(rt.alloc())?;
    let deeds = [
        START,
        Deed::Crowds(129, Verdict::Closed(Cause::ActorsFull)),
        Deed::Has(8192, 129),
    ];
    assert!(rt; first_wrong(rt.alloc(), &classes, &deeds)?.is_none());
    Ok(())
}

#[test]
fn a_dead_client_does_nothing(rt: HostRuntime) -> Result<(), Fail> {
    let classes = Classes::builtin(rt.alloc())?;
    let said = Verdict::Closed(Cause::BadChannel { channel: 9 });
    let deeds = [
        START,
        Deed::Hears(2, loose(9, &HALF), said),
        Deed::Hears(3, loose(1, &HALF), Verdict::Dead),
        Deed::Empty(Verdict::Dead),
        Deed::Calls(PAWN, 1, CallAnswer::Dead),
        Deed::Sends(None),
        Deed::Has(1, 2),
        Deed::Pawn(Some((10, -3, 75))),
    ];
    assert!(rt; first_wrong(rt.alloc(), &classes, &deeds)?.is_none());
    Ok(())
}
