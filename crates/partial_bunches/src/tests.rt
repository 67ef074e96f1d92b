// That calls succeed with ample memory, and that each rule of parts is told.
use crate::{Joined, Joiner, Part, PartRefusal, PartWhy, Piece, cut, parts};
use bit_io::{BitSlice, BitWriter, Bits, Memory};
use packet_codec::Bunch;
use std::alloc::Global;
use std::process::Abort;
use std::test::Fail;

/// `count` bits, all of them 1.
fn ones(alloc: Global, count: usize) -> Result<Bits, Memory> {
    let mut writer = BitWriter::with_room(alloc, count)?;
    for _ in 0..count {
        if writer.spare() > 0 {
            writer.put_bit(true);
        }
    }
    Ok(writer.into_bits())
}

/// A reliable bunch in the middle of a channel's life.
fn bunch(part: Part, payload: BitSlice<'_>) -> Bunch<'_> {
    Bunch {
        opens: false,
        closes: false,
        sleeps: false,
        reliable: true,
        channel: 1,
        exports: false,
        part,
        seq: 1,
        kind: 2,
        payload,
    }
}

/// What is kept before a bunch comes: `kept` parts of 7,000 bits.
fn joiner_with(rt: &impl Abort, alloc: Global, kept: usize) -> Result<Joiner, Memory> {
    let full = ones(alloc, 7000)?;
    let mut joiner = Joiner::new(alloc);
    for i in 0..kept {
        let part = if i == 0 { Part::First } else { Part::Middle };
        let added = joiner.add(&bunch(part, full.lend()));
        assert!(rt; matches!(added, Ok(Joined::More)));
    }
    Ok(joiner)
}

/// How many bits a whole payload has.
fn whole_len(joined: Result<Joined, PartRefusal>) -> Option<usize> {
    match joined {
        Ok(Joined::Whole(bits)) => Some(bits.len()),
        _ => None,
    }
}

#[test]
fn each_rule_of_parts_is_told(rt: HostRuntime) -> Result<(), Fail> {
    for (part, opens, closes, bits, kept, why) in [
        (Part::Whole, false, false, 7001, 0, PartWhy::Oversize),
        (Part::Lone, false, false, 10, 0, PartWhy::Lone),
        (Part::First, false, true, 7000, 0, PartWhy::Flags),
        (Part::First, false, false, 7000, 1, PartWhy::Restart),
        (Part::Whole, false, false, 10, 1, PartWhy::Inside),
        (Part::Last, false, false, 10, 0, PartWhy::NoFirst),
        (Part::Middle, true, false, 7000, 1, PartWhy::Opens),
        (Part::First, true, false, 6999, 0, PartWhy::FewBits),
        (Part::Last, false, false, 0, 2, PartWhy::FewBits),
        (Part::Last, false, false, 10, 10, PartWhy::TooMany),
    ] {
        let payload = ones(rt.alloc(), bits)?;
        let mut joiner = joiner_with(&rt, rt.alloc(), kept)?;
        let mut b = bunch(part, payload.lend());
        b.opens = opens;
        b.closes = closes;
        let refusal = joiner.add(&b).err();
        assert_eq!(rt; refusal, Some(PartRefusal::BadPart { why }));
        assert_eq!(rt; joiner.waiting(), kept > 0);
    }
    Ok(())
}

#[test]
fn parts_join_to_their_payload(rt: HostRuntime) -> Result<(), Fail> {
    let mut joiner = joiner_with(&rt, rt.alloc(), 2)?;
    let rest = ones(rt.alloc(), 1234)?;
    let joined = joiner.add(&bunch(Part::Last, rest.lend()));
    assert_eq!(rt; whole_len(joined), Some(15234));
    assert!(rt; !joiner.waiting());
    let alone = joiner.add(&bunch(Part::Whole, rest.lend()));
    assert_eq!(rt; whole_len(alone), Some(1234));
    Ok(())
}

#[test]
fn payloads_are_cut_at_7000_bits(rt: HostRuntime) {
    assert_eq!(rt; parts(0), 1);
    assert_eq!(rt; parts(7000), 1);
    assert_eq!(rt; parts(7001), 2);
    assert_eq!(rt; parts(70000), 10);
    let whole = Piece {
        start: 0,
        end: 7000,
        part: Part::Whole,
    };
    assert_eq!(rt; cut(7000, 0), whole);
    for (i, start, end, part) in [
        (0, 0, 7000, Part::First),
        (1, 7000, 14000, Part::Middle),
        (2, 14000, 14001, Part::Last),
    ] {
        assert_eq!(rt; cut(14001, i), Piece { start, end, part });
    }
}
