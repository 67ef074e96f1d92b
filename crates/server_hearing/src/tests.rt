// What no clause says: forged datagrams, one for each verdict that a server's new end can come to.
// The bytes are spelled by another program, and so is what is due.
use super::*;
use actor_sender::ActorSender;
use bit_io::Memory;
use channel_table::{Cause, ChannelTable};
use class_layout::Classes;
use link_end::LinkEnd;
use net_core::Player;
use protocol_model::{PartWhy, Verdict, Version, Why};
use std::alloc::Global;
use std::test::Fail;
use world_table::World;

/// A datagram, and what a new end says of it.
#[derive(Clone, Copy)]
struct Case<'a> {
    version: Version,
    bytes: &'a [u8],
    due: Verdict,
}

/// A case of version one.
fn case_of<'a>(bytes: &'a [u8], due: Verdict) -> Case<'a> {
    Case {
        version: Version::One,
        bytes,
        due,
    }
}

/// A case of a rule that is broken.
fn closed_by<'a>(bytes: &'a [u8], cause: Cause) -> Case<'a> {
    case_of(bytes, Verdict::Closed(cause))
}

/// What a new end says of a datagram.
fn said(
    alloc: Global,
    classes: &Classes,
    version: Version,
    bytes: &[u8],
) -> Result<Verdict, Memory> {
    let world = World::new(alloc, classes);
    let mut link = LinkEnd::new(alloc, 100_000, version)?;
    let mut table = ChannelTable::new(alloc, true)?;
    let mut sender = ActorSender::new(alloc);
    let heard = take(
        alloc,
        &world,
        Player(1),
        &mut link,
        &mut table,
        &mut sender,
        bytes,
    )?;
    Ok(heard.outcome.verdict)
}

/// What is due is said of each.
fn are_said(alloc: Global, classes: &Classes, cases: &[Case<'_>]) -> Result<bool, Memory> {
    for case in cases {
        if said(alloc, classes, case.version, case.bytes)? != case.due {
            return Ok(false);
        }
    }
    Ok(true)
}

#[test]
fn datagrams_that_close_nothing(rt: HostRuntime) -> Result<(), Fail> {
    let classes = Classes::builtin(rt.alloc())?;
    let cases = [
        case_of(
            &[],
            Verdict::Malformed {
                at: 0,
                why: Why::Empty,
            },
        ),
        case_of(
            &[0x01, 0x00],
            Verdict::Malformed {
                at: 8,
                why: Why::NoEnd,
            },
        ),
        case_of(&[0x00, 0x40], Verdict::Old { number: 0, last: 0 }),
        case_of(&[0x01, 0x40], Verdict::Taken { number: 1 }),
        // A bunch past a gap is held.
        case_of(
            &[0x01, 0x00, 0x0e, 0x00, 0x10, 0x40, 0x01, 0x60],
            Verdict::Taken { number: 1 },
        ),
        Case {
            version: Version::Two,
            bytes: &[0x01, 0x00, 0x00, 0x00, 0x00, 0x00, 0x00, 0x80],
            due: Verdict::Taken { number: 1 },
        },
    ];
    assert!(rt; are_said(rt.alloc(), &classes, &cases)?);
    Ok(())
}

#[test]
fn datagrams_that_break_a_rule(rt: HostRuntime) -> Result<(), Fail> {
    let classes = Classes::builtin(rt.alloc())?;
    let cases = [
        // Packet 1 is acknowledged, and none was sent.
        closed_by(
            &[0x01, 0xc0, 0x00, 0x20],
            Cause::BadAck { acked: 1, sent: 0 },
        ),
        // An open; an unreliable bunch of channel 0; a kind that isn't the channel's.
        closed_by(
            &[0x01, 0x80, 0x19, 0x00, 0x20, 0x00, 0x05, 0x80, 0x01],
            Cause::BadChannel { channel: 1 },
        ),
        closed_by(
            &[0x01, 0x00, 0x00, 0x00, 0x08, 0x00, 0x03],
            Cause::BadChannel { channel: 0 },
        ),
        closed_by(
            &[0x01, 0x00, 0x0e, 0x00, 0x08, 0x20, 0x01, 0x60],
            Cause::BadChannel { channel: 3 },
        ),
        // A last part that no first part came before.
        closed_by(
            &[0x01, 0x00, 0x0e, 0x00, 0x0c, 0x40, 0x05, 0x80, 0x01],
            Cause::BadPart {
                channel: 3,
                why: PartWhy::NoFirst,
            },
        ),
        // No bits; no call; a call on channel 0; an actor's number that is odd.
        closed_by(
            &[0x01, 0x00, 0x0c, 0x00, 0x00, 0x00, 0x01],
            Cause::BadPayload { channel: 3, at: 0 },
        ),
        closed_by(
            &[0x01, 0x00, 0x0c, 0x00, 0x08, 0x00, 0x02],
            Cause::BadPayload { channel: 3, at: 0 },
        ),
        closed_by(
            &[0x01, 0x00, 0x02, 0x00, 0x08, 0x20, 0x11, 0x20, 0x81, 0x40],
            Cause::BadPayload { channel: 0, at: 0 },
        ),
        closed_by(
            &[0x01, 0x00, 0x0c, 0x00, 0x88, 0x00, 0x0d, 0x04, 0x02],
            Cause::BadPayload { channel: 3, at: 1 },
        ),
        // A call of an actor that was never opened.
        closed_by(
            &[0x01, 0x00, 0x0c, 0x00, 0x88, 0x00, 0x09, 0x04, 0x02],
            Cause::UnknownGuid { guid: 2 },
        ),
        // The first of two rules.
        closed_by(
            &[
                0x01, 0xc0, 0x03, 0x00, 0x06, 0x00, 0x44, 0x80, 0x04, 0x02, 0x01,
            ],
            Cause::BadAck { acked: 7, sent: 0 },
        ),
        Case {
            version: Version::Two,
            bytes: &[0x01, 0x40, 0x01, 0x80, 0x00, 0x00, 0x00, 0x80],
            due: Verdict::Closed(Cause::BadAck { acked: 5, sent: 0 }),
        },
    ];
    assert!(rt; are_said(rt.alloc(), &classes, &cases)?);
    Ok(())
}
