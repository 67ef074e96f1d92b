// What a client answers to calls, and what it sends.
use crate::tests::deeds::{Deed, first_wrong};
use crate::tests::drafts::loose;
use crate::tests::{OWNED, PAWN};
use crate::{CallAnswer, Classes, Verdict};
use std::process::Abort;
use std::test::Fail;

/// A tick's packet: acknowledgements of 1 and 2, and the call `fire` of the Pawn, by 7.
const FIRED: [u8; 18] = [
    0x01, 0xc0, 0x00, 0xa0, 0x00, 0x80, 0x01, 0x00, 0x02, 0x50, 0x0c, 0x48, 0x20, 0x70, 0x00, 0x00,
    0x00, 0x10,
];

#[test]
fn calls_are_answered_and_sent(rt: HostRuntime) -> Result<(), Fail> {
    let classes = Classes::builtin(rt.alloc())?;
    // Refused as not open: an actor without a copy, a call of the server's, and no call.
    let deeds = [
        Deed::First(Verdict::Taken { number: 1 }),
        Deed::Calls(PAWN, 1, CallAnswer::NotOwner),
        Deed::Hears(2, loose(1, &OWNED), Verdict::Taken { number: 2 }),
        Deed::Calls(PAWN, 1, CallAnswer::Queued),
        Deed::Calls(4, 1, CallAnswer::NotOpen),
        Deed::Calls(PAWN, 2, CallAnswer::NotOpen),
        Deed::Calls(PAWN, 5, CallAnswer::NotOpen),
        Deed::Sends(Some(&FIRED)),
        Deed::Sends(None),
    ];
    assert!(rt; first_wrong(rt.alloc(), &classes, &deeds)?.is_none());
    Ok(())
}

#[test]
fn a_channel_has_room_for_256_calls(rt: HostRuntime) -> Result<(), Fail> {
    let classes = Classes::builtin(rt.alloc())?;
    let deeds = [
        Deed::First(Verdict::Taken { number: 1 }),
        Deed::Hears(2, loose(1, &OWNED), Verdict::Taken { number: 2 }),
        Deed::CallsOften(256, CallAnswer::WindowFull),
    ];
    assert!(rt; first_wrong(rt.alloc(), &classes, &deeds)?.is_none());
    Ok(())
}

#[test]
fn the_4096th_open_packet_ends_a_client(rt: HostRuntime) -> Result<(), Fail> {
    let classes = Classes::builtin(rt.alloc())?;
    let deeds = [
        Deed::First(Verdict::Taken { number: 1 }),
        Deed::Stalls(4096),
        Deed::Calls(PAWN, 1, CallAnswer::Dead),
        Deed::Sends(None),
        Deed::Has(1, 4097),
    ];
    assert!(rt; first_wrong(rt.alloc(), &classes, &deeds)?.is_none());
    Ok(())
}
