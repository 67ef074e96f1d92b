// That the numbers and fates are those that were meant, and that no number of packets is too many.
ghost use Rattle.std.specs.Prelude.{◌≡◌, ◌<◌};
ghost use Rattle.bit_io.specs.HeadOf.{IsHead};

use crate::{AckBook, Acked, BadAck, FATES_KEPT, Fate, Head, Old, Version};
use protocol_model::limits::UNRESOLVED_LIMIT;
use std::process::Abort;
use std::test::Fail;

/// Below this a number has room to grow.
const NUMBERS: u64 = 1 << 61;

fn send(rt: &impl Abort, book: &mut AckBook) -> u64 {
    assert!(rt; book.unresolved() < UNRESOLVED_LIMIT as u32);
    assert!(rt; book.last_sent() < NUMBERS);
    book.sent()
}

fn take(rt: &impl Abort, book: &mut AckBook, number: u64) -> Result<u64, Old> {
    assert!(rt; book.top() < NUMBERS);
    book.take_number((number % 16384) as u16)
}

fn fate(rt: &impl Abort, book: &AckBook, number: u64) -> Fate {
    let last = book.last_sent();
    assert!(rt; number >= 1 && number <= last && last - number < FATES_KEPT);
    book.fate(number)
}

fn head(top: u16, word: u32) -> Head
    requires { top < 16384 }
    ensures top { result.top ≡ top }
    ensures whole { IsHead result }
{
    Head {
        top,
        count: 1,
        words: [word, 0, 0, 0, 0, 0, 0, 0],
    }
}

fn fate_in_list(number: u64) -> Fate {
    if number % 3 == 0 {
        Fate::Lost
    } else {
        Fate::Arrived
    }
}

#[test]
fn each_third_of_forty_thousand_packets_is_lost(rt: HostRuntime) -> Result<(), Fail> {
    let mut book = AckBook::new(rt.alloc(), Version::One)?;
    for number in 1..40001u64 {
        assert_eq!(rt; send(&rt, &mut book), number);
        if number % 3 != 0 {
            let from = book.high();
            let acked = book.take_ack((number % 16384) as u16);
            assert_eq!(rt; acked, Ok(Acked::Moved { from, to: number }));
        } else {
            assert_eq!(rt; fate(&rt, &book, number), Fate::Open);
        }
        if number > 8000 {
            assert_eq!(rt;
                fate(&rt, &book, number - 8000),
                fate_in_list(number - 8000)
            );
        }
    }
    for number in 32001..40000u64 {
        assert_eq!(rt; fate(&rt, &book, number), fate_in_list(number));
    }
    Ok(())
}

#[test]
fn numbers_wrap_twice_with_acknowledgements(rt: HostRuntime) -> Result<(), Fail> {
    let mut here = AckBook::new(rt.alloc(), Version::One)?;
    let mut there = AckBook::new(rt.alloc(), Version::One)?;
    for number in 1..40001u64 {
        assert_eq!(rt; send(&rt, &mut here), number);
        assert_eq!(rt; take(&rt, &mut there, number), Ok(number));
        assert_eq!(rt; there.owed(0), Some(number));
        assert_eq!(rt; there.owed(1), None);
        there.clear_owed();
        let acked = here.take_ack((number % 16384) as u16);
        assert_eq!(rt;
            acked,
            Ok(Acked::Moved {
                from: number - 1,
                to: number
            })
        );
        assert_eq!(rt; fate(&rt, &here, number), Fate::Arrived);
    }
    Ok(())
}

#[test]
fn numbers_wrap_twice_with_heads(rt: HostRuntime) -> Result<(), Fail> {
    let mut here = AckBook::new(rt.alloc(), Version::Two)?;
    let mut there = AckBook::new(rt.alloc(), Version::Two)?;
    for number in 1..40001u64 {
        assert_eq!(rt; send(&rt, &mut here), number);
        if number % 3 != 0 {
            assert_eq!(rt; take(&rt, &mut there, number), Ok(number));
        }
        if number % 50 == 0 {
            let told = there.head();
            assert!(rt; told.top < 16384);
            assert_eq!(rt; here.take_head(told), Ok(()));
            let high = here.high();
            assert!(rt; high >= 60 || number == 50);
            for back in 0..49u64 {
                assert!(rt; back < high);
                assert_eq!(rt; fate(&rt, &here, high - back), fate_in_list(high - back));
            }
        }
    }
    Ok(())
}

#[test]
fn numbers_are_the_nearest(rt: HostRuntime) -> Result<(), Fail> {
    let rows = [
        (0, 1, Ok(1)),
        (0, 8191, Ok(8191)),
        (
            0,
            8192,
            Err(Old {
                number: -8192,
                last: 0,
            }),
        ),
        (0, 0, Err(Old { number: 0, last: 0 })),
        (5, 4, Err(Old { number: 4, last: 5 })),
        (5, 5, Err(Old { number: 5, last: 5 })),
        (
            5,
            16380,
            Err(Old {
                number: -4,
                last: 5,
            }),
        ),
        (8000, 16191, Ok(16191)),
        (
            8000,
            16192,
            Err(Old {
                number: -192,
                last: 8000,
            }),
        ),
    ];
    for (last, n, want) in rows {
        let mut book = AckBook::new(rt.alloc(), Version::One)?;
        if last > 0 {
            assert_eq!(rt; take(&rt, &mut book, last), Ok(last));
        }
        assert_eq!(rt; take(&rt, &mut book, n), want, "{n} after {last}");
    }
    Ok(())
}

#[test]
fn the_newest_512_are_owed(rt: HostRuntime) -> Result<(), Fail> {
    let mut book = AckBook::new(rt.alloc(), Version::One)?;
    for number in 1..601u64 {
        assert_eq!(rt; take(&rt, &mut book, number), Ok(number));
    }
    assert_eq!(rt; book.owed(0), Some(89));
    assert_eq!(rt; book.owed(511), Some(600));
    assert_eq!(rt; book.owed(512), None);
    Ok(())
}

#[test]
fn what_was_not_sent_is_refused(rt: HostRuntime) -> Result<(), Fail> {
    let mut book = AckBook::new(rt.alloc(), Version::Two)?;
    for number in 1..4u64 {
        assert_eq!(rt; send(&rt, &mut book), number);
    }
    assert_eq!(rt; book.take_ack(4), Err(BadAck { acked: 4, sent: 3 }));
    assert_eq!(rt; book.take_ack(16383), Ok(Acked::Ignored));
    assert_eq!(rt;
        book.take_head(head(5, 0b10)),
        Err(BadAck { acked: 4, sent: 3 })
    );
    assert_eq!(rt; book.take_head(head(5, 0b1000)), Ok(()));
    assert_eq!(rt; fate(&rt, &book, 1), Fate::Lost);
    assert_eq!(rt; fate(&rt, &book, 2), Fate::Arrived);
    assert_eq!(rt; fate(&rt, &book, 3), Fate::Open);
    assert_eq!(rt; book.take_head(head(2, 0b11)), Ok(()));
    assert_eq!(rt; fate(&rt, &book, 1), Fate::Lost);
    Ok(())
}

#[test]
fn heads_tell_what_was_taken(rt: HostRuntime) -> Result<(), Fail> {
    let mut book = AckBook::new(rt.alloc(), Version::Two)?;
    assert_eq!(rt; book.head(), head(0, 0));
    assert_eq!(rt; take(&rt, &mut book, 1), Ok(1));
    assert_eq!(rt; take(&rt, &mut book, 3), Ok(3));
    assert_eq!(rt; book.head(), head(3, 0b101));
    let mut whole = AckBook::new(rt.alloc(), Version::Two)?;
    for number in 1..41u64 {
        assert_eq!(rt; take(&rt, &mut whole, number), Ok(number));
    }
    let words = [0xffff_ffff, 0xff, 0, 0, 0, 0, 0, 0];
    assert_eq!(rt;
        whole.head(),
        Head {
            top: 40,
            count: 2,
            words
        }
    );
    // Once a packet that told 40 has arrived, one word reaches back far enough.
    assert_eq!(rt; send(&rt, &mut whole), 1);
    assert_eq!(rt; whole.take_head(head(1, 1)), Ok(()));
    assert_eq!(rt; whole.head(), head(40, 0xffff_ffff));
    Ok(())
}
