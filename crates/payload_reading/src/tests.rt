// Payloads of the built-in Pawn: what is read of good ones, and where a bad one breaks a rule.
use crate::{
    Classes, PairList, Stop, class_at, read_call, read_segment, read_some_values, read_values,
};
use bit_io::BitReader;
use class_layout::{Guid, Handle, Pair, Value};
use std::alloc::Global;
use std::process::Abort;
use std::test::Fail;

/// The values that a payload begins with: at least one, or any number.
fn values_of(
    rt: &impl Abort,
    alloc: Global,
    bytes: &[u8],
    some: bool,
) -> Result<Result<PairList, Stop>, Fail> {
    let classes = Classes::builtin(alloc)?;
    assert!(rt; classes.count() > 0);
    let pawn = class_at(&classes, 0);
    assert!(rt; bytes.len() <= 64);
    let mut reader = BitReader::new(bytes, 8 * bytes.len());
    if some {
        Ok(read_some_values(alloc, &mut reader, pawn))
    } else {
        Ok(read_values(alloc, &mut reader, pawn))
    }
}

#[test]
fn values_are_read_up_to_handle_zero(rt: HostRuntime) -> Result<(), Fail> {
    let bytes = [0x02, 0xfd, 0xff, 0xff, 0xff, 0x08, 0x64, 0x00, 0x55];
    let Ok(values) = values_of(&rt, rt.alloc(), bytes.as_slice(), true)? else {
        return Err(Fail::from("refused"));
    };
    let x = Pair {
        prop: Handle(1),
        value: Value::I32(-3),
    };
    let hp = Pair {
        prop: Handle(4),
        value: Value::U8(100),
    };
    assert!(rt; values.as_slice() == [x, hp].as_slice());
    Ok(())
}

#[test]
fn a_value_list_breaks_a_rule_at_its_bit(rt: HostRuntime) -> Result<(), Fail> {
    let broken = |left| Stop::Broken { left, cause: None };
    for (bytes, some, stop) in [
        ([0x09, 0x00, 0x00, 0x00], true, broken(32)),
        ([0x00, 0x00, 0x00, 0x00], true, broken(32)),
        ([0x10, 0x00, 0x00, 0x00], true, broken(32)),
        ([0x08, 0x64, 0x08, 0x00], true, broken(16)),
        ([0x08, 0x64, 0x06, 0x00], false, broken(16)),
        ([0x02, 0x00, 0x00, 0x00], false, Stop::Short),
    ] {
        let values = values_of(&rt, rt.alloc(), bytes.as_slice(), some)?;
        assert!(rt; values.err() == Some(stop));
    }
    Ok(())
}

/// Which call a payload is, with how many arguments.
fn call_of(
    rt: &impl Abort,
    alloc: Global,
    bytes: &[u8],
    up: bool,
    reliable: bool,
) -> Result<Result<(u16, usize), Stop>, Fail> {
    let classes = Classes::builtin(alloc)?;
    assert!(rt; classes.count() > 0);
    let pawn = class_at(&classes, 0);
    assert!(rt; bytes.len() <= 64);
    let mut reader = BitReader::new(bytes, 8 * bytes.len());
    match read_call(alloc, &mut reader, pawn, up, reliable) {
        Ok(call) => Ok(Ok((call.number, call.args.len()))),
        Err(stop) => Ok(Err(stop)),
    }
}

#[test]
fn a_call_goes_its_way_with_all_its_bits(rt: HostRuntime) -> Result<(), Fail> {
    let fire = [0x02, 0x05, 0x00, 0x00, 0x00, 0x00];
    let broken = |left| Stop::Broken { left, cause: None };
    for (bytes, up, reliable, call) in [
        (&fire[..5], true, true, Ok((1, 1))),
        (&fire[..4], true, true, Err(Stop::Short)),
        (&fire[..6], true, true, Err(broken(8))),
        (&fire[..5], false, true, Err(broken(40))),
        (&fire[..5], true, false, Err(broken(40))),
        (&[0x00, 0x00][..], true, true, Err(broken(16))),
        (&[0x0a, 0x00][..], true, true, Err(broken(16))),
        (&[0x04, 0x63][..], false, true, Ok((2, 1))),
    ] {
        assert!(rt; call_of(&rt, rt.alloc(), bytes, up, reliable)? == call);
    }
    Ok(())
}

#[test]
fn a_segment_has_an_odd_guid_and_a_name(rt: HostRuntime) -> Result<(), Fail> {
    for (bytes, left) in [
        ([0x0a, 0x06, 0x04, 0x54, 0xd8, 0x9d, 0x1b], None),
        ([0x02, 0x06, 0x04, 0x54, 0xd8, 0x9d, 0x1b], Some(54)),
        ([0x0c, 0x06, 0x04, 0x54, 0xd8, 0x9d, 0x1b], Some(54)),
        ([0x0a, 0x06, 0x44, 0x4e, 0xd8, 0x9d, 0x1b], Some(32)),
        ([0x0a, 0x06, 0x04, 0x54, 0x58, 0x8b, 0x1b], Some(32)),
        ([0x0a, 0x06, 0x00, 0x00, 0x00, 0x00, 0x00], Some(38)),
    ] {
        let mut reader = BitReader::new(bytes.as_slice(), 54);
        match read_segment(rt.alloc(), &mut reader) {
            Ok(segment) => {
                assert!(rt; segment.guid == Guid(5) && segment.outer == Guid(3));
                assert!(rt; segment.name.as_slice() == "Pawn".as_bytes() && left.is_none());
            }
            Err(Stop::Broken { left: at, cause }) => {
                assert!(rt; left == Some(at) && cause.is_none());
            }
            Err(_) => assert!(rt; false),
        }
    }
    Ok(())
}
