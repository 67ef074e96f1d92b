// The bits of each payload, of actors of the built-in table.
ghost use Rattle.std.specs.Prelude.{◌≡◌, ◌<◌, length};
ghost use Rattle.protocol_model.specs.World.{class_at as class_in};
ghost use Rattle.class_layout.specs.Tables.{table_in};
ghost use Rattle.payload_writing.specs.Exports.{MayExport};
ghost use Rattle.payload_writing.specs.Values.{pairs_fit};

use crate::laws::path_may_be_exported;
use crate::pairs::kind_of;
use crate::{
    Arg, Classes, Pair, UpdatePayload, call_payload, close_payload, gone_payload, open_payload,
    update_payload,
};
use bit_io::{BitWriter, Bits, Blob, Memory};
use class_layout::{Guid, Handle, Value, args_fit, fits};
use payload_reading::class_at;
use std::alloc::Global;
use std::process::Abort;
use std::test::Fail;

/// The bits are the first so many of these bytes.
fn are_bits(alloc: Global, bits: &Bits, len: usize, bytes: &[u8]) -> Result<bool, Memory> {
    let mut writer = BitWriter::with_room(alloc, bits.len())?;
    writer.put_slice(bits.lend());
    Ok(bits.len() == len && writer.finish().as_slice() == bytes)
}

/// A value of a handle.
fn pair(handle: u16, value: Value) -> Pair {
    Pair {
        prop: Handle(handle),
        value,
    }
}

/// Each value has the tag of its handle's kind, and is one of its numbers.
fn all_fit(classes: &Classes, class: u16, pairs: &[Pair]) -> bool
    requires { class < length classes.now.classes }
    ensures { result ≡ pairs_fit (class_in (table_in classes.now) class) pairs.now }
{
    let place = class_at(classes, class);
    for pair in pairs {
        if !fits(kind_of(place, pair.prop), pair.value) {
            return false;
        }
    }
    true
}

/// The guids of the Pawn's path.
fn pawn_path(classes: &Classes) -> &[Guid]
    requires { 0 < length classes.now.classes }
    ensures { MayExport classes.now.segments result.now }
{
    classes.keeps_rules();
    path_may_be_exported();
    classes.class(0).unwrap().path.as_slice()
}

/// The open of Pawn 2 with these values, and with its path if it is exported.
fn open_of(
    rt: &impl Abort,
    alloc: Global,
    is_exported: bool,
    values: &[Pair],
) -> Result<Bits, Memory> {
    let classes = Classes::builtin(alloc)?;
    assert!(rt; classes.count() > 0 && values.len() <= 200);
    let fit = all_fit(&classes, 0, values);
    assert!(rt; fit);
    let path = if is_exported {
        pawn_path(&classes)
    } else {
        &[]
    };
    open_payload(alloc, &classes, 0, Guid(2), path, values)
}

#[test]
fn an_open_has_segments_actor_class_and_values(rt: HostRuntime) -> Result<(), Fail> {
    let values = [
        pair(1, Value::I32(10)),
        pair(2, Value::I32(-3)),
        pair(3, Value::Bool(false)),
        pair(4, Value::U8(75)),
        pair(6, Value::Enum(0)),
        pair(7, Value::I32(0)),
    ];
    let bytes = [
        0x04, 0x06, 0x00, 0xc4, 0x51, 0x58, 0x5b, 0x99, 0x82, 0x01, 0x01, 0x15, 0x76, 0xe7, 0x46,
        0xa0, 0x20, 0xa0, 0x00, 0x00, 0x00, 0x40, 0xd0, 0xff, 0xff, 0xff, 0x6f, 0x00, 0x61, 0x89,
        0x01, 0x07, 0x00, 0x00, 0x00, 0x00, 0x00,
    ];
    let open = open_of(&rt, rt.alloc(), true, values.as_slice())?;
    assert!(rt; are_bits(rt.alloc(), &open, 295, bytes.as_slice())?);
    Ok(())
}

#[test]
fn an_open_of_a_known_class_has_no_segments(rt: HostRuntime) -> Result<(), Fail> {
    let open = open_of(&rt, rt.alloc(), false, &[])?;
    assert!(rt; are_bits(rt.alloc(), &open, 24, &[0x04, 0x0a, 0x00])?);
    Ok(())
}

/// The update of a Pawn with the longest prefix of these values.
fn update_of(rt: &impl Abort, alloc: Global, values: &[Pair]) -> Result<UpdatePayload, Memory> {
    let classes = Classes::builtin(alloc)?;
    assert!(rt; classes.count() > 0);
    let fit = all_fit(&classes, 0, values);
    assert!(rt; fit);
    update_payload(alloc, &classes, 0, values)
}

#[test]
fn an_update_has_the_values_and_no_actor(rt: HostRuntime) -> Result<(), Fail> {
    let values = [pair(1, Value::I32(-3)), pair(4, Value::U8(70))];
    let update = update_of(&rt, rt.alloc(), values.as_slice())?;
    let bytes = [0x04, 0xfa, 0xff, 0xff, 0xff, 0x11, 0x8c, 0x00, 0x00];
    assert_eq!(rt; update.count, 2);
    assert!(rt; are_bits(rt.alloc(), &update.bits, 65, bytes.as_slice())?);
    Ok(())
}

/// So many values of 40 bits, of 16, of 9 and of 10, one after another.
fn values_of(alloc: Global, counts: [usize; 4]) -> Result<Vec<Pair>, Memory> {
    let values = [
        pair(1, Value::I32(-1)),
        pair(4, Value::U8(255)),
        pair(3, Value::Bool(true)),
        pair(6, Value::Enum(3)),
    ];
    let mut pairs = Vec::new(alloc);
    for (value, count) in values.iter().zip(counts.as_slice()) {
        for _ in 0..*count {
            pairs.push(*value)?;
        }
    }
    Ok(pairs)
}

/// How many values of each size there are; how many an update holds, and its bits.
const UPDATES: [([usize; 4], usize, usize); 4] = [
    ([148, 1, 5, 1], 155, 6000),
    ([148, 1, 6, 0], 155, 5999),
    ([148, 2, 5, 0], 154, 5997),
    ([200, 0, 0, 0], 149, 5969),
];

#[test]
fn an_update_holds_what_has_room_in_6000_bits(rt: HostRuntime) -> Result<(), Fail> {
    for (counts, count, len) in UPDATES {
        let values = values_of(rt.alloc(), counts)?;
        let update = update_of(&rt, rt.alloc(), values.as_slice())?;
        assert!(rt; update.count == count && update.bits.len() == len);
    }
    Ok(())
}

/// The call of Pawn 2 with these arguments, by its number.
fn call_of(rt: &impl Abort, alloc: Global, number: u16, args: &[Arg]) -> Result<Bits, Memory> {
    let classes = Classes::builtin(alloc)?;
    assert!(rt; classes.count() > 0);
    let calls = class_at(&classes, 0).calls.as_slice();
    assert!(rt; 1 <= number && usize::from(number) <= calls.len());
    let call = &calls[usize::from(number) - 1];
    let fit = args_fit(call.args.as_slice(), args);
    assert!(rt; fit && call.args.len() <= 16);
    call_payload(alloc, call, Guid(2), number, args)
}

#[test]
fn a_call_has_its_actor_number_and_argument(rt: HostRuntime) -> Result<(), Fail> {
    for (number, value, len, bytes) in [
        (2, Value::U8(7), 25, &[0x09, 0x08, 0x0e, 0x00][..]),
        (
            3,
            Value::Packed(300),
            33,
            &[0x09, 0x0c, 0xb2, 0x08, 0x00][..],
        ),
    ] {
        let call = call_of(&rt, rt.alloc(), number, &[Arg::Scalar(value)])?;
        assert!(rt; are_bits(rt.alloc(), &call, len, bytes)?);
    }
    Ok(())
}

#[test]
fn an_argument_of_bytes_has_its_length(rt: HostRuntime) -> Result<(), Fail> {
    let blob = Blob::from_vec(vec![in rt.alloc(); 1, 2, 3]?);
    let call = call_of(&rt, rt.alloc(), 4, &[Arg::Bytes(blob)])?;
    let bytes = [0x09, 0x10, 0x06, 0x10, 0x20, 0x30, 0x00];
    assert!(rt; are_bits(rt.alloc(), &call, 52, bytes.as_slice())?);
    Ok(())
}

#[test]
fn a_gone_names_its_actor_and_a_close_says_nothing(rt: HostRuntime) -> Result<(), Fail> {
    let gone = gone_payload(rt.alloc(), Guid(300))?;
    assert!(rt; are_bits(rt.alloc(), &gone, 24, &[0x02, 0x59, 0x04])?);
    assert_eq!(rt; close_payload(rt.alloc())?.len(), 0);
    Ok(())
}
