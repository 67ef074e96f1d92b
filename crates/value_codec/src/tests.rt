// A value of each kind, written and read back, and arguments of two kinds.
use super::*;
use std::test::Fail;

/// Each kind with a value, the bytes that spell it, and how many bits of them do.
const TABLE: [(Kind, Value, [u8; 8], usize); 10] = [
    (
        Kind::Bool,
        Value::Bool(true),
        [0x01, 0, 0, 0, 0, 0, 0, 0],
        1,
    ),
    (Kind::U8, Value::U8(75), [0x4b, 0, 0, 0, 0, 0, 0, 0], 8),
    (
        Kind::I32,
        Value::I32(-3),
        [0xfd, 0xff, 0xff, 0xff, 0, 0, 0, 0],
        32,
    ),
    (
        Kind::I32,
        Value::I32(i32::MIN),
        [0, 0, 0, 0x80, 0, 0, 0, 0],
        32,
    ),
    (
        Kind::U32,
        Value::U32(258),
        [0x02, 0x01, 0, 0, 0, 0, 0, 0],
        32,
    ),
    (
        Kind::I64,
        Value::I64(-2),
        [0xfe, 0xff, 0xff, 0xff, 0xff, 0xff, 0xff, 0xff],
        64,
    ),
    (
        Kind::Enum(4),
        Value::Enum(2),
        [0x02, 0, 0, 0, 0, 0, 0, 0],
        2,
    ),
    (Kind::Enum(1), Value::Enum(0), [0, 0, 0, 0, 0, 0, 0, 0], 0),
    (
        Kind::Packed,
        Value::Packed(300),
        [0x59, 0x04, 0, 0, 0, 0, 0, 0],
        16,
    ),
    (Kind::Guid, Value::Guid(2), [0x04, 0, 0, 0, 0, 0, 0, 0], 8),
];

#[test]
fn a_value_of_each_kind_is_written_and_read_back(rt: HostRuntime) -> Result<(), Fail> {
    for (kind, value, bytes, bits) in TABLE {
        let fitting = fits(kind, value);
        assert!(rt; fitting);
        assert!(rt; bits <= 64);
        let mut writer = BitWriter::with_room(rt.alloc(), 64)?;
        put_value(&mut writer, kind, value);
        assert_eq!(rt; writer.len(), bits);
        let written = writer.finish();
        assert_eq!(rt; written.as_slice(), &bytes[..(bits + 7) / 8]);
        let mut reader = BitReader::new(bytes.as_slice(), bits);
        let readable = match kind {
            Kind::Enum(0) | Kind::Bytes(_) => false,
            _ => true,
        };
        assert!(rt; readable);
        assert_eq!(rt; get_value(&mut reader, kind), Ok(value));
        assert_eq!(rt; reader.at(), bits);
    }
    Ok(())
}

#[test]
fn a_value_fits_its_own_kind_alone(rt: HostRuntime) -> Result<(), Fail> {
    let table = [
        (Kind::Enum(4), Value::Enum(3), true),
        (Kind::Enum(4), Value::Enum(4), false),
        (Kind::Packed, Value::Guid(1), false),
        (Kind::Bytes(4), Value::U8(1), false),
    ];
    for (kind, value, want) in table {
        assert_eq!(rt; fits(kind, value), want);
    }
    Ok(())
}

#[test]
fn arguments_fit_kinds_of_their_number_and_tags(rt: HostRuntime) -> Result<(), Fail> {
    let kinds = [Kind::U8, Kind::Bytes(2)];
    for (bytes, want) in [(2, true), (3, false)] {
        let blob = Blob::from_vec(vec![in rt.alloc(); 7; bytes]?);
        let args = vec![in rt.alloc(); Arg::Scalar(Value::U8(1)), Arg::Bytes(blob)]?;
        assert_eq!(rt; args_fit(kinds.as_slice(), args.as_slice()), want);
        assert_eq!(rt; args_fit(&kinds[..1], args.as_slice()), false);
    }
    Ok(())
}
