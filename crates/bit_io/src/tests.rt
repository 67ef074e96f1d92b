// Worked spellings, and each call that takes memory once, with ample memory.
use super::*;
use std::alloc::{AllocError, Global};
use std::test::Fail;

/// The bits as the characters 0 and 1, in the order in which they are written.
fn text_of(alloc: Global, bits: BitSlice) -> Result<String, AllocError> {
    let mut text = String::new(alloc);
    for i in 0..bits.len() {
        let digit = match bits.get(i) {
            Some(true) => '1',
            _ => '0',
        };
        text.push(digit)?;
    }
    Ok(text)
}

#[test]
fn numbers_below_a_bound_are_spelled(rt: HostRuntime) -> Result<(), Fail> {
    let alloc = rt.alloc();
    for (value, max, text) in [
        (2047, 10240, "11111111111000"),
        (2048, 10240, "0000000000010"),
        (10239, 10240, "11111111111001"),
        (0, 1, ""),
    ] {
        assert!(rt; value < max);
        let mut writer = BitWriter::with_room(alloc, 32)?;
        writer.put_int(value, max);
        let bits = writer.into_bits();
        let written = text_of(alloc, bits.lend())?;
        assert_eq!(rt; written.as_str(), text);
        let mut reader = bits.lend().reader();
        assert_eq!(rt; reader.int(max), Ok(value));
        assert_eq!(rt; reader.left(), 0);
    }
    Ok(())
}

#[test]
fn packed_numbers_are_spelled_in_the_shortest_way(rt: HostRuntime) -> Result<(), Fail> {
    let alloc = rt.alloc();
    for (value, bytes) in [
        (127u32, &[0xfe][..]),
        (128, &[0x01, 0x02][..]),
        (300, &[0x59, 0x04][..]),
    ] {
        let mut writer = BitWriter::with_room(alloc, 40)?;
        writer.put_packed(value);
        let blob = writer.finish();
        assert_eq!(rt; blob.as_slice(), bytes);
    }
    let mut padded = BitReader::new(&[0x01, 0x00], 16);
    assert_eq!(rt; padded.packed(), Err(NumRefusal::Padded));
    assert_eq!(rt; padded.at(), 0);
    let mut short = BitReader::new(&[0x01], 8);
    assert_eq!(rt; short.packed(), Err(NumRefusal::Short));
    Ok(())
}

#[test]
fn numbers_are_near_their_reference(rt: HostRuntime) -> Result<(), Fail> {
    assert_eq!(rt; near(2, 16383, 16384), 16386);
    assert_eq!(rt; near(0, 8192, 16384), 0);
    Ok(())
}

#[test]
fn bits_are_kept_and_bytes_grow(rt: HostRuntime) -> Result<(), Fail> {
    let alloc = rt.alloc();
    let mut blob = Blob::new(alloc);
    blob.push(0b1010_0110)?;
    blob.extend_from_slice(&[0xff, 0x01])?;
    let mut reader = BitReader::new(blob.as_slice(), 17);
    assert_eq!(rt; reader.bit(), Ok(false));
    let part = match reader.take(15) {
        Ok(part) => part,
        Err(_) => return Err(Fail::from("short")),
    };
    let kept = part.keep(alloc)?;
    let text = text_of(alloc, kept.lend())?;
    assert_eq!(rt; text.as_str(), "110010111111111");
    let mut writer = BitWriter::with_room(alloc, 96)?;
    writer.put_bit(true);
    writer.put_fixed(0x0123_4567_89ab_cdef, 64);
    let lent = kept.lend();
    assert!(rt; lent.len() <= writer.spare());
    writer.put_slice(lent);
    let bytes = writer.finish();
    assert_eq!(rt;
        bytes.as_slice(),
        &[0xdf, 0x9b, 0x57, 0x13, 0xcf, 0x8a, 0x46, 0x02, 0xa6, 0xff][..]
    );
    Ok(())
}
