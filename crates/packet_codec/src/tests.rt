// Worked packets, and a refused one for each reason in each version.
use super::*;
use std::alloc::Global;
use std::test::Fail;

/// Number 1 with one reliable bunch that opens channel 1, of 295 payload bits.
const OPENING: [u8; 45] = [
    0x01, 0x80, 0x19, 0x00, 0x24, 0x00, 0x9d, 0x04, 0x02, 0x03, 0x00, 0xe2, 0x28, 0xac, 0xad, 0x4c,
    0xc1, 0x80, 0x80, 0x0a, 0xbb, 0x73, 0x23, 0x50, 0x10, 0x50, 0x00, 0x00, 0x00, 0x20, 0xe8, 0xff,
    0xff, 0xff, 0x37, 0x80, 0xb0, 0xc4, 0x80, 0x03, 0x00, 0x00, 0x00, 0x00, 0x40,
];

/// Reads the bytes and spells again what was read.
fn spelled_again(alloc: Global, version: Version, bytes: &[u8]) -> Result<Option<Blob>, Memory> {
    protocol_laws::packets::packet_was_spelled();
    match decode(alloc, version, bytes) {
        Ok(packet) => Ok(Some(encode(alloc, version, &packet)?)),
        Err(DecodeRefusal::Malformed { at: _, why: _ }) => Ok(None),
        Err(DecodeRefusal::Memory) => Err(Memory),
    }
}

#[test]
fn version_one_refuses_at_the_first_broken_rule(rt: HostRuntime) {
    for (bytes, at, why) in [
        (&[][..], 0, Why::Empty),
        (&[0x01; 1025][..], 8192, Why::TooLong),
        (&[0x01, 0x00][..], 8, Why::NoEnd),
        (&[0x01, 0x80, 0x23][..], 17, Why::Control),
        (&[0x01, 0x80, 0x20][..], 17, Why::Control),
        (&[0x01, 0x00, 0x01, 0x04][..], 16, Why::Reserved),
        (&[0x01, 0x00, 0x0c, 0x00, 0x02, 0x80][..], 33, Why::Reserved),
        (&[0x01, 0x80, 0x01, 0x20][..], 19, Why::OpenUnreliable),
        (&[0x01, 0x80, 0x06, 0x40][..], 20, Why::CloseUnreliable),
        (
            &[0x01, 0x00, 0x0c, 0x00, 0x03, 0x08][..],
            32,
            Why::ExportsUnopened,
        ),
        (
            &[0x01, 0x00, 0x0c, 0x00, 0x04, 0x10][..],
            34,
            Why::PartialUnreliable,
        ),
        (
            &[0x01, 0x00, 0x0e, 0x00, 0x28, 0x60, 0x00, 0x20][..],
            45,
            Why::BadKind,
        ),
        (
            &[0x01, 0x00, 0x0c, 0x00, 0x48, 0x00, 0xff, 0x01][..],
            56,
            Why::Short,
        ),
    ] {
        let refusal = decode(rt.alloc(), Version::One, bytes).err();
        assert_eq!(rt; refusal, Some(DecodeRefusal::Malformed { at, why }));
    }
}

#[test]
fn version_two_refuses_at_the_first_broken_rule(rt: HostRuntime) {
    for (bytes, at, why) in [
        (&[][..], 0, Why::Empty),
        (&[0x01; 1025][..], 8192, Why::TooLong),
        (&[0x01, 0x00, 0x00, 0x00][..], 24, Why::NoEnd),
        (
            &[0x01, 0x00, 0x00, 0x00, 0x00, 0x00, 0x00, 0x80, 0x23][..],
            65,
            Why::Control,
        ),
        (
            &[0x01, 0x00, 0x00, 0x00, 0x00, 0x00, 0x00, 0x80, 0x20][..],
            65,
            Why::Control,
        ),
        (
            &[0x01, 0x00, 0x00, 0x00, 0x00, 0x00, 0x00, 0x00, 0x01, 0x04][..],
            64,
            Why::Reserved,
        ),
        (
            &[
                0x01, 0x00, 0x00, 0x00, 0x00, 0x00, 0x00, 0x00, 0x18, 0x08, 0x00, 0x02,
            ][..],
            75,
            Why::Reserved,
        ),
        (
            &[0x01, 0x00, 0x00, 0x00, 0x00, 0x00, 0x00, 0x80, 0x01, 0x20][..],
            67,
            Why::OpenUnreliable,
        ),
        (
            &[0x01, 0x00, 0x00, 0x00, 0x00, 0x00, 0x00, 0x80, 0x06, 0x40][..],
            68,
            Why::CloseUnreliable,
        ),
        (
            &[
                0x01, 0x00, 0x00, 0x00, 0x00, 0x00, 0x00, 0x00, 0x18, 0x0c, 0x20,
            ][..],
            74,
            Why::ExportsUnopened,
        ),
        (
            &[
                0x01, 0x00, 0x00, 0x00, 0x00, 0x00, 0x00, 0x00, 0x18, 0x10, 0x40,
            ][..],
            76,
            Why::PartialUnreliable,
        ),
        (
            &[
                0x01, 0x00, 0x00, 0x00, 0x00, 0x00, 0x00, 0x00, 0x1a, 0xa0, 0x80, 0x01, 0x80,
            ][..],
            87,
            Why::BadKind,
        ),
        (
            &[
                0x01, 0x00, 0x00, 0x00, 0x00, 0x00, 0x00, 0x00, 0x18, 0x20, 0x01, 0xfc, 0x07,
            ][..],
            98,
            Why::Short,
        ),
        (
            &[
                0x01, 0x00, 0x00, 0x00, 0x00, 0x00, 0x00, 0x00, 0x1c, 0x00, 0x00, 0x00, 0x04,
            ][..],
            66,
            Why::Padded,
        ),
        (
            &[
                0x01, 0x00, 0x00, 0x00, 0x00, 0x00, 0x00, 0x00, 0x04, 0x04, 0x10, 0x00, 0x00, 0x04,
            ][..],
            66,
            Why::Wide,
        ),
    ] {
        let refusal = decode(rt.alloc(), Version::Two, bytes).err();
        assert_eq!(rt; refusal, Some(DecodeRefusal::Malformed { at, why }));
    }
}

#[test]
fn packets_are_spelled_as_they_were_read(rt: HostRuntime) -> Result<(), Fail> {
    for (version, bytes) in [
        (Version::One, &[0x01, 0x40][..]),
        (Version::One, &[0x02, 0x40][..]),
        (Version::One, &[0x05, 0xc0, 0x01, 0x20][..]),
        (Version::One, &OPENING[..]),
        (
            Version::Two,
            &[0x01, 0x00, 0x00, 0x00, 0x00, 0x00, 0x00, 0x80][..],
        ),
        (
            Version::Two,
            &[0x05, 0xc0, 0x00, 0x80, 0x02, 0x00, 0x00, 0x80][..],
        ),
        (
            Version::Two,
            &[
                0x02, 0x00, 0x0a, 0x90, 0xff, 0xff, 0xff, 0xff, 0x7f, 0x00, 0x00, 0x80,
            ][..],
        ),
    ] {
        let Some(blob) = spelled_again(rt.alloc(), version, bytes)? else {
            return Err(Fail::from("refused"));
        };
        assert_eq!(rt; blob.as_slice(), bytes);
    }
    Ok(())
}

#[test]
fn an_opening_bunch_is_read(rt: HostRuntime) -> Result<(), Fail> {
    let Ok(packet) = decode(rt.alloc(), Version::One, &OPENING) else {
        return Err(Fail::from("refused"));
    };
    assert_eq!(rt; packet.number, 1);
    assert_eq!(rt; packet.recs.len(), 1);
    let Some(Rec::Bunch(bunch)) = packet.recs.as_slice().first() else {
        return Err(Fail::from("no bunch"));
    };
    assert!(rt; bunch.opens && bunch.reliable && bunch.exports);
    assert!(rt; !bunch.closes && !bunch.sleeps);
    assert_eq!(rt; bunch.part, Part::Whole);
    assert_eq!(rt; (bunch.channel, bunch.seq, bunch.kind), (1, 1, 2));
    assert_eq!(rt; bunch.payload.len(), 295);
    Ok(())
}

#[test]
fn an_opening_bunch_that_is_cut_is_refused(rt: HostRuntime) {
    for count in 1..45 {
        let cut = &OPENING[..count];
        let last = cut[count - 1];
        let ends_in_zero = matches!(count, 4 | 6 | 11 | 27 | 28 | 29 | 41 | 42 | 43 | 44);
        assert_eq!(rt; last == 0, ends_in_zero);
        let refusal = decode(rt.alloc(), Version::One, cut).err();
        let (at, why) = if last == 0 {
            (8 * (count - 1), Why::NoEnd)
        } else {
            (8 * count - 1 - last.leading_zeros() as usize, Why::Short)
        };
        assert_eq!(rt; refusal, Some(DecodeRefusal::Malformed { at, why }));
    }
}

#[test]
fn histories_are_read(rt: HostRuntime) -> Result<(), Fail> {
    for (bytes, number, top, count, word) in [
        (
            &[0x01, 0x00, 0x00, 0x00, 0x00, 0x00, 0x00, 0x80][..],
            1,
            0,
            1,
            0,
        ),
        (
            &[0x05, 0xc0, 0x00, 0x80, 0x02, 0x00, 0x00, 0x80][..],
            5,
            3,
            1,
            5,
        ),
        (
            &[
                0x02, 0x00, 0x0a, 0x90, 0xff, 0xff, 0xff, 0xff, 0x7f, 0x00, 0x00, 0x80,
            ][..],
            2,
            40,
            2,
            0xffff_ffff,
        ),
    ] {
        let Ok(packet) = decode(rt.alloc(), Version::Two, bytes) else {
            return Err(Fail::from("refused"));
        };
        assert_eq!(rt; packet.number, number);
        assert_eq!(rt; packet.head.top, top);
        assert_eq!(rt; packet.head.count, count);
        assert_eq!(rt; packet.head.words[0], word);
    }
    Ok(())
}

#[test]
fn a_bunch_takes_as_many_bits_as_its_fields(rt: HostRuntime) {
    let payload = BitSlice {
        bytes: &[0x15],
        from: 0,
        to: 5,
    };
    assert!(rt; payload.len() < 8192);
    let bunch = Bunch {
        opens: true,
        closes: false,
        sleeps: false,
        reliable: true,
        channel: 1,
        exports: false,
        part: Part::First,
        seq: 1,
        kind: 2,
        payload,
    };
    assert_eq!(rt; bunch_bits(Version::One, &bunch), 56);
    assert_eq!(rt; bunch_bits(Version::Two, &bunch), 49);
}

#[test]
fn a_packet_takes_room_by_what_it_needs(rt: HostRuntime) -> Result<(), Fail> {
    for bytes in [&[0x01, 0x40][..], &OPENING[..]] {
        let Some(blob) = spelled_again(rt.alloc(), Version::One, bytes)? else {
            return Err(Fail::from("refused"));
        };
        let room = blob.into_vec().capacity();
        assert!(rt; room <= bytes.len() + 40);
    }
    Ok(())
}
