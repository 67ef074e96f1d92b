// Worked examples.
use super::*;
use std::test::Fail;

#[test]
fn numbers_have_one_spelling(rt: HostRuntime) -> Result<(), Fail> {
    let cases = [
        ("0", Some(0i128)),
        ("7", Some(7)),
        ("-5", Some(-5)),
        ("9223372036854775808", Some(9_223_372_036_854_775_808)),
        ("18446744073709551616", Some(18_446_744_073_709_551_615)),
        (
            "-99999999999999999999999",
            Some(-18_446_744_073_709_551_615),
        ),
        ("", None),
        ("-", None),
        ("-0", None),
        ("01", None),
        ("+1", None),
        ("1x", None),
        (" 1", None),
    ];
    for (text, wanted) in cases {
        assert_eq!(rt; number(text.as_bytes()), wanted, "{text}");
    }
    Ok(())
}

#[test]
fn bytes_have_two_digits_each(rt: HostRuntime) -> Result<(), Fail> {
    let cases = [
        ("-", Some(b"".as_slice())),
        ("00", Some(b"\x00".as_slice())),
        ("0aFf", Some(b"\x0a\xff".as_slice())),
        ("", None),
        ("0", None),
        ("--", None),
        ("0g", None),
        ("zz", None),
    ];
    for (text, wanted) in cases {
        let told = octets(rt.alloc(), text.as_bytes())?;
        let bytes = match &told {
            Some(bytes) => Some(bytes.as_slice()),
            None => None,
        };
        assert!(rt; bytes == wanted, "{text}");
    }
    Ok(())
}

#[test]
fn lines_have_their_shapes(rt: HostRuntime) -> Result<(), Fail> {
    let cases = [
        ("join 1 8000", true),
        ("join2 1 8000", true),
        ("join 1", false),
        ("join 1 8000 ", false),
        ("join  1 8000", false),
        ("join 1 +1", false),
        ("Join 1 8000", false),
        ("spawn Pawn 0 -3", true),
        ("spawn  0 0", false),
        ("spawn Pawn 0 -0", false),
        ("set 1 hp ", true),
        ("set 1 hp x", true),
        ("set 1  3", false),
        ("set 1 hp 1 2", false),
        ("switch 1 hp 1", true),
        ("switch 1 hp 2", false),
        ("view 1 2 3", true),
        ("view 1 2", false),
        ("tick", true),
        ("tick ", false),
        ("call 1 1 boom", true),
        ("call 1 1 boom  -", true),
        ("call 1 1", false),
        ("multi 1 boom", true),
        ("forge 1 -", true),
        ("forge 1 0", false),
        ("cforge 1 AbCd", true),
        ("downnew 1 10", true),
        ("mirror 1", false),
        ("r join 1 8000", false),
        ("aset 1 2 3", false),
        ("", false),
    ];
    for (line, wanted) in cases {
        assert_eq!(rt; spelled_of(line.as_bytes()).is_some(), wanted, "{line}");
    }
    Ok(())
}

#[test]
fn a_datagram_has_at_most_2048_bytes(rt: HostRuntime) -> Result<(), Fail> {
    let mut line = String::from_str(rt.alloc(), "forge 1 ")?;
    for _digits in 0..2048 {
        line.push_str("00")?;
    }
    assert!(rt; spelled_of(line.as_bytes()).is_some());
    line.push_str("00")?;
    assert!(rt; spelled_of(line.as_bytes()).is_none());
    Ok(())
}
