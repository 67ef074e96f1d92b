// Worked files.
use super::*;
use std::alloc::Global;
use std::test::Fail;

/// Packet 1 with one reliable bunch that opens channel 1.
const OPENING: &str =
    "0180190024009D04020300e228acad4cc180800abb732350105000000020e8ffffff3780b0c480030000000040";

/// What a file is shown as, or the line of its refusal.
fn shown(alloc: Global, version: Version, file: &str) -> Result<String, Memory> {
    match show(alloc, version, file.as_bytes()) {
        Ok(text) => Ok(text),
        Err(ShowRefusal::BadLine { line, fault }) => refused_text(alloc, line, fault),
        Err(ShowRefusal::Memory) => Err(Memory),
    }
}

#[test]
fn packets_are_shown_by_their_fields(rt: HostRuntime) -> Result<(), Fail> {
    let alloc = rt.alloc();
    for (version, file, text) in [
        (Version::One, "", ""),
        (Version::One, "05c00120\n", "packet 5 1\nack 3\n"),
        (
            Version::One,
            "05c00120\n05c00120",
            "packet 5 1\nack 3\npacket 5 1\nack 3\n",
        ),
        (
            Version::One,
            OPENING,
            "packet 1 1\nbunch 1 open reliable exports seq 1 kind 2 bits 295\n",
        ),
        (
            Version::Two,
            "0140008000000080",
            "packet 1 0\nhead 1 00000001\n",
        ),
    ] {
        let got = shown(alloc, version, file)?;
        assert_eq!(rt; got.as_str(), text, "{file}");
    }
    Ok(())
}

#[test]
fn the_first_bad_line_is_told(rt: HostRuntime) -> Result<(), Fail> {
    let alloc = rt.alloc();
    for (version, file, text) in [
        (Version::One, "\n", "unet: line 1: bit 0 Empty\n"),
        (
            Version::One,
            "05c00120\n\n5g",
            "unet: line 2: bit 0 Empty\n",
        ),
        (Version::One, "05c00120\n5g\n", "unet: line 2: not hex\n"),
        (Version::One, "05c0012\n", "unet: line 1: not hex\n"),
        (Version::One, "05c00120\r\n", "unet: line 1: not hex\n"),
        (
            Version::One,
            "0140008000000080",
            "unet: line 1: bit 31 Reserved\n",
        ),
        (Version::Two, "05c00120\n", "unet: line 1: bit 29 Short\n"),
        (Version::Two, OPENING, "unet: line 1: bit 87 BadKind\n"),
    ] {
        let got = shown(alloc, version, file)?;
        assert_eq!(rt; got.as_str(), text, "{file}");
    }
    Ok(())
}
