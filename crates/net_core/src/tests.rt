ghost use Rattle.std.specs.Prelude.{◌≡◌, ◌<◌};

use super::*;
use std::alloc::Global;
use std::marker::Brand;
use std::sync::ledger::{Blank, Ledger};
use std::test::Fail;

/// What a read answered, as bytes.
fn told(answer: &Result<Blob, ReadRefusal>) -> &[u8] {
    match answer {
        Ok(contents) => contents.as_slice(),
        Err(ReadRefusal::Missing) => b"(missing)",
        Err(ReadRefusal::Failed) => b"(failed)",
        Err(ReadRefusal::Memory) => b"(memory)",
    }
}

/// A folder of three files, two of them of one name.
fn folder(alloc: Global, failing: Vec<u64>) -> Result<MemFiles, Memory> {
    let entries = vec![in alloc;
        Entry::copied(alloc, "a", b"one")?,
        Entry::copied(alloc, "b", b"two")?,
        Entry::copied(alloc, "a", b"three")?,
    ]?;
    Ok(MemFiles::new(alloc, entries, failing))
}

#[test]
fn reads_the_first_file_of_a_name(rt: HostRuntime) -> Result<(), Fail> {
    let mut files = folder(rt.alloc(), vec![in rt.alloc(); 3, 4]?)?;
    let table: [(&str, &[u8]); 7] = [
        ("a", b"one"),
        ("c", b"(missing)"),
        ("a", b"(failed)"),
        ("c", b"(failed)"),
        ("b", b"two"),
        ("a", b"one"),
        ("", b"(missing)"),
    ];
    for (name, want) in table {
        let answer = files.read(name);
        assert_eq!(rt; told(&answer), want, "{name}");
    }
    Ok(())
}

#[test]
fn a_write_takes_a_prefix_of_its_piece(rt: HostRuntime) -> Result<(), Fail> {
    let mut out = MemSink::with_limit(rt.alloc(), vec![in rt.alloc(); 2, 5]?, 3);
    let table: [(&[u8], Result<usize, WriteRefusal>, &[u8]); 5] = [
        (b"abcd", Ok(3), b"abc"),
        (b"d", Err(WriteRefusal::Failed), b"abc"),
        (b"d", Ok(1), b"abcd"),
        (b"efg", Ok(3), b"abcdefg"),
        (b"h", Err(WriteRefusal::Failed), b"abcdefg"),
    ];
    for (piece, want, taken) in table {
        assert!(rt; !piece.is_empty());
        let answer = out.write(piece);
        assert_eq!(rt; answer, want, "{piece:?}");
        assert_eq!(rt; out.as_slice(), taken, "{piece:?}");
    }
    Ok(())
}

#[test]
fn a_failing_write_leaves_a_prefix_of_the_text(rt: HostRuntime) -> Result<(), Fail> {
    let table: [(u64, bool, &[u8]); 6] = [
        (0, true, b"0123456789"),
        (1, false, b""),
        (2, false, b"0123"),
        (3, false, b"01234567"),
        (4, true, b"0123456789"),
        (5, true, b"0123456789"),
    ];
    for (number, whole, taken) in table {
        let mut out = MemSink::with_limit(rt.alloc(), vec![in rt.alloc(); number]?, 4);
        let answer = write_all(&mut out, b"0123456789");
        assert_eq!(rt; answer.is_ok(), whole, "{number}");
        assert_eq!(rt; out.as_slice(), taken, "{number}");
    }
    let mut out = MemSink::new(rt.alloc(), vec![in rt.alloc(); 1]?);
    assert_eq!(rt; write_all(&mut out, b""), Ok(()));
    assert_eq!(rt; write_all(&mut out, b"x"), Err(WriteRefusal::Failed));
    assert_eq!(rt; write_all(&mut out, b"yz"), Ok(()));
    assert_eq!(rt; out.into_vec().as_slice(), b"yz".as_slice());
    Ok(())
}

#[test]
fn a_list_keeps_its_items(rt: HostRuntime) -> Result<(), Fail> {
    let mut guids = GuidList::new(rt.alloc());
    guids.push(Guid(4))?;
    guids.push(Guid(3))?;
    let copy = guids.copied(rt.alloc())?;
    assert!(rt; copy == guids);
    guids.push(Guid(0))?;
    assert!(rt; copy != guids);
    assert_eq!(rt; copy.get(1).copied(), Some(Guid(3)));
    assert_eq!(rt; copy.get(2).copied(), None);
    let mut sum: u64 = 0;
    for guid in guids.iter() {
        sum = sum.wrapping_mul(10).wrapping_add(u64::from(guid.0));
    }
    assert_eq!(rt; sum, 430);
    Ok(())
}

#[test]
fn refusals_say_what_is_wrong(rt: HostRuntime) -> Result<(), Fail> {
    let alloc = rt.alloc();
    for (refusal, text) in [
        (ReadRefusal::Missing, "there is no such file"),
        (ReadRefusal::Failed, "the file could not be read"),
        (ReadRefusal::Memory, "there was no memory for the file"),
    ] {
        assert_eq!(rt; format!(in alloc; "{}", refusal)?.as_str(), text);
    }
    for (refusal, text) in [
        (WriteRefusal::Failed, "the output could not be written"),
        (WriteRefusal::Memory, "there was no memory for the output"),
    ] {
        assert_eq!(rt; format!(in alloc; "{}", refusal)?.as_str(), text);
    }
    Ok(())
}

#[test]
fn a_text_keeps_its_bytes(rt: HostRuntime) -> Result<(), Fail> {
    let name = Text::from_str(rt.alloc(), "Pawn")?;
    let again = name.copied(rt.alloc())?;
    assert!(rt; again == name);
    assert_eq!(rt; again.as_bytes(), b"Pawn".as_slice());
    assert_eq!(rt; name.into_string().as_str(), "Pawn");
    Ok(())
}

/// Three steps, counted.
fn three_steps<L: Ledger>(blank: Blank) -> usize
    requires name { blank.name ≡ L.name }
    requires parts { blank.parts ≡ L.parts }
    requires some { 0 < L.parts }
{
    let mut steps = Steps::<L>::new(blank);
    steps.tick();
    steps.tick();
    steps.tick();
    size_of::<Steps<L>>()
}

#[test]
fn a_count_of_steps_has_no_bytes(rt: HostRuntime) {
    assert_eq!(rt; three_steps::<Brand>(Blank::new(1)), 0);
}
