// Whole runs over folders and sinks in memory.
use crate::answer::{Work, answer};
use crate::run::run;
use net_core::{Blob, Entry, MemFiles, MemSink};
use std::alloc::{AllocError, Global};
use std::test::Fail;

mod edge;

const FIRST: &str = "join 1 8000\nspawn Pawn 10 -3\nset 1 hp 75\ntick\ndown 1 1\ndump 1\n";

/// The transcript of `FIRST`, in the pieces that its lines write.
const FIRST_PIECES: [&str; 5] = [
    "joined 1\n",
    "actor 1\n",
    "sent 1 1 0180190024009d04020300e228acad4cc180800abb732350105000000020e8ffffff3780b0c480030000000040\n",
    "down 1 1 taken\n",
    "copies 1 1\ncopy 1 1 Pawn open x=10 y=-3 role=0 hp=75 ammo=0 team=0 aim=0\n",
];

const NINE_TICKS: &str =
    "join 1 8000\nspawn Pawn 0 0\ntick\ntick\ntick\ntick\ntick\ntick\ntick\ntick\ntick\ndown 1 2\ndown 1 1\ndown 1 3\ndump 1";

const NINE_TICKS_TRANSCRIPT: &str =
    "joined 1\nactor 1\nsent 1 1 0180190024009d04020300e228acad4cc180800abb73235010000000002000000000308040c680030000000040\nsent 1 2 0240\ndown 1 2 taken\ndown 1 1 old\ndown 1 3 absent\ncopies 1 0\n";

/// The words of a run.
fn words_of(alloc: Global, texts: &[&str]) -> Result<Vec<String>, AllocError> {
    let mut words = Vec::new(alloc);
    for text in texts {
        words.push(String::from_str(alloc, text)?)?;
    }
    Ok(words)
}

/// Runs `replay - S` where S is this script, with these calls of the files and of the sink failing.
fn replayed(
    alloc: Global,
    script: &str,
    failing_reads: &[u64],
    failing_writes: &[u64],
    longest: usize,
) -> Result<(u8, Vec<u8>), Fail> {
    let words = words_of(alloc, &["replay", "-", "S"])?;
    let mut entries = Vec::new(alloc);
    entries.push(Entry::copied(alloc, "S", script.as_bytes())?)?;
    let mut files = MemFiles::new(alloc, entries, failing_reads.to_vec(alloc)?);
    let mut out = MemSink::with_limit(alloc, failing_writes.to_vec(alloc)?, longest.max(1));
    let status = run(alloc, &words, &mut files, &mut out);
    Ok((status, out.into_vec()))
}

#[test]
fn scripts_have_their_transcripts(rt: HostRuntime) -> Result<(), Fail> {
    let alloc = rt.alloc();
    for (script, status, text) in [
        (NINE_TICKS, 0, NINE_TICKS_TRANSCRIPT),
        ("", 0, ""),
        ("# nothing\n\n", 0, ""),
        (
            "join 1 8000\nset 1 hp 3\n",
            5,
            "unet: script refused at line 2: NoActor\n",
        ),
        (
            "join 1 8000\njoin 1 8000\n",
            5,
            "unet: script refused at line 2: Taken\n",
        ),
        (
            "tick\nctick 1\n",
            5,
            "unet: script refused at line 2: NoPlayer\n",
        ),
        ("tick\r\n", 5, "unet: script refused at line 1: Shape\n"),
    ] {
        for longest in [usize::MAX, 1] {
            let (answer, written) = replayed(alloc, script, &[], &[], longest)?;
            assert_eq!(rt; answer, status, "{script}");
            assert_eq!(rt; written.as_slice(), text.as_bytes(), "{script}");
        }
    }
    Ok(())
}

#[test]
fn words_and_files_are_looked_at_first(rt: HostRuntime) -> Result<(), Fail> {
    let alloc = rt.alloc();
    for (texts, status, text) in [
        (&["replay", "-"][..], 2, "unet: words not understood\n"),
        (&[][..], 2, "unet: words not understood\n"),
        (
            &["replay", "-", "-x"][..],
            2,
            "unet: words not understood\n",
        ),
        (&["replay", "-", ""][..], 2, "unet: words not understood\n"),
        (
            &["replay", "-T", "S"][..],
            2,
            "unet: words not understood\n",
        ),
        (&["--help"][..], 2, "unet: words not understood\n"),
        (&["replay", "-", "S"][..], 3, "unet: no file S\n"),
        (&["replay", "T", "S"][..], 3, "unet: no file T\n"),
    ] {
        let words = words_of(alloc, texts)?;
        let mut files = MemFiles::new(alloc, Vec::new(alloc), Vec::new(alloc));
        let mut out = MemSink::new(alloc, Vec::new(alloc));
        let answer = run(alloc, &words, &mut files, &mut out);
        assert_eq!(rt; answer, status);
        assert_eq!(rt; out.as_slice(), text.as_bytes());
    }
    Ok(())
}

/// A class of doors, which are always relevant.
const DOORS: &str =
    "{\"classes\":[{\"name\":\"Door\",\"path\":\"/Game/Door\",\"parent\":null,\"relevancy\":\"always\",\"cull\":0,\"priority\":1,\"properties\":[{\"name\":\"open\",\"type\":\"bool\",\"cond\":\"none\",\"init\":0}],\"calls\":[]}]}";

const OPENING: &str = "join 1 8000\nspawn Door 0 0\nset 1 open 1\ntick\ndown 1 1\ndump 1\n";

/// Runs these words over a folder with a table `T`, one without classes `B`, and a script `S`.
fn run_doors(alloc: Global, texts: &[&str]) -> Result<(u8, Vec<u8>), Fail> {
    let words = words_of(alloc, texts)?;
    let mut entries = Vec::new(alloc);
    entries.push(Entry::copied(alloc, "T", DOORS.as_bytes())?)?;
    entries.push(Entry::copied(alloc, "B", b"{\"classes\":[]}")?)?;
    entries.push(Entry::copied(alloc, "S", OPENING.as_bytes())?)?;
    let mut files = MemFiles::new(alloc, entries, Vec::new(alloc));
    let mut out = MemSink::new(alloc, Vec::new(alloc));
    let status = run(alloc, &words, &mut files, &mut out);
    Ok((status, out.into_vec()))
}

#[test]
fn scripts_are_read_by_their_table(rt: HostRuntime) -> Result<(), Fail> {
    let alloc = rt.alloc();
    for (table, script, status, text) in [
        (
            "T",
            "S",
            0,
            "joined 1\nactor 1\nsent 1 1 018019002400b903020300e228acad4cc180207a7b9323501000000000200000000030801020\ndown 1 1 taken\ncopies 1 1\ncopy 1 1 Door open x=0 y=0 role=0 open=1\n",
        ),
        ("-", "S", 5, "unet: script refused at line 2: NoClass\n"),
        ("B", "S", 4, "unet: class table refused at table: Range\n"),
        ("T", "N", 3, "unet: no file N\n"),
        ("N", "S", 3, "unet: no file N\n"),
    ] {
        let (answer, written) = run_doors(alloc, &["replay", table, script])?;
        assert_eq!(rt; answer, status, "{text}");
        assert_eq!(rt; written.as_slice(), text.as_bytes(), "{text}");
    }
    Ok(())
}

/// Runs these words over a folder with a file `F`.
fn run_over(alloc: Global, texts: &[&str], file: &str) -> Result<(u8, Vec<u8>), Fail> {
    let words = words_of(alloc, texts)?;
    let mut entries = Vec::new(alloc);
    entries.push(Entry::copied(alloc, "F", file.as_bytes())?)?;
    let mut files = MemFiles::new(alloc, entries, Vec::new(alloc));
    let mut out = MemSink::new(alloc, Vec::new(alloc));
    let status = run(alloc, &words, &mut files, &mut out);
    Ok((status, out.into_vec()))
}

#[test]
fn tables_have_their_summary(rt: HostRuntime) -> Result<(), Fail> {
    let alloc = rt.alloc();
    for (words, file, status, text) in [
        (
            &["check", "-"],
            "",
            0,
            "classes 3\nclass Pawn handles 7 calls 4\nclass Flag handles 5 calls 0\nclass Purse handles 4 calls 0\ndigest fda1167c93708da363b0ced8c309b008d59c6b16\n",
        ),
        (
            &["check", "F"],
            "{\"classes\":[]}",
            4,
            "unet: class table refused at table: Range\n",
        ),
        (&["check", "G"], "", 3, "unet: no file G\n"),
        (&["check", "-F"], "", 2, "unet: words not understood\n"),
    ] {
        let (answer, written) = run_over(alloc, words, file)?;
        assert_eq!(rt; answer, status, "{text}");
        assert_eq!(rt; written.as_slice(), text.as_bytes(), "{text}");
    }
    Ok(())
}

#[test]
fn packets_are_shown(rt: HostRuntime) -> Result<(), Fail> {
    let alloc = rt.alloc();
    for (words, file, status, text) in [
        (&["show", "F"], "05c00120\n", 0, "packet 5 1\nack 3\n"),
        (
            &["show2", "F"],
            "0140008000000080",
            0,
            "packet 1 0\nhead 1 00000001\n",
        ),
        (
            &["show", "F"],
            "05c00120\n5g\n",
            9,
            "unet: line 2: not hex\n",
        ),
        (&["show", "-"], "", 2, "unet: words not understood\n"),
    ] {
        let (answer, written) = run_over(alloc, words, file)?;
        assert_eq!(rt; answer, status, "{text}");
        assert_eq!(rt; written.as_slice(), text.as_bytes(), "{text}");
    }
    Ok(())
}

#[test]
fn samples_have_their_summary(rt: HostRuntime) -> Result<(), Fail> {
    let alloc = rt.alloc();
    for (words, status, text) in [
        (
            &["sample", "1"][..],
            0,
            "ticks 1\ndown 344 20677\nup 328 1344\nrefused 0\nsettled 459\ntranscript eed9812eba72dd3faa6364d7c63b5486df66ffa0\n",
        ),
        (&["sample"][..], 2, "unet: words not understood\n"),
        (&["sample", "0"][..], 2, "unet: words not understood\n"),
        (&["sample", "01"][..], 2, "unet: words not understood\n"),
        (&["sample", "2001"][..], 2, "unet: words not understood\n"),
        (&["sample", "-1"][..], 2, "unet: words not understood\n"),
        (
            &["sample", "18446744073709551617"][..],
            2,
            "unet: words not understood\n",
        ),
        (&["sample", "1", "2"][..], 2, "unet: words not understood\n"),
    ] {
        let (answer, written) = run_over(alloc, words, "")?;
        assert_eq!(rt; answer, status, "{text}");
        assert_eq!(rt; written.as_slice(), text.as_bytes(), "{text}");
    }
    Ok(())
}

#[test]
fn a_failing_write_leaves_the_pieces_before_it(rt: HostRuntime) -> Result<(), Fail> {
    let alloc = rt.alloc();
    let mut taken = Vec::new(alloc);
    let mut number = 1;
    for piece in FIRST_PIECES {
        let (status, written) = replayed(alloc, FIRST, &[], &[number], usize::MAX)?;
        assert_eq!(rt; status, 6, "{number}");
        assert_eq!(rt; written.as_slice(), taken.as_slice(), "{number}");
        taken.extend_from_slice(piece.as_bytes())?;
        number = number.wrapping_add(1);
    }
    let (status, written) = replayed(alloc, FIRST, &[], &[number], usize::MAX)?;
    assert_eq!(rt; status, 0);
    assert_eq!(rt; written.as_slice(), taken.as_slice());
    let (status, written) = replayed(alloc, FIRST, &[1], &[], usize::MAX)?;
    assert_eq!(rt; status, 6);
    assert!(rt; written.is_empty());
    Ok(())
}

/// A script of this many bytes, in comments of 16,383 bytes and the end of a line.
fn comments(alloc: Global, bytes: usize) -> Result<Blob, Fail> {
    let mut script = vec![in alloc; b'#'; bytes]?;
    for end in script.chunks_mut(16_384) {
        if let Some(last) = end.last_mut() {
            *last = b'\n';
        }
    }
    Ok(Blob::from_vec(script))
}

#[test]
fn a_script_may_be_long(rt: HostRuntime) -> Result<(), Fail> {
    let alloc = rt.alloc();
    for bytes in [4_097, 16_384, 65_537, 1_000_000] {
        let script = comments(alloc, bytes)?;
        let mut out = MemSink::new(alloc, Vec::new(alloc));
        assert_eq!(rt;
            answer(alloc, &Work::ReplayBuiltIn, "S", Ok(script), &mut out),
            Ok(0),
            "{bytes}"
        );
        assert!(rt; out.as_slice().is_empty(), "{bytes}");
    }
    Ok(())
}
