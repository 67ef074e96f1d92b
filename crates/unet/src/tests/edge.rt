// The edge: words of the system, real files and real output, and readers and writers that fail.
use crate::host::{HostFiles, HostSink};
use crate::read_all::read_all;
use crate::start::{start, words_of};
use net_core::{Blob, Entry, Files, MemFiles, MemSink, ReadRefusal, Sink, WriteRefusal, write_all};
use protocol_model::limits::SCRIPT_BYTES;
use std::alloc::Global;
use std::env::{Env, FillError};
use std::io::{ErrorKind, Read, Write};
use std::os::unix::fs::PermissionsExt;
use std::process::ExitCode;
use std::test::Fail;
use std::{env, fs, io};

/// A system whose words these are.
#[derive(Drop)]
struct Words(&'static [&'static [u8]]);

impl Env for Words {
    fn arg(&self, i: usize, buf: &mut [u8]) -> Result<usize, FillError> {
        let Some(word) = self.0.get(i) else {
            return Err(FillError::NotPresent);
        };
        if word.len() > buf.len() {
            return Err(FillError::TooLong);
        }
        buf[..word.len()].copy_from_slice(word);
        Ok(word.len())
    }

    fn var(&self, _name: &str, _buf: &mut [u8]) -> Result<usize, FillError> {
        Err(FillError::NotPresent)
    }

    fn var_at(&self, _i: usize, _buf: &mut [u8]) -> Result<usize, FillError> {
        Err(FillError::NotPresent)
    }
}

#[test]
fn words_have_their_statuses(rt: HostRuntime) -> Result<(), Fail> {
    let alloc = rt.alloc();
    let table: [(&'static [&'static [u8]], usize, u8, &str); 6] = [
        (&[b"unet", b"replay", b"-", b"S"], 3, 0, "joined 1\n"),
        (
            &[b"unet", b"replay", b"-", b"S", b"more", b"words"],
            5,
            2,
            "unet: words not understood\n",
        ),
        (
            &[b"unet", b"replay", b"-", b"none"],
            3,
            3,
            "unet: no file none\n",
        ),
        (
            &[b"unet", b"replay", b"-", b"bad"],
            3,
            5,
            "unet: script refused at line 2: NoActor\n",
        ),
        (
            &[b"unet", b"replay", b"-", b"S\xff"],
            0,
            2,
            "unet: words not understood\n",
        ),
        (&[b"unet"], 0, 2, "unet: words not understood\n"),
    ];
    for (words, count, status, text) in table {
        let entries = vec![in alloc;
            Entry::copied(alloc, "S", b"join 1 8000\n")?,
            Entry::copied(alloc, "bad", b"join 1 8000\nset 1 hp 3\n")?,
        ]?;
        let mut files = MemFiles::new(alloc, entries, Vec::new(alloc));
        let mut out = MemSink::new(alloc, Vec::new(alloc));
        let words = words_of(alloc, env::args(&(Words(words), alloc)))?;
        assert_eq!(rt; words.len(), count, "{text}");
        assert_eq!(rt;
            start(alloc, Ok(words), &mut files, &mut out),
            ExitCode::from(status)
        );
        assert_eq!(rt; out.as_slice(), text.as_bytes());
    }
    Ok(())
}

#[test]
fn want_of_memory_for_the_words_is_status_8(rt: HostRuntime) -> Result<(), Fail> {
    let alloc = rt.alloc();
    let mut files = MemFiles::new(alloc, Vec::new(alloc), Vec::new(alloc));
    let mut out = MemSink::new(alloc, Vec::new(alloc));
    let words = words_of(alloc, Err(io::Error::from(ErrorKind::OutOfMemory)));
    assert!(rt; words.is_err());
    assert_eq!(rt;
        start(alloc, words, &mut files, &mut out),
        ExitCode::from(8)
    );
    assert!(rt; out.as_slice().is_empty());
    Ok(())
}

/// What a read answered, in short.
fn told(answer: &Result<Blob, ReadRefusal>) -> &str {
    match answer {
        Ok(_) => "read",
        Err(ReadRefusal::Missing) => "missing",
        Err(ReadRefusal::Failed) => "failed",
        Err(ReadRefusal::Memory) => "memory",
    }
}

/// Bytes that no two places near one another share.
fn patterned(alloc: Global, count: usize) -> Result<Vec<u8>, Fail> {
    let mut bytes = Vec::new(alloc);
    for place in 0..count {
        bytes.push((place % 251) as u8)?;
    }
    Ok(bytes)
}

#[test]
fn real_files_are_read_whole(rt: HostRuntime) -> Result<(), Fail> {
    let alloc = rt.alloc();
    let _ = fs::remove_dir_all(&rt, "unet_files_test");
    fs::create_dir(&rt, "unet_files_test")?;
    let bytes = patterned(alloc, 200_001)?;
    fs::write(&rt, "unet_files_test/long", bytes.as_slice())?;
    fs::write(&rt, "unet_files_test/empty", b"".as_slice())?;
    fs::write(&rt, "unet_files_test/closed", b"x".as_slice())?;
    fs::set_permissions(&rt, "unet_files_test/closed", fs::Permissions::from_mode(0))?;
    fs::create(&rt, "unet_files_test/over")?.set_len(SCRIPT_BYTES as u64 + 1)?;
    let mut files = HostFiles::new(alloc, &rt);
    for (name, want) in [
        ("unet_files_test/long", "read"),
        ("unet_files_test/empty", "read"),
        ("unet_files_test/over", "failed"),
        ("unet_files_test/none", "missing"),
        ("unet_files_test/none/none", "missing"),
        ("unet_files_test", "failed"),
        ("unet_files_test/long/inside", "failed"),
    ] {
        assert_eq!(rt; told(&files.read(name)), want, "{name}");
    }
    let long = files.read("unet_files_test/long")?;
    assert_eq!(rt; long.as_slice(), bytes.as_slice());
    // The administrator may read a closed file; for everyone else the read fails.
    let closed = files.read("unet_files_test/closed");
    assert!(rt; told(&closed) == "failed" || closed.is_ok());
    fs::remove_dir_all(&rt, "unet_files_test")?;
    Ok(())
}

#[test]
fn real_output_is_written_whole(rt: HostRuntime) -> Result<(), Fail> {
    let alloc = rt.alloc();
    let bytes = patterned(alloc, 200_001)?;
    let mut out = HostSink::new(fs::create(&rt, "unet_output_test")?);
    assert_eq!(rt; write_all(&mut out, &bytes), Ok(()));
    assert_eq!(rt; write_all(&mut out, b"end"), Ok(()));
    let written = HostFiles::new(alloc, &rt).read("unet_output_test")?;
    assert!(rt; written.len() == 200_004);
    assert!(rt; written.as_slice().starts_with(&bytes) && written.as_slice().ends_with(b"end"));
    fs::remove_file(&rt, "unet_output_test")?;
    // A device that is always full, where the system has one.
    if let Ok(full) = fs::OpenOptions::new().write(true).open(&rt, "/dev/full") {
        let mut out = HostSink::new(full);
        assert_eq!(rt; write_all(&mut out, b"text"), Err(WriteRefusal::Failed));
    }
    Ok(())
}

/// Reads and writes three bytes a call, each of them first interrupted. The last of its calls moves
/// none, or fails, and so does each later one.
#[derive(Drop)]
struct Unsteady {
    interrupted: bool,
    calls: u32,
    fails: bool,
}

impl Unsteady {
    fn new(calls: u32, fails: bool) -> Unsteady {
        Unsteady {
            interrupted: false,
            calls,
            fails,
        }
    }

    /// How many bytes the next call moves.
    fn next(&mut self) -> io::Result<usize> {
        self.interrupted = !self.interrupted;
        if self.interrupted {
            return Err(io::Error::from(ErrorKind::Interrupted));
        }
        if self.calls > 1 {
            self.calls -= 1;
            return Ok(3);
        }
        if self.fails {
            return Err(io::Error::from(ErrorKind::Other));
        }
        Ok(0)
    }
}

impl Read for Unsteady {
    fn read(&mut self, buf: &mut [u8]) -> io::Result<usize> {
        let count = self.next()?.min(buf.len());
        buf[..count].fill(b'x');
        Ok(count)
    }
}

impl Write for Unsteady {
    fn write(&mut self, buf: &[u8]) -> io::Result<usize> {
        Ok(self.next()?.min(buf.len()))
    }

    fn flush(&mut self) -> io::Result<()> {
        Ok(())
    }
}

#[test]
fn an_interrupted_call_is_tried_again_and_a_failed_one_is_a_fault(
    rt: HostRuntime,
) -> Result<(), Fail> {
    let alloc = rt.alloc();
    let whole = read_all(alloc, Unsteady::new(4, false))?;
    assert_eq!(rt; whole.as_slice(), b"xxxxxxxxx".as_slice());
    let broken = read_all(alloc, Unsteady::new(4, true));
    assert_eq!(rt; told(&broken), "failed");
    for fails in [false, true] {
        let mut out = HostSink::new(Unsteady::new(4, fails));
        assert_eq!(rt; out.write(b"abcd"), Ok(3));
        assert_eq!(rt; write_all(&mut out, b"abcd"), Ok(()));
        assert_eq!(rt; write_all(&mut out, b"a"), Err(WriteRefusal::Failed));
    }
    Ok(())
}
