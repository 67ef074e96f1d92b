// The edge to the system: files by name, and standard output.
//
// No contract can say what the system's files hold and what it does with output, so `HostFiles` tells
// no folder, and `HostSink` tells what it took only where its writer does. Of a file that was opened
// `read_all` promises the rest; tests read and write real files.
ghost use Rattle.std.specs.Prelude.{◌≡◌, None};
ghost use Rattle.std.specs.Io.{WritesAtMost};
ghost use Rattle.std.specs.Io.KnownBytes.{WriteAppends};

use crate::read_all::read_all;
use net_core::{Blob, Files, ReadRefusal, Sink, WriteRefusal};
use std::alloc::Global;
use std::io::{ErrorKind, Write};
use std::{fs, io, rt};

/// The system's files, with counts of reads and faults.
///
/// A name that isn't found is `Missing`. Anything else that goes wrong is a fault: a name that is a
/// folder or runs through a plain file, a file that may not be read, and one that is too long.
#[derive(Drop)]
pub struct HostFiles<'a, R: rt::Files> {
    alloc: Global,
    rt: &'a R,
    reads: u64,
    faults: u64,
}

impl<'a, R: rt::Files> HostFiles<'a, R> {
    pub fn new(alloc: Global, rt: &'a R) -> HostFiles<'a, R> {
        HostFiles {
            alloc,
            rt,
            reads: 0,
            faults: 0,
        }
    }
}

impl<'a, R: rt::Files> Files for HostFiles<'a, R> {
    ghost folder = { λ _. None };

    ghost reads = { λ m. m.reads };

    ghost faults = { λ m. m.faults };

    fn read(&mut self, name: &str) -> Result<Blob, ReadRefusal> {
        self.reads = self.reads.saturating_add(1);
        match read_file(self.alloc, self.rt, name) {
            Err(ReadRefusal::Failed) => {
                self.faults = self.faults.saturating_add(1);
                Err(ReadRefusal::Failed)
            }
            answer => answer,
        }
    }
}

/// All the bytes of a file.
fn read_file<R: rt::Files>(alloc: Global, rt: &R, name: &str) -> Result<Blob, ReadRefusal> {
    match fs::open(rt, name) {
        Ok(file) => read_all(alloc, file),
        Err(error) => Err(refusal_of(error.kind())),
    }
}

/// What an error of the system says of opening a file.
fn refusal_of(kind: ErrorKind) -> ReadRefusal {
    match kind {
        ErrorKind::NotFound => ReadRefusal::Missing,
        ErrorKind::OutOfMemory => ReadRefusal::Memory,
        _ => ReadRefusal::Failed,
    }
}

/// A writer of std, with a count of faults. A write that takes nothing is a fault; it takes no memory
/// of the program's.
#[derive(Drop)]
pub struct HostSink<W: Write + Drop> {
    inner: W,
    faults: u64,
}

impl<W: Write + Drop> HostSink<W> {
    pub fn new(inner: W) -> HostSink<W> {
        HostSink { inner, faults: 0 }
    }
}

impl<W: Write + Drop> Sink for HostSink<W> {
    ghost taken = { λ s. W.contents s.inner };

    ghost faults = { λ s. s.faults };

    ghost shortages = { λ _. 0 };

    fn write(&mut self, bytes: &[u8]) -> Result<usize, WriteRefusal> {
        match write_retrying(&mut self.inner, bytes) {
            Ok(count) if count > 0 => Ok(count),
            _ => {
                self.faults = self.faults.saturating_add(1);
                Err(WriteRefusal::Failed)
            }
        }
    }
}

/// One write, tried again where it was interrupted.
fn write_retrying<W: Write>(inner: &mut W, bytes: &[u8]) -> io::Result<usize>
    ensures bound { WritesAtMost result bytes.now }
    ensures bytes { WriteAppends (W.contents inner.old) (W.contents inner.new) result bytes.now }
{
    for _ in 0..u64::MAX {
        match inner.write(bytes) {
            Err(error) if error.kind() == ErrorKind::Interrupted => {}
            answer => return answer,
        }
    }
    Err(io::Error::from(ErrorKind::Interrupted))
}
