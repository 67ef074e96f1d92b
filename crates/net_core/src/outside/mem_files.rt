// A folder in memory.
ghost use Rattle.std.specs.Prelude.{◌≡◌, IfOk};
ghost use Rattle.std.specs.Option.{option_copied};
ghost use Rattle.net_core.specs.Folder.{contents_of};

use super::counted::Calls;
use super::files::{Files, ReadRefusal};
use crate::names::Text;
use bit_io::{Blob, Memory};
use std::alloc::Global;
use std::marker::Model;

/// A file of a folder: its name and what it holds.
#[derive(Debug, Drop)]
pub struct Entry {
    /// The name that a read gives.
    pub name: Text,
    /// All its bytes.
    pub contents: Blob,
}

impl Entry {
    /// A file of that name that holds a copy of these bytes.
    pub fn copied(alloc: Global, name: &str, contents: &[u8]) -> Result<Entry, Memory>
        ensures { IfOk result (λ entry.
            entry ≡ record { name = name.now; contents = contents.now }) }
    {
        Ok(Entry {
            name: Text::from_str(alloc, name)?,
            contents: Blob::from_vec(contents.to_vec(alloc)?),
        })
    }
}

/// A folder in memory, whose calls of given numbers fail: the first call is number 1. Each of these
/// that was made is one fault.
#[derive(Debug, Drop)]
pub struct MemFiles {
    alloc: Global,
    entries: Vec<Entry>,
    calls: Calls,
}

impl Model for MemFiles {
    ghost use Rattle.net_core.specs.InMemory.{MemoryFolder};

    ghost Value = { MemoryFolder };

    ghost view = { λ m. record { entries = m.entries.items; calls = m.calls } };
}

impl MemFiles {
    /// A folder of these files, whose calls of these numbers are to fail.
    pub fn new(alloc: Global, entries: Vec<Entry>, failing: Vec<u64>) -> MemFiles
        ensures { result ≡ record {
          entries = entries.items;
          calls = record { made = 0; faults = 0; failing = failing.items };
        } }
    {
        MemFiles {
            alloc,
            entries,
            calls: Calls::new(failing),
        }
    }
}

impl Files for MemFiles {
    ghost use Rattle.std.specs.Prelude.{◌≡◌, ◌↔◌, IfOk, IsErrOf, Some, true};
    ghost use Rattle.net_core.specs.Counts.{ReadCause, Rose};
    ghost use Rattle.net_core.specs.Failing.{after_call, next_fails};
    ghost use Rattle.net_core.specs.Folder.{Gives, Has, Lacks};

    ghost folder = { λ m. Some m.entries };

    ghost reads = { λ m. m.calls.made };

    ghost faults = { λ m. m.calls.faults };

    /// The contents of the first file of that name. `Failed` comes exactly at a call that is to
    /// fail, whatever the name.
    fn read(&mut self, name: &str) -> Result<Blob, ReadRefusal>
        ensures calls { self.new ≡ record self.old { calls = after_call self.old.calls } }
        ensures failed { IsErrOf result ReadRefusal.Failed ↔ (next_fails self.old.calls ≡ true) }
        ensures found { IfOk result (λ contents. Gives (Some self.old.entries) name.now contents) }
        ensures missing { IsErrOf result ReadRefusal.Missing
            → Lacks (Some self.old.entries) name.now }
        ensures memory { IsErrOf result ReadRefusal.Memory
            → Has (Some self.old.entries) name.now }
        ensures read { Rose self.old.calls.made self.new.calls.made }
        ensures cause { ReadCause self.old.calls.faults self.new.calls.faults result }
    {
        if self.calls.fails() {
            return Err(ReadRefusal::Failed);
        }
        let Some(contents) = first_named(&self.entries, name) else {
            return Err(ReadRefusal::Missing);
        };
        match contents.to_vec(self.alloc) {
            Ok(bytes) => Ok(Blob::from_vec(bytes)),
            Err(_) => Err(ReadRefusal::Memory),
        }
    }
}

/// The contents of the first file of that name.
fn first_named<'a>(entries: &'a [Entry], name: &str) -> Option<&'a [u8]>
    ensures { option_copied result ≡ contents_of entries.now name.now }
{
    for entry in entries {
        if entry.name.as_str() == name {
            return Some(entry.contents.as_slice());
        }
    }
    None
}
