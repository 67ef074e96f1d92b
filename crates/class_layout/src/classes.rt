// A class table in memory.
ghost use Rattle.std.specs.Prelude.{◌≡◌, ◌+◌, ◌*◌, ℕ, List, length, slice_get, Some, IfOk, IfSome, IfNone};
ghost use Rattle.std.specs.Option.{option_copied};
ghost use Rattle.table_model.specs.Rules.{guid_in, place_of, segments_of};
ghost use Rattle.table_model.specs.Facts.{IsTable};
ghost use Rattle.table_model.specs.Grammar.{entries_of};
ghost use Rattle.table_model.specs.BuiltInFile.{built_in_file};
ghost use Rattle.table_model.specs.declared.Place.TheVariants as Place;
ghost use Rattle.protocol_model.specs.BuiltIn.{built_in_table};
ghost use Rattle.sha1.specs.Sha1.{sha1};
ghost use Rattle.class_layout.specs.Tables.{IsLayout, entries_in, place_of_path, table_in};
ghost use Rattle.class_members.specs.Agreement.{Reads};

use crate::class::{Class, ClassList, Segment, SegmentList};
use crate::read::read_classes;
use crate::search;
use class_members::TableRefusal;
use net_core::{Guid, Memory, TextList};
use protocol_model::limits::{CLASS_LIMIT, TABLE_BYTES};
use sha1::Sha1;
use std::alloc::Global;
use std::marker::Model;
use table_json::{classes_of, json_of};
use table_model::{Place, TableWhy};

/// The classes of an accepted table, their segments, and the SHA-1 of the table's file.
#[derive(Debug, Drop)]
pub struct Classes {
    classes: ClassList,
    segments: SegmentList,
    digest: [u8; 20],
}

impl Model for Classes {
    ghost use Rattle.class_layout.specs.Tables.{Layout, IsLayout};

    ghost Value = { Layout };

    ghost view = { λ c. record { classes = c.classes; segments = c.segments; digest = c.digest } };

    ghost invariant = { λ c. IsLayout (record { classes = c.classes; segments = c.segments; digest = c.digest }) };
}

/// The file of the built-in table.
const BUILT_IN_FILE: &str =
    "{\"classes\":[{\"name\":\"Pawn\",\"path\":\"/Game/Pawn\",\"parent\":null,\"relevancy\":\"near\",\"cull\":1000,\"priority\":3,\"properties\":[{\"name\":\"hp\",\"type\":\"u8\",\"cond\":\"none\",\"init\":100},{\"name\":\"ammo\",\"type\":\"u32\",\"cond\":\"owner\",\"init\":0},{\"name\":\"team\",\"type\":\"enum:4\",\"cond\":\"initial\",\"init\":0},{\"name\":\"aim\",\"type\":\"i32\",\"cond\":\"skip\",\"init\":0}],\"calls\":[{\"name\":\"fire\",\"kind\":\"server\",\"reliable\":true,\"args\":[\"i32\"]},{\"name\":\"hurt\",\"kind\":\"client\",\"reliable\":true,\"args\":[\"u8\"]},{\"name\":\"boom\",\"kind\":\"multicast\",\"reliable\":false,\"args\":[\"packed\"]},{\"name\":\"blob\",\"kind\":\"server\",\"reliable\":true,\"args\":[\"bytes:2048\"]}]},{\"name\":\"Flag\",\"path\":\"/Game/Flag\",\"parent\":null,\"relevancy\":\"always\",\"cull\":0,\"priority\":1,\"properties\":[{\"name\":\"holder\",\"type\":\"guid\",\"cond\":\"none\",\"init\":0},{\"name\":\"score\",\"type\":\"packed\",\"cond\":\"none\",\"init\":0}],\"calls\":[]},{\"name\":\"Purse\",\"path\":\"/Game/Purse\",\"parent\":null,\"relevancy\":\"owner\",\"cull\":0,\"priority\":1,\"properties\":[{\"name\":\"gold\",\"type\":\"i64\",\"cond\":\"none\",\"init\":0}],\"calls\":[]}]}";

impl Classes {
    /// Reads a class table from its file.
    ///
    /// The file has at most 1,000,000 bytes and is JSON with the keys of this project's format. It
    /// is looked at from left to right: its top, then class by class the class's keys, its
    /// properties, its calls and its sizes; `BadTable` names the first rule that is broken, and
    /// where.
    pub fn read(alloc: Global, bytes: &[u8]) -> Result<Classes, TableRefusal>
        ensures reads { Reads entries_in result (entries_of bytes.now) }
        ensures digest { IfOk result (λ c. c.digest ≡ sha1 bytes.now) }
    {
        if bytes.len() > TABLE_BYTES {
            return Err(top(TableWhy::TooLong));
        }
        let Some(json) = json_of(alloc, bytes)? else {
            return Err(top(TableWhy::Json));
        };
        let Some(elements) = classes_of(&json) else {
            return Err(top(TableWhy::Shape));
        };
        if elements.is_empty() || elements.len() > CLASS_LIMIT {
            return Err(top(TableWhy::Range));
        }
        let (classes, segments) = read_classes(alloc, elements)?;
        Ok(Classes {
            classes,
            segments,
            digest: Sha1::digest(bytes),
        })
    }

    /// The table that a program has where no file is named.
    pub fn builtin(alloc: Global) -> Result<Classes, Memory>
        ensures table { IfOk result (λ c. table_in c ≡ built_in_table) }
        ensures digest { IfOk result (λ c. c.digest ≡ sha1 built_in_file) }
    {
        match Classes::read(alloc, BUILT_IN_FILE.as_bytes()) {
            Ok(classes) => Ok(classes),
            // The file is a table, so that nothing but memory can be wanted.
            Err(_) => Err(Memory),
        }
    }

    /// Does nothing, and is public for proofs alone: its contract is the law that a class table keeps
    /// its rules, for a caller whose own proof needs one. Names and paths are unique, each class's
    /// parent stands before it, inherited properties and calls come first, all sizes are within
    /// their limits, and each initial value has its kind's tag.
    pub fn keeps_rules(&self)
        ensures rules { IsTable (entries_in self.now) }
        ensures layout { IsLayout self.now }
    {
        let _known = self.classes.len();
    }

    /// How many classes there are, 1 to 256.
    pub fn count(&self) -> u16
        ensures { result ≡ length self.now.classes }
    {
        self.classes.len() as u16
    }

    /// The class at a place of the table, counted from 0; `None` exactly past the last.
    pub fn class(&self, i: u16) -> Option<&Class>
        ensures { option_copied result ≡ slice_get self.now.classes i }
    {
        self.classes.as_slice().get(i as usize)
    }

    /// The place of the class of that name, counted from 0; `None` exactly where there is none.
    pub fn find(&self, name: &str) -> Option<u16>
        ensures { result ≡ place_of (entries_in self.now) name.now }
    {
        search::find(self.classes.as_slice(), name)
    }

    /// The place of the class that has this path, its names outermost first; `None` exactly where
    /// there is none.
    pub fn by_path(&self, outer_first: &TextList) -> Option<u16>
        ensures { result ≡ place_of_path (entries_in self.now) outer_first.now }
    {
        let names = outer_first.as_slice();
        search::find_path(self.classes.as_slice(), self.segments.as_slice(), names)
    }

    /// The segment of a guid; `None` exactly where no path of the table has one of that guid.
    pub fn segment(&self, g: Guid) -> Option<&Segment>
        ensures found { IfSome result (λ s.
            guid_in (segments_of (entries_in self.now)) s.now.outer s.now.name ≡ Some g) }
        ensures absent { IfNone result ((outer : ℕ) (name : List ℕ)
            → guid_in (segments_of (entries_in self.now)) outer name ≡ Some g → ⊥) }
    {
        match segment_index(g) {
            Some(i) => item(self.segments.as_slice(), i),
            None => None,
        }
    }

    /// The SHA-1 of the bytes that were read.
    pub fn digest(&self) -> [u8; 20]
        ensures { result ≡ self.now.digest }
    {
        self.digest
    }
}

/// A rule of the whole file that is broken.
fn top(why: TableWhy) -> TableRefusal
    ensures { result ≡ TableRefusal.BadTable Place.Table why }
{
    TableRefusal::BadTable {
        place: Place::Table,
        why,
    }
}

/// The place of the segment of a guid, where it is one of a segment: they are 3, 5, 7 and so on.
fn segment_index(g: Guid) -> Option<usize>
    ensures found { IfSome result (λ i. g ≡ 2 * i + 3) }
    ensures absent { IfNone result ((i : ℕ) → g ≡ 2 * i + 3 → ⊥) }
{
    if g.0 < 3 || g.0 % 2 == 0 {
        return None;
    }
    Some(((g.0 - 3) / 2) as usize)
}

/// The segment at a place of these.
fn item(segments: &[Segment], i: usize) -> Option<&Segment>
    ensures { option_copied result ≡ slice_get segments.now i }
{
    segments.get(i)
}
