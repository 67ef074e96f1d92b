// What a client learnt.
ghost use Rattle.std.specs.Prelude.{◌≡◌, ◌+◌, ◌<◌, [], ℕ, List, length, Some, None, if◌then◌else◌, OnOk, OnErr, IfOk};
ghost use Rattle.std.specs.Ordering.{nat_cmp, is_eq};
ghost use Rattle.std.specs.BTreeMap.{get, btree_map_len};
ghost use Rattle.protocol_model.specs.Value.{Segment};
ghost use Rattle.connection_model.specs.Names.{names_with};
ghost use Rattle.class_layout.specs.Tables.{table_in};
ghost use Rattle.netguid_map.specs.Names.{Stands, IsLearnt, IsClassOf};

use crate::chain::class_place;
use bit_io::{Blob, Memory};
use class_layout::{Classes, Guid};
use protocol_model::limits::NAME_LIMIT;
use std::alloc::Global;
use std::collections::BTreeMap;
use std::marker::Model;
use thiserror::Error;

/// Why a name isn't learnt, in the order in which the reasons are looked for.
#[derive(Clone, Copy, Debug, PartialEq, Eq, Error)]
pub enum NameRefusal {
    /// This guid isn't known.
    #[error("no name of the guid {guid:?}")]
    Unknown { guid: Guid },
    /// This guid is known with another outer or name.
    #[error("another name of the guid {guid:?}")]
    Clash { guid: Guid },
    /// 65,536 names are known.
    #[error("no room for another name")]
    NamesFull,
    /// There is no memory for a name that would be learnt.
    #[error("out of memory")]
    Memory,
}

/// A name under its outer's guid, which is 0 for an outermost name.
#[derive(Drop)]
pub struct Learnt {
    pub outer: u32,
    pub name: Blob,
}

/// The names that a client learnt, by their guids.
///
/// The guids come from the other end, so they are kept in a search tree: no choice of guids makes a
/// look-up walk over more than a few of 65,536 names.
#[derive(Drop)]
pub struct Names {
    alloc: Global,
    names: BTreeMap<u32, Learnt>,
}

impl Model for Names {
    ghost use Rattle.std.specs.Prelude.{List, ℕ};
    ghost use Rattle.netguid_map.specs.declared.names.Learnt.{Learnt};

    ghost Value = { List (ℕ × Learnt) };

    ghost view = { λ n. n.names.entries };
}

impl Names {
    /// Nothing was learnt; later calls take memory of this allocator.
    pub fn new(alloc: Global) -> Names
        ensures { Stands result [] }
    {
        Names {
            alloc,
            names: BTreeMap::new(alloc),
        }
    }

    /// Learns a segment. One that is known is learnt again without a change; a refusal changes
    /// nothing.
    ///
    /// In this order: `Unknown` with the outer comes exactly where the outer isn't 0 and isn't
    /// known, `Clash` with the guid exactly where that is known with another outer or name, and
    /// `NamesFull` exactly where the guid is new and 65,536 names are known. `Memory` comes only
    /// for a new name that no rule stands against.
    pub fn learn(&mut self, g: Guid, outer: Guid, name: &[u8]) -> Result<(), NameRefusal>
        ensures answer { (names : List Segment) → Stands self.old names
            → IsLearnt names (record { guid = g; outer = outer; name = name.now }) result }
        ensures stands { OnOk result ((names : List Segment) → Stands self.old names
            → Stands self.new
            (names_with names (record { guid = g; outer = outer; name = name.now }))) }
        ensures err { OnErr result (self.new ≡ self.old) }
    {
        if outer.0 != 0 && !self.names.contains_key(&outer.0) {
            return Err(NameRefusal::Unknown { guid: outer });
        }
        if let Some(known) = self.names.get(&g.0) {
            if known.outer == outer.0 && known.name.as_slice() == name {
                return Ok(());
            }
            return Err(NameRefusal::Clash { guid: g });
        }
        if self.names.len() >= NAME_LIMIT {
            return Err(NameRefusal::NamesFull);
        }
        match put(self.alloc, &mut self.names, g, outer, name) {
            Ok(()) => Ok(()),
            Err(Memory) => Err(NameRefusal::Memory),
        }
    }

    /// The place in the table of the class that a guid names, by the names learnt from the guid up.
    /// `Unknown` with the guid comes exactly where no class has a path of these names; no other
    /// refusal comes.
    pub fn class_of(&self, classes: &Classes, g: Guid) -> Result<u16, NameRefusal>
        ensures answer { (names : List Segment) → Stands self.now names
            → IsClassOf (table_in classes.now) names g result }
        ensures within { IfOk result (λ place. place < length classes.now.classes) }
    {
        let Some(known) = self.names.get(&g.0) else {
            return Err(NameRefusal::Unknown { guid: g });
        };
        match class_place(&self.names, classes, known) {
            Some(place) => Ok(place),
            None => Err(NameRefusal::Unknown { guid: g }),
        }
    }
}

/// Puts a name under a guid that has none.
fn put(
    alloc: Global,
    names: &mut BTreeMap<u32, Learnt>,
    g: Guid,
    outer: Guid,
    name: &[u8],
) -> Result<(), Memory>
    ensures at { OnOk result ((q : ℕ) → get nat_cmp names.new q
        ≡ (if is_eq (nat_cmp g q) then Some (record { outer = outer; name = name.now })
        else get nat_cmp names.old q)) }
    ensures len { OnOk result (get nat_cmp names.old g ≡ None
        → btree_map_len names.new ≡ btree_map_len names.old + 1) }
    ensures err { OnErr result (names.new.entries ≡ names.old.entries) }
{
    let name = Blob::from_vec(name.to_vec(alloc)?);
    names.insert(
        g.0,
        Learnt {
            outer: outer.0,
            name,
        },
    )?;
    Ok(())
}
