// Lists that were handed out.
ghost use Rattle.std.specs.Prelude.{◌≡◌, ◌↔◌, ◌++◌, [], ℕ, length, take, Contains, OnOk, OnErr, IfOk};
ghost use Rattle.std.specs.List.Sorted.{IsStrictlyIncreasing};
ghost use Rattle.std.specs.Rc.{rc_slice_items};
ghost use Rattle.actor_lists.specs.Shared.{all_actors};

use crate::arranged::arranged;
use crate::pieces::Pieces;
use net_core::{Guid, GuidList, Items, Memory};
use std::alloc::Global;
use std::marker::Model;
use std::rc::RcSlice;

/// Lists of actors that nodes handed out, each piece shared with its node and with other viewers.
#[derive(Drop)]
pub struct Lists {
    alloc: Global,
    pieces: Vec<RcSlice<Guid>>,
}

impl Model for Lists {
    ghost use Rattle.std.specs.Prelude.{List, ℕ};
    ghost use Rattle.actor_lists.specs.Shared.{all_actors};

    ghost Value = { List ℕ };

    ghost view = { λ l. all_actors l.pieces.items };
}

impl Lists {
    /// No lists; later calls grow them in this allocator.
    pub fn new(alloc: Global) -> Lists
        ensures { result ≡ [] }
    {
        Lists {
            alloc,
            pieces: Vec::new(alloc),
        }
    }

    /// Appends a node's list without copying an actor. `Memory` changes nothing.
    pub fn share(&mut self, actors: &Pieces) -> Result<(), Memory>
        ensures ok { OnOk result (self.new ≡ self.old ++ actors.now) }
        ensures err { OnErr result (self.new ≡ self.old) }
    {
        share_all(&mut self.pieces, actors.as_slice())
    }

    /// Appends other lists without copying an actor. `Memory` changes nothing.
    pub fn append(&mut self, more: &Lists) -> Result<(), Memory>
        ensures ok { OnOk result (self.new ≡ self.old ++ more.now) }
        ensures err { OnErr result (self.new ≡ self.old) }
    {
        share_all(&mut self.pieces, more.pieces.as_slice())
    }

    /// The actors of all lists, ascending, each once.
    pub fn actors(&self) -> Result<GuidList, Memory>
        ensures ascending { IfOk result (λ actors. IsStrictlyIncreasing actors) }
        ensures same { IfOk result (λ actors. (a : ℕ) → Contains actors a ↔ Contains self.now a) }
    {
        let all = flat(self.alloc, self.pieces.as_slice())?;
        let mut all = arranged(self.alloc, all)?;
        all.sort_unstable();
        all.dedup();
        Ok(Items::from_vec(all))
    }
}

/// The actors of all pieces, one piece after another.
fn flat(alloc: Global, pieces: &[RcSlice<Guid>]) -> Result<Vec<Guid>, Memory>
    ensures { IfOk result (λ all. all.items ≡ all_actors pieces.now) }
{
    let mut all = Vec::new(alloc);
    for piece in pieces {
        all.extend_from_slice(piece.as_slice())?;
    }
    Ok(all)
}

/// Appends pieces, each shared.
fn share_all(kept: &mut Vec<RcSlice<Guid>>, pieces: &[RcSlice<Guid>]) -> Result<(), Memory>
    ensures ok { OnOk result (all_actors kept.new.items
        ≡ all_actors kept.old.items ++ all_actors pieces.now) }
    ensures err { OnErr result (kept.new.items ≡ kept.old.items) }
{
    let first = kept.len();
    for piece in pieces {
        if share_one(kept, piece).is_err() {
            kept.truncate(first);
            return Err(Memory);
        }
    }
    Ok(())
}

/// Appends a piece, shared.
fn share_one(kept: &mut Vec<RcSlice<Guid>>, piece: &RcSlice<Guid>) -> Result<(), Memory>
    ensures ok { OnOk result (all_actors kept.new.items
        ≡ all_actors kept.old.items ++ rc_slice_items piece.now) }
    ensures keeps { OnOk result (take (length kept.old.items) kept.new.items ≡ kept.old.items) }
    ensures err { OnErr result (kept.new.items ≡ kept.old.items) }
{
    let shared = piece.clone()?;
    kept.push(shared)?;
    Ok(())
}
