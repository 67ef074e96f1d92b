// Lists of actors by a key.
ghost use Rattle.std.specs.Prelude.{◌≡◌, ◌==◌, ◌+◌, ◌-◌, ◌++◌, ◌&&◌, [], ℕ, nat_lt, OnOk, OnErr, if◌then◌else◌};
ghost use Rattle.actor_lists.specs.Shared.{count_of, list_at};

use crate::lists::Lists;
use crate::pieces::Pieces;
use net_core::{Guid, Memory};
use std::alloc::Global;
use std::collections::HashMap;
use std::hash::Hash;
use std::marker::Model;

/// A list of actors for each key; a list that is empty takes no place.
#[derive(Drop)]
pub struct Shelves<K: Eq + Hash + Copy> {
    alloc: Global,
    lists: HashMap<K, Pieces>,
}

impl<K: Eq + Hash + Copy> Model for Shelves<K> {
    ghost use Rattle.std.specs.Prelude.{List, ℕ};

    ghost Value = { List (K × List ℕ) };

    ghost view = { λ s. s.lists.entries };
}

impl<K: Eq + Hash + Copy> Shelves<K> {
    /// No lists; later calls grow them in this allocator.
    pub fn new(alloc: Global) -> Shelves<K>
        ensures { (k : K) → list_at K.eq result k ≡ [] }
    {
        Shelves {
            alloc,
            lists: HashMap::new(alloc),
        }
    }

    /// The actor is in a key's list, which it looks through.
    pub fn has(&self, key: K, actor: Guid) -> bool
        ensures { result ≡ nat_lt 0 (count_of actor (list_at K.eq self.now key)) }
    {
        match self.lists.get(&key) {
            Some(pieces) => pieces.contains(actor),
            None => false,
        }
    }

    /// Adds an actor to a key's list.
    pub fn add(&mut self, key: K, actor: Guid) -> Result<(), Memory>
        ensures { OnOk result ((k : K) (a : ℕ) → count_of a (list_at K.eq self.new k)
            ≡ (if K.eq key k && actor == a then 1 else 0) + count_of a (list_at K.eq self.old k)) }
    {
        let alloc = self.alloc;
        if let Some(pieces) = self.lists.get_mut(&key) {
            return pieces.add(alloc, actor);
        }
        let mut pieces = Pieces::new(alloc);
        pieces.add(alloc, actor)?;
        self.lists.insert(key, pieces)?;
        Ok(())
    }

    /// Takes an actor out of a key's list once, if it is there.
    pub fn take(&mut self, key: K, actor: Guid) -> Result<(), Memory>
        ensures { OnOk result ((k : K) (a : ℕ) → count_of a (list_at K.eq self.new k)
            ≡ count_of a (list_at K.eq self.old k) - (if K.eq key k && actor == a then 1 else 0)) }
    {
        let alloc = self.alloc;
        let Some(pieces) = self.lists.get_mut(&key) else {
            return Ok(());
        };
        pieces.take(alloc, actor)?;
        if pieces.is_empty() {
            self.lists.remove(&key);
        }
        Ok(())
    }

    /// Hands out a key's list. `Memory` changes nothing.
    pub fn share(&self, key: K, lists: &mut Lists) -> Result<(), Memory>
        ensures ok { OnOk result (lists.new ≡ lists.old ++ list_at K.eq self.now key) }
        ensures err { OnErr result (lists.new ≡ lists.old) }
    {
        match self.lists.get(&key) {
            Some(pieces) => lists.share(pieces),
            None => Ok(()),
        }
    }
}
