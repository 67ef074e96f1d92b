// Lists of players by a key.
ghost use Rattle.std.specs.Prelude.{◌≡◌, ◌==◌, ◌+◌, ◌-◌, ◌&&◌, [], ℕ, nat_lt, slice_get, Some, IsTrue, IfSome, IfNone, OnOk, OnErr, if◌then◌else◌};
ghost use Rattle.actor_lists.specs.Shared.{count_of, list_at};

use net_core::{Memory, Player};
use std::alloc::Global;
use std::collections::HashMap;
use std::hash::Hash;
use std::marker::Model;

/// Where a player stands in a list.
fn index_of(players: &[Player], player: Player) -> Option<usize>
    ensures some { IfSome result (λ i. slice_get players.now i ≡ Some player) }
    ensures none { IfNone result (count_of player players.now ≡ 0) }
{
    for index in 0..players.len() {
        if players[index] == player {
            return Some(index);
        }
    }
    None
}

/// Some players, in no order.
#[derive(Drop)]
pub(crate) struct Players {
    players: Vec<Player>,
}

impl Model for Players {
    ghost use Rattle.std.specs.Prelude.{List, ℕ};

    ghost Value = { List ℕ };

    ghost view = { λ p. p.players.items };
}

impl Players {
    /// No players; later calls grow the list in this allocator.
    pub fn new(alloc: Global) -> Players
        ensures { result ≡ [] }
    {
        Players {
            players: Vec::new(alloc),
        }
    }

    /// The players, lent.
    pub fn as_slice(&self) -> &[Player]
        ensures { result.now ≡ self.now }
    {
        self.players.as_slice()
    }

    /// There are no players.
    pub fn is_empty(&self) -> bool
        ensures { IsTrue result → self.now ≡ [] }
    {
        self.players.is_empty()
    }

    /// The player is there.
    pub fn contains(&self, player: Player) -> bool
        ensures { result ≡ nat_lt 0 (count_of player self.now) }
    {
        index_of(&self.players, player).is_some()
    }

    /// Adds a player. `Memory` changes nothing.
    pub fn add(&mut self, player: Player) -> Result<(), Memory>
        ensures ok { OnOk result ((p : ℕ) → count_of p self.new
            ≡ (if player == p then 1 else 0) + count_of p self.old) }
        ensures err { OnErr result (self.new ≡ self.old) }
    {
        self.players.push(player)?;
        Ok(())
    }

    /// Takes a player out once, if it is there.
    pub fn take(&mut self, player: Player)
        ensures { (p : ℕ) → count_of p self.new
            ≡ count_of p self.old - (if player == p then 1 else 0) }
    {
        if let Some(index) = index_of(&self.players, player) {
            self.players.remove(index);
        }
    }
}

/// A list of players for each key; a list that is empty takes no place.
#[derive(Drop)]
pub(crate) struct Holders<K: Eq + Hash + Copy> {
    alloc: Global,
    lists: HashMap<K, Players>,
}

impl<K: Eq + Hash + Copy> Model for Holders<K> {
    ghost use Rattle.std.specs.Prelude.{List, ℕ};

    ghost Value = { List (K × List ℕ) };

    ghost view = { λ h. h.lists.entries };
}

impl<K: Eq + Hash + Copy> Holders<K> {
    /// No lists; later calls grow them in this allocator.
    pub fn new(alloc: Global) -> Holders<K>
        ensures { (k : K) → list_at K.eq result k ≡ [] }
    {
        Holders {
            alloc,
            lists: HashMap::new(alloc),
        }
    }

    /// The player is in a key's list.
    pub fn has(&self, key: K, player: Player) -> bool
        ensures { result ≡ nat_lt 0 (count_of player (list_at K.eq self.now key)) }
    {
        match self.lists.get(&key) {
            Some(players) => players.contains(player),
            None => false,
        }
    }

    /// Adds a player to a key's list.
    pub fn add(&mut self, key: K, player: Player) -> Result<(), Memory>
        ensures { OnOk result ((k : K) (p : ℕ) → count_of p (list_at K.eq self.new k)
            ≡ (if K.eq key k && player == p then 1 else 0)
            + count_of p (list_at K.eq self.old k)) }
    {
        if let Some(players) = self.lists.get_mut(&key) {
            return players.add(player);
        }
        let mut players = Players::new(self.alloc);
        players.add(player)?;
        self.lists.insert(key, players)?;
        Ok(())
    }

    /// Takes a player out of a key's list once, if it is there.
    pub fn take(&mut self, key: K, player: Player)
        ensures { (k : K) (p : ℕ) → count_of p (list_at K.eq self.new k)
            ≡ count_of p (list_at K.eq self.old k)
            - (if K.eq key k && player == p then 1 else 0) }
    {
        let Some(players) = self.lists.get_mut(&key) else {
            return;
        };
        players.take(player);
        if players.is_empty() {
            self.lists.remove(&key);
        }
    }

    /// Takes a key's list out.
    pub fn take_all(&mut self, key: K) -> Players
        ensures players { result ≡ list_at K.eq self.old key }
        ensures others { (k : K) → list_at K.eq self.new k
            ≡ (if K.eq key k then [] else list_at K.eq self.old k) }
    {
        match self.lists.remove(&key) {
            Some(players) => players,
            None => Players::new(self.alloc),
        }
    }
}
