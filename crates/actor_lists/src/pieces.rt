// A list of actors in pieces that are shared.
ghost use Rattle.std.specs.Prelude.{◌≡◌, ◌==◌, ◌+◌, ◌-◌, ◌<◌, ◌++◌, ◌∷◌, [], ℕ, length, nat_lt, slice_get, remove, Some, IsTrue, OnOk, OnErr, IfOk, IfSome, IfNone, if◌then◌else◌};
ghost use Rattle.std.specs.Rc.{rc_slice_items};
ghost use Rattle.actor_lists.specs.Shared.{count_of, all_actors, StandsAt};

use net_core::{Guid, Memory};
use std::alloc::Global;
use std::marker::Model;
use std::rc::RcSlice;

/// How many actors a piece has at most: as many as a change copies.
const PIECE: usize = 64;

/// Actors in pieces, each shared with those to whom it was handed. A piece isn't empty.
#[derive(Drop)]
pub struct Pieces {
    pieces: Vec<RcSlice<Guid>>,
}

impl Model for Pieces {
    ghost use Rattle.std.specs.Prelude.{List, ℕ};
    ghost use Rattle.actor_lists.specs.Shared.{all_actors};

    ghost Value = { List ℕ };

    ghost view = { λ p. all_actors p.pieces.items };
}

impl Pieces {
    /// No actors; later calls grow the list in this allocator.
    pub fn new(alloc: Global) -> Pieces
        ensures { result ≡ [] }
    {
        Pieces {
            pieces: Vec::new(alloc),
        }
    }

    /// The pieces, lent.
    pub fn as_slice(&self) -> &[RcSlice<Guid>]
        ensures { all_actors result.now ≡ self.now }
    {
        self.pieces.as_slice()
    }

    /// There are no pieces, so no actors.
    pub fn is_empty(&self) -> bool
        ensures { IsTrue result → self.now ≡ [] }
    {
        self.pieces.is_empty()
    }

    /// The actor is there. It looks through the whole list.
    pub fn contains(&self, actor: Guid) -> bool
        ensures { result ≡ nat_lt 0 (count_of actor self.now) }
    {
        place_of(&self.pieces, actor).is_some()
    }

    /// Adds an actor to a piece that has room. `Memory` changes nothing.
    pub fn add(&mut self, alloc: Global, actor: Guid) -> Result<(), Memory>
        ensures ok { OnOk result ((a : ℕ) → count_of a self.new
            ≡ (if actor == a then 1 else 0) + count_of a self.old) }
        ensures err { OnErr result (self.new ≡ self.old) }
    {
        add_to(alloc, &mut self.pieces, actor)
    }

    /// Takes an actor out once, if it is there. `Memory` changes nothing.
    pub fn take(&mut self, alloc: Global, actor: Guid) -> Result<(), Memory>
        ensures ok { OnOk result ((a : ℕ) → count_of a self.new
            ≡ count_of a self.old - (if actor == a then 1 else 0)) }
        ensures err { OnErr result (self.new ≡ self.old) }
    {
        take_from(alloc, &mut self.pieces, actor)
    }
}

/// A piece with room for one more: the last one if it has, so that a list which only grows isn't
/// walked.
fn open_piece(pieces: &[RcSlice<Guid>]) -> Option<usize>
    ensures { IfSome result (λ i. i < length pieces.now) }
{
    let count = pieces.len();
    if count > 0 && pieces[count - 1].len() < PIECE {
        return Some(count - 1);
    }
    for place in 0..count {
        if pieces[place].len() < PIECE {
            return Some(place);
        }
    }
    None
}

/// A piece of these actors and one more.
fn with_actor(alloc: Global, actors: &[Guid], actor: Guid) -> Result<RcSlice<Guid>, Memory>
    ensures { IfOk result (λ piece. rc_slice_items piece ≡ actors.now ++ actor ∷ []) }
{
    let mut items = Vec::with_capacity(alloc, actors.len() + 1)?;
    items.extend_from_slice(actors)?;
    items.push(actor)?;
    Ok(RcSlice::from_vec(items)?)
}

fn add_to(alloc: Global, pieces: &mut Vec<RcSlice<Guid>>, actor: Guid) -> Result<(), Memory>
    ensures ok { OnOk result ((a : ℕ) → count_of a (all_actors pieces.new.items)
        ≡ (if actor == a then 1 else 0) + count_of a (all_actors pieces.old.items)) }
    ensures err { OnErr result (pieces.new.items ≡ pieces.old.items) }
{
    match open_piece(pieces) {
        Some(place) => {
            let piece = with_actor(alloc, pieces[place].as_slice(), actor)?;
            pieces[place] = piece;
        },
        None => pieces.push(with_actor(alloc, &[], actor)?)?,
    }
    Ok(())
}

/// The actor is in a piece. It looks at all of it, so that several actors are compared at a time.
fn has(actors: &[Guid], actor: Guid) -> bool
    ensures { result ≡ nat_lt 0 (count_of actor actors.now) }
{
    let mut found = false;
    for other in actors {
        found |= *other == actor;
    }
    found
}

/// Where an actor stands in a piece. Most pieces that are looked at don't have it.
fn index_of(actors: &[Guid], actor: Guid) -> Option<usize>
    ensures some { IfSome result (λ i. slice_get actors.now i ≡ Some actor) }
    ensures none { IfNone result (count_of actor actors.now ≡ 0) }
{
    if !has(actors, actor) {
        return None;
    }
    for index in 0..actors.len() {
        if actors[index] == actor {
            return Some(index);
        }
    }
    None
}

/// In which piece an actor stands, and where there.
fn place_of(pieces: &[RcSlice<Guid>], actor: Guid) -> Option<(usize, usize)>
    ensures some { IfSome result (λ at. StandsAt pieces.now actor at.0 at.1) }
    ensures within { IfSome result (λ at. at.0 < length pieces.now) }
    ensures none { IfNone result (count_of actor (all_actors pieces.now) ≡ 0) }
{
    for place in 0..pieces.len() {
        if let Some(index) = index_of(pieces[place].as_slice(), actor) {
            return Some((place, index));
        }
    }
    None
}

/// A piece of these actors without the one at a place.
fn without(alloc: Global, actors: &[Guid], index: usize) -> Result<RcSlice<Guid>, Memory>
    requires { index < length actors.now }
    ensures { IfOk result (λ piece. rc_slice_items piece ≡ remove actors.now index) }
{
    let mut rest = Vec::from_slice(alloc, actors)?;
    rest.remove(index);
    Ok(RcSlice::from_vec(rest)?)
}

fn take_from(alloc: Global, pieces: &mut Vec<RcSlice<Guid>>, actor: Guid) -> Result<(), Memory>
    ensures ok { OnOk result ((a : ℕ) → count_of a (all_actors pieces.new.items)
        ≡ count_of a (all_actors pieces.old.items) - (if actor == a then 1 else 0)) }
    ensures err { OnErr result (pieces.new.items ≡ pieces.old.items) }
{
    let Some((place, index)) = place_of(pieces, actor) else {
        return Ok(());
    };
    if pieces[place].len() == 1 {
        pieces.remove(place);
        return Ok(());
    }
    let rest = without(alloc, pieces[place].as_slice(), index)?;
    pieces[place] = rest;
    Ok(())
}
