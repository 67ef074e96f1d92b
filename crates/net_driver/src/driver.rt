// The server and its connections.
ghost use Rattle.std.specs.Prelude.{◌≡◌, ◌⊎◌, ◌*◌, ◌<◌, ◌≤◌, ◌^◌, ◌∷◌, ◌&&◌, ◌↔◌, length, true, false, not, nat_le, Some, None, IfOk, OnOk, IsErr, IsErrOf};
ghost use Rattle.protocol_model.specs.World.{Edits};
ghost use Rattle.protocol_model.specs.World as refusal;
ghost use Rattle.protocol_model.specs.Limits.{connection_limit, budget_limit, player_limit};
ghost use Rattle.class_layout.specs.Tables.{table_in};
ghost use Rattle.world_table.specs.Answers.{edit_of, refusal_in, spawned_guid};
ghost use Rattle.world_table.specs.Stands.{Stands as StandsWorld};
ghost use Rattle.rep_graph.specs.Standings.{look_before};
ghost use Rattle.rep_graph.specs.Graph.{Stands as StandsGraph};
ghost use Rattle.shadow_changes.specs.Samples.{Keeps as KeepsSamples};
ghost use Rattle.driver_sights.specs.Graves.{AreGraves};
ghost use Rattle.net_driver.specs.Burying.{Buries, destroyed_by, IsTaken, Follows};
ghost use Rattle.net_driver.specs.Served.{Served, first_served, has_joined, with_joined, new_seat};
ghost use Rattle.net_driver.specs.Serves.{Serves, IsSpent};

use crate::chair::{Chair, Place, add_chair, place_of};
use crate::refusal::JoinRefusal;
use bit_io::Memory;
use class_layout::Classes;
use driver_sights::{Grave, bury};
use net_core::{Guid, Player, Steps};
use protocol_model::Version;
use protocol_model::limits::CONNECTION_LIMIT;
use rep_graph::RepGraph;
use server_end::ServerEnd;
use shadow_changes::Shadows;
use slab::Slab;
use std::alloc::Global;
use std::marker::{Brand, Model};
use std::sync::ledger::{Blank, Ledger};
use world_table::{Edit, EditRefusal, Look, World};

mod forgetting;
mod hearing;
mod settling;
mod taking;
mod ticking;

/// How far is counted.
const GREATEST: u64 = 1 << 59;

/// A server: the world, and the end of each player's connection.
#[derive(Drop)]
pub struct Driver<'a> {
    alloc: Global,
    classes: &'a Classes,
    world: World<'a>,
    graph: RepGraph,
    changes: Shadows,
    graves: Vec<Grave>,
    ends: Slab<ServerEnd>,
    chairs: Vec<Chair>,
    ticks: u64,
    greatest: u64,
    spent: bool,
}

impl<'a> Model for Driver<'a> {
    ghost use Rattle.net_driver.specs.Serves.{Drive};

    ghost Value = { Drive };

    ghost view = { λ d. record {
      layout = d.classes.now;
      world = d.world;
      graph = d.graph;
      changes = d.changes;
      graves = d.graves.items;
      ends = d.ends.slots;
      chairs = d.chairs.items;
      ticks = d.ticks;
      greatest = d.greatest;
      spent = d.spent;
    } };
}

impl<'a> Driver<'a> {
    /// An empty world, which nobody joined.
    pub fn new(alloc: Global, classes: &'a Classes) -> Result<Driver<'a>, Memory>
        ensures serves { IfOk result (λ d. Serves d first_served) }
        ensures layout { IfOk result (λ d. d.layout ≡ classes.now) }
        ensures greatest { IfOk result (λ d. d.greatest ≡ 0) }
    {
        let graph = RepGraph::new(alloc)?;
        Ok(Driver {
            alloc,
            classes,
            world: World::new(alloc, classes),
            graph,
            changes: Shadows::new(alloc),
            graves: Vec::new(alloc),
            ends: Slab::new(alloc),
            chairs: Vec::new(alloc),
            ticks: 0,
            greatest: 0,
            spent: false,
        })
    }

    /// The world as it is now.
    pub fn world(&self) -> &World<'a>
        ensures stands { (s : Served) → Serves self.now s → StandsWorld result.now s.edits }
        ensures layout { (s : Served) → Serves self.now s → result.now.layout ≡ self.now.layout }
    {
        &self.world
    }

    /// The graph, which stands for the world as it is now. Of a spent driver it says nothing.
    pub fn graph(&self) -> &RepGraph
        ensures { (s : Served) → Serves self.now s
            → StandsGraph result.now (table_in self.now.layout) s.edits }
    {
        &self.graph
    }

    /// The change lists, which stand for the samples that were taken. Of a spent driver they say
    /// nothing.
    pub fn changes(&self) -> &Shadows
        ensures { (s : Served) → Serves self.now s → KeepsSamples result.now s.samples }
    {
        &self.changes
    }

    /// Takes an edit of the world, as `World::apply`. After `Memory` the driver is spent.
    pub fn edit(&mut self, e: Edit) -> Result<Option<Guid>, EditRefusal>
        requires { IsSpent self.old ⊎ ((s : Served) × Serves self.old s
            × (length s.edits < 2 ^ 61)) }
        ensures serves { OnOk result ((s : Served) → Serves self.old s
            → Serves self.new (record s { edits = edit_of e ∷ s.edits })) }
        ensures guid { (s : Served) → Serves self.old s
            → IfOk result (λ guid. guid ≡ spawned_guid s.edits e) }
        ensures no_actor { (s : Served) → Serves self.old s → (IsErrOf result EditRefusal.NoActor
            ↔ (refusal_in (table_in self.old.layout) s.edits e ≡ Some refusal.NoActor)) }
        ensures out_of_range { (s : Served) → Serves self.old s
            → (IsErrOf result EditRefusal.OutOfRange
            ↔ (refusal_in (table_in self.old.layout) s.edits e ≡ Some refusal.OutOfRange)) }
        ensures actors_full { (s : Served) → Serves self.old s
            → (IsErrOf result EditRefusal.ActorsFull
            ↔ (refusal_in (table_in self.old.layout) s.edits e ≡ Some refusal.ActorsFull)) }
        ensures refused { IsErr result → (IsErrOf result EditRefusal.Memory → ⊥)
            → self.new ≡ self.old }
        ensures spent { IsErrOf result EditRefusal.Memory → IsSpent self.new }
        ensures after { IsSpent self.old → IsErrOf result EditRefusal.Memory }
        ensures layout { self.new.layout ≡ self.old.layout }
        ensures greatest { self.new.greatest ≡ self.old.greatest }
    {
        if self.spent {
            return Err(EditRefusal::Memory);
        }
        match self.change(e) {
            Err(EditRefusal::Memory) => {
                self.spent = true;
                Err(EditRefusal::Memory)
            }
            answer => answer,
        }
    }

    /// Takes an edit in the world and in the graph. After `Memory` they may differ.
    fn change(&mut self, e: Edit) -> Result<Option<Guid>, EditRefusal>
        requires { (s : Served) × Serves self.old s × (length s.edits < 2 ^ 61) }
        ensures serves { OnOk result ((s : Served) → Serves self.old s
            → Serves self.new (record s { edits = edit_of e ∷ s.edits })) }
        ensures guid { (s : Served) → Serves self.old s
            → IfOk result (λ guid. guid ≡ spawned_guid s.edits e) }
        ensures no_actor { (s : Served) → Serves self.old s → (IsErrOf result EditRefusal.NoActor
            ↔ (refusal_in (table_in self.old.layout) s.edits e ≡ Some refusal.NoActor)) }
        ensures out_of_range { (s : Served) → Serves self.old s
            → (IsErrOf result EditRefusal.OutOfRange
            ↔ (refusal_in (table_in self.old.layout) s.edits e ≡ Some refusal.OutOfRange)) }
        ensures actors_full { (s : Served) → Serves self.old s
            → (IsErrOf result EditRefusal.ActorsFull
            ↔ (refusal_in (table_in self.old.layout) s.edits e ≡ Some refusal.ActorsFull)) }
        ensures refused { IsErr result → (IsErrOf result EditRefusal.Memory → ⊥)
            → self.new ≡ self.old }
        ensures layout { self.new.layout ≡ self.old.layout }
        ensures greatest { self.new.greatest ≡ self.old.greatest }
    {
        let before = named_look::<Brand>(&self.world, &e, Blank::new(1));
        let spawned = self.world.apply(*&e)?;
        match self.follow(e, before) {
            Ok(()) => Ok(spawned),
            Err(_) => Err(EditRefusal::Memory),
        }
    }

    /// The graph and the graves follow an edit that the world took.
    fn follow(&mut self, e: Edit, before: Option<Look>) -> Result<(), Memory>
        ensures follows { OnOk result ((edits : Edits) → IsTaken self.old e before edits
            → Follows self.old self.new (edit_of e) edits) }
        ensures rest { self.new
            ≡ record self.old { graph = self.new.graph; graves = self.new.graves } }
    {
        self.graph.apply(e, before, &self.world)?;
        bury_named(&mut self.graves, &e, &before, self.classes)?;
        Ok(())
    }

    /// A player joins, with a budget of 1 to 1,000,000 bits a tick. `Joined` exactly where the
    /// player joined before, else `ServerFull` exactly where 64 did. After `Memory` the driver is
    /// spent.
    pub fn join(&mut self, player: Player, budget: u32, version: Version) -> Result<(), JoinRefusal>
        requires least { 1 ≤ budget }
        requires most { budget ≤ budget_limit }
        requires player { 1 ≤ player }
        requires player_most { player ≤ player_limit }
        requires stands { IsSpent self.old ⊎ ((s : Served) × Serves self.old s) }
        ensures serves { OnOk result ((s : Served) → Serves self.old s
            → Serves self.new (with_joined (new_seat player budget version) s)) }
        ensures joined { (s : Served) → Serves self.old s
            → (IsErrOf result JoinRefusal.Joined ↔ (has_joined s player ≡ true)) }
        ensures full { (s : Served) → Serves self.old s → (IsErrOf result JoinRefusal.ServerFull
            ↔ ((not (has_joined s player) && nat_le connection_limit (length s.seats)) ≡ true)) }
        ensures refused { IsErr result → (IsErrOf result JoinRefusal.Memory → ⊥)
            → self.new ≡ self.old }
        ensures spent { IsErrOf result JoinRefusal.Memory → IsSpent self.new }
        ensures after { IsSpent self.old → IsErrOf result JoinRefusal.Memory }
        ensures layout { self.new.layout ≡ self.old.layout }
        ensures greatest { self.new.greatest ≡ self.old.greatest }
    {
        if self.spent {
            return Err(JoinRefusal::Memory);
        }
        if self.has_joined(player) {
            return Err(JoinRefusal::Joined);
        }
        if self.is_full() {
            return Err(JoinRefusal::ServerFull);
        }
        match self.seat(player, budget, version) {
            Ok(()) => Ok(()),
            Err(_) => {
                self.spent = true;
                Err(JoinRefusal::Memory)
            }
        }
    }

    /// The player joined before.
    fn has_joined(&self, player: Player) -> bool
        ensures { (s : Served) → Serves self.now s → result ≡ has_joined s player }
    {
        place_of(self.chairs.as_slice(), player).is_some()
    }

    /// As many players joined as can.
    fn is_full(&self) -> bool
        ensures { (s : Served) → Serves self.now s
            → result ≡ nat_le connection_limit (length s.seats) }
    {
        self.chairs.as_slice().len() >= CONNECTION_LIMIT
    }

    /// A chair for a player who didn't join, with a new end.
    fn seat(&mut self, player: Player, budget: u32, version: Version) -> Result<(), Memory>
        requires least { 1 ≤ budget }
        requires most { budget ≤ budget_limit }
        ensures serves { OnOk result ((s : Served) → Serves self.old s
            → has_joined s player ≡ false → length s.seats < connection_limit
            → Serves self.new (with_joined (new_seat player budget version) s)) }
        ensures layout { self.new.layout ≡ self.old.layout }
        ensures greatest { self.new.greatest ≡ self.old.greatest }
    {
        let end = ServerEnd::new(self.alloc, player, budget, version)?;
        let key = match self.ends.insert(end) {
            Ok(key) => key,
            Err(_) => return Err(Memory),
        };
        add_chair(&mut self.chairs, player, Place::Living(key))
    }
}

/// Nothing ticks or calls at so many ticks, or at this for twice the bunches of an end.
fn is_past(count: u64) -> bool
    ensures { result ≡ nat_le (2 ^ 59) count }
{
    count >= GREATEST
}

/// Notes the actor that an edit destroys, which stood so before.
fn bury_named(
    graves: &mut Vec<Grave>,
    e: &Edit,
    before: &Option<Look>,
    classes: &Classes,
) -> Result<(), Memory>
    ensures { OnOk result ((edits : Edits)
        → before.now ≡ look_before (table_in classes.now) edits e.now
        → AreGraves classes.now edits graves.old.items
        → Buries classes.now (edit_of e.now) edits graves.old.items graves.new.items) }
{
    let Some(actor) = destroyed_in(e) else {
        return Ok(());
    };
    let Some(look) = before else {
        return Err(Memory);
    };
    if !look.alive {
        return Err(Memory);
    }
    let Some(_class) = classes.class(look.class) else {
        return Err(Memory);
    };
    bury(graves, actor, look.class)?;
    Ok(())
}

/// The actor that an edit destroys.
fn destroyed_in(e: &Edit) -> Option<Guid>
    ensures { result ≡ destroyed_by (edit_of e.now) }
{
    match *e {
        Edit::Destroy { actor } => Some(actor),
        Edit::Spawn { .. }
        | Edit::Set { .. }
        | Edit::Own { .. }
        | Edit::View { .. }
        | Edit::Add { .. }
        | Edit::Dormant { .. }
        | Edit::Wake { .. }
        | Edit::Flush { .. }
        | Edit::Switch { .. }
        | Edit::Team { .. }
        | Edit::Give { .. } => None,
    }
}

/// How the actor that an edit names stands.
fn named_look<'a, L: Ledger>(world: &World<'a>, e: &Edit, blank: Blank) -> Option<Look>
    requires name { blank.name ≡ L.name }
    requires parts { blank.parts ≡ L.parts }
    requires some { 0 < L.parts }
    ensures { (edits : Edits) → StandsWorld world.now edits
        → result ≡ look_before (table_in world.now.layout) edits e.now }
{
    let mut steps = Steps::<L>::new(blank);
    world.look(named_in(e)?, &mut steps)
}

/// The actor that an edit names.
fn named_in(e: &Edit) -> Option<Guid>
    ensures { result ≡ refusal.named_actor (edit_of e.now) }
{
    match *e {
        Edit::Destroy { actor }
        | Edit::Set { actor, .. }
        | Edit::Own { actor, .. }
        | Edit::Add { actor, .. }
        | Edit::Dormant { actor }
        | Edit::Wake { actor }
        | Edit::Flush { actor }
        | Edit::Switch { actor, .. }
        | Edit::Give { actor, .. } => Some(actor),
        Edit::Spawn { .. } | Edit::View { .. } | Edit::Team { .. } => None,
    }
}
