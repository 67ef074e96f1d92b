// A tick of all connections.
ghost use Rattle.std.specs.Prelude.{◌≡◌, ◌≢◌, ◌⊎◌, ◌+◌, ◌*◌, ◌≤◌, ◌<◌, ◌^◌, [], ◌∷◌, ℕ, List, true, false, map, length, slice_get, Some, IfOk, OnOk, OnErr, IsErr};
ghost use Rattle.std.specs.Option.{option_copied};
ghost use Rattle.protocol_model.specs.Sight.{Seen as SeenSpec};
ghost use Rattle.protocol_model.specs.World.{Edits};
ghost use Rattle.connection_model.specs.Feed.{End, Past};
ghost use Rattle.replication_model.specs.Sampled.{cell_count};
ghost use Rattle.class_layout.specs.Tables.{table_in};
ghost use Rattle.shadow_changes.specs.Samples.{Samples};
ghost use Rattle.net_driver.specs.Ends.{end_at};
ghost use Rattle.net_driver.specs.Served.{Served, Seat, with_seat, ticked, with_samples, with_all_ticked, after_ticks, tick_of, listed_sum, connection_of};
ghost use Rattle.net_driver.specs.Serves.{Serves, IsSpent, IsSeated, AreSeated};
ghost use Rattle.net_driver.specs.Sights.{IsLookingAll, IsSending, AreSightsFor, AreFewSteps, HasLooked};
ghost use Rattle.server_end.specs.Ticks.{IsGivenEnd, HasTicked};
ghost use Rattle.net_driver.specs.Ticks.{tick_value};
ghost use Rattle.server_end.specs.declared.server_end.ServerEnd.{ServerEnd as EndSpec};

use super::hearing::drop_end;
use super::{Driver, is_past};
use crate::chair::{Chair, chair_at, living, put_dead};
use crate::report::{PlayerTick, TickList};
use bit_io::Memory;
use class_layout::Classes;
use driver_sights::{Grave, Noted, Sight, sight_of};
use link_end::SentList;
use net_core::{Items, Steps};
use rep_graph::RepGraph;
use server_end::{EndTick, ServerEnd};
use shadow_changes::Shadows;
use slab::Slab;
use std::alloc::Global;
use std::sync::ledger::Ledger;
use world_table::World;

/// Twice the bunches that a tick makes at most at an end.
const TICK_MADE: u64 = 1 << 18;

impl<'a> Driver<'a> {
    /// All connections tick. After `Memory` the driver is spent.
    ///
    /// The counter rises by at most twice the actors that the nodes list for the living connections,
    /// and the values of the actors that are awake for one of them.
    pub fn tick<L: Ledger>(&mut self, steps: &mut Steps<L>) -> Result<TickList, Memory>
        requires stands { IsSpent self.old ⊎ ((s : Served) × Serves self.old s) }
        ensures serves { OnOk result ((s : Served) → Serves self.old s
            → Serves self.new (after_ticks (table_in self.old.layout) s)) }
        ensures sent { IfOk result (λ r. (s : Served) → Serves self.old s → map tick_value r
            ≡ map (tick_of (table_in self.old.layout) s.edits) s.seats) }
        ensures steps { (s : Served) → Serves self.old s → steps.new ≤ steps.old
            + 2 * listed_sum (table_in self.old.layout) s
            + cell_count (table_in self.old.layout) s.edits
            (map (connection_of (table_in self.old.layout)) s.seats) }
        ensures spent { OnErr result (IsSpent self.new) }
        ensures after { IsSpent self.old → IsErr result }
        ensures layout { self.new.layout ≡ self.old.layout }
    {
        if self.spent {
            return Err(Memory);
        }
        match self.tick_all(steps) {
            Ok(ticks) => Ok(ticks),
            Err(_) => {
                self.spent = true;
                Err(Memory)
            }
        }
    }

    /// The tick, as long as memory lasts.
    fn tick_all<L: Ledger>(&mut self, steps: &mut Steps<L>) -> Result<TickList, Memory>
        requires stands { (s : Served) × Serves self.old s }
        ensures serves { OnOk result ((s : Served) → Serves self.old s
            → Serves self.new (after_ticks (table_in self.old.layout) s)) }
        ensures sent { IfOk result (λ r. (s : Served) → Serves self.old s → map tick_value r
            ≡ map (tick_of (table_in self.old.layout) s.edits) s.seats) }
        ensures steps { (s : Served) → Serves self.old s → steps.new ≤ steps.old
            + 2 * listed_sum (table_in self.old.layout) s
            + cell_count (table_in self.old.layout) s.edits
            (map (connection_of (table_in self.old.layout)) s.seats) }
        ensures layout { self.new.layout ≡ self.old.layout }
    {
        self.forget_closed();
        let sights = self.look(steps)?;
        let ticks = self.send_all(self.alloc, sights.as_slice())?;
        Ok(ticks)
    }

    /// Samples for all players, and answers each one's sight, in the order of their chairs.
    fn look<L: Ledger>(&mut self, steps: &mut Steps<L>) -> Result<Vec<Sight>, Memory>
        requires stands { (s : Served) × Serves self.old s }
        ensures serves { OnOk result ((s : Served) → Serves self.old s
            → Serves self.new (with_samples (table_in self.old.layout) s)) }
        ensures sights { IfOk result (λ sights. (s : Served) → Serves self.old s
            → AreSightsFor self.old.layout s.edits self.old.graves
            (with_samples (table_in self.old.layout) s).samples sights.items s.seats) }
        ensures steps { (s : Served) → Serves self.old s → steps.new ≤ steps.old
            + 2 * listed_sum (table_in self.old.layout) s
            + cell_count (table_in self.old.layout) s.edits
            (map (connection_of (table_in self.old.layout)) s.seats) }
        ensures layout { self.new.layout ≡ self.old.layout }
        ensures graves { self.new.graves ≡ self.old.graves }
    {
        if is_past(self.ticks) {
            return Err(Memory);
        }
        let mut noted = Noted::new(self.alloc, self.ticks + 1);
        let sights = look_all(
            self.alloc,
            &self.world,
            &self.graph,
            self.chairs.as_slice(),
            &self.ends,
            self.graves.as_slice(),
            &mut self.changes,
            &mut noted,
            steps,
        )?;
        self.ticks += 1;
        Ok(sights)
    }

    /// Each end ticks with its sight.
    fn send_all(&mut self, alloc: Global, sights: &[Sight]) -> Result<TickList, Memory>
        requires stands { (s : Served) × Serves self.old s
            × AreSightsFor self.old.layout s.edits self.old.graves s.samples sights.now s.seats }
        ensures serves { OnOk result ((s : Served) → Serves self.old s
            → AreSightsFor self.old.layout s.edits self.old.graves s.samples sights.now s.seats
            → Serves self.new (with_all_ticked (table_in self.old.layout) s)) }
        ensures sent { IfOk result (λ r. (s : Served) → Serves self.old s
            → AreSightsFor self.old.layout s.edits self.old.graves s.samples sights.now s.seats
            → map tick_value r ≡ map (tick_of (table_in self.old.layout) s.edits) s.seats) }
        ensures layout { self.new.layout ≡ self.old.layout }
    {
        let mut ticks = Items::new(alloc);
        for i in 0..self.joined() {
            let Some(sight) = sight_at(sights, i) else {
                return Err(Memory);
            };
            let Some(chair) = self.chair(i) else {
                return Err(Memory);
            };
            let tick = self.send(chair, sight)?;
            ticks.push(tick)?;
        }
        Ok(ticks)
    }

    /// How many players joined.
    fn joined(&self) -> usize
        ensures { result ≡ length self.now.chairs }
    {
        self.chairs.as_slice().len()
    }

    /// The chair at a place, counted from 0.
    fn chair(&self, i: usize) -> Option<Chair>
        ensures { result ≡ slice_get self.now.chairs i }
    {
        chair_at(self.chairs.as_slice(), i)
    }

    /// The end of a player ticks with its sight; one that stalls is dropped.
    fn send(&mut self, chair: Chair, sight: &Sight) -> Result<PlayerTick, Memory>
        requires stands { (s : Served) × (seat : Seat) × Serves self.old s
            × IsSending self.old s chair sight.now seat }
        ensures serves { OnOk result ((s : Served) (seat : Seat) → Serves self.old s
            → IsSending self.old s chair sight.now seat → Serves self.new
            (with_seat (ticked (table_in self.old.layout) s.edits) chair.player s)) }
        ensures sent { IfOk result (λ t. (s : Served) (seat : Seat) → Serves self.old s
            → IsSending self.old s chair sight.now seat
            → tick_value t ≡ tick_of (table_in self.old.layout) s.edits seat) }
        ensures layout { self.new.layout ≡ self.old.layout }
        ensures graves { self.new.graves ≡ self.old.graves }
        ensures count { length self.new.chairs ≡ length self.old.chairs }
    {
        let player = chair.player;
        let Some(key) = living(chair.place) else {
            return Ok(PlayerTick {
                player,
                sent: SentList::new(self.alloc),
                stalled: false,
            });
        };
        if is_past(self.greatest) {
            return Err(Memory);
        }
        self.classes.keeps_rules();
        let ticked = tick_at(&mut self.ends, key, sight, &self.changes, self.classes)?;
        self.greatest += TICK_MADE;
        if ticked.stalled {
            drop_end(&mut self.ends, Some(key));
            put_dead(&mut self.chairs, player, ticked.top);
            return Ok(PlayerTick {
                player,
                sent: ticked.sent,
                stalled: true,
            });
        }
        Ok(PlayerTick {
            player,
            sent: ticked.sent,
            stalled: false,
        })
    }
}

/// The sight at a place, counted from 0.
fn sight_at(sights: &[Sight], i: usize) -> Option<&Sight>
    ensures { option_copied result ≡ slice_get sights.now i }
{
    sights.get(i)
}

/// The end under a key ticks with its sight.
fn tick_at(
    ends: &mut Slab<ServerEnd>,
    key: usize,
    sight: &Sight,
    changes: &Shadows,
    classes: &Classes,
) -> Result<EndTick, Memory>
    requires { (e : EndSpec) × (end : End) × (past : Past) × (before : Samples)
        × (samples : Samples) × (shown : List SeenSpec) × (end_at ends.old.slots key ≡ Some e)
        × IsGivenEnd e classes.now changes.now sight.now end past before samples shown }
    ensures ticked { IfOk result (λ t. (e : EndSpec) (end : End) (past : Past)
        (before samples : Samples) (shown : List SeenSpec) → end_at ends.old.slots key ≡ Some e
        → IsGivenEnd e classes.now changes.now sight.now end past before samples shown
        → (later : EndSpec) × (end_at ends.new.slots key ≡ Some later)
        × HasTicked e later end past samples shown t) }
    ensures others { (k : ℕ) → k ≢ key → end_at ends.new.slots k ≡ end_at ends.old.slots k }
{
    match ends.get_mut(key) {
        Some(end) => end.tick(sight, changes, classes),
        None => Err(Memory),
    }
}

/// The sight of each player, in the order of their chairs: an empty one where the end is dead.
fn look_all<L: Ledger>(
    alloc: Global,
    world: &World<'_>,
    graph: &RepGraph,
    chairs: &[Chair],
    ends: &Slab<ServerEnd>,
    graves: &[Grave],
    changes: &mut Shadows,
    noted: &mut Noted,
    steps: &mut Steps<L>,
) -> Result<Vec<Sight>, Memory>
    requires looking { (edits : Edits) × (greatest : ℕ) × (before : Samples) × (samples : Samples)
        × (seats : List Seat)
        × IsLookingAll world.now graph.now graves.now noted.old changes.old edits samples
        × AreSeated (table_in world.now.layout) edits before greatest ends.now.slots chairs.now
        seats }
    ensures looked { IfOk result (λ sights.
        (edits : Edits) (greatest : ℕ) (before samples : Samples) (seats : List Seat)
        → IsLookingAll world.now graph.now graves.now noted.old changes.old edits samples
        → AreSeated (table_in world.now.layout) edits before greatest ends.now.slots chairs.now
        seats → HasLooked world.now.layout edits graves.now samples noted.old noted.new changes.new
        steps.old steps.new [] sights.items seats) }
    ensures tick { noted.new.tick ≡ noted.old.tick }
    ensures steps { (edits : Edits) (greatest : ℕ) (before samples : Samples) (seats : List Seat)
        → IsLookingAll world.now graph.now graves.now noted.old changes.old edits samples
        → AreSeated (table_in world.now.layout) edits before greatest ends.now.slots chairs.now
        seats → AreFewSteps (table_in world.now.layout) edits noted.old steps.old steps.new seats }
{
    let mut sights = Vec::with_capacity(alloc, chairs.len())?;
    for chair in chairs {
        look_from(
            alloc,
            world,
            graph,
            chair,
            ends,
            graves,
            changes,
            noted,
            &mut sights,
            steps,
        )?;
    }
    Ok(sights)
}

/// Appends the sight of one player.
fn look_from<L: Ledger>(
    alloc: Global,
    world: &World<'_>,
    graph: &RepGraph,
    chair: &Chair,
    ends: &Slab<ServerEnd>,
    graves: &[Grave],
    changes: &mut Shadows,
    noted: &mut Noted,
    sights: &mut Vec<Sight>,
    steps: &mut Steps<L>,
) -> Result<(), Memory>
    requires looking { (edits : Edits) × (greatest : ℕ) × (before : Samples) × (samples : Samples)
        × (seat : Seat)
        × IsLookingAll world.now graph.now graves.now noted.old changes.old edits samples
        × IsSeated (table_in world.now.layout) edits before greatest ends.now.slots chair.now seat }
    ensures looked { OnOk result ((edits : Edits) (greatest : ℕ) (before samples : Samples)
        (seat : Seat)
        → IsLookingAll world.now graph.now graves.now noted.old changes.old edits samples
        → IsSeated (table_in world.now.layout) edits before greatest ends.now.slots chair.now seat
        → HasLooked world.now.layout edits graves.now samples noted.old noted.new changes.new
        steps.old steps.new sights.old.items sights.new.items (seat ∷ [])) }
    ensures tick { noted.new.tick ≡ noted.old.tick }
    ensures steps { (edits : Edits) (greatest : ℕ) (before samples : Samples) (seat : Seat)
        → IsLookingAll world.now graph.now graves.now noted.old changes.old edits samples
        → IsSeated (table_in world.now.layout) edits before greatest ends.now.slots chair.now seat
        → AreFewSteps (table_in world.now.layout) edits noted.old steps.old steps.new (seat ∷ []) }
{
    let Some(key) = living(chair.place) else {
        sights.push(Items::new(alloc))?;
        return Ok(());
    };
    let Some(end) = ends.get(key) else {
        return Err(Memory);
    };
    let viewer = chair.player;
    let sight = sight_of(
        alloc,
        world,
        graph,
        viewer,
        &end.sender,
        graves,
        changes,
        noted,
        steps,
    )?;
    sights.push(sight)?;
    Ok(())
}
