// The sender of one connection.
ghost use Rattle.std.specs.Prelude.{◌≡◌, ◌<◌, ◌≤◌, ◌+◌, ◌^◌, [], ℕ, List, length, true, false, None, unwrap_or, OnOk, OnErr, IsErr};
ghost use Rattle.std.specs.List.{list_any};
ghost use Rattle.std.specs.Option.{option_copied};
ghost use Rattle.protocol_model.specs.Side.{AtServer};
ghost use Rattle.connection_model.specs.Feed.{Past, sight_of};
ghost use Rattle.connection_model.specs.Pack.{after_closes};
ghost use Rattle.connection_model.specs.State.{state_of, is_open, was_opened as was_opened_in};
ghost use Rattle.connection_model.specs.Settled.{is_settled_as};
ghost use Rattle.connection_model.specs.CallAnswers.{is_seen_owned};
ghost use Rattle.connection_laws.specs.Run.{Ascends};
ghost use Rattle.packing_laws.specs.Beginning.{ticked};
ghost use Rattle.channel_laws.specs.Moves.{IsMove};
ghost use Rattle.channel_table.specs.Keeps.{Keeps as KeepsTable};
ghost use Rattle.class_layout.specs.Tables.{Layout};
ghost use Rattle.shadow_changes.specs.Samples.{Samples};
ghost use Rattle.sender_records.specs.Actors.{fresh_actor};
ghost use Rattle.sender_records.specs.Life.{state_value};
ghost use Rattle.sender_steps.specs.Sender.{record_at, state_kept};
ghost use Rattle.sender_steps.specs.Sights.{seen_value, sight_value, actors_in};
ghost use Rattle.sender_steps.specs.States.{is_quiet_as};
ghost use Rattle.sender_steps.specs.Stands.{Keeps, KeepsBoth, StandsBoth, IsSpent, makes_known};

use bit_io::Memory;
use channel_table::ChannelTable;
use class_layout::Classes;
use link_end::FateMove;
use net_core::Guid;
use sender_records::{ActorRecord, ActorState};
use sender_steps::{
    OpenSent, Seen, Sight, UpdateSent, close_all, drop_known, hear_all, is_settled, learn,
    show_all, tell_updates, tidy,
};
use std::alloc::Global;
use std::collections::HashMap;
use std::marker::Model;

mod ticking;

/// The actors of one connection, as they were sent.
#[derive(Drop)]
pub struct ActorSender {
    alloc: Global,
    records: HashMap<u32, ActorRecord>,
    updates: Vec<UpdateSent>,
    pending: Vec<Guid>,
    live: Vec<Guid>,
    known: Vec<bool>,
    opens: Vec<OpenSent>,
    ticks: u64,
    spent: bool,
}

impl Model for ActorSender {
    ghost use Rattle.sender_steps.specs.Sender.{Sender};

    ghost Value = { Sender };

    ghost view = { λ s. record {
      records = s.records.entries;
      updates = s.updates.items;
      pending = s.pending.items;
      live = s.live.items;
      known = s.known.items;
      opens = s.opens.items;
      ticks = s.ticks;
      spent = s.spent;
    } };
}

impl ActorSender {
    /// Nothing was sent.
    pub fn new(alloc: Global) -> ActorSender
        ensures { Keeps result [] [] }
    {
        ActorSender {
            alloc,
            records: HashMap::new(alloc),
            updates: Vec::new(alloc),
            pending: Vec::new(alloc),
            live: Vec::new(alloc),
            known: Vec::new(alloc),
            opens: Vec::new(alloc),
            ticks: 0,
            spent: false,
        }
    }

    /// A tick begins: takes in what the client knows by now and whom the sight shows, and forgets
    /// what is under way no more. The actors of the sight ascend. After `Memory` the sender is
    /// spent.
    pub(crate) fn take_in(&mut self, sight: &Sight, table: &ChannelTable) -> Result<(), Memory>
        ensures keeps { OnOk result ((layout : Layout) (past : Past) (samples : Samples)
            → Keeps self.old past samples → KeepsTable table.now AtServer past
            → Ascends 0 (actors_in sight.now)
            → Keeps self.new (ticked past (sight_value layout sight.now)) samples) }
        ensures rest { OnOk result ((past : Past) (samples : Samples)
            → Keeps self.old past samples → KeepsTable table.now AtServer past → (g : ℕ)
            → list_any (makes_known past g) self.new.opens ≡ false) }
        ensures handles { OnOk result ((a : ℕ) → (record_at self.new a).handles
            ≡ (record_at self.old a).handles) }
        ensures life { OnOk result ((a : ℕ) → (record_at self.new a).life
            ≡ (record_at self.old a).life) }
        ensures live { OnOk result (length self.new.live ≤ length self.old.live) }
        ensures spent { OnErr result (IsSpent self.new) }
        ensures after { IsSpent self.old → IsErr result }
    {
        if self.spent {
            return Err(Memory);
        }
        match self.take(sight, table) {
            Ok(()) => Ok(()),
            Err(memory) => {
                self.spent = true;
                Err(memory)
            }
        }
    }

    /// Takes them in, as long as memory lasts.
    fn take(&mut self, sight: &Sight, table: &ChannelTable) -> Result<(), Memory>
        ensures keeps { OnOk result ((layout : Layout) (past : Past) (samples : Samples)
            → Keeps self.old past samples → KeepsTable table.now AtServer past
            → Ascends 0 (actors_in sight.now)
            → Keeps self.new (ticked past (sight_value layout sight.now)) samples) }
        ensures rest { OnOk result ((past : Past) (samples : Samples)
            → Keeps self.old past samples → KeepsTable table.now AtServer past → (g : ℕ)
            → list_any (makes_known past g) self.new.opens ≡ false) }
        ensures handles { OnOk result ((a : ℕ) → (record_at self.new a).handles
            ≡ (record_at self.old a).handles) }
        ensures life { OnOk result ((a : ℕ) → (record_at self.new a).life
            ≡ (record_at self.old a).life) }
        ensures live { OnOk result (length self.new.live ≤ length self.old.live) }
    {
        let Some(tick) = self.ticks.checked_add(1) else {
            return Err(Memory);
        };
        learn(&mut self.opens, &mut self.known, table);
        show_all(self.alloc, &mut self.records, sight.as_slice(), tick)?;
        tidy(&self.records, &mut self.pending, &mut self.live);
        self.ticks = tick;
        Ok(())
    }

    /// Makes the closes and Gones that the tick calls for which was taken in with this sight, each
    /// where its channel has room. After `Memory` the sender is spent.
    pub(crate) fn make_closes(
        &mut self,
        sight: &Sight,
        table: &mut ChannelTable,
        classes: &Classes,
    ) -> Result<(), Memory>
        requires stands { (past : Past) × (samples : Samples)
            × KeepsBoth self.old table.old past samples
            × (sight_of past ≡ sight_value classes.now sight.now)
            × Ascends 0 (actors_in sight.now) }
        requires few { table.old.made.count + length self.old.live < 2 ^ 60 }
        ensures keeps { OnOk result ((past : Past) (samples : Samples)
            → KeepsBoth self.old table.old past samples
            → sight_of past ≡ sight_value classes.now sight.now
            → Ascends 0 (actors_in sight.now)
            → KeepsBoth self.new table.new (after_closes past) samples) }
        ensures rest { OnOk result (self.new ≡ record self.old {
          records = self.new.records;
          pending = self.new.pending;
        }) }
        ensures handles { OnOk result ((a : ℕ) → (record_at self.new a).handles
            ≡ (record_at self.old a).handles) }
        ensures was_open { OnOk result ((a : ℕ) → is_open (state_kept self.new a) ≡ true
            → is_open (state_kept self.old a) ≡ true) }
        ensures waiting { OnOk result (table.new.waiting ≡ table.old.waiting) }
        ensures count { OnOk result (table.new.made.count
            ≤ table.old.made.count + length self.old.live) }
        ensures spent { OnErr result (IsSpent self.new) }
    {
        let (alloc, tick) = (self.alloc, self.ticks);
        let (records, pending) = (&mut self.records, &mut self.pending);
        let (live, sight) = (self.live.as_slice(), sight.as_slice());
        match close_all(alloc, records, pending, live, sight, tick, table, classes) {
            Ok(()) => Ok(()),
            Err(memory) => {
                self.spent = true;
                Err(memory)
            }
        }
    }

    /// Learns the fates that a move tells, with the channels.
    pub fn moved(&mut self, m: FateMove, table: &mut ChannelTable)
        requires from { table.old.high ≡ m.from }
        requires above { m.from < m.to }
        ensures stands { (past after : Past) (samples : Samples)
            → StandsBoth self.old table.old past samples → IsMove m.from m.to past after
            → StandsBoth self.new table.new after samples }
        ensures count { table.new.made.count ≡ table.old.made.count }
    {
        table.moved(m);
        tell_updates(&mut self.records, self.updates.as_slice(), m.from, m.to);
        drop_known(&mut self.updates, m.to);
        hear_all(&mut self.records, self.pending.as_slice(), table);
    }

    /// The record of an actor, if it has one.
    fn find(&self, actor: Guid) -> Option<&ActorRecord>
        ensures { unwrap_or (option_copied result) (fresh_actor actor)
            ≡ record_at self.now actor }
    {
        self.records.get(&actor.0)
    }

    /// Where the channel of an actor stands.
    pub fn state(&self, actor: Guid) -> ActorState
        ensures { (past : Past) (samples : Samples) → Keeps self.now past samples
            → state_value result ≡ state_of past actor }
    {
        match self.find(actor) {
            Some(record) => record.life.state,
            None => ActorState::None,
        }
    }

    /// An open of the actor was ever made.
    pub fn was_opened(&self, actor: Guid) -> bool
        ensures { (past : Past) (samples : Samples) → Keeps self.now past samples
            → result ≡ was_opened_in past actor }
    {
        match self.find(actor) {
            Some(record) => record.life.opened,
            None => false,
        }
    }

    /// The last tick's sight shows the actor as owned.
    pub fn shows_owned(&self, actor: Guid) -> bool
        ensures { (past : Past) (samples : Samples) → Keeps self.now past samples
            → result ≡ is_seen_owned past actor }
    {
        match self.find(actor) {
            Some(record) => record.service.owned(self.ticks),
            None => false,
        }
    }

    /// The actor is asleep, and is seen as dormant with the flush number that was kept at its
    /// dormant close: the values of such an actor may be left out of a sight.
    pub fn quiet(&self, actor: Guid, dormant: bool, flush: u64) -> bool
        ensures { (past : Past) (samples : Samples) → Keeps self.now past samples
            → result ≡ is_quiet_as past actor dormant flush }
    {
        if !dormant {
            return false;
        }
        match self.find(actor) {
            Some(record) => record.life.is_quiet(dormant, flush),
            None => false,
        }
    }

    /// Nothing is left to send of an actor as it is seen now, and all that was sent has arrived.
    pub fn settled(&self, seen: &Seen, table: &ChannelTable, classes: &Classes) -> bool
        ensures { (past : Past) (samples : Samples)
            → StandsBoth self.now table.now past samples
            → result ≡ is_settled_as past (seen_value classes.now seen.now) }
    {
        match self.find(seen.actor) {
            Some(record) => is_settled(record, seen, table, classes),
            None => false,
        }
    }
}
