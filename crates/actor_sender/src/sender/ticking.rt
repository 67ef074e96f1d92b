// A tick of one connection.
ghost use Rattle.std.specs.Prelude.{◌≡◌, ◌≢◌, ◌⊎◌, ◌+◌, ◌*◌, ◌<◌, ◌≤◌, ◌^◌, [], ℕ, List, map, length, not, IfOk, IsErr, OnErr, OnOk};
ghost use Rattle.protocol_model.specs.Limits.{part_limit};
ghost use Rattle.protocol_model.specs.Sight.{Seen as SeenSpec};
ghost use Rattle.connection_model.specs.Feed.{End, Past};
ghost use Rattle.connection_model.specs.Pack.{Packing, after_packing, after_tick};
ghost use Rattle.link_end.specs.Answers.{new_packets, sent_value};
ghost use Rattle.link_end.specs.Rests.{IsSpent as IsLinkSpent};
ghost use Rattle.channel_table.specs.Keeps.{IsSpent as IsTableSpent};
ghost use Rattle.shadow_changes.specs.Samples.{Samples, Shadows as Changes};
ghost use Rattle.turn_laws.specs.Turns.{after_turn, after_turns};
ghost use Rattle.sender_steps.specs.Sender.{record_at};
ghost use Rattle.sender_steps.specs.Sights.{seen_value, sight_value};
ghost use Rattle.sender_steps.specs.Stands.{Stands, IsSpent};
ghost use Rattle.sender_turns.specs.Ticking.{InTick};
ghost use Rattle.sender_turns.specs.Turning.{turn_entry};
ghost use Rattle.actor_sender.specs.Given.{IsGiven};
ghost use Rattle.actor_sender.specs.Serving.{after_serving, CanSend, InTurns, IsServed, MayBegin};

use super::ActorSender;
use bit_io::Memory;
use bunch_packing::offer_due;
use channel_table::ChannelTable;
use class_layout::Classes;
use link_end::{LinkEnd, SentList};
use sender_steps::{Seen, Sight};
use sender_turns::{Turn, find_turns, offer_calls, open_actor, update};
use shadow_changes::Shadows;

/// How many bunches a tick may make: one for each live actor, and those of an open for each entry.
const MADE_LIMIT: usize = 131_072;

/// The most bunches of an open.
const OPEN_PARTS: usize = 10;

impl ActorSender {
    /// Sends a tick's packets: acknowledgements, due bunches, calls that wait, and then of each
    /// relevant actor by score its open or its update, until one finds no room. Closes, dormant
    /// closes and Gones are made before. The calls wait no more.
    ///
    /// What the player sees may leave out the values of quiet actors, and destroyed actors of which
    /// nothing is left to close. A tick that may make more than 131,072 bunches is want of memory.
    /// After `Memory` the sender, its link and its channels are spent.
    pub fn tick(
        &mut self,
        sight: &Sight,
        changes: &Shadows,
        link: &mut LinkEnd,
        table: &mut ChannelTable,
        classes: &Classes,
    ) -> Result<SentList, Memory>
        requires { IsSpent self.old ⊎ ((end : End) × (past : Past) × (before : Samples)
            × (samples : Samples) × (shown : List SeenSpec)
            × IsGiven self.old link.old table.old classes.now changes.now sight.now end past before
            samples shown) }
        ensures sent { IfOk result (λ sent. (end : End) (past : Past) (before samples : Samples)
            (shown : List SeenSpec)
            → IsGiven self.old link.old table.old classes.now changes.now sight.now end past before
            samples shown
            → map sent_value sent ≡ new_packets end past (after_tick end past shown)) }
        ensures stands { OnOk result ((end : End) (past : Past) (before samples : Samples)
            (shown : List SeenSpec)
            → IsGiven self.old link.old table.old classes.now changes.now sight.now end past before
            samples shown
            → Stands self.new link.new table.new end (after_tick end past shown) samples) }
        ensures waiting { OnOk result (table.new.waiting ≡ []) }
        ensures count { OnOk result (table.new.made.count ≤ table.old.made.count + 2 ^ 17) }
        ensures after { IsSpent self.old → IsErr result }
        ensures spent { OnErr result (IsSpent self.new) }
        ensures link_spent { OnErr result (IsLinkSpent link.new) }
        ensures table_spent { OnErr result (IsTableSpent table.new) }
    {
        match self.send(sight, changes, link, table, classes) {
            Ok(sent) => Ok(sent),
            Err(memory) => {
                self.spent = true;
                link.spend();
                table.spend();
                Err(memory)
            }
        }
    }

    /// The tick, as long as memory lasts.
    fn send(
        &mut self,
        sight: &Sight,
        changes: &Shadows,
        link: &mut LinkEnd,
        table: &mut ChannelTable,
        classes: &Classes,
    ) -> Result<SentList, Memory>
        requires { IsSpent self.old ⊎ ((end : End) × (past : Past) × (samples : Samples)
            × MayBegin self.old link.old table.old classes.now changes.now sight.now end past
            samples × (table.old.made.count < 2 ^ 59)) }
        ensures sent { IfOk result (λ sent. (end : End) (past : Past) (samples : Samples)
            → MayBegin self.old link.old table.old classes.now changes.now sight.now end past
            samples
            → map sent_value sent ≡ new_packets end past (after_packing end past
            (after_serving end past (sight_value classes.now sight.now)))) }
        ensures stands { OnOk result ((end : End) (past : Past) (samples : Samples)
            → MayBegin self.old link.old table.old classes.now changes.now sight.now end past
            samples
            → Stands self.new link.new table.new end (after_packing end past
            (after_serving end past (sight_value classes.now sight.now))) samples) }
        ensures waiting { OnOk result (table.new.waiting ≡ []) }
        ensures count { OnOk result (table.new.made.count ≤ table.old.made.count + 2 ^ 17) }
        ensures after { IsSpent self.old → IsErr result }
    {
        if self.spent {
            return Err(Memory);
        }
        if self.live.len() + OPEN_PARTS * sight.as_slice().len() > MADE_LIMIT {
            return Err(Memory);
        }
        self.begin(sight, link, table, classes)?;
        self.pack(sight.as_slice(), changes, link, table, classes)?;
        table.clear_waiting();
        let sent = link.end_tick()?;
        Ok(sent)
    }

    /// Takes the sight in, makes the closes that it calls for, and begins the packets.
    fn begin(
        &mut self,
        sight: &Sight,
        link: &mut LinkEnd,
        table: &mut ChannelTable,
        classes: &Classes,
    ) -> Result<(), Memory>
        requires stands { (changes : Changes) × (end : End) × (past : Past) × (samples : Samples)
            × MayBegin self.old link.old table.old classes.now changes sight.now end past samples }
        requires few { table.old.made.count + length self.old.live < 2 ^ 60 }
        ensures stands { OnOk result ((changes : Changes) (end : End) (past : Past)
            (samples : Samples)
            → MayBegin self.old link.old table.old classes.now changes sight.now end past samples
            → CanSend self.new link.new table.new classes.now changes sight.now end past samples) }
        ensures count { OnOk result (table.new.made.count
            ≤ table.old.made.count + length self.old.live) }
    {
        self.take_in(sight, table)?;
        self.make_closes(sight, table, classes)?;
        link.begin_tick()?;
        Ok(())
    }

    /// Due bunches, calls that wait, and the turns, until one finds no room.
    fn pack(
        &mut self,
        sight: &[Seen],
        changes: &Shadows,
        link: &mut LinkEnd,
        table: &mut ChannelTable,
        classes: &Classes,
    ) -> Result<(), Memory>
        requires stands { (end : End) × (past : Past) × (samples : Samples)
            × CanSend self.old link.old table.old classes.now changes.now sight.now end past
            samples }
        requires few { table.old.made.count + part_limit * length sight.now < 2 ^ 60 }
        ensures stands { OnOk result ((end : End) (past : Past) (samples : Samples)
            → CanSend self.old link.old table.old classes.now changes.now sight.now end past samples
            → InTick self.new link.new table.new end past
            (after_serving end past (sight_value classes.now sight.now)) samples) }
        ensures count { OnOk result (table.new.made.count
            ≤ table.old.made.count + part_limit * length sight.now) }
    {
        if !offer_due(link, table)? {
            return Ok(());
        }
        if !offer_calls(&self.records, link, table)? {
            return Ok(());
        }
        let (alloc, tick) = (self.alloc, self.ticks);
        let turns = find_turns(alloc, &mut self.records, sight, tick, changes, classes)?;
        self.serve_all(turns.as_slice(), sight, changes, link, table, classes)?;
        Ok(())
    }

    /// The turns in their order, until one finds no room.
    fn serve_all(
        &mut self,
        turns: &[Turn],
        sight: &[Seen],
        changes: &Shadows,
        link: &mut LinkEnd,
        table: &mut ChannelTable,
        classes: &Classes,
    ) -> Result<(), Memory>
        requires stands { (end : End) × (before : Past) × (past : Past) × (p : Packing)
            × (samples : Samples)
            × InTurns classes.now changes.now sight.now self.old link.old table.old end before past
            p samples turns.now }
        requires few { table.old.made.count + part_limit * length turns.now < 2 ^ 60 }
        ensures stands { OnOk result ((end : End) (before past : Past) (p : Packing)
            (samples : Samples)
            → InTurns classes.now changes.now sight.now self.old link.old table.old end before past
            p samples turns.now
            → InTick self.new link.new table.new end before
            (after_turns end past p (map (turn_entry classes.now sight.now) turns.now)) samples) }
        ensures count { OnOk result (table.new.made.count
            ≤ table.old.made.count + part_limit * length turns.now) }
    {
        for turn in turns {
            let Some(seen) = sight.get(turn.place) else {
                continue;
            };
            if !self.serve(turn.opens, seen, changes, link, table, classes)? {
                return Ok(());
            }
        }
        Ok(())
    }

    /// The open or the update of one actor; false exactly where it finds no room.
    fn serve(
        &mut self,
        opens: bool,
        seen: &Seen,
        changes: &Shadows,
        link: &mut LinkEnd,
        table: &mut ChannelTable,
        classes: &Classes,
    ) -> Result<bool, Memory>
        requires stands { (end : End) × (before : Past) × (past : Past) × (p : Packing)
            × (samples : Samples)
            × IsServed classes.now changes.now seen.now opens self.old link.old table.old end before
            past p samples }
        requires few { table.old.made.count < 2 ^ 60 }
        ensures room { IfOk result (λ room. (end : End) (before past : Past) (p : Packing)
            (samples : Samples)
            → IsServed classes.now changes.now seen.now opens self.old link.old table.old end before
            past p samples
            → room ≡ not (after_turn end past p (seen_value classes.now seen.now)).full) }
        ensures stands { OnOk result ((end : End) (before past : Past) (p : Packing)
            (samples : Samples)
            → IsServed classes.now changes.now seen.now opens self.old link.old table.old end before
            past p samples
            → InTick self.new link.new table.new end before
            (after_turn end past p (seen_value classes.now seen.now)) samples) }
        ensures others { OnOk result ((a : ℕ) → seen.now.actor ≢ a
            → record_at self.new a ≡ record_at self.old a) }
        ensures count { OnOk result (table.new.made.count ≤ table.old.made.count + part_limit) }
    {
        let (alloc, tick) = (self.alloc, self.ticks);
        if opens {
            let (records, pending, live) = (&mut self.records, &mut self.pending, &mut self.live);
            let (known, opens) = (&mut self.known, &mut self.opens);
            let room = open_actor(
                alloc, records, pending, live, known, opens, link, table, seen, tick, changes,
                classes,
            )?;
            return Ok(room);
        }
        let (records, updates) = (&mut self.records, &mut self.updates);
        let room = update(alloc, records, updates, seen, tick, link, classes)?;
        Ok(room)
    }
}
