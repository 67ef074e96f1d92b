// What is kept of one actor.
ghost use Rattle.std.specs.Prelude.{◌≡◌, ◌≢◌, ◌⊎◌, ◌≤◌, ◌<◌, ◌+◌, ◌∷◌, ◌++◌, ◌==◌, [], ℕ, List, map, length, true, false, Some, OnOk, OnErr, IsOk};
ghost use Rattle.std.specs.List.{list_any};
ghost use Rattle.protocol_model.specs.Value.{Class as ClassSpec, Segment as SegmentSpec};
ghost use Rattle.protocol_model.specs.Packet.{Bunch};
ghost use Rattle.protocol_model.specs.Payload.{Opens, Closes, Gone, Updates};
ghost use Rattle.change_model.specs.Changes.{Sample};
ghost use Rattle.protocol_model.specs.Sight.{Seen};
ghost use Rattle.connection_model.specs.Feed.{Past, Deed, Item, tick_count, is_relevant_in};
ghost use Rattle.connection_model.specs.Fates.{high_of};
ghost use Rattle.connection_model.specs.Bunches.{after_making, span};
ghost use Rattle.connection_model.specs.State.{index_of};
ghost use Rattle.connection_model.specs.Items.{is_update_of};
ghost use Rattle.sender_laws.specs.Acts.{ArrivesMade, MovesTo, are_sent, sent_more};
ghost use Rattle.sender_laws.specs.Items.{has_update};
ghost use Rattle.sender_laws.specs.States.{flush_seen};
ghost use Rattle.sender_laws.specs.Values.{AreInTurn, IsCurrent};
ghost use Rattle.sender_records.specs.Service.{shows_owned};
ghost use Rattle.sender_records.specs.Handles.{handle_in, pairs_of, AreApart, AllBelow, Agrees, AreNewest};
ghost use Rattle.sender_records.specs.Actors.{KeepsActor, fresh_actor};

use crate::life::Life;
use crate::service::Service;
use crate::table::HandleTable;
use class_layout::{Class, Pair};
use net_core::{Guid, Memory};
use std::alloc::Global;

/// What is kept of one actor.
#[derive(Drop)]
pub struct ActorRecord {
    /// The actor.
    pub actor: Guid,
    /// Its channel.
    pub life: Life,
    /// When it was shown and served.
    pub service: Service,
    /// Its handles; what they say counts while the channel is opening or opened.
    pub handles: HandleTable,
}

impl ActorRecord {
    /// Nothing was shown or made of the actor.
    pub fn new(alloc: Global, actor: Guid) -> ActorRecord
        ensures fresh { result ≡ fresh_actor actor }
        ensures keeps { (samples : List Sample) → KeepsActor [] samples actor result }
    {
        ActorRecord {
            actor,
            life: Life::new(),
            service: Service::new(),
            handles: HandleTable::new(alloc),
        }
    }

    /// A tick began, and this is how its sight shows the actor.
    pub fn shows(&mut self, tick: u64, relevant: bool, owns: bool)
        ensures keeps { (past : Past) (sight : List Seen) (samples : List Sample) (actor : ℕ)
            → KeepsActor past samples actor self.old → tick ≡ tick_count past + 1
            → is_relevant_in sight actor ≡ relevant → shows_owned sight actor ≡ owns
            → KeepsActor (Deed.Ticked tick sight ∷ past) samples actor self.new }
    {
        self.service.shows(tick, relevant, owns);
    }

    /// A close is made on the index that the actor holds; a dormant one keeps the flush number.
    pub fn closes(&mut self, sleeps: bool, flush: u64)
        ensures keeps { (past : Past) (samples : List Sample) (actor ch : ℕ)
            → KeepsActor past samples actor self.old → self.old.life.index ≡ Some ch
            → ArrivesMade past → (sleeps ≡ true → flush_seen past actor ≡ Some flush)
            → KeepsActor (after_making past ch (Closes actor sleeps)) samples actor self.new }
    {
        self.life.closes(sleeps, flush);
    }

    /// A Gone is made.
    pub fn goes(&mut self)
        ensures keeps { (past : Past) (samples : List Sample) (actor ch : ℕ)
            → KeepsActor past samples actor self.old
            → KeepsActor (after_making past ch (Gone actor)) samples actor self.new }
    {
        self.life.goes();
    }

    /// An open with these values is made in this tick on an index that is clear, below packets
    /// without an update of the actor; they were sampled at the tick `sampled`. `Memory` changes
    /// nothing.
    pub fn opens(
        &mut self,
        tick: u64,
        index: u16,
        class: &Class,
        owns: bool,
        values: &[Pair],
        sampled: u64,
    ) -> Result<(), Memory>
        requires { 1 ≤ tick }
        ensures keeps { OnOk result ((sent past : Past) (actor : ℕ) (exports : List SegmentSpec)
            (shown : ClassSpec) (samples : List Sample)
            → KeepsActor (sent ++ past) samples actor self.old → are_sent sent ≡ true
            → has_update actor sent ≡ false → ArrivesMade (sent ++ past)
            → span (sent ++ past) index ≡ 0 → tick ≡ tick_count past
            → 1 ≤ self.old.service.relevant_at
            → AreNewest samples sampled values.now → AreInTurn samples
            → KeepsActor (sent ++ after_making past index
            (Opens exports actor shown (pairs_of values.now))) samples actor self.new) }
        ensures last { OnOk result (self.new.handles.last ≡ tick) }
        ensures ok { AllBelow (length self.old.handles.handles) values.now → IsOk result }
        ensures err { OnErr result (self.new ≡ self.old) }
    {
        self.handles.opens(tick, class, owns, values, sampled)?;
        self.life.opens(index);
        self.service.serves(tick);
        Ok(())
    }

    /// An update with these values, which were compared in this tick, goes into a packet that holds
    /// no other update of the actor and whose number is above each that moved.
    pub fn carries(&mut self, tick: u64, packet: u64, values: &[Pair])
        requires { AllBelow (length self.old.handles.handles) values.now }
        ensures keeps { (items : List Item) (class : ClassSpec) (bunch : Bunch) (past : Past)
            (samples : List Sample) (actor : ℕ)
            → KeepsActor (Deed.Sent packet tick items ∷ past) samples actor self.old
            → list_any (is_update_of actor) items ≡ false → high_of past < packet
            → 1 ≤ self.old.service.relevant_at → AreApart (pairs_of values.now)
            → Agrees samples (pairs_of values.now) → IsCurrent samples self.old.handles.compared
            → KeepsActor (sent_more packet tick items
            (Item.Loose (Updates actor class (pairs_of values.now)) bunch) past)
            samples actor self.new }
        ensures packets { AreApart (pairs_of values.now) → (h : ℕ)
            → ((handle_in self.new.handles.handles h).packet ≡ packet)
            ⊎ ((handle_in self.new.handles.handles h).packet
            ≡ (handle_in self.old.handles.handles h).packet) }
        ensures last { self.new.handles.last ≡ self.old.handles.last }
    {
        self.handles.carries(packet, values);
        self.service.serves(tick);
    }

    /// Packet `to` arrived, and those above `from` and below it are lost; `clear` says whether all
    /// has arrived on the index that the actor holds.
    pub fn moves(&mut self, from: u64, to: u64, clear: bool)
        ensures keeps { (past later : Past) (samples : List Sample) (actor : ℕ)
            → KeepsActor past samples actor self.old → MovesTo from to past later
            → ((ch : ℕ) → index_of past actor ≡ Some ch → (span later ch == 0) ≡ clear)
            → KeepsActor later samples actor self.new }
        ensures last { self.new.handles.last ≡ self.old.handles.last }
    {
        self.handles.moves(from, to);
        self.life.hears(clear);
    }
}
