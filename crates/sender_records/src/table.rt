// The handles of one actor that is open.
ghost use Rattle.std.specs.Prelude.{◌≡◌, ◌≢◌, ◌⊎◌, ◌≤◌, ◌<◌, ◌∷◌, ◌++◌, ◌&&◌, ◌==◌, [], ℕ, ℤ, List, map, length, true, false, Some, None, OnOk, OnErr, IsOk};
ghost use Rattle.std.specs.List.{list_any};
ghost use Rattle.protocol_model.specs.Value.{Class as ClassSpec, Pair as PairSpec, Segment as SegmentSpec, value_among};
ghost use Rattle.protocol_model.specs.Packet.{Bunch};
ghost use Rattle.protocol_model.specs.Payload.{Opens, Updates};
ghost use Rattle.change_model.specs.Changes.{Sample, changes_since};
ghost use Rattle.class_layout.specs.Tables.{class_of};
ghost use Rattle.class_layout.specs.declared.class.Segment.{Segment};
ghost use Rattle.shadow_changes.specs.Samples.{change_value};
ghost use Rattle.connection_model.specs.Feed.{Past, Deed, Item, tick_count};
ghost use Rattle.connection_model.specs.Fates.{high_of};
ghost use Rattle.connection_model.specs.Bunches.{after_making};
ghost use Rattle.connection_model.specs.State.{state_of, is_opened};
ghost use Rattle.connection_model.specs.Carry.{is_due_pair, is_carried};
ghost use Rattle.connection_model.specs.Items.{is_update_of};
ghost use Rattle.sender_laws.specs.Acts.{MovesTo, are_sent, sent_more};
ghost use Rattle.sender_laws.specs.Items.{has_update};
ghost use Rattle.sender_laws.specs.Values.{AreInTurn, IsCurrent};
ghost use Rattle.sender_records.specs.Handles.{no_handles, handle_in, pair_value, pairs_of, KeepsHandles, AreApart, AreNewest, AllBelow, Agrees, IsSampled, is_updatable_in};

use crate::handle::HandleRecord;
use crate::values::{
    carry_all, compare_all, forget_all, grow, mark_all, move_all, newest, open_all, record_at,
};
use class_layout::{Class, Pair};
use net_core::{Handle, Memory};
use shadow_changes::Change;
use std::alloc::Global;
use std::marker::Model;

/// The handles of one actor that is open, by number.
///
/// A comparison marks what is due: it looks at the handles that changed since the one before, at
/// those that are marked, at those that no update could hold then, and at the role, which isn't
/// sampled. Memory is taken for handles above all before, and for nothing else.
#[derive(Drop)]
pub struct HandleTable {
    compared: u64,
    last: u64,
    handles: Vec<HandleRecord>,
}

impl Model for HandleTable {
    ghost use Rattle.sender_records.specs.Handles.{HandlesKept};

    ghost Value = { HandlesKept };

    ghost view = { λ t. record
        { compared = t.compared; last = t.last; handles = t.handles.items } };
}

impl HandleTable {
    /// Nothing is known of any handle.
    pub fn new(alloc: Global) -> HandleTable
        ensures { result ≡ no_handles }
    {
        HandleTable {
            compared: 0,
            last: 0,
            handles: Vec::new(alloc),
        }
    }

    /// The tick above which changes are to be asked for: each one up to it was looked at.
    pub fn compared(&self) -> u64
        ensures { result ≡ self.now.compared }
    {
        self.compared
    }

    /// The tick of the open or of the last comparison.
    pub fn last(&self) -> u64
        ensures { result ≡ self.now.last }
    {
        self.last
    }

    /// An open with these values is made in this tick, below packets without an update of the
    /// actor; they were sampled at the tick `sampled`. `Memory` changes nothing.
    pub fn opens(
        &mut self,
        tick: u64,
        class: &Class,
        owns: bool,
        values: &[Pair],
        sampled: u64,
    ) -> Result<(), Memory>
        requires { 1 ≤ tick }
        ensures keeps { OnOk result ((sent past : Past) (channel actor : ℕ)
            (exports : List SegmentSpec) (shown : ClassSpec) (samples : List Sample)
            → are_sent sent ≡ true → has_update actor sent ≡ false → tick ≡ tick_count past
            → AreNewest samples sampled values.now → AreInTurn samples
            → KeepsHandles (sent ++ after_making past channel
            (Opens exports actor shown (pairs_of values.now))) samples actor self.new) }
        ensures last { OnOk result (self.new.last ≡ tick) }
        ensures ok { AllBelow (length self.old.handles) values.now → IsOk result }
        ensures err { OnErr result (self.new ≡ self.old) }
    {
        grow(&mut self.handles, values)?;
        forget_all(&mut self.handles);
        open_all(&mut self.handles, tick, class, owns, values);
        self.compared = sampled;
        self.last = tick;
        Ok(())
    }

    /// Compares these values in a later tick than the last comparison's; the changes are those of
    /// the actor since the tick `compared`. The handles that are marked after it are those that are
    /// due. `Memory` changes nothing.
    pub fn compares(
        &mut self,
        tick: u64,
        class: &Class,
        owns: bool,
        values: &[Pair],
        changes: &[Change],
    ) -> Result<(), Memory>
        requires { self.old.last < tick }
        ensures keeps { OnOk result ((past : Past) (actor : ℕ) (samples : List Sample)
            → KeepsHandles past samples actor self.old → tick ≡ tick_count past
            → IsSampled samples self.old.compared values.now changes.now → AreInTurn samples
            → KeepsHandles past samples actor self.new) }
        ensures current { OnOk result ((samples : List Sample) → AreInTurn samples
            → map change_value changes.now ≡ changes_since samples self.old.compared
            → IsCurrent samples self.new.compared) }
        ensures due { OnOk result ((past : Past) (actor : ℕ) (samples : List Sample)
            (segments : List Segment) (h : ℕ) (v : ℤ) → KeepsHandles past samples actor self.old
            → IsSampled samples self.old.compared values.now changes.now
            → value_among (pairs_of values.now) h ≡ Some v
            → is_updatable_in (class_of segments class.now) owns h ≡ true
            → is_due_pair past actor (record { handle = h; value = v })
            ≡ (handle_in self.new.handles h).marked) }
        ensures room { OnOk result (AllBelow (length self.new.handles) values.now) }
        ensures last { OnOk result (self.new.last ≡ tick) }
        ensures packets { OnOk result (AreApart (pairs_of values.now) → (h : ℕ)
            → (handle_in self.new.handles h).packet ≡ (handle_in self.old.handles h).packet) }
        ensures ok { AllBelow (length self.old.handles) values.now → IsOk result }
        ensures err { OnErr result (self.new ≡ self.old) }
    {
        grow(&mut self.handles, values)?;
        mark_all(&mut self.handles, changes);
        compare_all(&mut self.handles, self.last, tick, class, owns, values);
        self.compared = newest(self.compared, changes);
        self.last = tick;
        Ok(())
    }

    /// The handle is marked.
    pub fn is_marked(&self, prop: Handle) -> bool
        ensures { result ≡ (handle_in self.now.handles prop).marked }
    {
        record_at(&self.handles, prop).marked
    }

    /// An update with these values, which were compared in this tick, goes into a packet that holds
    /// no other update of the actor and whose number is above each that moved.
    pub fn carries(&mut self, packet: u64, values: &[Pair])
        requires { AllBelow (length self.old.handles) values.now }
        ensures keeps { (t : ℕ) (items : List Item) (class : ClassSpec) (bunch : Bunch)
            (past : Past) (actor : ℕ) (samples : List Sample)
            → KeepsHandles (Deed.Sent packet t items ∷ past) samples actor self.old
            → list_any (is_update_of actor) items ≡ false → high_of past < packet
            → AreApart (pairs_of values.now) → Agrees samples (pairs_of values.now)
            → IsCurrent samples self.old.compared
            → KeepsHandles (sent_more packet t items
            (Item.Loose (Updates actor class (pairs_of values.now)) bunch) past)
            samples actor self.new }
        ensures packets { AreApart (pairs_of values.now) → (h : ℕ)
            → ((handle_in self.new.handles h).packet ≡ packet)
            ⊎ ((handle_in self.new.handles h).packet ≡ (handle_in self.old.handles h).packet) }
        ensures last { self.new.last ≡ self.old.last }
    {
        carry_all(&mut self.handles, packet, values);
    }

    /// Packet `to` arrived, and those above `from` and below it are lost. Once more it changes
    /// nothing.
    pub fn moves(&mut self, from: u64, to: u64)
        ensures keeps { (past later : Past) (actor : ℕ) (samples : List Sample)
            → KeepsHandles past samples actor self.old → MovesTo from to past later
            → KeepsHandles later samples actor self.new }
        ensures again { (past later : Past) (actor : ℕ) (samples : List Sample)
            → KeepsHandles later samples actor self.old → MovesTo from to past later
            → KeepsHandles later samples actor self.new }
        ensures last { self.new.last ≡ self.old.last }
        ensures packets { (h : ℕ) → (handle_in self.new.handles h).packet
            ≡ (handle_in self.old.handles h).packet }
    {
        move_all(&mut self.handles, from, to);
    }

    /// The handle was carried with this value, and that has arrived; `opened` says whether the
    /// actor's open has.
    pub fn has_arrived(&self, pair: &Pair, opened: bool) -> bool
        ensures { (past : Past) (actor : ℕ) (samples : List Sample)
            → KeepsHandles past samples actor self.now → is_opened (state_of past actor) ≡ opened
            → result ≡ is_carried past actor (pair_value pair.now) }
    {
        record_at(&self.handles, pair.prop).has_arrived(opened, pair.value)
    }
}
