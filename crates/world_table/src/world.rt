// The world: what it keeps, and what it answers.
ghost use Rattle.std.specs.Prelude.{◌≡◌, ◌+◌, ◌^◌, ◌<◌, ◌↔◌, ◌∷◌, [], length, Some, None, IfOk, OnOk, OnErr, IsErrOf, IfSome, IsTrue, option_map};
ghost use Rattle.std.specs.Option.{option_copied};
ghost use Rattle.protocol_model.specs.Value.{prop_at, Prop as PropSpec};
ghost use Rattle.protocol_model.specs.World as refusal;
ghost use Rattle.protocol_model.specs.World.{Edits, class_of, viewer_of, is_added, team_of, given_of};
ghost use Rattle.class_layout.specs.Tables.{table_in};
ghost use Rattle.value_codec.specs.Values.{whole_of, value_fits};
ghost use Rattle.world_table.specs.Answers.{edit_of, look_of, named_value, is_switched, refusal_in, spawned_guid};
ghost use Rattle.world_table.specs.Kept.{actor_at};
ghost use Rattle.world_table.specs.Stands.{Stands};

use crate::actor::{Actor, Cell, record_at, switch_for, value_for};
use crate::added::Added;
use crate::edit::{Edit, EditRefusal, Look};
use crate::seat::{Seat, seat_for};
use class_layout::{Classes, Value};
use net_core::{Guid, Handle, Player, Steps};
use std::alloc::Global;
use std::marker::Model;
use std::sync::ledger::Ledger;

mod edits;

/// The actors and players of a server, as the edits so far left them.
#[derive(Drop)]
pub struct World<'a> {
    classes: &'a Classes,
    actors: Vec<Actor>,
    cells: Vec<Cell>,
    seats: Vec<Seat>,
    added: Added,
}

impl<'a> Model for World<'a> {
    ghost use Rattle.world_table.specs.Kept.{Kept};

    ghost Value = { Kept };

    ghost view = { λ w. record {
      layout = w.classes.now;
      actors = w.actors.items;
      cells = w.cells.items;
      seats = w.seats.items;
      added = w.added;
    } };
}

impl<'a> World<'a> {
    /// A world without actors over these classes; later calls grow it in this allocator.
    pub fn new(alloc: Global, classes: &'a Classes) -> World<'a>
        ensures stands { Stands result [] }
        ensures classes { result.layout ≡ classes.now }
    {
        World {
            classes,
            actors: Vec::new(alloc),
            cells: Vec::new(alloc),
            seats: Vec::new(alloc),
            added: Added::new(alloc),
        }
    }

    /// The classes that the world borrows.
    pub fn classes(&self) -> &'a Classes
        ensures { result.now ≡ self.now.layout }
    {
        self.classes
    }

    /// Takes an edit. `Ok` holds the guid of the actor that it spawned, 2n for the n-th spawn, and
    /// nothing for another edit. A refused edit leaves the world as it was.
    ///
    /// `NoActor` comes exactly where the actor that it names was never spawned or is destroyed, else
    /// `OutOfRange` exactly where the class isn't in the table, the player isn't 1 to 1,000, the team
    /// is above 64, the property can't be set (for a switch: isn't a custom one), or the value isn't
    /// one of its kind; else `ActorsFull` exactly at a spawn after 8,192. `Memory` comes only where
    /// the edit would be taken.
    pub fn apply(&mut self, e: Edit) -> Result<Option<Guid>, EditRefusal>
        requires { (edits : Edits) × Stands self.old edits × (length edits < 2 ^ 61) }
        ensures stands { OnOk result ((edits : Edits) → Stands self.old edits
            → Stands self.new (edit_of e ∷ edits)) }
        ensures guid { (edits : Edits) → Stands self.old edits
            → IfOk result (λ guid. guid ≡ spawned_guid edits e) }
        ensures no_actor { (edits : Edits) → Stands self.old edits
            → (IsErrOf result EditRefusal.NoActor
            ↔ (refusal_in (table_in self.old.layout) edits e ≡ Some refusal.NoActor)) }
        ensures out_of_range { (edits : Edits) → Stands self.old edits
            → (IsErrOf result EditRefusal.OutOfRange
            ↔ (refusal_in (table_in self.old.layout) edits e ≡ Some refusal.OutOfRange)) }
        ensures actors_full { (edits : Edits) → Stands self.old edits
            → (IsErrOf result EditRefusal.ActorsFull
            ↔ (refusal_in (table_in self.old.layout) edits e ≡ Some refusal.ActorsFull)) }
        ensures memory { (edits : Edits) → Stands self.old edits
            → IsErrOf result EditRefusal.Memory
            → refusal_in (table_in self.old.layout) edits e ≡ None }
        ensures err { OnErr result (self.new ≡ self.old) }
        ensures table { self.new.layout ≡ self.old.layout }
    {
        // Most edits set a value, so this one is looked for first.
        if let Edit::Set { actor, prop, value } = e {
            return self.set(actor, prop, value);
        }
        self.take(e)
    }

    /// How an actor stands; `None` exactly where it was never spawned. It takes one step.
    pub fn look<L: Ledger>(&self, actor: Guid, steps: &mut Steps<L>) -> Option<Look>
        ensures look { (edits : Edits) → Stands self.now edits
            → result ≡ look_of (table_in self.now.layout) edits actor }
        ensures step { steps.new ≡ steps.old + 1 }
    {
        let kept = self.find(actor, steps)?;
        Some(kept.look)
    }

    /// The value of a property; `None` exactly where the actor was never spawned or the property
    /// can't be set: it is 0, the role, or past the class's last. It takes one step.
    pub fn value<L: Ledger>(&self, actor: Guid, prop: Handle, steps: &mut Steps<L>) -> Option<Value>
        ensures value { (edits : Edits) → Stands self.now edits → option_map whole_of result
            ≡ named_value (table_in self.now.layout) edits actor prop }
        ensures fits { (edits : Edits) (p : PropSpec) → Stands self.now edits
            → prop_at (class_of (table_in self.now.layout) edits actor) prop ≡ Some p
            → IfSome result (λ v. IsTrue (value_fits p.kind v)) }
        ensures step { steps.new ≡ steps.old + 1 }
    {
        // Called for its fact alone: the classes keep their rules, so each cell holds a value of its
        // property's kind.
        self.classes.keeps_rules();
        let kept = self.find(actor, steps)?;
        value_for(&self.cells, kept, prop)
    }

    /// Where a player looks from, (0, 0) at first.
    pub fn viewer(&self, player: Player) -> (i32, i32)
        ensures { (edits : Edits) → Stands self.now edits → result ≡ viewer_of edits player }
    {
        let seat = seat_for(&self.seats, player);
        (seat.x, seat.y)
    }

    /// The actor is added for the player.
    pub fn added(&self, actor: Guid, player: Player) -> bool
        ensures { (edits : Edits) → Stands self.now edits → result ≡ is_added edits actor player }
    {
        self.added.contains(actor, player)
    }

    /// The switch of a custom property is on; false for a property that isn't custom and for an
    /// actor that was never spawned.
    pub fn switched(&self, actor: Guid, prop: Handle) -> bool
        ensures { (edits : Edits) → Stands self.now edits
            → result ≡ is_switched (table_in self.now.layout) edits actor prop }
    {
        switch_for(&self.actors, &self.cells, actor, prop)
    }

    /// A player's team, 0 for none.
    pub fn team(&self, player: Player) -> u8
        ensures { (edits : Edits) → Stands self.now edits → result ≡ team_of edits player }
    {
        seat_for(&self.seats, player).team
    }

    /// The team that an actor is given to, 0 for none.
    pub fn given(&self, actor: Guid) -> u8
        ensures { (edits : Edits) → Stands self.now edits → result ≡ given_of edits actor }
    {
        match record_at(&self.actors, actor) {
            Some(kept) => kept.given,
            None => 0,
        }
    }

    /// The record of an actor, found in one step.
    fn find<L: Ledger>(&self, actor: Guid, steps: &mut Steps<L>) -> Option<&Actor>
        ensures found { option_copied result ≡ actor_at self.now.actors actor }
        ensures step { steps.new ≡ steps.old + 1 }
    {
        steps.tick();
        record_at(&self.actors, actor)
    }
}
