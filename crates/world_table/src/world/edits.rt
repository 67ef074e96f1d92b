// One method for each kind of edit, or for each that changes the same part of what is kept. Each goes
// along with its edit and answers as `apply` does.
ghost use Rattle.std.specs.Prelude.{◌≡◌, ◌^◌, ◌<◌, length, OnErr};
ghost use Rattle.protocol_model.specs.World.{Edits};
ghost use Rattle.world_table.specs.RecordChanges.{change_edit};
ghost use Rattle.world_table.specs.Stands.{Stands};
ghost use Rattle.world_table.specs.Taking.{Answers, GoesAlong};

use super::World;
use crate::actor::{
    Actor, cell_place, holds_alike, living, push_cells, put_moved, put_record, put_switch,
    put_value,
};
use crate::change::{Change, changed, is_player};
use crate::edit::{Edit, EditRefusal, Look};
use crate::handles::{is_custom, settable_kind};
use crate::seat::{Seat, put_seat, seat_for};
use class_layout::{Value, fits};
use net_core::{Guid, Handle, Player};
use protocol_model::limits::{SPAWN_LIMIT, TEAM_LIMIT};

impl<'a> World<'a> {
    /// Takes an edit by its kind. It stays out of the way of `apply`, which looks for a `Set` first.
    #[inline(never)]
    pub(super) fn take(&mut self, e: Edit) -> Result<Option<Guid>, EditRefusal>
        requires { (edits : Edits) × Stands self.old edits × (length edits < 2 ^ 61) }
        ensures stands { GoesAlong self.old e self.new result }
        ensures answer { Answers self.old e result }
        ensures err { OnErr result (self.new ≡ self.old) }
        ensures table { self.new.layout ≡ self.old.layout }
    {
        match e {
            Edit::Spawn { class, x, y } => self.spawn(class, x, y),
            Edit::Destroy { actor } => self.change(actor, Change::End),
            Edit::Set { actor, prop, value } => self.set(actor, prop, value),
            Edit::Own { actor, player } => self.change(actor, Change::Owner(player)),
            Edit::View { player, x, y } => self.view(player, x, y),
            Edit::Add { actor, player, on } => self.add(actor, player, on),
            Edit::Dormant { actor } => self.change(actor, Change::Dormant(true)),
            Edit::Wake { actor } => self.change(actor, Change::Dormant(false)),
            Edit::Flush { actor } => self.change(actor, Change::Flush),
            Edit::Switch { actor, prop, on } => self.switch(actor, prop, on),
            Edit::Team { player, team } => self.set_team(player, team),
            Edit::Give { actor, team } => self.change(actor, Change::Given(team)),
        }
    }

    /// A new actor, with a cell for each property of its class.
    fn spawn(&mut self, class: u16, x: i32, y: i32) -> Result<Option<Guid>, EditRefusal>
        ensures stands { GoesAlong self.old (Edit.Spawn class x y) self.new result }
        ensures answer { Answers self.old (Edit.Spawn class x y) result }
        ensures err { OnErr result (self.new ≡ self.old) }
        ensures table { self.new.layout ≡ self.old.layout }
    {
        let Some(found) = self.classes.class(class) else {
            return Err(EditRefusal::OutOfRange);
        };
        if self.actors.len() >= SPAWN_LIMIT {
            return Err(EditRefusal::ActorsFull);
        }
        let first = self.cells.len();
        push_cells(&mut self.cells, found.props.as_slice())?;
        let past = self.cells.len();
        let look = Look {
            class,
            alive: true,
            x,
            y,
            owner: None,
            dormant: false,
            flush: 0,
        };
        let kept = Actor {
            look,
            given: 0,
            first,
            past,
        };
        match self.actors.push(kept) {
            Ok(()) => Ok(Some(Guid(2 * self.actors.len() as u32))),
            Err(_) => {
                self.cells.truncate(first);
                Err(EditRefusal::Memory)
            }
        }
    }

    /// A change of a living actor's record; a world takes fewer than 2^61 edits, so its flushes fit.
    fn change(&mut self, actor: Guid, change: Change) -> Result<Option<Guid>, EditRefusal>
        requires { (edits : Edits) × Stands self.old edits × (length edits < 2 ^ 61) }
        ensures stands { GoesAlong self.old (change_edit actor change) self.new result }
        ensures answer { Answers self.old (change_edit actor change) result }
        ensures err { OnErr result (self.new ≡ self.old) }
        ensures table { self.new.layout ≡ self.old.layout }
    {
        let Some(kept) = living(&self.actors, actor) else {
            return Err(EditRefusal::NoActor);
        };
        let after = changed(kept, change)?;
        put_record(&mut self.actors, actor, after);
        Ok(None)
    }

    /// A value over one with its tag, as most are: what is there fits the property's kind, so this one
    /// does, and the class isn't asked. Any other value goes by its kind.
    pub(super) fn set(
        &mut self,
        actor: Guid,
        prop: Handle,
        value: Value,
    ) -> Result<Option<Guid>, EditRefusal>
        requires { (edits : Edits) × Stands self.old edits }
        ensures stands { GoesAlong self.old (Edit.Set actor prop value) self.new result }
        ensures answer { Answers self.old (Edit.Set actor prop value) result }
        ensures err { OnErr result (self.new ≡ self.old) }
        ensures table { self.new.layout ≡ self.old.layout }
    {
        // Called for its fact alone, as in `value`: each cell holds a value of its property's kind.
        self.classes.keeps_rules();
        let Some(kept) = living(&self.actors, actor) else {
            return Err(EditRefusal::NoActor);
        };
        if let Some(place) = cell_place(kept, prop) {
            if holds_alike(&self.cells, place, value) {
                put_value(&mut self.cells, place, value);
                return Ok(None);
            }
        }
        self.set_by_kind(actor, prop, value)
    }

    /// A value of its property's kind: in its cell, written by its place; one of x or y in the record.
    /// It stays out of the way of `set`, which is then shorter.
    #[inline(never)]
    fn set_by_kind(
        &mut self,
        actor: Guid,
        prop: Handle,
        value: Value,
    ) -> Result<Option<Guid>, EditRefusal>
        requires { (edits : Edits) × Stands self.old edits }
        ensures stands { GoesAlong self.old (Edit.Set actor prop value) self.new result }
        ensures answer { Answers self.old (Edit.Set actor prop value) result }
        ensures err { OnErr result (self.new ≡ self.old) }
        ensures table { self.new.layout ≡ self.old.layout }
    {
        let Some(kept) = living(&self.actors, actor) else {
            return Err(EditRefusal::NoActor);
        };
        let Some(kind) = settable_kind(self.classes, kept.look.class, prop) else {
            return Err(EditRefusal::OutOfRange);
        };
        if !fits(kind, value) {
            return Err(EditRefusal::OutOfRange);
        }
        if let Some(place) = cell_place(kept, prop) {
            put_value(&mut self.cells, place, value);
            return Ok(None);
        }
        put_moved(&mut self.actors, actor, prop, value);
        Ok(None)
    }

    /// Where a player looks from.
    fn view(&mut self, player: Player, x: i32, y: i32) -> Result<Option<Guid>, EditRefusal>
        ensures stands { GoesAlong self.old (Edit.View player x y) self.new result }
        ensures answer { Answers self.old (Edit.View player x y) result }
        ensures err { OnErr result (self.new ≡ self.old) }
        ensures table { self.new.layout ≡ self.old.layout }
    {
        if !is_player(player) {
            return Err(EditRefusal::OutOfRange);
        }
        let team = seat_for(&self.seats, player).team;
        put_seat(&mut self.seats, player, Seat { x, y, team })?;
        Ok(None)
    }

    /// A pair that is added or taken away.
    fn add(&mut self, actor: Guid, player: Player, on: bool) -> Result<Option<Guid>, EditRefusal>
        ensures stands { GoesAlong self.old (Edit.Add actor player on) self.new result }
        ensures answer { Answers self.old (Edit.Add actor player on) result }
        ensures err { OnErr result (self.new ≡ self.old) }
        ensures table { self.new.layout ≡ self.old.layout }
    {
        if living(&self.actors, actor).is_none() {
            return Err(EditRefusal::NoActor);
        }
        if !is_player(player) {
            return Err(EditRefusal::OutOfRange);
        }
        self.added.put(actor, player, on)?;
        Ok(None)
    }

    /// A switch in its cell.
    fn switch(&mut self, actor: Guid, prop: Handle, on: bool) -> Result<Option<Guid>, EditRefusal>
        requires { (edits : Edits) × Stands self.old edits }
        ensures stands { GoesAlong self.old (Edit.Switch actor prop on) self.new result }
        ensures answer { Answers self.old (Edit.Switch actor prop on) result }
        ensures err { OnErr result (self.new ≡ self.old) }
        ensures table { self.new.layout ≡ self.old.layout }
    {
        let Some(kept) = living(&self.actors, actor) else {
            return Err(EditRefusal::NoActor);
        };
        let Some(place) = cell_place(kept, prop) else {
            return Err(EditRefusal::OutOfRange);
        };
        if !is_custom(self.classes, kept.look.class, prop) {
            return Err(EditRefusal::OutOfRange);
        }
        put_switch(&mut self.cells, place, on);
        Ok(None)
    }

    /// A player's team.
    fn set_team(&mut self, player: Player, team: u8) -> Result<Option<Guid>, EditRefusal>
        ensures stands { GoesAlong self.old (Edit.Team player team) self.new result }
        ensures answer { Answers self.old (Edit.Team player team) result }
        ensures err { OnErr result (self.new ≡ self.old) }
        ensures table { self.new.layout ≡ self.old.layout }
    {
        if !is_player(player) || team > TEAM_LIMIT {
            return Err(EditRefusal::OutOfRange);
        }
        let Seat { x, y, .. } = seat_for(&self.seats, player);
        put_seat(&mut self.seats, player, Seat { x, y, team })?;
        Ok(None)
    }
}
