// The lines of a sample.
ghost use Rattle.std.specs.Prelude.{◌≡◌, ◌≤◌, ◌<◌, OnOk, codes};
ghost use Rattle.sample_script.specs.SampleScript.{class_name, property_name, join_line, own_line, spawn_at, spawn_lines, set_line, set_drawn, set_lines, view_at, view_line, actor_line, exchange_line};
ghost use Rattle.sample_script.specs.Writes.{Writes, Appends};

use crate::drawing::Sample;
use net_core::Memory;
use std::fmt::Write;

/// The class of an actor.
fn class_name(actor: u32) -> &'static str
    ensures { result.now ≡ class_name actor }
{
    match actor % 10 {
        0 => "Flag",
        1 => "Purse",
        _ => "Pawn",
    }
}

/// The property that is set of an actor, neither x nor y.
fn property_name(actor: u32) -> &'static str
    ensures { result.now ≡ property_name actor }
{
    match actor % 10 {
        0 => "score",
        1 => "gold",
        _ => "ammo",
    }
}

impl Sample {
    /// A player joins.
    pub(crate) fn join_line(&mut self, player: u32) -> Result<(), Memory>
        ensures { OnOk result (Appends (join_line player) self.old self.new) }
    {
        write!(self.text, "join {player} 20000\n")?;
        Ok(())
    }

    // One of the first 80 actors has an owner.
    fn own_line(&mut self, actor: u32) -> Result<(), Memory>
        requires { 1 ≤ actor }
        ensures { OnOk result (Appends (own_line actor) self.old self.new) }
    {
        if actor <= 80 {
            let player = (actor - 1) % 8 + 1;
            write!(self.text, "own {actor} {player}\n")?;
        }
        Ok(())
    }

    // An actor is spawned at a place.
    fn spawn_at(&mut self, actor: u32, x: i32, y: i32) -> Result<(), Memory>
        requires { 1 ≤ actor }
        ensures { OnOk result (Appends (spawn_at actor x y) self.old self.new) }
    {
        let class = class_name(actor);
        write!(self.text, "spawn {class} {x} {y}\n")?;
        self.own_line(actor)?;
        Ok(())
    }

    /// An actor is spawned.
    pub(crate) fn spawn_lines(&mut self, actor: u32) -> Result<(), Memory>
        requires { 1 ≤ actor }
        ensures { OnOk result (Writes (spawn_lines actor) self.old self.new) }
    {
        let x = self.place();
        let y = self.place();
        self.spawn_at(actor, x, y)?;
        Ok(())
    }

    fn set_line(&mut self, actor: u32, name: &str, value: i32) -> Result<(), Memory>
        ensures { OnOk result (Appends (set_line actor name.now value) self.old self.new) }
    {
        write!(self.text, "set {actor} {name} {value}\n")?;
        Ok(())
    }

    // A property of the actor, by a number from 0 to 3.
    fn set_drawn(&mut self, actor: u32, which: u32) -> Result<(), Memory>
        ensures { OnOk result (Writes (set_drawn actor which) self.old self.new) }
    {
        if which < 3 {
            let value = self.place();
            let name = if which == 2 { "y" } else { "x" };
            self.set_line(actor, name, value)?;
        } else {
            let value = self.draw(1000);
            self.set_line(actor, property_name(actor), value as i32)?;
        }
        Ok(())
    }

    /// Some property of some actor is set.
    pub(crate) fn set_lines(&mut self) -> Result<(), Memory>
        ensures { OnOk result (Writes set_lines self.old self.new) }
    {
        let actor = self.actor();
        let which = self.draw(4);
        self.set_drawn(actor, which)?;
        Ok(())
    }

    // A player looks from a place.
    fn view_at(&mut self, player: u32, x: i32, y: i32) -> Result<(), Memory>
        ensures { OnOk result (Appends (view_at player x y) self.old self.new) }
    {
        write!(self.text, "view {player} {x} {y}\n")?;
        Ok(())
    }

    /// Where a player looks from.
    pub(crate) fn view_line(&mut self, player: u32) -> Result<(), Memory>
        ensures { OnOk result (Writes (view_line player) self.old self.new) }
    {
        let x = self.place();
        let y = self.place();
        self.view_at(player, x, y)?;
        Ok(())
    }

    /// Some actor, after a word.
    pub(crate) fn actor_line(&mut self, word: &str) -> Result<(), Memory>
        ensures { OnOk result (Writes (actor_line word.now) self.old self.new) }
    {
        let actor = self.actor();
        write!(self.text, "{word} {actor}\n")?;
        Ok(())
    }

    /// The server ticks.
    pub(crate) fn tick_line(&mut self) -> Result<(), Memory>
        ensures { OnOk result (Appends (codes "tick\n") self.old self.new) }
    {
        self.text.push_str("tick\n")?;
        Ok(())
    }

    /// A player's packets both ways, but those whose number is a multiple.
    pub(crate) fn exchange_line(&mut self, player: u32, every: u32) -> Result<(), Memory>
        ensures { OnOk result (Appends (exchange_line every player) self.old self.new) }
    {
        write!(
            self.text,
            "downnew {player} {every}\nctick {player}\nupnew {player} {every}\n"
        )?;
        Ok(())
    }
}
