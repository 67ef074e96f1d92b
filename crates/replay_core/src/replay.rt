// The replay of lines, one after another.
ghost use Rattle.std.specs.Prelude.{◌≡◌, ◌⊎◌, ◌<◌, ◌≤◌, ◌^◌, ◌∷◌, ◌==◌, ◌++◌, [], map, option_map, Some, None, IfOk, OnOk, OnErr, IsErr, length, true, false};
ghost use Rattle.std.specs.Option.{option_copied};
ghost use Rattle.std.specs.List.{position};
ghost use Rattle.protocol_model.specs.Side.{AtClient};
ghost use Rattle.protocol_model.specs.Limits.{player_limit, budget_limit};
ghost use Rattle.script_model.specs.Lines as lines;
ghost use Rattle.replication_model.specs.Story.{Story, Player as PlayerStory, first_story, after_line, past_at};
ghost use Rattle.class_layout.specs.Tables.{table_in};
ghost use Rattle.value_codec.specs.Values.{arg_of};
ghost use Rattle.world_table.specs.Answers.{edit_of};
ghost use Rattle.actor_copies.specs.Copies.{copies_of, copy_value_of};
ghost use Rattle.net_driver.specs.Calls.{IsMade};
ghost use Rattle.script_lines.specs.LineOf.{line_of};
ghost use Rattle.script_lines.specs.ReportOf.{report_of};
ghost use Rattle.replay_places.specs.declared.place.Place.{Place as PlaceSpec};
ghost use Rattle.replay_core.specs.Stands.{Stands, IsSpent, IsThere, player_in};
ghost use Rattle.replay_core.specs.Lines.{line_player};
ghost use Rattle.following_laws.specs.Following.{MayJoin};
ghost use Rattle.replay_core.specs.May.{May, MayDo};
ghost use Rattle.replay_core.specs.Settled.{settled_count};

use crate::both::do_line;
use crate::joining::add_place;
use crate::server::{call_each, keep_all, tick};
use crate::settling::{settled_pairs, spawned};
use crate::telling::{player_of, tell_actor};
use actor_copies::CopyList;
use class_layout::{Arg, Classes};
use net_core::{Guid, Items, Memory, Player};
use net_driver::Driver;
use protocol_model::Version;
use replay_places::Place;
use script_lines::{Event, EventList, Line};
use std::alloc::Global;
use std::marker::{Brand, Model};
use std::sync::ledger::Blank;
use world_table::Edit;

/// A server and its players' clients, after some lines.
///
/// It keeps the allocator that later calls grow it in.
#[derive(Drop)]
pub struct Replay<'a> {
    alloc: Global,
    classes: &'a Classes,
    driver: Driver<'a>,
    places: Vec<Place<'a>>,
    spent: bool,
}

impl<'a> Model for Replay<'a> {
    ghost use Rattle.replay_core.specs.Kept.{Kept};

    ghost Value = { Kept };

    ghost view = { λ r. record {
      layout = r.classes.now;
      driver = r.driver;
      places = r.places.items;
      spent = r.spent;
    } };
}

impl<'a> Replay<'a> {
    /// Before the first line.
    pub fn new(alloc: Global, classes: &'a Classes) -> Result<Replay<'a>, Memory>
        ensures stands { IfOk result (λ r. Stands r first_story) }
        ensures layout { IfOk result (λ r. r.layout ≡ classes.now) }
    {
        let driver = Driver::new(alloc, classes)?;
        Ok(Replay {
            alloc,
            classes,
            driver,
            places: Vec::new(alloc),
            spent: false,
        })
    }

    /// Does a line that may follow those before it, and answers what it tells. After `Memory` the
    /// replay is spent, and answers `Memory` to each line.
    pub fn step(&mut self, line: &Line) -> Result<EventList, Memory>
        requires { IsSpent self.old
            ⊎ ((story : Story) × Stands self.old story × May self.old.layout story line.now) }
        ensures told { IfOk result (λ events. (story : Story) → Stands self.old story
            → map (report_of (table_in self.old.layout)) events
            ≡ (after_line (table_in self.old.layout) story (line_of line.now)).1) }
        ensures stands { OnOk result ((story : Story) → Stands self.old story
            → Stands self.new
            (after_line (table_in self.old.layout) story (line_of line.now)).0) }
        ensures spent { OnErr result (IsSpent self.new) }
        ensures after { IsSpent self.old → IsErr result }
        ensures layout { self.new.layout ≡ self.old.layout }
    {
        if self.spent {
            return Err(Memory);
        }
        match self.advance(line) {
            Ok(events) => Ok(events),
            Err(_) => {
                self.spent = true;
                Err(Memory)
            }
        }
    }

    /// The copies of a player's client; `None` exactly where the player didn't join.
    pub fn copies(&self, player: Player) -> Option<&CopyList>
        ensures { (story : Story) → Stands self.now story
            → option_map (map (copy_value_of self.now.layout)) (option_copied result)
            ≡ option_map (λ (p : PlayerStory).
            copies_of (past_at (table_in self.now.layout) AtClient p))
            (player_in story.players player) }
    {
        let i = self.seat(player)?;
        Some(self.places[i].client.copies())
    }

    /// How many pairs of a player and an actor are settled: nothing of the actor is left to send to
    /// the player, and all that was sent has arrived. `Memory` changes nothing.
    pub fn settled_count(&self) -> Result<u32, Memory>
        requires { (story : Story) × Stands self.now story }
        ensures { IfOk result (λ count. (story : Story) → Stands self.now story
            → count ≡ settled_count (table_in self.now.layout) story) }
    {
        let spawned = spawned::<Brand>(&self.driver, Blank::new(1))?;
        let count = settled_pairs(&self.driver, self.places.as_slice(), spawned)?;
        Ok(count)
    }

    /// Does a line, and answers what it tells. After `Memory` it may be done in part.
    fn advance(&mut self, line: &Line) -> Result<EventList, Memory>
        requires { (story : Story) × Stands self.old story × May self.old.layout story line.now }
        ensures told { IfOk result (λ events. (story : Story) → Stands self.old story
            → map (report_of (table_in self.old.layout)) events
            ≡ (after_line (table_in self.old.layout) story (line_of line.now)).1) }
        ensures stands { OnOk result ((story : Story) → Stands self.old story
            → Stands self.new
            (after_line (table_in self.old.layout) story (line_of line.now)).0) }
        ensures layout { self.new.layout ≡ self.old.layout }
    {
        match player_of(line) {
            Some(player) => self.player_line(player, line),
            None => self.world_line(line),
        }
    }

    /// The place of a player.
    fn seat(&self, player: Player) -> Option<usize>
        ensures { result ≡ position (λ (k : PlaceSpec). k.player == player) self.now.places }
    {
        self.places.iter().position(|k| k.player == player)
    }

    /// Does a line of a player who is there.
    fn player_line(&mut self, player: Player, line: &Line) -> Result<EventList, Memory>
        requires whose { line_player (line_of line.now) ≡ Some player }
        requires stands { (story : Story) × Stands self.old story
            × IsThere story.players player × MayDo self.old.layout story.edits line.now }
        ensures told { IfOk result (λ events. (story : Story) → Stands self.old story
            → map (report_of (table_in self.old.layout)) events
            ≡ (after_line (table_in self.old.layout) story (line_of line.now)).1) }
        ensures stands { OnOk result ((story : Story) → Stands self.old story
            → Stands self.new
            (after_line (table_in self.old.layout) story (line_of line.now)).0) }
        ensures layout { self.new.layout ≡ self.old.layout }
    {
        let mut events = Items::new(self.alloc);
        let Some(i) = self.seat(player) else {
            return Ok(events);
        };
        do_line(
            self.alloc,
            &mut self.driver,
            &mut self.places[i],
            line,
            &mut events,
        )?;
        Ok(events)
    }

    /// Does a line that is no single player's.
    fn world_line(&mut self, line: &Line) -> Result<EventList, Memory>
        requires whose { line_player (line_of line.now) ≡ None }
        requires stands { (story : Story) × Stands self.old story
            × May self.old.layout story line.now }
        ensures told { IfOk result (λ events. (story : Story) → Stands self.old story
            → map (report_of (table_in self.old.layout)) events
            ≡ (after_line (table_in self.old.layout) story (line_of line.now)).1) }
        ensures stands { OnOk result ((story : Story) → Stands self.old story
            → Stands self.new
            (after_line (table_in self.old.layout) story (line_of line.now)).0) }
        ensures layout { self.new.layout ≡ self.old.layout }
    {
        match line {
            Line::Join {
                player,
                budget,
                version,
            } => self.join(*player, *budget, *version),
            Line::Edit(e) => self.edit(*e),
            Line::Multi { actor, call, args } => self.multicast(*actor, *call, args.as_slice()),
            _ => self.tick(),
        }
    }

    /// A player joins.
    fn join(&mut self, player: Player, budget: u32, version: Version) -> Result<EventList, Memory>
        requires { (story : Story) × Stands self.old story × MayJoin story.players player budget }
        ensures told { IfOk result (λ events. (story : Story) → Stands self.old story
            → map (report_of (table_in self.old.layout)) events
            ≡ (after_line (table_in self.old.layout) story (lines.Join player budget version)).1) }
        ensures stands { OnOk result ((story : Story) → Stands self.old story
            → Stands self.new
            (after_line (table_in self.old.layout) story (lines.Join player budget version)).0) }
        ensures layout { self.new.layout ≡ self.old.layout }
    {
        let mut events = Items::new(self.alloc);
        let Ok(()) = self.driver.join(player, budget, version) else {
            return Err(Memory);
        };
        let place = Place::new(self.alloc, self.classes, player, version)?;
        add_place(&mut self.places, place)?;
        events.push(Event::Joined { player })?;
        Ok(events)
    }

    /// The world changes.
    fn edit(&mut self, e: Edit) -> Result<EventList, Memory>
        requires { (story : Story) × Stands self.old story × (length story.edits < 2 ^ 61) }
        ensures told { IfOk result (λ events. (story : Story) → Stands self.old story
            → map (report_of (table_in self.old.layout)) events
            ≡ (after_line (table_in self.old.layout) story (lines.ApplyEdit (edit_of e))).1) }
        ensures stands { OnOk result ((story : Story) → Stands self.old story
            → Stands self.new
            (after_line (table_in self.old.layout) story (lines.ApplyEdit (edit_of e))).0) }
        ensures layout { self.new.layout ≡ self.old.layout }
    {
        let Ok(spawned) = self.driver.edit(e) else {
            return Err(Memory);
        };
        let events = tell_actor(self.alloc, spawned)?;
        Ok(events)
    }

    /// The server ticks.
    fn tick(&mut self) -> Result<EventList, Memory>
        requires { (story : Story) × Stands self.old story }
        ensures told { IfOk result (λ events. (story : Story) → Stands self.old story
            → map (report_of (table_in self.old.layout)) events
            ≡ (after_line (table_in self.old.layout) story lines.TickAll).1) }
        ensures stands { OnOk result ((story : Story) → Stands self.old story
            → Stands self.new (after_line (table_in self.old.layout) story lines.TickAll).0) }
        ensures layout { self.new.layout ≡ self.old.layout }
    {
        let mut events = Items::new(self.alloc);
        let ticks = tick::<Brand>(&mut self.driver, Blank::new(1))?;
        keep_all(self.alloc, &mut self.places, ticks, &mut events)?;
        Ok(events)
    }

    /// The server makes a call to each player.
    fn multicast(&mut self, actor: Guid, call: u16, args: &[Arg]) -> Result<EventList, Memory>
        requires { (story : Story) × Stands self.old story
            × IsMade (table_in self.old.layout) story.edits actor call args.now }
        ensures told { IfOk result (λ events. (story : Story) → Stands self.old story
            → map (report_of (table_in self.old.layout)) events
            ≡ (after_line (table_in self.old.layout) story
            (lines.CallAll actor call (map arg_of args.now))).1) }
        ensures stands { OnOk result ((story : Story) → Stands self.old story
            → Stands self.new (after_line (table_in self.old.layout) story
            (lines.CallAll actor call (map arg_of args.now))).0) }
        ensures layout { self.new.layout ≡ self.old.layout }
    {
        let mut events = Items::new(self.alloc);
        call_each(
            &mut self.driver,
            self.places.as_slice(),
            actor,
            call,
            args,
            &mut events,
        )?;
        Ok(events)
    }
}
