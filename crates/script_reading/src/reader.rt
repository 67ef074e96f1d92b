// Lines, each judged by those before it.
ghost use Rattle.std.specs.Prelude.{◌≡◌, not, length, unwrap_or, [], true, false, IsTrue, IfOk, OnOk};
ghost use Rattle.protocol_model.specs.Value.{goes_up};
ghost use Rattle.protocol_model.specs.World.{class_at};
ghost use Rattle.protocol_model.specs.declared.LineWhy.TheVariants as why;
ghost use Rattle.protocol_model.specs.Side.{AtServer, AtClient};
ghost use Rattle.class_layout.specs.Tables.{table_in};
ghost use Rattle.class_members.specs.Members.{call_of};
ghost use Rattle.script_model.specs.Script as script;
ghost use Rattle.script_model.specs.Script.{octets_of};
ghost use Rattle.world_table.specs.Answers.{edit_of};
ghost use Rattle.script_lines.specs.LineOf.{line_of};
ghost use Rattle.script_spelling.specs.Fields.{pieces_after};
ghost use Rattle.script_spelling.specs.SpelledBy.{spelled_by};
ghost use Rattle.script_reading.specs.Kept.{Kept, nothing, kept_with, kept_after};
ghost use Rattle.script_reading.specs.KeptIn.{seen_by};
ghost use Rattle.script_reading.specs.Judging.{judged, not_live, must_join, joined_in, numbered_in, actor_of, called_of, must, is_multicast, may_join, may_spawn};
ghost use Rattle.script_reading.specs.Gives.{table_of, kept_of};
ghost use Rattle.script_reading.specs.Tells.{Tells};
ghost use Rattle.script_reading.specs.ToldBy.{is_told_by};

use crate::arguments::{arguments, value};
use crate::known::Known;
use crate::names::{called, class_named, settable, switchable};
use crate::ranges::{coordinate, owner, player, team, within};
use crate::refusal::Stop;
use class_layout::{Call, Classes};
use net_core::{Blob, Guid, Memory, Player};
use protocol_model::limits::{BUDGET_LIMIT, CONNECTION_LIMIT, SPAWN_LIMIT};
use protocol_model::{LineWhy, Version, Way};
use script_lines::{Edit, Line};
use script_spelling::{Spelled, field_count, octets};
use std::alloc::Global;

/// The classes, whether the script is live, and what the lines so far leave.
#[derive(Drop)]
pub(crate) struct Reader<'a> {
    alloc: Global,
    classes: &'a Classes,
    live: bool,
    known: Known,
}

// A line that needs no memory.
fn told(line: Result<Line, LineWhy>) -> Result<Line, Stop>
    ensures exact { Tells line_of (seen_by line_of line) result }
    ensures told { (kept : Kept) → IfOk line (λ line. IsTrue (is_told_by kept line))
        → IfOk result (λ line. IsTrue (is_told_by kept line)) }
{
    match line {
        Ok(line) => Ok(line),
        Err(why) => Err(Stop::Why(why)),
    }
}

// A call that the server makes goes down.
fn goes_down(way: Way) -> Result<(), LineWhy>
    ensures { seen_by (λ _. tt) result ≡ must (not (goes_up way)) why.Kind }
{
    match way {
        Way::Server => Err(LineWhy::Kind),
        Way::Client => Ok(()),
        Way::Multicast => Ok(()),
    }
}

// A call that a client makes goes up.
fn goes_up(way: Way) -> Result<(), LineWhy>
    ensures { seen_by (λ _. tt) result ≡ must (goes_up way) why.Kind }
{
    match way {
        Way::Server => Ok(()),
        Way::Client => Err(LineWhy::Kind),
        Way::Multicast => Err(LineWhy::Kind),
    }
}

// A call to every player is a multicast.
fn is_multicast(way: Way) -> Result<(), LineWhy>
    ensures { seen_by (λ _. tt) result ≡ must (is_multicast way) why.Kind }
{
    match way {
        Way::Server => Err(LineWhy::Kind),
        Way::Client => Err(LineWhy::Kind),
        Way::Multicast => Ok(()),
    }
}

impl<'a> Reader<'a> {
    /// Before the first line.
    pub(crate) fn new(alloc: Global, classes: &'a Classes, live: bool) -> Reader<'a>
        ensures table { table_of result ≡ table_in classes.now }
        ensures live { result.live ≡ live }
        ensures kept { kept_of result ≡ nothing }
    {
        Reader {
            alloc,
            classes,
            live,
            known: Known::new(alloc),
        }
    }

    /// The line, where it may follow those before it.
    pub(crate) fn judge(&self, spelled: &Spelled<'_>) -> Result<Line, Stop>
        ensures exact { Tells line_of (judged (table_of self.now) self.now.live (kept_of self.now)
            (spelled_by spelled.now)) result }
        ensures told { IfOk result (λ line. IsTrue (is_told_by (kept_of self.now) line)) }
    {
        match *spelled {
            Spelled::Join {
                version,
                player,
                budget,
            } => told(self.join(version, player, budget)),
            Spelled::Spawn { class, x, y } => told(self.spawn(class, x, y)),
            Spelled::Destroy { actor } => told(self.destroy(actor)),
            Spelled::Set { actor, name, value } => told(self.set(actor, name, value)),
            Spelled::Own { actor, player } => told(self.own(actor, player)),
            Spelled::View { player, x, y } => told(self.view(player, x, y)),
            Spelled::Add { on, actor, player } => told(self.add(on, actor, player)),
            Spelled::Dormant { actor } => told(self.dormant(actor)),
            Spelled::Wake { actor } => told(self.wake(actor)),
            Spelled::Flush { actor } => told(self.flush(actor)),
            Spelled::Switch { actor, name, on } => told(self.switch(actor, name, on)),
            Spelled::Team { player, team } => told(self.team(player, team)),
            Spelled::Give { actor, team } => told(self.give(actor, team)),
            Spelled::Tick => Ok(Line::Tick),
            Spelled::ClientTick { player } => told(self.client_tick(player)),
            Spelled::Down { player, packet } => told(self.down(player, packet)),
            Spelled::Up { player, packet } => told(self.up(player, packet)),
            Spelled::DownNew { player, every } => told(self.down_new(player, every)),
            Spelled::UpNew { player, every } => told(self.up_new(player, every)),
            Spelled::Call {
                player,
                actor,
                name,
                args,
            } => self.call(player, actor, name, args),
            Spelled::ClientCall {
                player,
                actor,
                name,
                args,
            } => self.client_call(player, actor, name, args),
            Spelled::Multi { actor, name, args } => self.multi(actor, name, args),
            Spelled::Dump { player } => told(self.dump(player)),
            Spelled::Settled { player, actor } => told(self.settled(player, actor)),
            Spelled::Forge { player, hex } => self.forge(player, hex),
            Spelled::ClientForge { player, hex } => self.client_forge(player, hex),
        }
    }

    /// The line is one of those so far.
    pub(crate) fn keep(&mut self, line: &Line) -> Result<(), Memory>
        ensures kept { OnOk result (kept_of self.new
            ≡ kept_after (table_of self.old) (kept_of self.old) (line_of line.now)) }
        ensures table { table_of self.new ≡ table_of self.old }
        ensures live { self.new.live ≡ self.old.live }
    {
        match line {
            Line::Join { player, .. } => {
                self.known.join(player.0)?;
                Ok(())
            }
            Line::Edit(edit) => {
                self.keep_edit(edit)?;
                Ok(())
            }
            Line::Tick
            | Line::ClientTick { .. }
            | Line::Down { .. }
            | Line::Up { .. }
            | Line::DownNew { .. }
            | Line::UpNew { .. }
            | Line::Call { .. }
            | Line::Multi { .. }
            | Line::ClientCall { .. }
            | Line::Dump { .. }
            | Line::Settled { .. }
            | Line::Forge { .. }
            | Line::ClientForge { .. } => Ok(()),
        }
    }

    fn keep_edit(&mut self, edit: &Edit) -> Result<(), Memory>
        ensures kept { OnOk result (kept_of self.new
            ≡ kept_with (table_of self.old) (kept_of self.old) (edit_of edit.now)) }
        ensures table { table_of self.new ≡ table_of self.old }
        ensures live { self.new.live ≡ self.old.live }
    {
        match edit {
            Edit::Spawn { class, .. } => {
                self.known.spawn(*class)?;
                Ok(())
            }
            Edit::Destroy { actor } => {
                self.known.destroy(*actor);
                Ok(())
            }
            Edit::Set { .. }
            | Edit::Own { .. }
            | Edit::View { .. }
            | Edit::Add { .. }
            | Edit::Dormant { .. }
            | Edit::Wake { .. }
            | Edit::Flush { .. }
            | Edit::Switch { .. }
            | Edit::Team { .. }
            | Edit::Give { .. } => Ok(()),
        }
    }

    // The line has no place in a live script.
    #[tactic(auto, unfolding(crate::specs::Judging::not_live))]
    fn not_live(&self) -> Result<(), LineWhy>
        ensures { seen_by (λ _. tt) result ≡ not_live self.now.live }
    {
        if self.live {
            return Err(LineWhy::Place);
        }
        Ok(())
    }

    #[tactic(auto, unfolding(crate::specs::Judging::must_join))]
    fn must_join(&self, player: Player) -> Result<(), LineWhy>
        ensures { seen_by (λ _. tt) result ≡ must_join self.now.live (kept_of self.now) player }
    {
        if self.live {
            return Ok(());
        }
        if !self.known.has_joined(player.0) {
            return Err(LineWhy::NoPlayer);
        }
        Ok(())
    }

    // A player who joined, in a script that isn't live.
    #[tactic(auto, unfolding(crate::specs::Judging::joined_in))]
    fn joined(&self, number: i128) -> Result<Player, LineWhy>
        ensures { result ≡ joined_in self.now.live (kept_of self.now) number }
    {
        self.not_live()?;
        let player = player(number)?;
        self.must_join(player)?;
        Ok(player)
    }

    // A player who joined, and a number in range.
    #[tactic(auto, unfolding(crate::specs::Judging::numbered_in))]
    fn numbered(&self, number: i128, n: i128, low: u32, high: u32) -> Result<(Player, u32), LineWhy>
        ensures { result ≡ numbered_in self.now.live (kept_of self.now) low high number n }
    {
        self.not_live()?;
        let player = player(number)?;
        let n = within(n, low, high)?;
        self.must_join(player)?;
        Ok((player, n))
    }

    // An actor that isn't destroyed, and the place of its class.
    #[tactic(auto, unfolding(crate::specs::Judging::actor_of))]
    fn living(&self, number: i128) -> Result<(Guid, u16), LineWhy>
        ensures { seen_by (λ r. (r.0, class_at (table_of self.now) r.1)) result
            ≡ actor_of (kept_of self.now) false number }
    {
        let Some((guid, seen)) = self.known.actor(number) else {
            return Err(LineWhy::NoActor);
        };
        if !seen.alive {
            return Err(LineWhy::NoActor);
        }
        Ok((guid, seen.class))
    }

    // An actor that was spawned, and the place of its class.
    #[tactic(auto, unfolding(crate::specs::Judging::actor_of))]
    fn spawned(&self, number: i128) -> Result<(Guid, u16), LineWhy>
        ensures { seen_by (λ r. (r.0, class_at (table_of self.now) r.1)) result
            ≡ actor_of (kept_of self.now) true number }
    {
        let Some((guid, seen)) = self.known.actor(number) else {
            return Err(LineWhy::NoActor);
        };
        Ok((guid, seen.class))
    }

    // A player who hasn't joined, and there is room for one more.
    #[tactic(auto, unfolding(crate::specs::Judging::may_join))]
    fn may_join(&self, player: Player) -> Result<(), LineWhy>
        ensures { seen_by (λ _. tt) result ≡ may_join (kept_of self.now) player }
    {
        if self.known.has_joined(player.0) {
            return Err(LineWhy::Taken);
        }
        if self.known.joined_count() >= CONNECTION_LIMIT {
            return Err(LineWhy::Full);
        }
        Ok(())
    }

    #[tactic(auto, unfolding(crate::specs::Judging::may_spawn))]
    fn may_spawn(&self) -> Result<(), LineWhy>
        ensures { seen_by (λ _. tt) result ≡ may_spawn (kept_of self.now) }
    {
        if self.known.spawn_count() >= SPAWN_LIMIT {
            return Err(LineWhy::Full);
        }
        Ok(())
    }

    fn join(&self, version: Version, number: i128, budget: i128) -> Result<Line, LineWhy>
        ensures exact { seen_by line_of result
            ≡ judged (table_of self.now) self.now.live (kept_of self.now)
            (script.Join version number budget) }
        ensures told { IfOk result (λ line. IsTrue (is_told_by (kept_of self.now) line)) }
    {
        self.not_live()?;
        let player = player(number)?;
        let budget = within(budget, 1, BUDGET_LIMIT)?;
        self.may_join(player)?;
        Ok(Line::Join {
            player,
            budget,
            version,
        })
    }

    fn spawn(&self, name: &[u8], x: i128, y: i128) -> Result<Line, LineWhy>
        ensures exact { seen_by line_of result
            ≡ judged (table_of self.now) self.now.live (kept_of self.now)
            (script.Spawn name.now x y) }
        ensures told { IfOk result (λ line. IsTrue (is_told_by (kept_of self.now) line)) }
    {
        let x = coordinate(x)?;
        let y = coordinate(y)?;
        let class = class_named(self.classes, name)?;
        self.may_spawn()?;
        Ok(Line::Edit(Edit::Spawn { class, x, y }))
    }

    fn destroy(&self, number: i128) -> Result<Line, LineWhy>
        ensures exact { seen_by line_of result
            ≡ judged (table_of self.now) self.now.live (kept_of self.now) (script.Destroy number) }
        ensures told { IfOk result (λ line. IsTrue (is_told_by (kept_of self.now) line)) }
    {
        let (actor, _) = self.living(number)?;
        Ok(Line::Edit(Edit::Destroy { actor }))
    }

    fn dormant(&self, number: i128) -> Result<Line, LineWhy>
        ensures exact { seen_by line_of result
            ≡ judged (table_of self.now) self.now.live (kept_of self.now) (script.Dormant number) }
        ensures told { IfOk result (λ line. IsTrue (is_told_by (kept_of self.now) line)) }
    {
        let (actor, _) = self.living(number)?;
        Ok(Line::Edit(Edit::Dormant { actor }))
    }

    fn wake(&self, number: i128) -> Result<Line, LineWhy>
        ensures exact { seen_by line_of result
            ≡ judged (table_of self.now) self.now.live (kept_of self.now) (script.Wake number) }
        ensures told { IfOk result (λ line. IsTrue (is_told_by (kept_of self.now) line)) }
    {
        let (actor, _) = self.living(number)?;
        Ok(Line::Edit(Edit::Wake { actor }))
    }

    fn flush(&self, number: i128) -> Result<Line, LineWhy>
        ensures exact { seen_by line_of result
            ≡ judged (table_of self.now) self.now.live (kept_of self.now) (script.Flush number) }
        ensures told { IfOk result (λ line. IsTrue (is_told_by (kept_of self.now) line)) }
    {
        let (actor, _) = self.living(number)?;
        Ok(Line::Edit(Edit::Flush { actor }))
    }

    fn client_tick(&self, number: i128) -> Result<Line, LineWhy>
        ensures exact { seen_by line_of result
            ≡ judged (table_of self.now) self.now.live (kept_of self.now)
            (script.ClientTick number) }
        ensures told { IfOk result (λ line. IsTrue (is_told_by (kept_of self.now) line)) }
    {
        let player = self.joined(number)?;
        Ok(Line::ClientTick { player })
    }

    fn dump(&self, number: i128) -> Result<Line, LineWhy>
        ensures exact { seen_by line_of result
            ≡ judged (table_of self.now) self.now.live (kept_of self.now) (script.Dump number) }
        ensures told { IfOk result (λ line. IsTrue (is_told_by (kept_of self.now) line)) }
    {
        let player = self.joined(number)?;
        Ok(Line::Dump { player })
    }

    fn down(&self, number: i128, packet: i128) -> Result<Line, LineWhy>
        ensures exact { seen_by line_of result
            ≡ judged (table_of self.now) self.now.live (kept_of self.now)
            (script.Deliver AtClient number packet) }
        ensures told { IfOk result (λ line. IsTrue (is_told_by (kept_of self.now) line)) }
    {
        let (player, packet) = self.numbered(number, packet, 1, 1_000_000)?;
        Ok(Line::Down { player, packet })
    }

    fn up(&self, number: i128, packet: i128) -> Result<Line, LineWhy>
        ensures exact { seen_by line_of result
            ≡ judged (table_of self.now) self.now.live (kept_of self.now)
            (script.Deliver AtServer number packet) }
        ensures told { IfOk result (λ line. IsTrue (is_told_by (kept_of self.now) line)) }
    {
        let (player, packet) = self.numbered(number, packet, 1, 1_000_000)?;
        Ok(Line::Up { player, packet })
    }

    fn down_new(&self, number: i128, every: i128) -> Result<Line, LineWhy>
        ensures exact { seen_by line_of result
            ≡ judged (table_of self.now) self.now.live (kept_of self.now)
            (script.DeliverNew AtClient number every) }
        ensures told { IfOk result (λ line. IsTrue (is_told_by (kept_of self.now) line)) }
    {
        let (player, every) = self.numbered(number, every, 0, 1000)?;
        Ok(Line::DownNew { player, every })
    }

    fn up_new(&self, number: i128, every: i128) -> Result<Line, LineWhy>
        ensures exact { seen_by line_of result
            ≡ judged (table_of self.now) self.now.live (kept_of self.now)
            (script.DeliverNew AtServer number every) }
        ensures told { IfOk result (λ line. IsTrue (is_told_by (kept_of self.now) line)) }
    {
        let (player, every) = self.numbered(number, every, 0, 1000)?;
        Ok(Line::UpNew { player, every })
    }

    fn set(&self, number: i128, name: &[u8], text: &[u8]) -> Result<Line, LineWhy>
        ensures exact { seen_by line_of result
            ≡ judged (table_of self.now) self.now.live (kept_of self.now)
            (script.Set number name.now text.now) }
        ensures told { IfOk result (λ line. IsTrue (is_told_by (kept_of self.now) line)) }
    {
        let (actor, class) = self.living(number)?;
        let (prop, kind) = settable(self.classes, class, name)?;
        let value = value(kind, text)?;
        Ok(Line::Edit(Edit::Set { actor, prop, value }))
    }

    fn own(&self, number: i128, player: i128) -> Result<Line, LineWhy>
        ensures exact { seen_by line_of result
            ≡ judged (table_of self.now) self.now.live (kept_of self.now)
            (script.Own number player) }
        ensures told { IfOk result (λ line. IsTrue (is_told_by (kept_of self.now) line)) }
    {
        let player = owner(player)?;
        let (actor, _) = self.living(number)?;
        Ok(Line::Edit(Edit::Own { actor, player }))
    }

    fn view(&self, number: i128, x: i128, y: i128) -> Result<Line, LineWhy>
        ensures exact { seen_by line_of result
            ≡ judged (table_of self.now) self.now.live (kept_of self.now) (script.View number x y) }
        ensures told { IfOk result (λ line. IsTrue (is_told_by (kept_of self.now) line)) }
    {
        let player = player(number)?;
        let x = coordinate(x)?;
        let y = coordinate(y)?;
        Ok(Line::Edit(Edit::View { player, x, y }))
    }

    fn add(&self, on: bool, actor: i128, number: i128) -> Result<Line, LineWhy>
        ensures exact { seen_by line_of result
            ≡ judged (table_of self.now) self.now.live (kept_of self.now)
            (script.Add on actor number) }
        ensures told { IfOk result (λ line. IsTrue (is_told_by (kept_of self.now) line)) }
    {
        let player = player(number)?;
        let (actor, _) = self.living(actor)?;
        Ok(Line::Edit(Edit::Add { actor, player, on }))
    }

    fn switch(&self, number: i128, name: &[u8], on: bool) -> Result<Line, LineWhy>
        ensures exact { seen_by line_of result
            ≡ judged (table_of self.now) self.now.live (kept_of self.now)
            (script.Switch number name.now on) }
        ensures told { IfOk result (λ line. IsTrue (is_told_by (kept_of self.now) line)) }
    {
        let (actor, class) = self.living(number)?;
        let prop = switchable(self.classes, class, name)?;
        Ok(Line::Edit(Edit::Switch { actor, prop, on }))
    }

    fn team(&self, number: i128, given: i128) -> Result<Line, LineWhy>
        ensures exact { seen_by line_of result
            ≡ judged (table_of self.now) self.now.live (kept_of self.now)
            (script.Team number given) }
        ensures told { IfOk result (λ line. IsTrue (is_told_by (kept_of self.now) line)) }
    {
        let player = player(number)?;
        let team = team(given)?;
        Ok(Line::Edit(Edit::Team { player, team }))
    }

    fn give(&self, number: i128, given: i128) -> Result<Line, LineWhy>
        ensures exact { seen_by line_of result
            ≡ judged (table_of self.now) self.now.live (kept_of self.now)
            (script.Give number given) }
        ensures told { IfOk result (λ line. IsTrue (is_told_by (kept_of self.now) line)) }
    {
        let team = team(given)?;
        let (actor, _) = self.living(number)?;
        Ok(Line::Edit(Edit::Give { actor, team }))
    }

    fn settled(&self, number: i128, actor: i128) -> Result<Line, LineWhy>
        ensures exact { seen_by line_of result
            ≡ judged (table_of self.now) self.now.live (kept_of self.now)
            (script.AskSettled number actor) }
        ensures told { IfOk result (λ line. IsTrue (is_told_by (kept_of self.now) line)) }
    {
        let player = self.joined(number)?;
        let (actor, _) = self.spawned(actor)?;
        Ok(Line::Settled { player, actor })
    }

    fn forge(&self, number: i128, hex: &[u8]) -> Result<Line, Stop>
        ensures exact { Tells line_of (judged (table_of self.now) self.now.live (kept_of self.now)
            (script.Forge AtServer number (unwrap_or (octets_of hex.now) []))) result }
        ensures told { IfOk result (λ line. IsTrue (is_told_by (kept_of self.now) line)) }
    {
        let player = self.joined(number)?;
        let bytes = self.bytes(hex)?;
        Ok(Line::Forge { player, bytes })
    }

    fn client_forge(&self, number: i128, hex: &[u8]) -> Result<Line, Stop>
        ensures exact { Tells line_of (judged (table_of self.now) self.now.live (kept_of self.now)
            (script.Forge AtClient number (unwrap_or (octets_of hex.now) []))) result }
        ensures told { IfOk result (λ line. IsTrue (is_told_by (kept_of self.now) line)) }
    {
        let player = self.joined(number)?;
        let bytes = self.bytes(hex)?;
        Ok(Line::ClientForge { player, bytes })
    }

    fn bytes(&self, hex: &[u8]) -> Result<Blob, Memory>
        ensures { IfOk result (λ bytes. bytes ≡ unwrap_or (octets_of hex.now) []) }
    {
        match octets(self.alloc, hex)? {
            Some(bytes) => Ok(bytes),
            None => Ok(Blob::new(self.alloc)),
        }
    }

    // The call of the actor's class of this name with as many arguments as there are fields.
    fn called(
        &self,
        class: u16,
        name: &[u8],
        fields: Option<&[u8]>,
    ) -> Result<(u16, &'a Call), LineWhy>
        ensures { seen_by (λ r. (r.0, call_of r.1.now)) result
            ≡ called_of (class_at (table_of self.now) class) name.now
            (length (pieces_after 32 fields.entry)) }
    {
        called(self.classes, class, name, field_count(fields))
    }

    fn call(
        &self,
        number: i128,
        actor: i128,
        name: &[u8],
        fields: Option<&[u8]>,
    ) -> Result<Line, Stop>
        ensures exact { Tells line_of (judged (table_of self.now) self.now.live (kept_of self.now)
            (script.CallTo AtServer number actor name.now (pieces_after 32 fields.entry))) result }
        ensures told { IfOk result (λ line. IsTrue (is_told_by (kept_of self.now) line)) }
    {
        let player = player(number)?;
        self.must_join(player)?;
        let (actor, class) = self.living(actor)?;
        let (call, found) = self.called(class, name, fields)?;
        goes_down(found.way)?;
        let args = arguments(self.alloc, found, fields)?;
        Ok(Line::Call {
            player,
            actor,
            call,
            args,
        })
    }

    fn client_call(
        &self,
        number: i128,
        actor: i128,
        name: &[u8],
        fields: Option<&[u8]>,
    ) -> Result<Line, Stop>
        ensures exact { Tells line_of (judged (table_of self.now) self.now.live (kept_of self.now)
            (script.CallTo AtClient number actor name.now (pieces_after 32 fields.entry))) result }
        ensures told { IfOk result (λ line. IsTrue (is_told_by (kept_of self.now) line)) }
    {
        let player = self.joined(number)?;
        let (actor, class) = self.spawned(actor)?;
        let (call, found) = self.called(class, name, fields)?;
        goes_up(found.way)?;
        let args = arguments(self.alloc, found, fields)?;
        Ok(Line::ClientCall {
            player,
            actor,
            call,
            args,
        })
    }

    fn multi(&self, actor: i128, name: &[u8], fields: Option<&[u8]>) -> Result<Line, Stop>
        ensures exact { Tells line_of (judged (table_of self.now) self.now.live (kept_of self.now)
            (script.CallAll actor name.now (pieces_after 32 fields.entry))) result }
        ensures told { IfOk result (λ line. IsTrue (is_told_by (kept_of self.now) line)) }
    {
        let (actor, class) = self.living(actor)?;
        let (call, found) = self.called(class, name, fields)?;
        is_multicast(found.way)?;
        let args = arguments(self.alloc, found, fields)?;
        Ok(Line::Multi { actor, call, args })
    }
}
