// A player's line at the two ends of the connection.
ghost use Rattle.std.specs.Prelude.{◌≡◌, ℕ, List, OnOk, true, false};
ghost use Rattle.protocol_model.specs.World.{Edits};
ghost use Rattle.replication_model.specs.Story.{Player as PlayerStory};
ghost use Rattle.class_layout.specs.Tables.{Layout, table_in};
ghost use Rattle.script_lines.specs.LineOf.{line_of};
ghost use Rattle.replay_places.specs.Places.{IsPlace};
ghost use Rattle.replay_places.specs.Doing.{Does};
ghost use Rattle.replay_core.specs.Stands.{Serving};
ghost use Rattle.replay_core.specs.Lines.{IsAt, DoesAt, line_does, line_side, is_client_side};
ghost use Rattle.replay_core.specs.May.{MayDo};

use crate::server::{call, deliver, deliver_new, forge, settled};
use crate::telling::is_of_client;
use net_core::Memory;
use net_driver::Driver;
use replay_places::{Place, tell_copies};
use script_lines::{EventList, Line};
use std::alloc::Global;

/// Does a player's line at the player's place and at the server.
pub(crate) fn do_line(
    alloc: Global,
    driver: &mut Driver<'_>,
    place: &mut Place<'_>,
    line: &Line,
    events: &mut EventList,
) -> Result<(), Memory>
    requires there { (layout : Layout) × (edits : Edits) × (players : List PlayerStory) × (i : ℕ)
        × (p : PlayerStory) × Serving layout driver.old edits players × IsAt players i p
        × IsPlace layout place.old p × MayDo layout edits line.now }
    ensures { OnOk result ((layout : Layout) → DoesAt layout
        (line_does (table_in layout) (line_of line.now))
        driver.old driver.new place.old place.new events.old events.new) }
{
    if is_of_client(line) {
        at_client(alloc, place, line, events)
    } else {
        at_server(driver, place, line, events)
    }
}

/// Does a line of a player's client; other lines do nothing.
fn at_client(
    alloc: Global,
    place: &mut Place<'_>,
    line: &Line,
    events: &mut EventList,
) -> Result<(), Memory>
    requires side { is_client_side (line_side (line_of line.now)) ≡ true }
    requires there { (layout : Layout) × (edits : Edits) × (p : PlayerStory)
        × IsPlace layout place.old p × MayDo layout edits line.now }
    ensures { OnOk result ((layout : Layout) (edits : Edits)
        → Does layout (line_does (table_in layout) (line_of line.now) edits)
        place.old place.new events.old events.new) }
{
    match line {
        Line::ClientTick { .. } => place.tick(alloc, events),
        Line::Down { packet, .. } => place.deliver(*packet as u64, events),
        Line::DownNew { every, .. } => place.deliver_new(*every, events),
        Line::ClientCall {
            actor,
            call,
            args,
            ..
        } => place.call(*actor, *call, args.as_slice(), events),
        Line::Dump { .. } => tell_copies(alloc, &place.client, place.player, events),
        Line::ClientForge { bytes, .. } => place.forge(bytes.as_slice(), events),
        _ => Ok(()),
    }
}

/// Does a line of the server's end of a player's connection; other lines do nothing.
fn at_server(
    driver: &mut Driver<'_>,
    place: &mut Place<'_>,
    line: &Line,
    events: &mut EventList,
) -> Result<(), Memory>
    requires side { is_client_side (line_side (line_of line.now)) ≡ false }
    requires there { (layout : Layout) × (edits : Edits) × (players : List PlayerStory) × (i : ℕ)
        × (p : PlayerStory) × Serving layout driver.old edits players × IsAt players i p
        × IsPlace layout place.old p × MayDo layout edits line.now }
    ensures { OnOk result ((layout : Layout) → DoesAt layout
        (line_does (table_in layout) (line_of line.now))
        driver.old driver.new place.old place.new events.old events.new) }
{
    match line {
        Line::Up { packet, .. } => deliver(driver, place, *packet as u64, events),
        Line::UpNew { every, .. } => deliver_new(driver, place, *every, events),
        Line::Call {
            actor,
            call: n,
            args,
            ..
        } => call(driver, place.player, *actor, *n, args.as_slice(), events),
        Line::Settled { actor, .. } => settled(driver, place.player, *actor, events),
        Line::Forge { bytes, .. } => forge(driver, place.player, bytes.as_slice(), events),
        _ => Ok(()),
    }
}
