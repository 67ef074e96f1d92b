// Whose a line is, and what is told of an edit.
ghost use Rattle.std.specs.Prelude.{◌≡◌, map, IfOk, true};
ghost use Rattle.protocol_model.specs.Value.{Table};
ghost use Rattle.protocol_model.specs.Side.{AtClient};
ghost use Rattle.script_lines.specs.LineOf.{line_of};
ghost use Rattle.script_lines.specs.ReportOf.{report_of};
ghost use Rattle.replay_core.specs.Lines.{line_player, line_side, actor_reports, is_client_side};

use net_core::{Guid, Items, Memory, Player};
use script_lines::{Event, EventList, Line};
use std::alloc::Global;

/// The player whose line it is; `None` exactly where it is no single player's.
pub(crate) fn player_of(line: &Line) -> Option<Player>
    ensures { result ≡ line_player (line_of line.now) }
{
    match line {
        Line::ClientTick { player }
        | Line::Down { player, .. }
        | Line::Up { player, .. }
        | Line::DownNew { player, .. }
        | Line::UpNew { player, .. }
        | Line::Call { player, .. }
        | Line::ClientCall { player, .. }
        | Line::Dump { player }
        | Line::Settled { player, .. }
        | Line::Forge { player, .. }
        | Line::ClientForge { player, .. } => Some(*player),
        Line::Join { .. } | Line::Edit(_) | Line::Tick | Line::Multi { .. } => None,
    }
}

/// The player's client does the line.
pub(crate) fn is_of_client(line: &Line) -> bool
    ensures { result ≡ is_client_side (line_side (line_of line.now)) }
{
    matches!(
        line,
        Line::ClientTick { .. }
            | Line::Down { .. }
            | Line::DownNew { .. }
            | Line::ClientCall { .. }
            | Line::Dump { .. }
            | Line::ClientForge { .. }
    )
}

/// The actor that was spawned, if one was.
pub(crate) fn tell_actor(alloc: Global, spawned: Option<Guid>) -> Result<EventList, Memory>
    ensures { IfOk result (λ events. (table : Table)
        → map (report_of table) events ≡ actor_reports spawned) }
{
    let mut events = Items::new(alloc);
    if let Some(actor) = spawned {
        events.push(Event::Actor { actor })?;
    }
    Ok(events)
}
