// Lines that an end writes.
ghost use Rattle.std.specs.Prelude.{◌≡◌, ◌∷◌, [], map, IfOk, OnOk, string_bytes};
ghost use Rattle.live_model.specs.Outside.{Writes};
ghost use Rattle.live_model.specs.Server.{write, got_text, absent_text};
ghost use Rattle.live_model.specs.Runs.{refused_text};
ghost use Rattle.class_layout.specs.Tables.{table_in};
ghost use Rattle.script_lines.specs.ReportOf.{report_of};
ghost use Rattle.live_acts.specs.Acts.{AddsActs};

use class_layout::Classes;
use event_text::{print, verdict_text};
use live_acts::{Act, ActList};
use net_core::{Blob, Memory, Player};
use protocol_model::Verdict;
use script_lines::{Event, EventList};
use std::alloc::Global;

/// The line of each event.
pub fn tell(
    alloc: Global,
    classes: &Classes,
    events: &EventList,
    acts: &mut ActList,
) -> Result<(), Memory>
    ensures { OnOk result (AddsActs acts.old acts.new
        (map write (map (report_of (table_in classes.now)) events.now))) }
{
    tell_each(alloc, classes, events.as_slice(), acts)
}

/// The line of each of these events.
fn tell_each(
    alloc: Global,
    classes: &Classes,
    events: &[Event],
    acts: &mut ActList,
) -> Result<(), Memory>
    ensures { OnOk result (AddsActs acts.old acts.new
        (map write (map (report_of (table_in classes.now)) events.now))) }
{
    for event in events {
        tell_one(alloc, classes, event, acts)?;
    }
    Ok(())
}

/// The line of an event.
pub(crate) fn tell_one(
    alloc: Global,
    classes: &Classes,
    event: &Event,
    acts: &mut ActList,
) -> Result<(), Memory>
    ensures { OnOk result (AddsActs acts.old acts.new
        (write (report_of (table_in classes.now) event.now) ∷ [])) }
{
    let mut text = Blob::new(alloc);
    print(alloc, &mut text, classes, event)?;
    acts.push(Act::Writes { text })
}

/// The line of the verdict on a datagram that the player's end heard.
pub fn tell_got(
    alloc: Global,
    player: Player,
    verdict: Verdict,
    acts: &mut ActList,
) -> Result<(), Memory>
    ensures { OnOk result (AddsActs acts.old acts.new (Writes (got_text player verdict) ∷ [])) }
{
    let line = got_line(alloc, player, verdict)?;
    add_line(alloc, &line, acts)
}

/// The answer to a call to a player who isn't admitted.
pub fn tell_absent(alloc: Global, player: Player, acts: &mut ActList) -> Result<(), Memory>
    ensures { OnOk result (AddsActs acts.old acts.new (Writes (absent_text player) ∷ [])) }
{
    let line = absent_line(alloc, player)?;
    add_line(alloc, &line, acts)
}

/// The last line of a client that wasn't welcomed, with the code of the Failure, 0 for none.
pub fn tell_refused(alloc: Global, code: u8, acts: &mut ActList) -> Result<(), Memory>
    ensures { OnOk result (AddsActs acts.old acts.new (Writes (refused_text code) ∷ [])) }
{
    let line = refused_line(alloc, code)?;
    add_line(alloc, &line, acts)
}

/// A line of the end.
fn add_line(alloc: Global, line: &str, acts: &mut ActList) -> Result<(), Memory>
    ensures { OnOk result (AddsActs acts.old acts.new (Writes line.now ∷ [])) }
{
    let text = Blob::from_vec(Vec::from_slice(alloc, line.as_bytes())?);
    acts.push(Act::Writes { text })
}

fn got_line(alloc: Global, player: Player, verdict: Verdict) -> Result<String, Memory>
    ensures { IfOk result (λ text. string_bytes text ≡ got_text player verdict) }
{
    let verdict = verdict_text(alloc, verdict)?;
    let player = player.0;
    Ok(format!(in alloc; "got {player} {verdict}\n")?)
}

fn absent_line(alloc: Global, player: Player) -> Result<String, Memory>
    ensures { IfOk result (λ text. string_bytes text ≡ absent_text player) }
{
    let player = player.0;
    Ok(format!(in alloc; "call {player} absent\n")?)
}

fn refused_line(alloc: Global, code: u8) -> Result<String, Memory>
    ensures { IfOk result (λ text. string_bytes text ≡ refused_text code) }
{
    Ok(format!(in alloc; "unet: not welcomed: {code}\n")?)
}
