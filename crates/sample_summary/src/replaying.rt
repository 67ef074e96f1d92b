// Lines that are replayed and counted.
ghost use Rattle.std.specs.Prelude.{◌≡◌, map, List, IfOk, OnOk, string_bytes};
ghost use Rattle.script_model.specs.Reports.{Report};
ghost use Rattle.replication_model.specs.Story.{Story, first_story, also_line, story_of};
ghost use Rattle.class_layout.specs.Tables.{table_in};
ghost use Rattle.script_lines.specs.LineOf.{line_of};
ghost use Rattle.replay_core.specs.Stands.{Stands};
ghost use Rattle.replay_core.specs.May.{May, MayAll};
ghost use Rattle.sample_summary.specs.Sampled.{summary_of};
ghost use Rattle.sample_summary.specs.Tallied.{Tallies};

use crate::tally::Tally;
use class_layout::Classes;
use net_core::Memory;
use replay_core::Replay;
use script_lines::Line;
use std::alloc::Global;

/// The summary of lines that may follow one another, as those of a sample of so many ticks.
pub fn summary(
    alloc: Global,
    classes: &Classes,
    ticks: u32,
    lines: &[Line],
) -> Result<String, Memory>
    requires { MayAll classes.now first_story lines.now }
    ensures { IfOk result (λ text. string_bytes text ≡ summary_of ticks (table_in classes.now)
        (story_of (table_in classes.now) (map line_of lines.now))) }
{
    let mut replay = Replay::new(alloc, classes)?;
    sum_up(alloc, classes, &mut replay, ticks, lines)
}

/// The same in a replay that did no line before.
fn sum_up(
    alloc: Global,
    classes: &Classes,
    replay: &mut Replay<'_>,
    ticks: u32,
    lines: &[Line],
) -> Result<String, Memory>
    requires classes { replay.old.layout ≡ classes.now }
    requires first { Stands replay.old first_story }
    requires may { MayAll classes.now first_story lines.now }
    ensures { IfOk result (λ text. string_bytes text ≡ summary_of ticks (table_in classes.now)
        (story_of (table_in classes.now) (map line_of lines.now))) }
{
    let mut tally = Tally::new();
    for line in lines {
        count_line(alloc, classes, replay, &mut tally, line)?;
    }
    let settled = replay.settled_count()?;
    let text = tally.summary(alloc, ticks, settled)?;
    Ok(text)
}

/// Does a line, and counts what it tells.
fn count_line(
    alloc: Global,
    classes: &Classes,
    replay: &mut Replay<'_>,
    tally: &mut Tally,
    line: &Line,
) -> Result<(), Memory>
    requires classes { replay.old.layout ≡ classes.now }
    requires may { (story : Story) × Stands replay.old story
        × May replay.old.layout story line.now }
    ensures stands { OnOk result ((told : Story × List Report) → Stands replay.old told.0
        → Stands replay.new (also_line (table_in classes.now) told (line_of line.now)).0) }
    ensures tallies { OnOk result ((told : Story × List Report) → Stands replay.old told.0
        → Tallies tally.old told.1
        → Tallies tally.new (also_line (table_in classes.now) told (line_of line.now)).1) }
    ensures layout { replay.new.layout ≡ replay.old.layout }
{
    let events = replay.step(line)?;
    for event in events.as_slice() {
        tally.add(alloc, classes, event)?;
    }
    Ok(())
}
