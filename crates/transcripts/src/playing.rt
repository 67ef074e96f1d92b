// Replaying lines, with the text of each handed to the sink before the next is done.
ghost use Rattle.std.specs.Prelude.{◌≡◌, map, IfOk, OnOk, OnErr};
ghost use Rattle.std.specs.List.{flat_map};
ghost use Rattle.std.specs.Io.KnownBytes.{Appends};
ghost use Rattle.script_model.specs.Reports.{report_text};
ghost use Rattle.replication_model.specs.Story.{Story, first_story, after_line};
ghost use Rattle.replication_model.specs.Transcript.{transcript};
ghost use Rattle.net_core.specs.Counts.{WriteCause};
ghost use Rattle.class_layout.specs.Tables.{table_in};
ghost use Rattle.script_lines.specs.LineOf.{line_of};
ghost use Rattle.replay_core.specs.Stands.{Stands};
ghost use Rattle.replay_core.specs.May.{May, MayAll};
ghost use Rattle.transcripts.specs.Takes.{TakesPrefix};

use class_layout::Classes;
use event_text::print;
use net_core::{Blob, Memory, Sink, WriteRefusal, write_all};
use replay_core::Replay;
use script_lines::Line;
use std::alloc::Global;

/// Replays lines that may follow one another, and hands the text of each to the sink.
pub fn play<S: Sink>(
    alloc: Global,
    classes: &Classes,
    lines: &[Line],
    out: &mut S,
) -> Result<(), WriteRefusal>
    requires { MayAll classes.now first_story lines.now }
    ensures ok { OnOk result (Appends (S.taken out.old) (S.taken out.new)
        (transcript (table_in classes.now) (map line_of lines.now))) }
    ensures err { OnErr result (TakesPrefix (S.taken out.old) (S.taken out.new)
        (transcript (table_in classes.now) (map line_of lines.now))) }
    ensures cause { WriteCause (S.faults out.old) (S.faults out.new) result }
{
    let mut replay = Replay::new(alloc, classes)?;
    play_all(alloc, classes, &mut replay, lines, out)
}

/// Plays lines in a replay that did none before.
fn play_all<S: Sink>(
    alloc: Global,
    classes: &Classes,
    replay: &mut Replay<'_>,
    lines: &[Line],
    out: &mut S,
) -> Result<(), WriteRefusal>
    requires classes { replay.old.layout ≡ classes.now }
    requires first { Stands replay.old first_story }
    requires may { MayAll classes.now first_story lines.now }
    ensures ok { OnOk result (Appends (S.taken out.old) (S.taken out.new)
        (transcript (table_in classes.now) (map line_of lines.now))) }
    ensures err { OnErr result (TakesPrefix (S.taken out.old) (S.taken out.new)
        (transcript (table_in classes.now) (map line_of lines.now))) }
    ensures cause { WriteCause (S.faults out.old) (S.faults out.new) result }
{
    for line in lines {
        let text = tell(alloc, classes, replay, line)?;
        write_all(out, text.as_slice())?;
    }
    Ok(())
}

/// Does a line, and answers the text of what it tells.
fn tell(
    alloc: Global,
    classes: &Classes,
    replay: &mut Replay<'_>,
    line: &Line,
) -> Result<Blob, Memory>
    requires classes { replay.old.layout ≡ classes.now }
    requires may { (story : Story) × Stands replay.old story
        × May replay.old.layout story line.now }
    ensures text { IfOk result (λ text. (story : Story) → Stands replay.old story
        → text ≡ flat_map report_text
        (after_line (table_in replay.old.layout) story (line_of line.now)).1) }
    ensures stands { OnOk result ((story : Story) → Stands replay.old story
        → Stands replay.new
        (after_line (table_in replay.old.layout) story (line_of line.now)).0) }
    ensures layout { replay.new.layout ≡ replay.old.layout }
{
    let events = replay.step(line)?;
    let mut text = Blob::new(alloc);
    for event in events.as_slice() {
        print(alloc, &mut text, classes, event)?;
    }
    Ok(text)
}
