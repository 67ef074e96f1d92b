// Events as the lines of a transcript.
ghost use Rattle.std.specs.Prelude.{◌≡◌, ◌∷◌, ◌++◌, IfOk, OnOk, OnErr, string_bytes};
ghost use Rattle.script_model.specs.Reports.{report_text};
ghost use Rattle.class_layout.specs.Tables.{table_in};
ghost use Rattle.script_lines.specs.ReportOf.{report_of};
ghost use Rattle.event_text.specs.Words.{line, handed_words, copied_report};

use crate::event_line::{
    answer_line, called_line, copy_line, forged_line, handed_line, player_line, sent_line,
    settled_line,
};
use class_layout::Classes;
use net_core::{Blob, Guid, Memory, Player};
use script_lines::{Event, Handed, Pair};
use std::alloc::Global;

fn handed_text(
    alloc: Global,
    classes: &Classes,
    word: &str,
    player: Player,
    handed: &Handed,
) -> Result<String, Memory>
    ensures { IfOk result (λ text. string_bytes text
        ≡ line (word.now ∷ handed_words (table_in classes.now) player handed.now)) }
{
    handed_line(alloc, word, player, classes.class(handed.class), handed)
}

fn copied_text(
    alloc: Global,
    classes: &Classes,
    player: Player,
    actor: Guid,
    class: u16,
    channel: Option<u16>,
    values: &[Pair],
) -> Result<String, Memory>
    ensures { IfOk result (λ text. string_bytes text
        ≡ report_text
        (copied_report (table_in classes.now) player actor class channel values.now)) }
{
    copy_line(alloc, player, actor, classes.class(class), channel, values)
}

fn event_text(alloc: Global, classes: &Classes, event: &Event) -> Result<String, Memory>
    ensures { IfOk result (λ text. string_bytes text
        ≡ report_text (report_of (table_in classes.now) event.now)) }
{
    match event {
        Event::Joined { player } => player_line(alloc, "joined", *player),
        Event::Actor { actor } => {
            let actor = actor.0 / 2;
            Ok(format!(in alloc; "actor {actor}\n")?)
        }
        Event::Sent {
            player,
            packet,
            bytes,
        } => sent_line(alloc, "sent", *player, *packet, bytes.as_slice()),
        Event::ClientSent {
            player,
            packet,
            bytes,
        } => sent_line(alloc, "csent", *player, *packet, bytes.as_slice()),
        Event::Stalled { player } => player_line(alloc, "stalled", *player),
        Event::ClientStalled { player } => player_line(alloc, "cstalled", *player),
        Event::Handed { player, handed } => {
            handed_text(alloc, classes, "handed", *player, handed)
        }
        Event::ClientHanded { player, handed } => {
            handed_text(alloc, classes, "chanded", *player, handed)
        }
        Event::Down {
            player,
            packet,
            answer,
        } => answer_line(alloc, "down", *player, *packet, *answer),
        Event::Up {
            player,
            packet,
            answer,
        } => answer_line(alloc, "up", *player, *packet, *answer),
        Event::Forged { player, verdict } => forged_line(alloc, "forge", *player, *verdict),
        Event::ClientForged { player, verdict } => {
            forged_line(alloc, "cforge", *player, *verdict)
        }
        Event::Called { player, answer } => called_line(alloc, "call", *player, *answer),
        Event::ClientCalled { player, answer } => called_line(alloc, "ccall", *player, *answer),
        Event::Copies { player, count } => {
            let player = player.0;
            Ok(format!(in alloc; "copies {player} {count}\n")?)
        }
        Event::Copied {
            player,
            actor,
            class,
            channel,
            values,
        } => copied_text(
            alloc,
            classes,
            *player,
            *actor,
            *class,
            *channel,
            values.as_slice(),
        ),
        Event::Settled {
            player,
            actor,
            holds,
        } => settled_line(alloc, *player, *actor, *holds),
    }
}

/// Appends the event as one line of the transcript. `Memory` leaves the text as it was.
pub fn print(alloc: Global, out: &mut Blob, classes: &Classes, event: &Event) -> Result<(), Memory>
    ensures ok { OnOk result (out.new
        ≡ out.old ++ report_text (report_of (table_in classes.now) event.now)) }
    ensures err { OnErr result (out.new ≡ out.old) }
{
    let text = event_text(alloc, classes, event)?;
    out.extend_from_slice(text.as_bytes())
}
