// What an end sends in a tick.
ghost use Rattle.std.specs.Prelude.{◌≡◌, IfOk, OnOk};
ghost use Rattle.std.specs.List.{flat_map};
ghost use Rattle.protocol_model.specs.Value.{Table};
ghost use Rattle.protocol_model.specs.World.{Edits};
ghost use Rattle.script_model.specs.Reports.{Sent as SentReport, Stalled as StalledReport};
ghost use Rattle.replication_model.specs.Story.{Player as PlayerStory};
ghost use Rattle.class_layout.specs.Tables.{table_in};
ghost use Rattle.script_lines.specs.ReportOf.{report_of};
ghost use Rattle.live_acts.specs.Acts.{AddsActs};
ghost use Rattle.live_telling.specs.Ticked.{side_of, packet_text, packet_acts, stall_acts, Tells};

use crate::lines::tell_one;
use class_layout::Classes;
use event_text::print;
use link_end::{Sent, SentList};
use live_acts::{Act, ActList};
use live_links::Peer;
use net_core::{Blob, Memory, Player};
use script_lines::Event;
use std::alloc::Global;

/// The side of a connection that ticked.
#[derive(Clone, Copy, Debug, PartialEq, Eq)]
pub enum Side {
    Server,
    Client,
}

/// Who ticked: the side and the player of its connection, its end of the link, and the peer to whom
/// its packets go.
#[derive(Clone, Copy, Debug)]
pub struct Teller {
    pub side: Side,
    pub player: Player,
    pub end: usize,
    pub to: Peer,
}

/// Each packet that was sent in a tick, and then its line; last, whether the end stalled in it.
pub fn tell_tick(
    alloc: Global,
    classes: &Classes,
    teller: Teller,
    sent: SentList,
    stalled: bool,
    acts: &mut ActList,
) -> Result<(), Memory>
    ensures { OnOk result ((edits : Edits) (p : PlayerStory)
        → Tells (table_in classes.now) edits teller sent stalled acts.old acts.new p) }
{
    tell_packets(alloc, classes, &teller, sent, acts)?;
    tell_stall(alloc, classes, &teller, stalled, acts)
}

/// Each packet, and then its line.
fn tell_packets(
    alloc: Global,
    classes: &Classes,
    teller: &Teller,
    sent: SentList,
    acts: &mut ActList,
) -> Result<(), Memory>
    ensures { OnOk result (AddsActs acts.old acts.new (flat_map (packet_acts teller.now) sent)) }
{
    for packet in sent.into_vec() {
        tell_sent(alloc, classes, teller, packet, acts)?;
    }
    Ok(())
}

/// A packet, and then its line.
fn tell_sent(
    alloc: Global,
    classes: &Classes,
    teller: &Teller,
    packet: Sent,
    acts: &mut ActList,
) -> Result<(), Memory>
    ensures { OnOk result (AddsActs acts.old acts.new (packet_acts teller.now packet)) }
{
    let Sent { number, bytes } = packet;
    let text = sent_text(alloc, classes, teller, number, bytes.as_slice())?;
    acts.push(Act::Sends {
        end: teller.end,
        to: teller.to,
        bytes,
    })?;
    acts.push(Act::Writes { text })?;
    Ok(())
}

/// The line of a packet.
fn sent_text(
    alloc: Global,
    classes: &Classes,
    teller: &Teller,
    number: u64,
    bytes: &[u8],
) -> Result<Blob, Memory>
    ensures { IfOk result (λ text. text ≡ packet_text teller.now number bytes.now) }
{
    let copy = Blob::from_vec(Vec::from_slice(alloc, bytes)?);
    let event = sent_event(teller.side, teller.player, number, copy);
    let mut text = Blob::new(alloc);
    print(alloc, &mut text, classes, &event)?;
    Ok(text)
}

/// A packet that an end sent, as it is told.
fn sent_event(side: Side, player: Player, packet: u64, bytes: Blob) -> Event
    ensures { (table : Table)
        → report_of table result ≡ SentReport (side_of side) player packet bytes }
{
    match side {
        Side::Server => Event::Sent {
            player,
            packet,
            bytes,
        },
        Side::Client => Event::ClientSent {
            player,
            packet,
            bytes,
        },
    }
}

/// That the end stalled, if it did.
fn tell_stall(
    alloc: Global,
    classes: &Classes,
    teller: &Teller,
    stalled: bool,
    acts: &mut ActList,
) -> Result<(), Memory>
    ensures { OnOk result (AddsActs acts.old acts.new (stall_acts teller.now stalled)) }
{
    if !stalled {
        return Ok(());
    }
    let event = stall_event(teller.side, teller.player);
    tell_one(alloc, classes, &event, acts)
}

/// That an end stalled, as it is told.
fn stall_event(side: Side, player: Player) -> Event
    ensures { (table : Table) → report_of table result ≡ StalledReport (side_of side) player }
{
    match side {
        Side::Server => Event::Stalled { player },
        Side::Client => Event::ClientStalled { player },
    }
}
