// Packets that the two ends of a connection send.
ghost use Rattle.std.specs.Prelude.{◌≡◌, ◌∷◌, ◌++◌, [], map, OnOk, IfOk};
ghost use Rattle.protocol_model.specs.Side.{AtServer, AtClient};
ghost use Rattle.protocol_model.specs.World.{Edits};
ghost use Rattle.protocol_model.specs.Value.{Table};
ghost use Rattle.replication_model.specs.Story.{Player as PlayerStory, after_tick_of};
ghost use Rattle.class_layout.specs.Tables.{Layout, table_in};
ghost use Rattle.replay_places.specs.Places.{IsPlace};
ghost use Rattle.script_model.specs.Reports.{Sent as SentReport};
ghost use Rattle.script_lines.specs.ReportOf.{report_of};
ghost use Rattle.replay_places.specs.Doing.{Does, IsDone, Adds, side_of, sent_report, bytes_of, IsTicked, stalled_reports};

use crate::place::Place;
use link_end::{Sent, SentList};
use net_core::{Blob, Items, Memory, Player};
use script_lines::{Event, EventList};
use std::alloc::Global;

/// The end that sent a packet.
#[derive(Clone, Copy)]
pub(crate) enum Sender {
    Server,
    Client,
}

impl<'a> Place<'a> {
    /// The client ticks: what it sends is kept, and told, and so is whether its end stalls.
    pub fn tick(&mut self, alloc: Global, events: &mut EventList) -> Result<(), Memory>
        requires there { (layout : Layout) × (p : PlayerStory) × IsPlace layout self.old p }
        ensures { OnOk result ((layout : Layout) (edits : Edits)
            → Does layout (after_tick_of (table_in layout) edits AtClient)
            self.old self.new events.old events.new) }
    {
        let player = self.player;
        let ticked = self.client.tick()?;
        keep(
            alloc,
            Sender::Client,
            player,
            ticked.sent,
            &mut self.up,
            events,
        )?;
        tell_stall(Sender::Client, player, ticked.stalled, events)
    }

    /// The server's end of the player's connection ticked: what it sent is kept, and told, and so is
    /// whether it stalled.
    pub fn keep_sent(
        &mut self,
        alloc: Global,
        sent: SentList,
        stalled: bool,
        events: &mut EventList,
    ) -> Result<(), Memory>
        ensures { OnOk result ((layout : Layout) (edits : Edits) (p : PlayerStory)
            → IsTicked (table_in layout) edits AtServer p sent stalled → IsPlace layout self.old p
            → IsDone layout self.new events.old events.new
            (after_tick_of (table_in layout) edits AtServer p)) }
    {
        let player = self.player;
        keep(alloc, Sender::Server, player, sent, &mut self.down, events)?;
        tell_stall(Sender::Server, player, stalled, events)
    }
}

/// Keeps the packets that an end sent, and tells them.
fn keep(
    alloc: Global,
    sender: Sender,
    player: Player,
    sent: SentList,
    packets: &mut Items<Blob>,
    events: &mut EventList,
) -> Result<(), Memory>
    ensures kept { OnOk result (packets.new ≡ packets.old ++ map bytes_of sent) }
    ensures told { OnOk result ((table : Table) → Adds table events.old events.new
        (map (sent_report (side_of sender) player) sent)) }
{
    for packet in sent.into_vec() {
        keep_one(alloc, sender, player, packet, packets, events)?;
    }
    Ok(())
}

/// Keeps a packet that an end sent, and tells it.
fn keep_one(
    alloc: Global,
    sender: Sender,
    player: Player,
    packet: Sent,
    packets: &mut Items<Blob>,
    events: &mut EventList,
) -> Result<(), Memory>
    ensures kept { OnOk result (packets.new ≡ packets.old ++ packet.bytes ∷ []) }
    ensures told { OnOk result ((table : Table) → Adds table events.old events.new
        (sent_report (side_of sender) player packet ∷ [])) }
{
    let Sent { number, bytes } = packet;
    events.push(sent_event(sender, player, number, copied(alloc, bytes.as_slice())?))?;
    packets.push(bytes)
}

/// The same bytes.
fn copied(alloc: Global, bytes: &[u8]) -> Result<Blob, Memory>
    ensures { IfOk result (λ copy. copy ≡ bytes.now) }
{
    Ok(Blob::from_vec(Vec::from_slice(alloc, bytes)?))
}

/// A packet that an end sent, as it is told.
fn sent_event(sender: Sender, player: Player, packet: u64, bytes: Blob) -> Event
    ensures { (table : Table)
        → report_of table result ≡ SentReport (side_of sender) player packet bytes }
{
    match sender {
        Sender::Server => Event::Sent {
            player,
            packet,
            bytes,
        },
        Sender::Client => Event::ClientSent {
            player,
            packet,
            bytes,
        },
    }
}

/// Tells that an end stalled, if it did.
fn tell_stall(
    sender: Sender,
    player: Player,
    stalled: bool,
    events: &mut EventList,
) -> Result<(), Memory>
    ensures { OnOk result ((table : Table) → Adds table events.old events.new
        (stalled_reports (side_of sender) player stalled)) }
{
    if !stalled {
        return Ok(());
    }
    events.push(match sender {
        Sender::Server => Event::Stalled { player },
        Sender::Client => Event::ClientStalled { player },
    })
}
