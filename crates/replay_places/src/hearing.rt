// What a player's client hears and is asked to do.
ghost use Rattle.std.specs.Prelude.{◌≡◌, ◌≤◌, ◌++◌, ℕ, map, OnOk, IfOk, if◌then◌else◌};
ghost use Rattle.protocol_model.specs.Side.{AtClient};
ghost use Rattle.protocol_model.specs.World.{Edits};
ghost use Rattle.connection_model.specs.Feed.{Past};
ghost use Rattle.connection_model.specs.Verdict.{verdict_of, after_got};
ghost use Rattle.replication_model.specs.Story.{Player as PlayerStory, after_delivery, after_new_deliveries, after_forgery, after_call_of, is_kept as is_kept_in};
ghost use Rattle.class_layout.specs.Tables.{Layout, table_in};
ghost use Rattle.value_codec.specs.Values.{arg_of};
ghost use Rattle.client_world.specs.Played.{Plays, end_of, handovers_in};
ghost use Rattle.handovers.specs.Handovers.{handover_of};
ghost use Rattle.replay_places.specs.Places.{IsPlace};
ghost use Rattle.replay_places.specs.Doing.{Does, Adds, handover_reports, kept_delivery};

use crate::place::Place;
use client_world::Client;
use handovers::HandedList;
use net_core::{Guid, Memory, Player};
use protocol_model::Verdict;
use protocol_model::limits::LATE_DISTANCE;
use script_lines::{Delivery, Event, EventList};
use value_codec::Arg;

impl<'a> Place<'a> {
    /// The server's packet of a number is delivered to the client, unless it was never sent or is
    /// late.
    pub fn deliver(&mut self, packet: u64, events: &mut EventList) -> Result<(), Memory>
        requires first { 1 ≤ packet }
        requires there { (layout : Layout) × (p : PlayerStory) × IsPlace layout self.old p }
        ensures { OnOk result ((layout : Layout) (edits : Edits)
            → Does layout (after_delivery (table_in layout) edits AtClient packet)
            self.old self.new events.old events.new) }
    {
        let player = self.player;
        let Some(bytes) = self.down.get((packet - 1) as usize) else {
            let answer = Delivery::Absent;
            return events.push(Event::Down {
                player,
                packet,
                answer,
            });
        };
        if packet < self.client.last_taken().saturating_sub(LATE_DISTANCE) {
            let answer = Delivery::Late;
            return events.push(Event::Down {
                player,
                packet,
                answer,
            });
        }
        let verdict = hear(&mut self.client, player, bytes.as_slice(), events)?;
        let answer = Delivery::Says(verdict);
        events.push(Event::Down {
            player,
            packet,
            answer,
        })
    }

    /// Each packet of the server since the last call of this kind is delivered to the client, but
    /// those whose number is a multiple of `every`; 0 loses none.
    pub fn deliver_new(&mut self, every: u32, events: &mut EventList) -> Result<(), Memory>
        requires there { (layout : Layout) × (p : PlayerStory) × IsPlace layout self.old p }
        ensures { OnOk result ((layout : Layout) (edits : Edits)
            → Does layout (after_new_deliveries (table_in layout) edits AtClient every)
            self.old self.new events.old events.new) }
    {
        let from = self.told_down;
        let to = self.down.len();
        self.told_down = to;
        for place in from..to {
            self.deliver_kept(every, place as u64 + 1, events)?;
        }
        Ok(())
    }

    /// The server's packet is delivered, unless its number is a multiple of `every`.
    fn deliver_kept(
        &mut self,
        every: u32,
        packet: u64,
        events: &mut EventList,
    ) -> Result<(), Memory>
        requires first { 1 ≤ packet }
        requires there { (layout : Layout) × (p : PlayerStory) × IsPlace layout self.old p }
        ensures { OnOk result ((layout : Layout) (edits : Edits)
            → Does layout (kept_delivery (table_in layout) edits AtClient every packet)
            self.old self.new events.old events.new) }
    {
        if !is_kept(every, packet) {
            return Ok(());
        }
        self.deliver(packet, events)
    }

    /// Bytes that nobody sent reach the client.
    pub fn forge(&mut self, bytes: &[u8], events: &mut EventList) -> Result<(), Memory>
        requires there { (layout : Layout) × (p : PlayerStory) × IsPlace layout self.old p }
        ensures { OnOk result ((layout : Layout) (edits : Edits)
            → Does layout (after_forgery (table_in layout) edits AtClient bytes.now)
            self.old self.new events.old events.new) }
    {
        let player = self.player;
        let verdict = hear(&mut self.client, player, bytes, events)?;
        events.push(Event::ClientForged { player, verdict })
    }

    /// The client makes a call.
    pub fn call(
        &mut self,
        actor: Guid,
        call: u16,
        args: &[Arg],
        events: &mut EventList,
    ) -> Result<(), Memory>
        requires there { (layout : Layout) × (p : PlayerStory) × IsPlace layout self.old p }
        ensures { OnOk result ((layout : Layout)
            → Does layout
            (after_call_of (table_in layout) AtClient actor call (map arg_of args.now))
            self.old self.new events.old events.new) }
    {
        let player = self.player;
        let answer = self.client.call(actor, call, args)?;
        events.push(Event::ClientCalled { player, answer })
    }
}

/// The packet's number is no multiple of `every`, or that is 0.
pub fn is_kept(every: u32, packet: u64) -> bool
    ensures { result ≡ is_kept_in every packet }
{
    if every == 0 {
        return true;
    }
    packet % u64::from(every) != 0
}

/// The client hears a datagram: tells the calls that it hands over, and answers what it says.
pub fn hear(
    client: &mut Client<'_>,
    player: Player,
    bytes: &[u8],
    events: &mut EventList,
) -> Result<Verdict, Memory>
    requires there { (past : Past) × Plays client.old past }
    ensures says { IfOk result (λ verdict. (past : Past) → Plays client.old past
        → verdict ≡ verdict_of (end_of client.old) past bytes.now) }
    ensures told { OnOk result ((past : Past) → Plays client.old past
        → Adds (table_in client.old.layout) events.old events.new
        (handover_reports AtClient player (handovers_in (end_of client.old) past bytes.now))) }
    ensures plays { OnOk result ((past : Past) → Plays client.old past
        → Plays client.new (after_got (end_of client.old) past bytes.now)) }
    ensures layout { client.new.layout ≡ client.old.layout }
    ensures version { client.new.version ≡ client.old.version }
{
    let outcome = client.take(bytes)?;
    tell_handed(player, outcome.handed, events)?;
    Ok(outcome.verdict)
}

/// Appends the calls that a datagram handed over to the client.
fn tell_handed(player: Player, calls: HandedList, events: &mut EventList) -> Result<(), Memory>
    ensures { OnOk result ((layout : Layout) → Adds (table_in layout) events.old events.new
        (handover_reports AtClient player (map (handover_of layout) calls))) }
{
    for handed in calls.into_vec() {
        events.push(Event::ClientHanded { player, handed })?;
    }
    Ok(())
}
