// What the server does of lines, and what it is told.
ghost use Rattle.std.specs.Prelude.{◌≡◌, ◌≤◌, ◌<◌, ℕ, List, map, OnOk, IfOk};
ghost use Rattle.protocol_model.specs.Side.{AtServer};
ghost use Rattle.protocol_model.specs.World.{Edits};
ghost use Rattle.replication_model.specs.Story.{Player as PlayerStory, after_delivery, after_new_deliveries, after_forgery, after_call_of, settled_answer, after_tick_of};
ghost use Rattle.class_layout.specs.Tables.{Layout, table_in};
ghost use Rattle.value_codec.specs.Values.{arg_of};
ghost use Rattle.handovers.specs.Handovers.{handover_of};
ghost use Rattle.net_driver.specs.Calls.{IsMade};
ghost use Rattle.replay_places.specs.Places.{IsPlace};
ghost use Rattle.replay_places.specs.Doing.{Adds, handover_reports, kept_delivery};
ghost use Rattle.replay_core.specs.Stands.{Serving, ArePlaces, Ascend};
ghost use Rattle.replay_core.specs.Lines.{IsAt, Hears, Serves, DoesAt, AreTicked, AreServed, AreKept, all_after};

use class_layout::Arg;
use handovers::HandedList;
use net_core::{Guid, Memory, Player, Steps};
use net_driver::{Driver, PlayerTick, TickList};
use protocol_model::Verdict;
use protocol_model::limits::LATE_DISTANCE;
use replay_places::{Place, is_kept};
use script_lines::{Delivery, Event, EventList};
use std::alloc::Global;
use std::sync::ledger::{Blank, Ledger};

// ---- what a player's end hears

/// A packet of a player's client is delivered to the server, unless it was never sent or is late.
pub(crate) fn deliver(
    driver: &mut Driver<'_>,
    place: &Place<'_>,
    packet: u64,
    events: &mut EventList,
) -> Result<(), Memory>
    requires first { 1 ≤ packet }
    requires there { (layout : Layout) × (edits : Edits) × (players : List PlayerStory) × (i : ℕ)
        × (p : PlayerStory) × Serving layout driver.old edits players × IsAt players i p
        × IsPlace layout place.now p }
    ensures { OnOk result ((layout : Layout) → DoesAt layout
        (λ edits. after_delivery (table_in layout) edits AtServer packet)
        driver.old driver.new place.now place.now events.old events.new) }
{
    let player = place.player;
    let Some(bytes) = place.up.get((packet - 1) as usize) else {
        let answer = Delivery::Absent;
        return events.push(Event::Up {
            player,
            packet,
            answer,
        });
    };
    if packet < driver.last_taken(player).saturating_sub(LATE_DISTANCE) {
        let answer = Delivery::Late;
        return events.push(Event::Up {
            player,
            packet,
            answer,
        });
    }
    let verdict = hear(driver, player, bytes.as_slice(), events)?;
    let answer = Delivery::Says(verdict);
    events.push(Event::Up {
        player,
        packet,
        answer,
    })
}

/// Each packet of a player's client since the last call of this kind is delivered to the server, but
/// those whose number is a multiple of `every`; 0 loses none.
pub(crate) fn deliver_new(
    driver: &mut Driver<'_>,
    place: &mut Place<'_>,
    every: u32,
    events: &mut EventList,
) -> Result<(), Memory>
    requires there { (layout : Layout) × (edits : Edits) × (players : List PlayerStory) × (i : ℕ)
        × (p : PlayerStory) × Serving layout driver.old edits players × IsAt players i p
        × IsPlace layout place.old p }
    ensures { OnOk result ((layout : Layout) → DoesAt layout
        (λ edits. after_new_deliveries (table_in layout) edits AtServer every)
        driver.old driver.new place.old place.new events.old events.new) }
{
    let from = place.told_up;
    let to = place.up.len();
    place.told_up = to;
    for k in from..to {
        deliver_kept(driver, place, every, k as u64 + 1, events)?;
    }
    Ok(())
}

/// The packet is delivered, unless its number is a multiple of `every`.
fn deliver_kept(
    driver: &mut Driver<'_>,
    place: &Place<'_>,
    every: u32,
    packet: u64,
    events: &mut EventList,
) -> Result<(), Memory>
    requires first { 1 ≤ packet }
    requires there { (layout : Layout) × (edits : Edits) × (players : List PlayerStory) × (i : ℕ)
        × (p : PlayerStory) × Serving layout driver.old edits players × IsAt players i p
        × IsPlace layout place.now p }
    ensures { OnOk result ((layout : Layout) → DoesAt layout
        (λ edits. kept_delivery (table_in layout) edits AtServer every packet)
        driver.old driver.new place.now place.now events.old events.new) }
{
    if !is_kept(every, packet) {
        return Ok(());
    }
    deliver(driver, place, packet, events)
}

/// Bytes that nobody sent reach the server as from a player.
pub(crate) fn forge(
    driver: &mut Driver<'_>,
    player: Player,
    bytes: &[u8],
    events: &mut EventList,
) -> Result<(), Memory>
    requires there { (layout : Layout) × (edits : Edits) × (players : List PlayerStory) × (i : ℕ)
        × (p : PlayerStory) × Serving layout driver.old edits players × IsAt players i p
        × (player ≡ p.number) }
    ensures { OnOk result ((layout : Layout) → Serves layout
        (λ edits. after_forgery (table_in layout) edits AtServer bytes.now)
        player driver.old driver.new events.old events.new) }
{
    let verdict = hear(driver, player, bytes, events)?;
    events.push(Event::Forged { player, verdict })
}

/// A player's end hears a datagram: the calls that it hands over are told, and what it says is
/// answered.
pub fn hear(
    driver: &mut Driver<'_>,
    player: Player,
    bytes: &[u8],
    events: &mut EventList,
) -> Result<Verdict, Memory>
    requires there { (layout : Layout) × (edits : Edits) × (players : List PlayerStory) × (i : ℕ)
        × (p : PlayerStory) × Serving layout driver.old edits players × IsAt players i p
        × (player ≡ p.number) }
    ensures { IfOk result (λ verdict. (layout : Layout)
        → Hears layout player bytes.now verdict driver.old driver.new events.old events.new) }
{
    let outcome = driver.take(player, bytes)?;
    tell_handed(player, outcome.handed, events)?;
    Ok(outcome.verdict)
}

/// Appends the calls that a datagram handed over to the server.
fn tell_handed(player: Player, calls: HandedList, events: &mut EventList) -> Result<(), Memory>
    ensures { OnOk result ((layout : Layout) → Adds (table_in layout) events.old events.new
        (handover_reports AtServer player (map (handover_of layout) calls))) }
{
    for handed in calls.into_vec() {
        events.push(Event::Handed { player, handed })?;
    }
    Ok(())
}

// ---- what it is asked

/// The server makes a call to a player.
pub fn call(
    driver: &mut Driver<'_>,
    player: Player,
    actor: Guid,
    number: u16,
    args: &[Arg],
    events: &mut EventList,
) -> Result<(), Memory>
    requires there { (layout : Layout) × (edits : Edits) × (players : List PlayerStory) × (i : ℕ)
        × (p : PlayerStory) × Serving layout driver.old edits players × IsAt players i p
        × (player ≡ p.number) × IsMade (table_in layout) edits actor number args.now }
    ensures { OnOk result ((layout : Layout) → Serves layout
        (λ edits. after_call_of (table_in layout) AtServer actor number (map arg_of args.now))
        player driver.old driver.new events.old events.new) }
{
    let answer = driver.call(player, actor, number, args)?;
    events.push(Event::Called { player, answer })
}

/// The server makes a call to each player.
pub(crate) fn call_each(
    driver: &mut Driver<'_>,
    places: &[Place<'_>],
    actor: Guid,
    number: u16,
    args: &[Arg],
    events: &mut EventList,
) -> Result<(), Memory>
    requires there { (layout : Layout) × (edits : Edits) × (players : List PlayerStory)
        × Serving layout driver.old edits players × Ascend 0 players
        × ArePlaces layout places.now players
        × IsMade (table_in layout) edits actor number args.now }
    ensures { OnOk result ((layout : Layout) (edits : Edits) (players : List PlayerStory)
        → Serving layout driver.old edits players → Ascend 0 players
        → ArePlaces layout places.now players
        → AreServed layout driver.new events.old events.new edits
        (after_call_of (table_in layout) AtServer actor number (map arg_of args.now)) players) }
{
    for place in places {
        call(driver, place.player, actor, number, args, events)?;
    }
    Ok(())
}

/// Whether nothing of an actor is left to be sent to a player is told.
pub fn settled(
    driver: &Driver<'_>,
    player: Player,
    actor: Guid,
    events: &mut EventList,
) -> Result<(), Memory>
    requires there { (layout : Layout) × (edits : Edits) × (players : List PlayerStory) × (i : ℕ)
        × (p : PlayerStory) × Serving layout driver.now edits players × IsAt players i p
        × (player ≡ p.number) }
    ensures { OnOk result ((layout : Layout) → Serves layout
        (λ edits. settled_answer (table_in layout) edits actor)
        player driver.now driver.now events.old events.new) }
{
    let holds = driver.settled(player, actor)?;
    events.push(Event::Settled {
        player,
        actor,
        holds,
    })
}

// ---- ticks

/// The server ticks.
pub fn tick<L: Ledger>(driver: &mut Driver<'_>, blank: Blank) -> Result<TickList, Memory>
    requires name { blank.name ≡ L.name }
    requires parts { blank.parts ≡ L.parts }
    requires some { 0 < L.parts }
    requires there { (layout : Layout) × (edits : Edits) × (players : List PlayerStory)
        × Serving layout driver.old edits players }
    ensures sent { IfOk result (λ ticks. (layout : Layout) (edits : Edits)
        (players : List PlayerStory) → Serving layout driver.old edits players
        → AreTicked (table_in layout) edits players ticks) }
    ensures serves { OnOk result ((layout : Layout) (edits : Edits)
        (players : List PlayerStory) → Serving layout driver.old edits players
        → Serving layout driver.new edits
        (all_after (after_tick_of (table_in layout) edits AtServer) players)) }
{
    let mut steps = Steps::<L>::new(blank);
    driver.tick(&mut steps)
}

/// What each player was sent is kept at the player's place, and told.
pub(crate) fn keep_all(
    alloc: Global,
    places: &mut Vec<Place<'_>>,
    ticks: TickList,
    events: &mut EventList,
) -> Result<(), Memory>
    ensures { OnOk result ((layout : Layout) (edits : Edits) (players : List PlayerStory)
        → ArePlaces layout places.old.items players
        → AreTicked (table_in layout) edits players ticks
        → AreKept layout places.new.items events.old events.new
        (after_tick_of (table_in layout) edits AtServer) players) }
{
    let mut left = ticks.into_vec().into_iter();
    let count = places.len();
    for i in 0..count {
        let Some(ticked) = left.next() else {
            return Ok(());
        };
        let PlayerTick { sent, stalled, .. } = ticked;
        places[i].keep_sent(alloc, sent, stalled, events)?;
    }
    Ok(())
}
