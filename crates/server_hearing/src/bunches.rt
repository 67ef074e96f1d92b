// A bunch, and the whole payloads that it hands on.
ghost use Rattle.std.specs.Prelude.{◌≡◌, ◌-◌, List, length, IfOk, OnOk};
ghost use Rattle.protocol_model.specs.World.{Edits};
ghost use Rattle.protocol_model.specs.Search.{or_else};
ghost use Rattle.connection_model.specs.Feed.{End, Past, Entry, Delivered as DeliveredSpec};
ghost use Rattle.connection_model.specs.Verdict.{payload_cause};
ghost use Rattle.packet_codec.specs.Values.{bunch_of};
ghost use Rattle.receiving_laws.specs.Receiving.{Raw};
ghost use Rattle.incoming_channels.specs.Messages.{IsRaw, AreRaws};
ghost use Rattle.hearing_laws.specs.Courses.{Taking, during};
ghost use Rattle.hearing_laws.specs.Plain.{IsPlain, BeginPlain};
ghost use Rattle.shadow_changes.specs.Samples.{Samples};
ghost use Rattle.server_hearing.specs.Calls.{Knows};
ghost use Rattle.server_hearing.specs.Payloads.{Listens, IsPayload, AreHeard, IsHearing, IsBunch};

use crate::calls::hear_call;
use actor_sender::ActorSender;
use bit_io::Memory;
use channel_table::{Bunch, Cause, ChannelTable, Message};
use class_layout::HandedList;
use net_core::Player;
use payload_reading::Stop;
use std::alloc::Global;
use world_table::World;

/// Takes a bunch: its calls go behind those handed over before. Answers the rule that it breaks.
pub fn hear_bunch(
    alloc: Global,
    world: &World<'_>,
    player: Player,
    sender: &ActorSender,
    table: &mut ChannelTable,
    bunch: &Bunch<'_>,
    handed: &mut HandedList,
) -> Result<Option<Cause>, Memory>
    requires { (k : Taking) × (edits : Edits) × (entries : List Entry)
        × (payloads : List DeliveredSpec) × (samples : Samples)
        × IsHearing world.now sender.now table.old k edits (during k entries payloads) samples }
    ensures heard { IfOk result (λ broken. (k : Taking) (edits : Edits) (entries : List Entry)
        (payloads : List DeliveredSpec) (samples : Samples)
        → IsHearing world.now sender.now table.old k edits (during k entries payloads) samples
        → IsBunch world.now sender.now table.new k edits player samples entries payloads
        (bunch_of bunch.now) handed.old handed.new broken) }
    ensures made { OnOk result (table.new.made ≡ table.old.made) }
{
    let delivered = table.receive(bunch)?;
    let messages = delivered.whole.as_slice();
    let broken = hear_payloads(alloc, world, player, sender, table, messages, handed)?;
    Ok(first_of(broken, delivered.cause))
}

/// The first of two causes.
fn first_of(first: Option<Cause>, second: Option<Cause>) -> Option<Cause>
    ensures { result ≡ or_else first second }
{
    match first {
        Some(cause) => Some(cause),
        None => second,
    }
}

/// Reads payloads in order, up to the first that is bad.
fn hear_payloads(
    alloc: Global,
    world: &World<'_>,
    player: Player,
    sender: &ActorSender,
    table: &ChannelTable,
    messages: &[Message],
    handed: &mut HandedList,
) -> Result<Option<Cause>, Memory>
    requires { (edits : Edits) × (past : Past) × (samples : Samples)
        × Knows world.now sender.now edits past samples }
    ensures { IfOk result (λ broken. (k : Taking) (edits : Edits) (entries : List Entry)
        (payloads : List DeliveredSpec) (samples : Samples) (raws : List Raw)
        → Listens world.now sender.now table.now k.end edits (during k entries payloads) samples
        → AreRaws raws messages.now → BeginPlain raws
        → AreHeard k world.now.layout edits player entries payloads raws handed.old handed.new
        broken) }
{
    for message in messages {
        if let Some(cause) = hear_payload(alloc, world, player, sender, table, message, handed)? {
            return Ok(Some(cause));
        }
    }
    Ok(None)
}

/// Reads a payload, and hands over the call that it is.
fn hear_payload(
    alloc: Global,
    world: &World<'_>,
    player: Player,
    sender: &ActorSender,
    table: &ChannelTable,
    message: &Message,
    handed: &mut HandedList,
) -> Result<Option<Cause>, Memory>
    requires { (edits : Edits) × (past : Past) × (samples : Samples)
        × Knows world.now sender.now edits past samples }
    ensures { IfOk result (λ broken. (end : End) (edits : Edits) (past : Past) (samples : Samples)
        (raw : Raw) → Listens world.now sender.now table.now end edits past samples
        → IsRaw raw message.now → IsPlain raw.0
        → IsPayload end world.now.layout edits player past raw handed.old handed.new broken) }
{
    match hear_call(alloc, world, player, sender, table, message) {
        Ok(call) => {
            handed.push(call)?;
            Ok(None)
        }
        Err(Stop::Memory) => Err(Memory),
        Err(Stop::Short) => Ok(Some(bad_payload(message, 0))),
        Err(Stop::Broken { left, cause: None }) => Ok(Some(bad_payload(message, left))),
        Err(
            Stop::Broken {
                cause: Some(cause),
                ..
            },
        ) => Ok(Some(cause)),
    }
}

/// A payload that is bad so many bits before its end.
fn bad_payload(message: &Message, left: usize) -> Cause
    ensures { result ≡ Cause.BadPayload message.now.channel (length message.now.bits - left) }
{
    Cause::BadPayload {
        channel: message.channel,
        at: message.bits.len().saturating_sub(left),
    }
}
