// One call of a player, as the server reads it and judges it.
ghost use Rattle.std.specs.Prelude.{◌≡◌, ◌<◌, ◌&&◌, ◌==◌, not, length, option_map, IfSome};
ghost use Rattle.protocol_model.specs.World.{Edits, class_at as class_in};
ghost use Rattle.protocol_model.specs.Reading.{bit_at};
ghost use Rattle.connection_model.specs.Feed.{Past};
ghost use Rattle.connection_model.specs.Handed.{server_verdict};
ghost use Rattle.connection_model.specs.State.{opened_class, holds as holds_in};
ghost use Rattle.connection_model.specs.PayloadReading.{field};
ghost use Rattle.class_layout.specs.Tables.{table_in};
ghost use Rattle.world_table.specs.Stands.{Stands as StandsWorld};
ghost use Rattle.payload_reading.specs.Reads.{Follows, itself};
ghost use Rattle.shadow_changes.specs.Samples.{Samples};
ghost use Rattle.server_hearing.specs.Calls.{Knows, AreBound, opened_call_at, player_call_at, call_payload, judged, is_owner as is_owner_of, IsJudged};

use actor_sender::ActorSender;
use bit_io::BitReader;
use channel_table::{ChannelTable, Message};
use class_layout::{CallVerdict, Handed};
use net_core::{Guid, Player, Steps};
use payload_reading::{ReadCall, Stop, actor, bit, class_at, read_call};
use protocol_model::Cause;
use std::alloc::Global;
use std::marker::Brand;
use std::sync::ledger::{Blank, Ledger};
use world_table::{Look, World};

/// A call that was read, of an actor that was opened as the class at this place.
#[derive(Debug, Drop)]
pub struct PlayerCall {
    pub actor: Guid,
    pub class: u16,
    pub call: ReadCall,
}

/// Reads a whole payload as a call, and judges it.
pub fn hear_call(
    alloc: Global,
    world: &World<'_>,
    player: Player,
    sender: &ActorSender,
    table: &ChannelTable,
    message: &Message,
) -> Result<Handed, Stop>
    requires { (edits : Edits) × (past : Past) × (samples : Samples)
        × Knows world.now sender.now edits past samples }
    ensures { (edits : Edits) (past : Past) (samples : Samples)
        → Knows world.now sender.now edits past samples → AreBound table.now past
        → IsJudged world.now.layout edits player past message.now result }
{
    let bits = message.bits.lend();
    let mut reader = bits.reader();
    let (channel, reliable) = (message.channel, message.reliable);
    let read = player_call(alloc, &mut reader, world, sender, channel, reliable)?;
    let held = holds(table, read.actor, channel);
    let verdict = verdict_on::<Brand>(world, player, read.actor, held, Blank::new(1));
    let PlayerCall { actor, class, call } = read;
    Ok(Handed {
        actor,
        class,
        call: call.number,
        verdict,
        args: call.args,
    })
}

/// A call, on a channel above 0.
fn player_call(
    alloc: Global,
    reader: &mut BitReader<'_>,
    world: &World<'_>,
    sender: &ActorSender,
    channel: u16,
    reliable: bool,
) -> Result<PlayerCall, Stop>
    requires { (edits : Edits) × (past : Past) × (samples : Samples)
        × Knows world.now sender.now edits past samples }
    ensures { (edits : Edits) (past : Past) (samples : Samples)
        → Knows world.now sender.now edits past samples
        → Follows (call_payload world.now.layout) (player_call_at past channel reliable)
        reader.old reader.new result }
{
    first_bit(reader, channel)?;
    opened_call(alloc, reader, world, sender, reliable)
}

/// The first bit of a payload: that of a call is 1, and calls come on channels above 0.
fn first_bit(reader: &mut BitReader<'_>, channel: u16) -> Result<bool, Stop>
    ensures { Follows itself (field bit_at (λ is_call. is_call && not (channel == 0)))
        reader.old reader.new result }
{
    let left = reader.left();
    let is_call = bit(reader)?;
    if !is_call || channel == 0 {
        return Err(Stop::Broken { left, cause: None });
    }
    Ok(is_call)
}

/// A call of an actor that was ever opened.
fn opened_call(
    alloc: Global,
    reader: &mut BitReader<'_>,
    world: &World<'_>,
    sender: &ActorSender,
    reliable: bool,
) -> Result<PlayerCall, Stop>
    requires { (edits : Edits) × (past : Past) × (samples : Samples)
        × Knows world.now sender.now edits past samples }
    ensures { (edits : Edits) (past : Past) (samples : Samples)
        → Knows world.now sender.now edits past samples
        → Follows (call_payload world.now.layout) (opened_call_at past reliable)
        reader.old reader.new result }
{
    let actor = actor(reader)?;
    let left = reader.left();
    let Some(class) = class_opened::<Brand>(world, sender, actor, Blank::new(1)) else {
        return Err(Stop::Broken {
            left,
            cause: Some(Cause::UnknownGuid { guid: actor.0 }),
        });
    };
    let call = read_call(
        alloc,
        reader,
        class_at(world.classes(), class),
        true,
        reliable,
    )?;
    Ok(PlayerCall { actor, class, call })
}

/// The class, by its place, of an actor that was ever opened.
fn class_opened<L: Ledger>(
    world: &World<'_>,
    sender: &ActorSender,
    actor: Guid,
    blank: Blank,
) -> Option<u16>
    requires name { blank.name ≡ L.name }
    requires parts { blank.parts ≡ L.parts }
    requires some { 0 < L.parts }
    ensures class { (edits : Edits) (past : Past) (samples : Samples)
        → Knows world.now sender.now edits past samples
        → option_map (class_in (table_in world.now.layout)) result ≡ opened_class past actor }
    ensures within { IfSome result (λ place. (edits : Edits) (past : Past) (samples : Samples)
        → Knows world.now sender.now edits past samples
        → place < length world.now.layout.classes) }
{
    if !sender.was_opened(actor) {
        return None;
    }
    let mut steps = Steps::<L>::new(blank);
    let look = world.look(actor, &mut steps)?;
    Some(look.class)
}

/// The actor holds the channel.
fn holds(table: &ChannelTable, actor: Guid, channel: u16) -> bool
    ensures { (past : Past) → AreBound table.now past → result ≡ holds_in past actor channel }
{
    match table.channel_of(actor) {
        Some(held) => held == channel,
        None => false,
    }
}

/// What is to be done with a call of the actor, by the world as it stands.
fn verdict_on<L: Ledger>(
    world: &World<'_>,
    player: Player,
    actor: Guid,
    held: bool,
    blank: Blank,
) -> CallVerdict
    requires name { blank.name ≡ L.name }
    requires parts { blank.parts ≡ L.parts }
    requires some { 0 < L.parts }
    ensures { (edits : Edits) → StandsWorld world.now edits
        → result ≡ server_verdict edits player actor held }
{
    let mut steps = Steps::<L>::new(blank);
    match world.look(actor, &mut steps) {
        Some(look) => verdict_by(&look, player, held),
        None => CallVerdict::Stale,
    }
}

/// What is to be done with a call of an actor that stands so.
fn verdict_by(look: &Look, player: Player, held: bool) -> CallVerdict
    ensures { result ≡ judged player look.now held }
{
    if !(look.alive && held) {
        return CallVerdict::Stale;
    }
    if is_owner(look.owner, player) {
        CallVerdict::Run
    } else {
        CallVerdict::NotOwner
    }
}

/// The player is the owner.
fn is_owner(owner: Option<Player>, player: Player) -> bool
    ensures { result ≡ is_owner_of player owner }
{
    match owner {
        Some(owner) => owner == player,
        None => false,
    }
}
