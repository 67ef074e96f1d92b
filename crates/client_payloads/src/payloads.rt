// Payloads that don't open, each from its first bit on.
ghost use Rattle.std.specs.Prelude.{◌≡◌, ◌==◌, ◌<◌, ◌||◌, not, length};
ghost use Rattle.protocol_model.specs.Reading.{bit_at};
ghost use Rattle.connection_model.specs.PayloadReading.{number_at, field};
ghost use Rattle.payload_reading.specs.Reads.{Follows, itself};
ghost use Rattle.actor_copies.specs.Kept.{kept_of, ArePlaced};
ghost use Rattle.client_payloads.specs.Readings.{gone_in, call_in, update_in, is_asleep as is_asleep_copy, unopened_in};
ghost use Rattle.client_payloads.specs.Messages.{gone_message, call_payload, update_payload, unopened_payload};

use actor_copies::CopyList;
use bit_io::BitReader;
use class_layout::{Classes, Guid, PairList};
use payload_reading::{
    ReadCall, Stop, actor, bit, class_at, nothing_left, number, read_call, read_some_values,
};
use protocol_model::Cause;
use std::alloc::Global;

/// A call of the server that was read, of an actor whose copy has the class at this place.
#[derive(Debug, Drop)]
pub struct ReadPeerCall {
    pub actor: Guid,
    pub class: u16,
    pub call: ReadCall,
}

/// A payload that doesn't open, as it was read.
#[derive(Debug, Drop)]
pub enum Payload {
    Gone(Guid),
    Close,
    Update(PairList),
    Call(ReadPeerCall),
}

/// What the bunch with which a payload began says of it.
#[derive(Clone, Copy, Debug)]
pub struct First {
    pub channel: u16,
    pub closes: bool,
    pub sleeps: bool,
    pub reliable: bool,
}

/// A payload that doesn't open, by the channel and the flags of its first bunch.
///
/// `UnknownGuid` comes for a Gone of an actor without a sleeping copy and for a call of one
/// without a copy, `BadChannel` for an update of a channel that no copy holds.
pub fn unopened(
    alloc: Global,
    reader: &mut BitReader<'_>,
    classes: &Classes,
    copies: &CopyList,
    first: First,
) -> Result<Payload, Stop>
    requires { ArePlaced (length classes.now.classes) copies.now }
    ensures { Follows (unopened_payload classes.now copies.now first.channel first.sleeps)
        (unopened_in classes.now copies.now first.channel first.closes first.sleeps first.reliable)
        reader.old reader.new result }
{
    if first.channel == 0 {
        return Ok(Payload::Gone(gone(reader, copies)?));
    }
    if first.closes {
        nothing_left(reader)?;
        return Ok(Payload::Close);
    }
    if is_call(reader, first.reliable)? {
        let call = peer_call(alloc, reader, classes, copies, first.reliable)?;
        return Ok(Payload::Call(call));
    }
    let values = update(alloc, reader, classes, copies, first.channel)?;
    Ok(Payload::Update(values))
}

/// A Gone of a sleeping copy.
fn gone(reader: &mut BitReader<'_>, copies: &CopyList) -> Result<Guid, Stop>
    ensures { Follows gone_message (gone_in copies.now) reader.old reader.new result }
{
    form_of_gone(reader)?;
    let actor = actor(reader)?;
    let left = reader.left();
    if !is_asleep(copies, actor) {
        return Err(Stop::Broken {
            left,
            cause: Some(Cause::UnknownGuid { guid: actor.0 }),
        });
    }
    nothing_left(reader)?;
    Ok(actor)
}

/// The number with which a Gone begins.
fn form_of_gone(reader: &mut BitReader<'_>) -> Result<u32, Stop>
    ensures { Follows itself (field number_at (λ n. n == 1)) reader.old reader.new result }
{
    let left = reader.left();
    let n = number(reader)?;
    if n != 1 {
        return Err(Stop::Broken { left, cause: None });
    }
    Ok(n)
}

/// The actor has a copy without a channel.
fn is_asleep(copies: &CopyList, actor: Guid) -> bool
    ensures { result ≡ is_asleep_copy (kept_of copies.now actor) }
{
    match copies.of_actor(actor) {
        Some(copy) => copy.channel.is_none(),
        None => false,
    }
}

/// The first bit of a plain payload: that of a call is 1, and an update is unreliable.
fn is_call(reader: &mut BitReader<'_>, reliable: bool) -> Result<bool, Stop>
    ensures { Follows itself (field bit_at (λ is_call. is_call || not reliable))
        reader.old reader.new result }
{
    let left = reader.left();
    let is_call = bit(reader)?;
    if !is_call && reliable {
        return Err(Stop::Broken { left, cause: None });
    }
    Ok(is_call)
}

/// A call of an actor with a copy.
fn peer_call(
    alloc: Global,
    reader: &mut BitReader<'_>,
    classes: &Classes,
    copies: &CopyList,
    reliable: bool,
) -> Result<ReadPeerCall, Stop>
    requires { ArePlaced (length classes.now.classes) copies.now }
    ensures { Follows (call_payload classes.now) (call_in classes.now copies.now reliable)
        reader.old reader.new result }
{
    let actor = actor(reader)?;
    let left = reader.left();
    let Some(copy) = copies.of_actor(actor) else {
        return Err(Stop::Broken {
            left,
            cause: Some(Cause::UnknownGuid { guid: actor.0 }),
        });
    };
    let class = copy.class;
    let call = read_call(alloc, reader, class_at(classes, class), false, reliable)?;
    Ok(ReadPeerCall { actor, class, call })
}

/// The values of an update of the copy that holds a channel.
fn update(
    alloc: Global,
    reader: &mut BitReader<'_>,
    classes: &Classes,
    copies: &CopyList,
    channel: u16,
) -> Result<PairList, Stop>
    requires { ArePlaced (length classes.now.classes) copies.now }
    ensures { Follows (update_payload classes.now copies.now channel)
        (update_in classes.now copies.now channel) reader.old reader.new result }
{
    let left = reader.left();
    let Some(copy) = copies.on_channel(channel) else {
        return Err(Stop::Broken {
            left,
            cause: Some(Cause::BadChannel { channel }),
        });
    };
    let values = read_some_values(alloc, reader, class_at(classes, copy.class))?;
    nothing_left(reader)?;
    Ok(values)
}
