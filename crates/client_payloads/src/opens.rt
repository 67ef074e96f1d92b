// Opens: the names that they export, and the copies that they begin or wake.
ghost use Rattle.std.specs.Prelude.{◌≡◌, ◌<◌, List, length, IfOk};
ghost use Rattle.protocol_model.specs.Value.{Segment, class_guid};
ghost use Rattle.protocol_model.specs.World.{class_at as class_in};
ghost use Rattle.connection_model.specs.PayloadReading.{is_elsewhere as is_on_other, is_other_class};
ghost use Rattle.class_layout.specs.Tables.{table_in};
ghost use Rattle.netguid_map.specs.Names.{Stands};
ghost use Rattle.payload_reading.specs.Reads.{Follows, itself};
ghost use Rattle.actor_copies.specs.Applied.{open_message};
ghost use Rattle.actor_copies.specs.Kept.{ArePlaced};
ghost use Rattle.client_payloads.specs.Readings.{class_kept, opening_in, opened_class_in, opened_in, against_open};
ghost use Rattle.client_payloads.specs.Messages.{place_class, IsNamed, IsOpenRead, last_of};

use crate::exports::exports;
use actor_copies::{CopyList, ReadOpen};
use bit_io::BitReader;
use class_layout::{Classes, Guid};
use netguid_map::Names;
use payload_reading::{Stop, actor, class_at, nothing_left, number, read_values};
use protocol_model::Cause;
use protocol_model::limits::COPY_LIMIT;
use std::alloc::Global;

/// An open that came on a channel: its exports are learnt, where its flag says that there are some,
/// and it is read by the names that are known then. The class that it answers is one of the table.
///
/// In this order: the causes of a name (`UnknownGuid` of its outer, `Clash`, `NamesFull`); `Clash`
/// of an actor whose copy is on another channel; `ActorsFull` at the 8,193rd copy; `UnknownGuid`
/// of what names no class; `Clash` of an actor whose copy is of another class.
pub fn open(
    alloc: Global,
    reader: &mut BitReader<'_>,
    classes: &Classes,
    names: &mut Names,
    copies: &CopyList,
    channel: u16,
    has_exports: bool,
) -> Result<ReadOpen, Stop>
    requires { ArePlaced (length classes.now.classes) copies.now }
    ensures exact { (known : List Segment) → Stands names.old known
        → IsOpenRead classes.now copies.now channel has_exports known
        reader.old reader.new names.new result }
    ensures class { IfOk result (λ o. o.class < length classes.now.classes) }
{
    exports(alloc, reader, names, has_exports)?;
    opened(alloc, reader, classes, names, copies, channel)
}

/// An open behind its exports, whose names are learnt by now.
fn opened(
    alloc: Global,
    reader: &mut BitReader<'_>,
    classes: &Classes,
    names: &Names,
    copies: &CopyList,
    channel: u16,
) -> Result<ReadOpen, Stop>
    requires { ArePlaced (length classes.now.classes) copies.now }
    ensures exact { (known exports : List Segment) → Stands names.now known
        → Follows (open_message classes.now exports)
        (opened_in classes.now copies.now channel known exports) reader.old reader.new result }
    ensures class { IfOk result (λ o. o.class < length classes.now.classes) }
{
    let actor = opening(reader, copies, channel)?;
    let class = opened_class(reader, classes, names, copies, actor)?;
    let values = read_values(alloc, reader, class_at(classes, class))?;
    nothing_left(reader)?;
    Ok(ReadOpen {
        actor,
        class,
        values,
    })
}

/// The actor of an open.
fn opening(reader: &mut BitReader<'_>, copies: &CopyList, channel: u16) -> Result<Guid, Stop>
    ensures { Follows itself (opening_in copies.now channel) reader.old reader.new result }
{
    let actor = actor(reader)?;
    let left = reader.left();
    match against(copies, channel, actor) {
        Some(cause) => Err(Stop::Broken {
            left,
            cause: Some(cause),
        }),
        None => Ok(actor),
    }
}

/// What stands against an open of the actor on the channel.
fn against(copies: &CopyList, on: u16, actor: Guid) -> Option<Cause>
    ensures { result ≡ against_open copies.now on actor }
{
    let Some(copy) = copies.of_actor(actor) else {
        if copies.len() < COPY_LIMIT {
            return None;
        }
        return Some(Cause::ActorsFull);
    };
    if is_elsewhere(on, copy.channel) {
        return Some(Cause::Clash { guid: actor.0 });
    }
    None
}

/// There is a channel, and it is another one.
fn is_elsewhere(on: u16, channel: Option<u16>) -> bool
    ensures { result ≡ is_on_other on channel }
{
    match channel {
        Some(channel) => channel != on,
        None => false,
    }
}

/// The place of the class of an open.
fn opened_class(
    reader: &mut BitReader<'_>,
    classes: &Classes,
    names: &Names,
    copies: &CopyList,
    actor: Guid,
) -> Result<u16, Stop>
    requires { ArePlaced (length classes.now.classes) copies.now }
    ensures exact { (known : List Segment) → Stands names.now known
        → Follows (place_class classes.now) (opened_class_in classes.now copies.now known actor)
        reader.old reader.new result }
    ensures within { IfOk result (λ place. place < length classes.now.classes) }
{
    let guid = number(reader)?;
    let left = reader.left();
    let class = named(classes, names, guid, left)?;
    if is_other(classes, copies, class, actor) {
        return Err(Stop::Broken {
            left,
            cause: Some(Cause::Clash { guid: actor.0 }),
        });
    }
    Ok(class)
}

/// The place of the class that a guid names.
fn named(classes: &Classes, names: &Names, guid: u32, left: usize) -> Result<u16, Stop>
    ensures exact { (known : List Segment) → Stands names.now known
        → IsNamed classes.now known guid left result }
    ensures within { IfOk result (λ place. place < length classes.now.classes) }
{
    match names.class_of(classes, Guid(guid)) {
        Ok(place) => Ok(place),
        // No class has that path; no other refusal comes.
        Err(_) => Err(Stop::Broken {
            left,
            cause: Some(Cause::UnknownGuid { guid }),
        }),
    }
}

/// The actor's copy is of another class than this one.
fn is_other(classes: &Classes, copies: &CopyList, class: u16, actor: Guid) -> bool
    requires placed { ArePlaced (length classes.now.classes) copies.now }
    requires within { class < length classes.now.classes }
    ensures { result ≡ is_other_class (class_in (table_in classes.now) class)
        (class_kept classes.now copies.now actor) }
{
    match copies.of_actor(actor) {
        Some(copy) => guid_at(classes, copy.class) != guid_at(classes, class),
        None => false,
    }
}

/// The guid of the class at a place of the table.
fn guid_at(classes: &Classes, place: u16) -> u32
    requires { place < length classes.now.classes }
    ensures { result ≡ class_guid (class_in (table_in classes.now) place) }
{
    last_guid(class_at(classes, place).path.as_slice())
}

/// The last of some guids, 0 where there is none.
fn last_guid(path: &[Guid]) -> u32
    ensures { result ≡ last_of path.now }
{
    match path.last() {
        Some(guid) => guid.0,
        None => 0,
    }
}
