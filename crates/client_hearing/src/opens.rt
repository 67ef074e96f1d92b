// Opens: read, and their copies put on their channels.
ghost use Rattle.std.specs.Prelude.{◌≡◌, ◌==◌, ◌<◌, ◌≤◌, ℕ, List, length, Bool, true, false, None, Some, if◌then◌else◌, IfOk, OnOk};
ghost use Rattle.protocol_model.specs.Limits.{channels_two};
ghost use Rattle.protocol_model.specs.declared.Version.{Version};
ghost use Rattle.connection_model.specs.Feed.{Past};
ghost use Rattle.connection_model.specs.Names.{names_of};
ghost use Rattle.value_codec.specs.declared.handed.Handed.{Handed};
ghost use Rattle.receiving_laws.specs.Receiving.{Raw};
ghost use Rattle.incoming_channels.specs.Messages.{IsRaw};
ghost use Rattle.netguid_map.specs.Names.{Stands as StandNames};
ghost use Rattle.actor_copies.specs.Applied.{WasOpened, Follow};
ghost use Rattle.actor_copies.specs.Kept.{kept_on, ArePlaced};
ghost use Rattle.actor_copies.specs.Stands.{Stands as StandCopies};
ghost use Rattle.channel_table.specs.Holders.{channel_bound, actor_bound, IsPaired};
ghost use Rattle.client_hearing.specs.Moments.{Moment, IsComing};
ghost use Rattle.client_hearing.specs.Hearing.{IsOpenHeard, IsHeard};

use crate::halt::Halt;
use crate::stops::halt;
use actor_copies::{CopyList, ReadOpen};
use bit_io::Memory;
use channel_table::{ChannelTable, Message};
use class_layout::Classes;
use client_payloads::open;
use netguid_map::Names;
use std::alloc::Global;

/// Hears an open: its exports are learnt, and its actor's copy holds the channel.
pub(crate) fn hear_open(
    alloc: Global,
    classes: &Classes,
    table: &mut ChannelTable,
    names: &mut Names,
    copies: &mut CopyList,
    m: &Message,
) -> Result<(), Halt>
    requires { (version : Version) × (w : Moment) × (raw : Raw) × (held : Bool)
        × (calls : List Handed)
        × IsComing classes.now version table.old.bound names.old copies.old calls w m.now raw held
        × (raw.0.opens ≡ true) }
    ensures heard { (version : Version) (w : Moment) (raw : Raw) (held : Bool)
        (calls : List Handed)
        → IsComing classes.now version table.old.bound names.old copies.old calls w m.now raw held
        → raw.0.opens ≡ true
        → IsHeard classes.now version table.new.bound names.new copies.new calls w raw result }
    ensures rest { table.new ≡ record table.old { bound = table.new.bound } }
{
    let read = read_open(alloc, classes, names, copies, m)?;
    begin_copy(classes, table, copies, m.channel, read)?;
    Ok(())
}

/// Reads an open, and learns its exports.
fn read_open(
    alloc: Global,
    classes: &Classes,
    names: &mut Names,
    copies: &CopyList,
    m: &Message,
) -> Result<ReadOpen, Halt>
    requires { ArePlaced (length classes.now.classes) copies.now }
    ensures heard { (version : Version) (past : Past) (raw : Raw)
        → StandNames names.old (names_of past) → StandCopies classes.now copies.now past
        → IsRaw raw m.now → (raw.0.channel == 0) ≡ false → raw.0.closes ≡ false
        → raw.0.opens ≡ true
        → IsOpenHeard classes.now version past raw names.new result }
    ensures class { IfOk result (λ o. o.class < length classes.now.classes) }
{
    let bits = m.bits.lend();
    let mut reader = bits.reader();
    match open(
        alloc,
        &mut reader,
        classes,
        names,
        copies,
        m.channel,
        m.exports,
    ) {
        Ok(read) => Ok(read),
        Err(stop) => Err(halt(stop, m.channel, m.bits.len())),
    }
}

/// Binds a channel that no actor holds to the actor of an open, whose copy is on it from now on.
fn begin_copy(
    classes: &Classes,
    table: &mut ChannelTable,
    copies: &mut CopyList,
    channel: u16,
    read: ReadOpen,
) -> Result<(), Memory>
    requires class { read.class < length classes.now.classes }
    requires index { 1 ≤ channel }
    requires most { channel < channels_two }
    requires free { actor_bound table.old.bound channel ≡ None }
    requires unbound { channel_bound table.old.bound read.actor ≡ None }
    requires empty { kept_on copies.old channel ≡ None }
    ensures channels { OnOk result ((a : ℕ) → channel_bound table.new.bound a
        ≡ (if a == read.actor then Some channel else channel_bound table.old.bound a)) }
    ensures pairs { OnOk result (IsPaired table.new.bound) }
    ensures rest { table.new ≡ record table.old { bound = table.new.bound } }
    ensures follows { OnOk result (ArePlaced (length classes.now.classes) copies.old
        → Follow classes.now copies.old copies.new (WasOpened classes.now channel read)) }
    ensures placed { OnOk result (ArePlaced (length classes.now.classes) copies.old
        → ArePlaced (length classes.now.classes) copies.new) }
{
    table.bind(channel, read.actor)?;
    copies.open(classes, channel, read)?;
    Ok(())
}
