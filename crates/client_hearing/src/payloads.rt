// Whole payloads: read by what is kept, and applied to it.
ghost use Rattle.std.specs.Prelude.{◌≡◌, ◌==◌, ◌∷◌, ◌++◌, [], ℕ, List, length, Bool, false, Some, Ok, OnOk};
ghost use Rattle.protocol_model.specs.declared.Version.{Version};
ghost use Rattle.connection_model.specs.Feed.{Past};
ghost use Rattle.connection_model.specs.Copies.{is_on};
ghost use Rattle.connection_model.specs.Handed.{client_verdict};
ghost use Rattle.class_layout.specs.Tables.{Layout};
ghost use Rattle.receiving_laws.specs.Receiving.{Raw};
ghost use Rattle.incoming_channels.specs.Messages.{IsRaw};
ghost use Rattle.netguid_map.specs.declared.names.Learnt.{Learnt};
ghost use Rattle.actor_copies.specs.Kept.{ArePlaced};
ghost use Rattle.actor_copies.specs.Stands.{Stands as StandCopies};
ghost use Rattle.client_payloads.specs.Messages.{unopened_payload};
ghost use Rattle.channel_table.specs.Holders.{channel_bound};
ghost use Rattle.client_hearing.specs.Moments.{Moment, IsComing, Reads, past_at, handing};
ghost use Rattle.client_hearing.specs.Hearing.{IsUnopenedHeard, IsHeard, result_of, delivery};

use crate::halt::Halt;
use crate::opens::hear_open;
use crate::stops::halt;
use actor_copies::CopyList;
use bit_io::Memory;
use channel_table::{ChannelTable, Message};
use class_layout::{CallVerdict, Classes, Handed};
use client_payloads::{First, Payload, ReadCall, ReadPeerCall, unopened};
use netguid_map::Names;
use std::alloc::Global;

/// Hears a whole payload: reads it, and applies what it was. A call goes to those handed over.
pub(crate) fn hear_payload(
    alloc: Global,
    classes: &Classes,
    table: &mut ChannelTable,
    names: &mut Names,
    copies: &mut CopyList,
    m: &Message,
    calls: &mut Vec<Handed>,
) -> Result<(), Halt>
    requires { (version : Version) × (w : Moment) × (raw : Raw) × (held : Bool)
        × IsComing classes.now version table.old.bound names.old copies.old calls.old.items w
        m.now raw held }
    ensures heard { (version : Version) (w : Moment) (raw : Raw) (held : Bool)
        → IsComing classes.now version table.old.bound names.old copies.old calls.old.items w
        m.now raw held
        → IsHeard classes.now version table.new.bound names.new copies.new calls.new.items w raw
        result }
    ensures rest { table.new ≡ record table.old { bound = table.new.bound } }
{
    if m.opens {
        hear_open(alloc, classes, table, names, copies, m)
    } else {
        hear_unopened(alloc, classes, table, copies, m, calls)
    }
}

/// Hears a payload that doesn't open.
fn hear_unopened(
    alloc: Global,
    classes: &Classes,
    table: &mut ChannelTable,
    copies: &mut CopyList,
    m: &Message,
    calls: &mut Vec<Handed>,
) -> Result<(), Halt>
    requires { (version : Version) × (names : List (ℕ × Learnt)) × (w : Moment) × (raw : Raw)
        × (held : Bool)
        × IsComing classes.now version table.old.bound names copies.old calls.old.items w m.now
        raw held
        × (raw.0.opens ≡ false) }
    ensures heard { (version : Version) (names : List (ℕ × Learnt)) (w : Moment) (raw : Raw)
        (held : Bool)
        → IsComing classes.now version table.old.bound names copies.old calls.old.items w m.now
        raw held
        → raw.0.opens ≡ false
        → IsHeard classes.now version table.new.bound names copies.new calls.new.items w raw
        result }
    ensures rest { table.new ≡ record table.old { bound = table.new.bound } }
{
    let payload = read_unopened(alloc, classes, copies, m)?;
    apply(table, copies, m, payload, calls)?;
    Ok(())
}

/// Reads a payload that doesn't open.
fn read_unopened(
    alloc: Global,
    classes: &Classes,
    copies: &CopyList,
    m: &Message,
) -> Result<Payload, Halt>
    requires { ArePlaced (length classes.now.classes) copies.now }
    ensures { (version : Version) (past : Past) (raw : Raw)
        → StandCopies classes.now copies.now past → IsRaw raw m.now
        → raw.0.opens ≡ false
        → IsUnopenedHeard classes.now version copies.now past raw m.now.channel m.now.sleeps
        result }
{
    let bits = m.bits.lend();
    let mut reader = bits.reader();
    let first = First {
        channel: m.channel,
        closes: m.closes,
        sleeps: m.sleeps,
        reliable: m.reliable,
    };
    match unopened(alloc, &mut reader, classes, copies, first) {
        Ok(payload) => Ok(payload),
        Err(stop) => Err(halt(stop, m.channel, m.bits.len())),
    }
}

/// Applies a payload that was read.
fn apply(
    table: &mut ChannelTable,
    copies: &mut CopyList,
    m: &Message,
    payload: Payload,
    calls: &mut Vec<Handed>,
) -> Result<(), Memory>
    ensures reads { OnOk result ((layout : Layout) (version : Version) (names : List (ℕ × Learnt))
        (w : Moment) (raw : Raw) (held : Bool)
        → IsComing layout version table.old.bound names copies.old calls.old.items w m.now raw
        held
        → raw.0.opens ≡ false
        → result_of layout version (past_at w) raw ≡ Ok (Some (delivery layout version (past_at w)
        raw (unopened_payload layout copies.old m.now.channel m.now.sleeps payload)))
        → Reads layout version table.new.bound names copies.new calls.new.items
        (handing (delivery layout version (past_at w) raw
        (unopened_payload layout copies.old m.now.channel m.now.sleeps payload)) w)) }
    ensures rest { table.new ≡ record table.old { bound = table.new.bound } }
{
    match payload {
        Payload::Gone(actor) => {
            copies.remove(actor);
            Ok(())
        }
        Payload::Close => {
            copies.close(m.channel, m.sleeps);
            table.unbind(m.channel);
            Ok(())
        }
        Payload::Update(values) => {
            copies.update(m.channel, &values);
            Ok(())
        }
        Payload::Call(call) => hand_over(table, m.channel, call, calls),
    }
}

/// Hands a call over: it is to be run where its actor holds the channel, and else it is stale.
fn hand_over(
    table: &ChannelTable,
    channel: u16,
    call: ReadPeerCall,
    calls: &mut Vec<Handed>,
) -> Result<(), Memory>
    ensures { OnOk result (calls.new.items ≡ calls.old.items ++ record {
      actor = call.actor;
      class = call.class;
      call = call.call.number;
      verdict = client_verdict (is_on channel (channel_bound table.now.bound call.actor));
      args = call.call.args;
    } ∷ []) }
{
    let ReadPeerCall { actor, class, call } = call;
    let ReadCall { number, args } = call;
    let verdict = verdict_on(table.channel_of(actor), channel);
    calls.push(Handed {
        actor,
        class,
        call: number,
        verdict,
        args,
    })?;
    Ok(())
}

/// What is to be done with a call that came on a channel, where its actor holds this one.
fn verdict_on(held: Option<u16>, channel: u16) -> CallVerdict
    ensures { result ≡ client_verdict (is_on channel held) }
{
    match held {
        Some(held) => {
            if held == channel {
                CallVerdict::Run
            } else {
                CallVerdict::Stale
            }
        }
        None => CallVerdict::Stale,
    }
}
