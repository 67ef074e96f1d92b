// Calls that a client makes.
ghost use Rattle.std.specs.Prelude.{◌≡◌, ◌+◌, ◌<◌, ◌≤◌, ◌^◌, ℕ, List, length, map, not, Some, IfOk, OnOk, OnErr, option_map, slice_get, pos};
ghost use Rattle.std.specs.Option.{option_copied};
ghost use Rattle.std.specs.Ordering.{int_eq};
ghost use Rattle.protocol_model.specs.Side.{AtClient};
ghost use Rattle.protocol_model.specs.Value.{goes_up as goes_up_way, call_at};
ghost use Rattle.connection_model.specs.CallAnswers.{answer_of, after_call, fitting_call};
ghost use Rattle.connection_model.specs.Feed.{End, Past};
ghost use Rattle.class_layout.specs.Tables.{class_of};
ghost use Rattle.class_layout.specs.declared.class.Segment.{Segment};
ghost use Rattle.class_members.specs.Members.{call_of};
ghost use Rattle.value_codec.specs.Values.{arg_of, whole_of};
ghost use Rattle.value_codec.specs.declared.pair.Pair.{Pair as PairSpec};
ghost use Rattle.actor_copies.specs.Kept.{ArePlaced};
ghost use Rattle.actor_copies.specs.Stands.{Stands as StandCopies};
ghost use Rattle.link_end.specs.Link.{Link};
ghost use Rattle.client_sending.specs.Calling.{IsMeant, IsShort};
ghost use Rattle.client_sending.specs.Stands.{Stands};

use crate::arguments::{are_fitting, spell_call, whole};
use crate::room::{push_call, queue_call};
use actor_copies::{ActorCopy, CopyList};
use bit_io::Memory;
use channel_table::ChannelTable;
use class_layout::{Arg, Call, CallAnswer, Class, Classes, Guid, Way};
use payload_reading::class_at;
use std::alloc::Global;

/// Makes a call of an actor to the server, at a client that is alive.
///
/// `NotOpen` exactly where the actor has no copy on a channel, or its class has no call of this
/// number that goes to the server and that the arguments fit; else `NotOwner` exactly where the
/// copy's role is 0; else `WindowFull` exactly where a reliable call has more parts than its channel
/// has room, or 256 unreliable ones wait. `Memory` changes nothing.
pub fn call(
    alloc: Global,
    classes: &Classes,
    copies: &CopyList,
    table: &mut ChannelTable,
    actor: Guid,
    number: u16,
    args: &[Arg],
) -> Result<CallAnswer, Memory>
    requires stands { (l : Link) × (end : End) × (past : Past) × Stands l table.old end past
        × StandCopies classes.now copies.now past }
    requires placed { ArePlaced (length classes.now.classes) copies.now }
    requires few { table.old.made.count < 2 ^ 60 }
    ensures answer { IfOk result (λ answer. (l : Link) (end : End) (past : Past)
        → Stands l table.old end past → StandCopies classes.now copies.now past
        → answer ≡ answer_of AtClient past actor number (map arg_of args.now)) }
    ensures stands { OnOk result ((l : Link) (end : End) (past : Past)
        → Stands l table.old end past → StandCopies classes.now copies.now past
        → Stands l table.new end (after_call AtClient past actor number (map arg_of args.now))) }
    ensures count { table.new.made.count ≤ table.old.made.count + 4096 }
    ensures err { OnErr result (table.new ≡ table.old) }
{
    classes.keeps_rules();
    let Some(copy) = copies.of_actor(actor) else {
        return Ok(CallAnswer::NotOpen);
    };
    let Some(channel) = copy.channel else {
        return Ok(CallAnswer::NotOpen);
    };
    let Some(called) = called(class_at(classes, copy.class), number, args) else {
        return Ok(CallAnswer::NotOpen);
    };
    if !is_owned(copy) {
        return Ok(CallAnswer::NotOwner);
    }
    send(alloc, table, channel, called, actor, number, args)
}

/// The call of that number of a class, where it goes to the server and the arguments fit it.
fn called<'a>(class: &'a Class, number: u16, args: &[Arg]) -> Option<&'a Call>
    ensures { (segments : List Segment) → option_map call_of (option_copied result)
        ≡ fitting_call AtClient number (map arg_of args.now) (class_of segments class.now) }
{
    let Some(called) = numbered(class, number) else {
        return None;
    };
    if !goes_up(called.way) {
        return None;
    }
    if !are_fitting(called.args.as_slice(), args) {
        return None;
    }
    Some(called)
}

/// The call of that number of a class, from 1.
fn numbered(class: &Class, number: u16) -> Option<&Call>
    ensures { (segments : List Segment) → option_map call_of (option_copied result)
        ≡ call_at (class_of segments class.now) number }
{
    if number == 0 {
        return None;
    }
    class.calls.get(number as usize - 1)
}

/// The call goes to the server.
fn goes_up(way: Way) -> bool
    ensures { result ≡ goes_up_way way }
{
    matches!(way, Way::Server)
}

/// The copy's role isn't 0.
fn is_owned(copy: &ActorCopy) -> bool
    ensures { (role : PairSpec) → slice_get copy.now.values 2 ≡ Some role
        → result ≡ not (int_eq (whole_of role.value) (pos 0)) }
{
    match copy.values.get(2) {
        Some(role) => whole(role.value) != 0,
        None => false,
    }
}

/// Makes the call that is meant, on the channel of its actor's copy, or lets it wait.
fn send(
    alloc: Global,
    table: &mut ChannelTable,
    channel: u16,
    called: &Call,
    actor: Guid,
    number: u16,
    args: &[Arg],
) -> Result<CallAnswer, Memory>
    requires meant { (l : Link) × (end : End) × (past : Past) × Stands l table.old end past
        × IsMeant past actor number channel called.now args.now }
    requires short { IsShort actor number called.now args.now }
    requires few { table.old.made.count < 2 ^ 60 }
    ensures answer { IfOk result (λ answer. (l : Link) (end : End) (past : Past)
        → Stands l table.old end past
        → IsMeant past actor number channel called.now args.now
        → answer ≡ answer_of AtClient past actor number (map arg_of args.now)) }
    ensures stands { OnOk result ((l : Link) (end : End) (past : Past)
        → Stands l table.old end past
        → IsMeant past actor number channel called.now args.now
        → Stands l table.new end (after_call AtClient past actor number (map arg_of args.now))) }
    ensures count { table.new.made.count ≤ table.old.made.count + 4096 }
    ensures err { OnErr result (table.new ≡ table.old) }
{
    let payload = spell_call(alloc, called, actor, number, args)?;
    if called.reliable {
        push_call(table, channel, payload)
    } else {
        queue_call(table, actor, number, payload)
    }
}
