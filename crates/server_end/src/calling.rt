// Calls made to a player.
ghost use Rattle.std.specs.Prelude.{◌≡◌, ◌+◌, ◌<◌, ◌≤◌, ◌^◌, ◌∷◌, ◌&&◌, ℕ, List, map, length, nat_lt, true, Some, None, IfOk, OnOk, if◌then◌else◌};
ghost use Rattle.protocol_model.specs.Limits.{channels_two, part_bits, payload_bits, waiting_limit};
ghost use Rattle.protocol_model.specs.Side.{AtServer};
ghost use Rattle.protocol_model.specs.Value.{Call as CallSpec, Arg as ArgSpec};
ghost use Rattle.protocol_model.specs.Payload.{Calls, message_bits, part_count};
ghost use Rattle.connection_model.specs.Feed.{End, Past, Waits};
ghost use Rattle.connection_model.specs.Bunches.{room as room_of, after_making};
ghost use Rattle.connection_model.specs.State.{state_of, index_of, is_opened as is_opened_state};
ghost use Rattle.connection_model.specs.CallAnswers.{is_to_owner, answer_of, after_call, call_channel, is_not_owner, waiting_of};
ghost use Rattle.class_members.specs.Members.{call_of};
ghost use Rattle.value_codec.specs.Values.{arg_of};
ghost use Rattle.shadow_changes.specs.Samples.{Samples};
ghost use Rattle.sender_records.specs.Life.{state_value};
ghost use Rattle.server_end.specs.Calls.{IsCalled};
ghost use Rattle.server_end.specs.Stands.{StandsEnd};

use crate::server_end::ServerEnd;
use actor_sender::ActorState;
use bit_io::{Bits, Memory};
use channel_table::Mark;
use class_layout::{Arg, Call, CallAnswer, Way};
use net_core::Guid;
use partial_bunches::parts;
use payload_writing::call_payload;
use std::alloc::Global;

impl ServerEnd {
    /// Makes a call of an actor, with arguments that fit it. After `Memory` the end is of no more
    /// use.
    pub fn call(
        &mut self,
        alloc: Global,
        called: &Call,
        actor: Guid,
        number: u16,
        args: &[Arg],
    ) -> Result<CallAnswer, Memory>
        requires { (end : End) × (past : Past) × (samples : Samples)
            × IsCalled self.old end past samples actor number called.now args.now }
        ensures answer { IfOk result (λ answer. (end : End) (past : Past) (samples : Samples)
            → IsCalled self.old end past samples actor number called.now args.now
            → answer ≡ answer_of AtServer past actor number (map arg_of args.now)) }
        ensures stands { OnOk result ((end : End) (past : Past) (samples : Samples)
            → IsCalled self.old end past samples actor number called.now args.now
            → StandsEnd self.new end
            (after_call AtServer past actor number (map arg_of args.now)) samples) }
        ensures count { OnOk result (self.new.table.made.count ≤ self.old.table.made.count + 4096) }
        ensures player { self.new.player ≡ self.old.player }
    {
        let Some(channel) = self.channel(actor) else {
            return Ok(CallAnswer::NotOpen);
        };
        if self.bars(called, actor) {
            return Ok(CallAnswer::NotOwner);
        }
        let payload = call_payload(alloc, called, actor, number, args)?;
        if called.reliable {
            self.push_call(channel, payload)
        } else {
            self.queue_call(actor, number, payload)
        }
    }

    /// The channel on which a call of the actor goes: that of an actor that is opened.
    fn channel(&self, actor: Guid) -> Option<u16>
        ensures { (end : End) (past : Past) (samples : Samples)
            → StandsEnd self.now end past samples
            → result ≡ call_channel AtServer past actor }
    {
        if self.is_opened(actor) {
            self.table.channel_of(actor)
        } else {
            None
        }
    }

    /// The actor is opened.
    fn is_opened(&self, actor: Guid) -> bool
        ensures { (end : End) (past : Past) (samples : Samples)
            → StandsEnd self.now end past samples
            → result ≡ is_opened_state (state_of past actor) }
    {
        is_opened(self.sender.state(actor))
    }

    /// The call goes to the owner alone, and the player wasn't shown as the owner.
    fn bars(&self, called: &Call, actor: Guid) -> bool
        ensures { (end : End) (past : Past) (samples : Samples)
            → StandsEnd self.now end past samples
            → result ≡ is_not_owner AtServer past actor (call_of called.now) }
    {
        let owned = self.sender.shows_owned(actor);
        goes_to_owner(called.way) && !owned
    }

    /// Makes the parts of a reliable call, where its channel has room for all.
    fn push_call(&mut self, channel: u16, payload: Bits) -> Result<CallAnswer, Memory>
        requires most { length payload ≤ payload_bits }
        requires stands { (end : End) × (past : Past) × (samples : Samples)
            × StandsEnd self.old end past samples
            × (channel < channels_two) }
        requires few { self.old.table.made.count < 2 ^ 60 }
        ensures answer { IfOk result (λ answer. (end : End) (past : Past) (samples : Samples)
            → StandsEnd self.old end past samples
            → answer ≡ (if nat_lt (room_of past channel) (part_count (length payload))
            then CallAnswer.WindowFull else CallAnswer.Queued)) }
        ensures stands { OnOk result
            ((end : End) (past : Past) (samples : Samples) (actor number : ℕ)
            (call : CallSpec) (args : List ArgSpec) → StandsEnd self.old end past samples
            → is_opened_state (state_of past actor) ≡ true → index_of past actor ≡ Some channel
            → message_bits (Calls actor number call args) ≡ payload
            → StandsEnd self.new end
            (if nat_lt (room_of past channel) (part_count (length payload)) then past
            else after_making past channel (Calls actor number call args)) samples) }
        ensures count { OnOk result (self.new.table.made.count ≤ self.old.table.made.count + 4096) }
        ensures player { self.new.player ≡ self.old.player }
    {
        actor_sender::laws::call_is_unseen();
        link_end::laws::made_is_unseen();
        if parts(payload.len()) > self.table.room(channel) as usize {
            return Ok(CallAnswer::WindowFull);
        }
        self.table.push(channel, Mark::Plain, payload)?;
        Ok(CallAnswer::Queued)
    }

    /// Lets an unreliable call wait, where fewer than 256 do.
    fn queue_call(&mut self, actor: Guid, number: u16, payload: Bits) -> Result<CallAnswer, Memory>
        requires most { length payload ≤ part_bits }
        ensures answer { IfOk result (λ answer. (end : End) (past : Past) (samples : Samples)
            → StandsEnd self.old end past samples
            → answer ≡ (if nat_lt (length (waiting_of past)) waiting_limit
            then CallAnswer.Queued else CallAnswer.WindowFull)) }
        ensures stands { OnOk result
            ((end : End) (past : Past) (samples : Samples) (call : CallSpec) (args : List ArgSpec)
            → StandsEnd self.old end past samples
            → message_bits (Calls actor number call args) ≡ payload
            → StandsEnd self.new end
            (if nat_lt (length (waiting_of past)) waiting_limit
            then Waits (Calls actor number call args) ∷ past else past) samples) }
        ensures count { OnOk result (self.new.table.made.count ≤ self.old.table.made.count + 4096) }
        ensures player { self.new.player ≡ self.old.player }
    {
        actor_sender::laws::alike_is_unseen();
        channel_table::laws::alike_is_unseen();
        link_end::laws::waiting_is_unseen();
        if self.table.queue(actor, number, payload)? {
            Ok(CallAnswer::Queued)
        } else {
            Ok(CallAnswer::WindowFull)
        }
    }
}

/// The state is `Opened`.
fn is_opened(state: ActorState) -> bool
    ensures { result ≡ is_opened_state (state_value state) }
{
    matches!(state, ActorState::Opened)
}

/// The call goes to the owner alone.
fn goes_to_owner(way: Way) -> bool
    ensures { result ≡ is_to_owner way }
{
    matches!(way, Way::Client)
}
