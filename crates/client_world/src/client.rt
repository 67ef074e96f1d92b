// A client: its end of the connection, and its copies of the server's actors.
ghost use Rattle.std.specs.Prelude.{◌≡◌, ◌+◌, ◌<◌, ◌≤◌, ◌^◌, ◌&&◌, ◌||◌, [], map, length, true, false, not, IfOk, OnOk, OnErr};
ghost use Rattle.protocol_model.specs.Side.{AtClient};
ghost use Rattle.connection_model.specs.Feed.{Past, has_ended};
ghost use Rattle.connection_model.specs.Fates.{top_of};
ghost use Rattle.connection_model.specs.Verdict.{verdict_of, after_got};
ghost use Rattle.connection_model.specs.CallAnswers.{answer_of, after_call};
ghost use Rattle.connection_model.specs.Pack.{after_tick};
ghost use Rattle.connection_model.specs.Copies.{copied_actors};
ghost use Rattle.value_codec.specs.Values.{arg_of};
ghost use Rattle.actor_copies.specs.Copies.{copies_of, copy_value_of};
ghost use Rattle.handovers.specs.Handovers.{handover_of};
ghost use Rattle.link_end.specs.Answers.{new_packets, sent_value};
ghost use Rattle.client_world.specs.Played.{Plays, IsLost, IsReady, end_of, handovers_in, closes};

use actor_copies::CopyList;
use bit_io::Memory;
use channel_table::ChannelTable;
use class_layout::{Arg, CallAnswer, Classes, HandedList};
use client_sending::ClientTick;
use handovers::Outcome;
use link_end::{LinkEnd, SentList};
use net_core::Guid;
use netguid_map::Names;
use protocol_model::limits::BUDGET_LIMIT;
use protocol_model::{Verdict, Version};
use std::alloc::Global;
use std::marker::Model;

/// So many bunches at most does a call make.
const CALL_BUNCHES: u64 = 4096;

/// Once so many bunches may have been made, which takes years, no call is made any more.
const MADE_LIMIT: u64 = 1 << 60;

/// A client: its end of the connection, and its copies.
///
/// It begins alive, and dies of a datagram that breaks a rule or of a stall; from then on each call
/// says that it is dead, and its copies stay as they are. After a want of memory it is dead too, and
/// nothing is said of its copies.
#[derive(Drop)]
pub struct Client<'a> {
    alloc: Global,
    classes: &'a Classes,
    version: Version,
    link: LinkEnd,
    table: ChannelTable,
    names: Names,
    copies: CopyList,
    dead: bool,
    top: u64,
    most_made: u64,
    lost: bool,
}

impl<'a> Model for Client<'a> {
    ghost use Rattle.client_world.specs.Played.{Play};

    ghost Value = { Play };

    ghost view = { λ c. record {
      layout = c.classes.now;
      version = c.version;
      link = c.link;
      table = c.table;
      names = c.names;
      copies = c.copies;
      dead = c.dead;
      top = c.top;
      most_made = c.most_made;
      lost = c.lost;
    } };
}

impl<'a> Client<'a> {
    /// A client that heard nothing and has no copies, of a server with these classes. It may send
    /// 1,000,000 bits a tick.
    pub fn new(alloc: Global, classes: &'a Classes, version: Version) -> Result<Client<'a>, Memory>
        ensures plays { IfOk result (λ c. Plays c []) }
        ensures layout { IfOk result (λ c. c.layout ≡ classes.now) }
        ensures version { IfOk result (λ c. c.version ≡ version) }
    {
        client_laws::bunches::all_holds_still();
        actor_copies::laws::nothing_handed_on_changes_nothing();
        let link = LinkEnd::new(alloc, BUDGET_LIMIT, version)?;
        let table = ChannelTable::new(alloc, false)?;
        Ok(Client {
            alloc,
            classes,
            version,
            link,
            table,
            names: Names::new(alloc),
            copies: CopyList::new(alloc),
            dead: false,
            top: 0,
            most_made: 0,
            lost: false,
        })
    }

    /// Takes a datagram of the server: the calls that it hands over, in order, and what the client
    /// says of it.
    ///
    /// `Dead` exactly where the client is dead, else `Malformed` exactly where the bytes are no
    /// packet, else `Old` exactly where its number isn't above those taken: none of these changes
    /// anything. `Closed` exactly where the packet breaks a rule, which ends the client; what stood
    /// before that in the packet was done. Else `Taken`. After `Memory` the client is dead.
    pub fn take(&mut self, bytes: &[u8]) -> Result<Outcome, Memory>
        requires { IsReady self.old }
        ensures ready { IsReady self.new }
        ensures after { IsLost self.old
            → IfOk result (λ o. (o.verdict ≡ Verdict.Dead) × (o.handed ≡ [])) × IsLost self.new }
        ensures plays { OnOk result ((past : Past) → Plays self.old past
            → Plays self.new (after_got (end_of self.old) past bytes.now)) }
        ensures verdict { IfOk result (λ o. (past : Past) → Plays self.old past
            → o.verdict ≡ verdict_of (end_of self.old) past bytes.now) }
        ensures handed { IfOk result (λ o. (past : Past) → Plays self.old past
            → map (handover_of self.old.layout) o.handed
            ≡ handovers_in (end_of self.old) past bytes.now) }
        ensures lost { OnErr result (IsLost self.new) }
        ensures layout { self.new.layout ≡ self.old.layout }
        ensures version { self.new.version ≡ self.old.version }
    {
        client_sending::laws::datagrams_leave_what_may_be_sent();
        if self.is_over() {
            return Ok(Outcome {
                handed: HandedList::new(self.alloc),
                verdict: Verdict::Dead,
            });
        }
        match client_hearing::take(
            self.alloc,
            self.classes,
            &mut self.link,
            &mut self.table,
            &mut self.names,
            &mut self.copies,
            bytes,
        ) {
            Ok(heard) => {
                self.top = heard.top;
                self.dead = is_closed(&heard.outcome.verdict);
                Ok(heard.outcome)
            }
            Err(Memory) => {
                self.lost = true;
                Err(Memory)
            }
        }
    }

    /// Makes a call of an actor to the server, by its number in the class of the actor's copy,
    /// from 1.
    ///
    /// `Dead` exactly where the client is dead, else `NotOpen` exactly where the actor has no copy
    /// on a channel or its class has no such call to the server with these arguments, else
    /// `NotOwner` exactly where the copy's role is 0, else `WindowFull` exactly where its channel
    /// has no room for a reliable call or 256 unreliable ones wait. After `Memory` the client is
    /// dead.
    pub fn call(&mut self, actor: Guid, call: u16, args: &[Arg]) -> Result<CallAnswer, Memory>
        requires { IsReady self.old }
        ensures ready { IsReady self.new }
        ensures after { IsLost self.old
            → IfOk result (λ answer. answer ≡ CallAnswer.Dead) × IsLost self.new }
        ensures plays { OnOk result ((past : Past) → Plays self.old past
            → Plays self.new (after_call AtClient past actor call (map arg_of args.now))) }
        ensures answer { IfOk result (λ answer. (past : Past) → Plays self.old past
            → answer ≡ answer_of AtClient past actor call (map arg_of args.now)) }
        ensures lost { OnErr result (IsLost self.new) }
        ensures layout { self.new.layout ≡ self.old.layout }
        ensures version { self.new.version ≡ self.old.version }
    {
        client_laws::bunches::all_holds_still();
        client_sending::laws::sending_changes_no_copy();
        client_sending::laws::sending_hears_nothing();
        payload_laws::applied::ticks_and_calls_deliver_nothing();
        if self.is_over() {
            return Ok(CallAnswer::Dead);
        }
        if self.most_made >= MADE_LIMIT {
            self.lost = true;
            return Err(Memory);
        }
        match client_sending::call(
            self.alloc,
            self.classes,
            &self.copies,
            &mut self.table,
            actor,
            call,
            args,
        ) {
            Ok(answer) => {
                self.most_made += CALL_BUNCHES;
                Ok(answer)
            }
            Err(Memory) => {
                self.lost = true;
                Err(Memory)
            }
        }
    }

    /// A tick: the packets that it sends, oldest first, and whether the client dies in it of 4,096
    /// packets that are open. A dead client sends nothing. After `Memory` the client is dead.
    pub fn tick(&mut self) -> Result<ClientTick, Memory>
        requires { IsReady self.old }
        ensures ready { IsReady self.new }
        ensures after { IsLost self.old
            → IfOk result (λ t. (t.sent ≡ []) × (t.stalled ≡ false)) × IsLost self.new }
        ensures plays { OnOk result ((past : Past) → Plays self.old past
            → Plays self.new (after_tick (end_of self.old) past [])) }
        ensures sent { IfOk result (λ t. (past : Past) → Plays self.old past
            → map sent_value t.sent
            ≡ new_packets (end_of self.old) past (after_tick (end_of self.old) past [])) }
        ensures stalled { IfOk result (λ t. (past : Past) → Plays self.old past
            → t.stalled
            ≡ (not (has_ended past) && has_ended (after_tick (end_of self.old) past []))) }
        ensures lost { OnErr result (IsLost self.new) }
        ensures layout { self.new.layout ≡ self.old.layout }
        ensures version { self.new.version ≡ self.old.version }
    {
        client_laws::bunches::all_holds_still();
        client_sending::laws::sending_changes_no_copy();
        client_sending::laws::sending_hears_nothing();
        payload_laws::applied::ticks_and_calls_deliver_nothing();
        if self.is_over() {
            return Ok(ClientTick {
                sent: SentList::new(self.alloc),
                stalled: false,
            });
        }
        match client_sending::tick(&mut self.link, &mut self.table) {
            Ok(ticked) => {
                self.dead = ticked.stalled;
                Ok(ticked)
            }
            Err(Memory) => {
                self.lost = true;
                Err(Memory)
            }
        }
    }

    /// The copies, found by actor and by channel, and in the order of their actors.
    pub fn copies(&self) -> &CopyList
        ensures copies { (past : Past) → Plays self.now past
            → map (copy_value_of self.now.layout) result.now ≡ copies_of past }
        ensures count { (past : Past) → Plays self.now past
            → length result.now ≡ length (copied_actors past) }
    {
        actor_copies::laws::copies_are_all();
        &self.copies
    }

    /// The greatest packet number taken, 0 at first.
    pub fn last_taken(&self) -> u64
        ensures { (past : Past) → Plays self.now past → result ≡ top_of past }
    {
        self.top
    }

    /// The client is dead.
    fn is_over(&self) -> bool
        ensures { result ≡ (self.now.dead || self.now.lost) }
    {
        self.dead || self.lost
    }
}

/// The verdict tells that the end died.
fn is_closed(verdict: &Verdict) -> bool
    ensures { result ≡ closes verdict.now }
{
    matches!(verdict, Verdict::Closed(_))
}
