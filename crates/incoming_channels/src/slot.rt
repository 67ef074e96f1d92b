// One incoming channel.
ghost use Rattle.std.specs.Prelude.{◌≡◌, ◌<◌, ◌≤◌, ◌^◌, ◌∷◌, [], ℕ, List, true, false, None, Some, IfOk};
ghost use Rattle.protocol_model.specs.Limits.{held_limit};
ghost use Rattle.protocol_model.specs.Side.{Side};
ghost use Rattle.connection_model.specs.Windows.{Received};
ghost use Rattle.packet_codec.specs.Values.{bunch_of};
ghost use Rattle.incoming_channels.specs.Channels.{unused_in};
ghost use Rattle.incoming_channels.specs.Steps.{Before, IsHeard, IsPlacedNext};

use crate::held_bunch::HeldBunch;
use crate::message::MessageList;
use crate::parts::{Parts, Step};
use crate::run::take_run;
use bit_io::Memory;
use packet_codec::Bunch;
use protocol_model::Cause;
use protocol_model::limits::{HELD_LIMIT, SEQUENCE_MODULUS};
use reliable_window::{InWindow, Place};
use std::alloc::Global;
use std::marker::Model;

/// Numbers end here, which no channel reaches: a bunch in each nanosecond gets there in 73 years.
const NUMBER_LIMIT: u64 = 1 << 61;

/// A channel's window, and the parts of the payload under way.
#[derive(Drop)]
pub(crate) struct InSlot {
    window: InWindow<HeldBunch>,
    parts: Parts,
}

impl Model for InSlot {
    ghost use Rattle.incoming_channels.specs.Channels.{Incoming};

    ghost Value = { Incoming };

    ghost view = { λ s. record { window = s.window; parts = s.parts } };
}

/// What a bunch hands on, the rule that it breaks after that, and how many bunches are held then on
/// all channels.
#[derive(Drop)]
pub(crate) struct Heard {
    pub whole: MessageList,
    pub cause: Option<Cause>,
    pub held: usize,
}

/// A bunch that hands on nothing.
fn nothing(alloc: Global, cause: Option<Cause>, held: usize) -> Heard
    ensures { result ≡ record { whole = []; cause = cause; held = held } }
{
    Heard {
        whole: MessageList::new(alloc),
        cause,
        held,
    }
}

impl InSlot {
    /// A channel on which nothing was received.
    pub fn new(alloc: Global) -> InSlot
        ensures { result ≡ unused_in }
    {
        InSlot {
            window: InWindow::new(alloc),
            parts: Parts::new(alloc),
        }
    }

    /// Takes a bunch of this channel, where so many are held on all channels.
    pub fn hear(
        &mut self,
        alloc: Global,
        server: bool,
        b: &Bunch,
        held: usize,
    ) -> Result<Heard, Memory>
        ensures { IfOk result (λ heard. (side : Side) (got : List Received)
            → Before side server got held (bunch_of b.now) self.old
            → IsHeard side got held (bunch_of b.now) self.old self.new heard) }
    {
        if b.reliable {
            self.hear_reliable(alloc, server, b, held)
        } else {
            self.hear_loose(alloc, server, b, held)
        }
    }

    /// Takes an unreliable bunch.
    fn hear_loose(
        &mut self,
        alloc: Global,
        server: bool,
        b: &Bunch,
        held: usize,
    ) -> Result<Heard, Memory>
        requires { b.now.reliable ≡ false }
        ensures { IfOk result (λ heard. (side : Side) (got : List Received)
            → Before side server got held (bunch_of b.now) self.old
            → IsHeard side got held (bunch_of b.now) self.old self.new heard) }
    {
        match self.parts.take_loose(alloc, server, b)? {
            Step::Broken(cause) => Ok(nothing(alloc, Some(cause), held)),
            Step::More => Ok(nothing(alloc, None, held)),
            Step::Whole(message) => {
                let mut heard = nothing(alloc, None, held);
                heard.whole.push(message)?;
                Ok(heard)
            }
        }
    }

    /// Takes a reliable bunch.
    fn hear_reliable(
        &mut self,
        alloc: Global,
        server: bool,
        b: &Bunch,
        held: usize,
    ) -> Result<Heard, Memory>
        requires { b.now.reliable ≡ true }
        ensures { IfOk result (λ heard. (side : Side) (got : List Received)
            → Before side server got held (bunch_of b.now) self.old
            → IsHeard side got held (bunch_of b.now) self.old self.new heard) }
    {
        if self.window.next() >= NUMBER_LIMIT {
            return Err(Memory);
        }
        let seq = b.seq as u32 % SEQUENCE_MODULUS;
        match self.window.place(seq as u16) {
            Place::Repeat => Ok(nothing(alloc, None, held)),
            Place::Next => self.hear_next(alloc, server, b, held),
            Place::Ahead(number) => {
                if held >= HELD_LIMIT {
                    return Ok(nothing(alloc, Some(Cause::Overrun { channel: b.channel }), held));
                }
                let bunch = HeldBunch::keep(alloc, b)?;
                self.window.keep(number, bunch)?;
                Ok(nothing(alloc, None, held + 1))
            }
        }
    }

    /// Takes the reliable bunch with the next number, and those held behind it.
    fn hear_next(
        &mut self,
        alloc: Global,
        server: bool,
        b: &Bunch,
        held: usize,
    ) -> Result<Heard, Memory>
        requires reliable { b.now.reliable ≡ true }
        requires low { self.old.window.next < 2 ^ 61 }
        ensures { IfOk result (λ heard. (side : Side) (got : List Received)
            → Before side server got held (bunch_of b.now) self.old
            → IsPlacedNext got (bunch_of b.now)
            → IsHeard side got held (bunch_of b.now) self.old self.new heard) }
    {
        self.window.pass();
        let first = self.window.next();
        let mut whole = MessageList::new(alloc);
        let cause = take_run(&mut self.window, &mut self.parts, server, b, &mut whole)?;
        let passed = self.window.next().saturating_sub(first);
        Ok(Heard {
            whole,
            cause,
            held: held.saturating_sub(passed as usize),
        })
    }
}
