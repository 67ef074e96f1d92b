// The parts of a payload under way on a channel, and whether a copy holds the channel.
ghost use Rattle.std.specs.Prelude.{◌≡◌, ◌==◌, ℕ, List, length, not, true, false, IfOk, Some, if◌then◌else◌};
ghost use Rattle.protocol_model.specs.Side.{Side};
ghost use Rattle.protocol_model.specs.Packet.{Bunch as BunchSpec};
ghost use Rattle.packet_codec.specs.Values.{bunch_of};
ghost use Rattle.partial_bunches.specs.Joins.{ends_with};
ghost use Rattle.incoming_channels.specs.Channels.{no_parts};
ghost use Rattle.incoming_channels.specs.Keeps.{Joining, is_server};
ghost use Rattle.receiving_laws.specs.Receiving.{is_astray as astray_of};
ghost use Rattle.incoming_channels.specs.Steps.{AreOn, IsStep, IsLooseStep};

use crate::flags::Flags;
use crate::message::Message;
use bit_io::{Bits, Memory};
use packet_codec::Bunch;
use partial_bunches::{Joined, Joiner, Part, PartRefusal};
use protocol_model::Cause;
use std::alloc::Global;
use std::marker::Model;

/// The parts of a payload under way on a channel, and whether a copy holds the channel.
///
///     no copy --open--> a copy holds the channel --close--> no copy
#[derive(Drop)]
pub(crate) struct Parts {
    joiner: Joiner,
    first: Option<Flags>,
    copied: bool,
}

impl Model for Parts {
    ghost use Rattle.incoming_channels.specs.Channels.{Parts as PartsSpec};

    ghost Value = { PartsSpec };

    ghost view = { λ p. record { joined = p.joiner; first = p.first; copied = p.copied } };
}

/// What a bunch in its turn leads to.
#[derive(Drop)]
pub(crate) enum Step {
    /// It breaks a rule.
    Broken(Cause),
    /// The payload isn't whole.
    More,
    /// The payload is whole.
    Whole(Message),
}

impl Parts {
    /// No part is under way, and no copy holds the channel.
    pub fn new(alloc: Global) -> Parts
        ensures { result ≡ no_parts }
    {
        Parts {
            joiner: Joiner::new(alloc),
            first: None,
            copied: false,
        }
    }

    /// Takes the reliable bunch that comes next on the channel.
    pub fn take(&mut self, server: bool, b: &Bunch) -> Result<Step, Memory>
        ensures { IfOk result (λ step. (side : Side) (kept more : List BunchSpec)
            → server ≡ is_server side → Joining self.old kept → AreOn b.now.channel kept
            → b.now.reliable ≡ true
            → IsStep side kept (bunch_of b.now) more self.old self.new step) }
    {
        if is_astray(server, self.copied, self.joiner.waiting(), b) {
            return Ok(Step::Broken(bad_channel(b)));
        }
        match self.joiner.add(b) {
            Ok(Joined::More) => {
                if self.first.is_none() {
                    self.first = Some(Flags::of(b));
                }
                Ok(Step::More)
            }
            Ok(Joined::Whole(bits)) => {
                let first = match self.first.take() {
                    Some(first) => first,
                    None => Flags::of(b),
                };
                self.copied = copied_after(self.copied, first);
                Ok(Step::Whole(message(first, b, bits)))
            }
            Err(PartRefusal::BadPart { why }) => Ok(Step::Broken(Cause::BadPart {
                channel: b.channel,
                why,
            })),
            Err(PartRefusal::Memory) => Err(Memory),
        }
    }

    /// Takes an unreliable bunch, which leaves the parts alone.
    pub fn take_loose(&mut self, alloc: Global, server: bool, b: &Bunch) -> Result<Step, Memory>
        ensures { IfOk result (λ step. (side : Side) (kept : List BunchSpec)
            → server ≡ is_server side → Joining self.old kept → b.now.reliable ≡ false
            → IsLooseStep side kept (bunch_of b.now) self.old self.new step) }
    {
        if is_astray(server, self.copied, self.joiner.waiting(), b) {
            return Ok(Step::Broken(bad_channel(b)));
        }
        if let Some(why) = self.joiner.fault(b) {
            return Ok(Step::Broken(Cause::BadPart {
                channel: b.channel,
                why,
            }));
        }
        if !ends_payload(b.part) {
            return Ok(Step::More);
        }
        let bits = b.payload.keep(alloc)?;
        let first = Flags::of(b);
        self.copied = copied_after(self.copied, first);
        Ok(Step::Whole(message(first, b, bits)))
    }
}

/// The cause that a bunch has no place on its channel.
fn bad_channel(b: &Bunch) -> Cause
    ensures { result ≡ Cause.BadChannel b.now.channel }
{
    Cause::BadChannel { channel: b.channel }
}

/// At the client the channel isn't held by a copy where it must be, or is where it mustn't.
fn is_astray(server: bool, copied: bool, waiting: bool, b: &Bunch) -> bool
    ensures { (side : Side) (kept : List BunchSpec) → server ≡ is_server side
        → waiting ≡ not (length kept == 0)
        → result ≡ astray_of side copied kept (bunch_of b.now) }
{
    if server || b.channel == 0 {
        return false;
    }
    if b.opens {
        copied
    } else {
        !copied && !(b.reliable && waiting)
    }
}

/// A payload ends with this part.
fn ends_payload(part: Part) -> bool
    ensures { result ≡ ends_with part }
{
    match part {
        Part::First | Part::Middle => false,
        Part::Whole | Part::Last | Part::Lone => true,
    }
}

/// Whether a copy holds the channel after a payload with these flags.
fn copied_after(copied: bool, first: Flags) -> bool
    ensures { result ≡ (if first.opens then true else if first.closes then false else copied) }
{
    if first.opens {
        true
    } else if first.closes {
        false
    } else {
        copied
    }
}

/// A whole payload that ends with this bunch.
fn message(first: Flags, b: &Bunch, bits: Bits) -> Message
    ensures { result ≡ record {
      channel = b.now.channel;
      opens = first.opens;
      closes = first.closes;
      sleeps = first.sleeps;
      exports = first.exports;
      reliable = b.now.reliable;
      bits = bits;
    } }
{
    Message {
        channel: b.channel,
        opens: first.opens,
        closes: first.closes,
        sleeps: first.sleeps,
        exports: first.exports,
        reliable: b.reliable,
        bits,
    }
}
