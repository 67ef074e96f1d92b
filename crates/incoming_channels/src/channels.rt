// The bunches that one end receives, on all channels.
ghost use Rattle.std.specs.Prelude.{◌≡◌, ◌≢◌, ◌⊎◌, ◌≤◌, ◌<◌, ◌∷◌, [], ℕ, List, length, true, None, IfOk, OnOk, OnErr, IsErr};
ghost use Rattle.protocol_model.specs.Limits.{held_limit};
ghost use Rattle.protocol_model.specs.Side.{Side};
ghost use Rattle.connection_model.specs.Feed.{Past, Deed, Entry, Delivered as DeliveredSpec};
ghost use Rattle.connection_model.specs.Windows.{Received};
ghost use Rattle.connection_model.specs.Verdict.{is_misplaced as misplaced_of};
ghost use Rattle.packet_codec.specs.Values.{bunch_of};
ghost use Rattle.incoming_channels.specs.Channels.{in_at};
ghost use Rattle.incoming_channels.specs.Keeps.{KeepsGot, IsSpent, is_server};
ghost use Rattle.receiving_laws.specs.Receiving.{raws_heard};
ghost use Rattle.incoming_channels.specs.Messages.{AreRaws};
ghost use Rattle.receiving_laws.specs.Readings.{AreRead};
ghost use Rattle.incoming_channels.specs.Steps.{Before, IsHeard};

use crate::message::{Delivered, MessageList};
use crate::slot::{Heard, InSlot};
use bit_io::Memory;
use packet_codec::Bunch;
use protocol_model::Cause;
use std::alloc::Global;
use std::marker::Model;

/// The bunches that one end receives, on all channels.
///
/// A want of memory in `receive` ends the value: from then on it is spent, and answers `Memory`.
#[derive(Drop)]
pub struct IncomingChannels {
    alloc: Global,
    server: bool,
    slots: Vec<InSlot>,
    held: usize,
    spent: bool,
}

impl Model for IncomingChannels {
    ghost use Rattle.incoming_channels.specs.Channels.{Got};

    ghost Value = { Got };

    ghost view = { λ t. record {
      server = t.server;
      incoming = t.slots.items;
      held = t.held;
      spent = t.spent;
    } };
}

impl IncomingChannels {
    /// Nothing was received. Memory is taken with the first bunch of a channel.
    pub fn new(alloc: Global, server: bool) -> IncomingChannels
        ensures { (side : Side) → server ≡ is_server side → KeepsGot result side [] }
    {
        IncomingChannels {
            alloc,
            server,
            slots: Vec::new(alloc),
            held: 0,
            spent: false,
        }
    }

    /// Whether a want of memory ended the value.
    pub fn is_spent(&self) -> bool
        ensures { result ≡ self.now.spent }
    {
        self.spent
    }

    /// Ends the value, as a want of memory does: for a caller that ran out of memory beside it.
    pub fn spend(&mut self)
        ensures { IsSpent self.new }
    {
        self.spent = true;
    }

    /// Takes a bunch: the whole payloads that it hands on, and the rule that it breaks after them.
    /// No bunch broke one before.
    ///
    /// Time is constant but for what is handed on, and for the places of channels that are made
    /// first, once each. After `Memory` the value is spent.
    pub fn receive(&mut self, b: &Bunch) -> Result<Delivered, Memory>
        ensures whole { IfOk result (λ d. (side : Side) (past : Past)
            → KeepsGot self.old side past
            → AreRaws (raws_heard side past (bunch_of b.now)).whole d.whole) }
        ensures cause { IfOk result (λ d. (side : Side) (past : Past)
            → KeepsGot self.old side past
            → d.cause ≡ (raws_heard side past (bunch_of b.now)).cause) }
        ensures keeps { IfOk result (λ d. (side : Side) (past : Past) (m : ℕ) (entries : List Entry)
            (handed after : List DeliveredSpec)
            → KeepsGot self.old side (Deed.Took m entries handed ∷ past) → d.cause ≡ None
            → AreRead (raws_heard side (Deed.Took m entries handed ∷ past) (bunch_of b.now)).whole
            handed after
            → KeepsGot self.new side (Deed.Took m (Entry.Heard (bunch_of b.now) ∷ entries) after ∷
            past)) }
        ensures spent { OnErr result (IsSpent self.new) }
        ensures after { IsSpent self.old → IsErr result }
    {
        if self.spent {
            return Err(Memory);
        }
        if is_misplaced(self.server, b) {
            return Ok(Delivered {
                whole: MessageList::new(self.alloc),
                cause: Some(Cause::BadChannel { channel: b.channel }),
            });
        }
        match hear_on(self.alloc, &mut self.slots, self.server, b, self.held) {
            Ok(heard) => {
                self.held = heard.held;
                Ok(Delivered {
                    whole: heard.whole,
                    cause: heard.cause,
                })
            }
            Err(memory) => {
                self.spent = true;
                Err(memory)
            }
        }
    }
}

/// The kind doesn't fit the channel, a bunch of channel 0 isn't a plain reliable one, or one opens
/// or closes at the server.
fn is_misplaced(server: bool, b: &Bunch) -> bool
    ensures { (side : Side) → server ≡ is_server side
        → result ≡ misplaced_of side (bunch_of b.now) }
{
    let control = b.channel == 0;
    let kind = if control { 1 } else { 2 };
    let flagged = b.opens || b.closes;
    (b.reliable && b.kind != kind) || (control && (!b.reliable || flagged)) || (server && flagged)
}

/// Makes slots up to so many, as far as there is memory.
fn grow(alloc: Global, slots: &mut Vec<InSlot>, len: usize) -> Result<(), Memory>
    ensures same { (ch : ℕ) → in_at slots.new.items ch ≡ in_at slots.old.items ch }
    ensures least { OnOk result (len ≤ length slots.new.items) }
{
    for _count in slots.len()..len {
        slots.push(InSlot::new(alloc))?;
    }
    Ok(())
}

/// Takes a bunch on its channel.
fn hear_on(
    alloc: Global,
    slots: &mut Vec<InSlot>,
    server: bool,
    b: &Bunch,
    held: usize,
) -> Result<Heard, Memory>
    ensures heard { IfOk result (λ heard. (side : Side) (got : List Received)
        → Before side server got held (bunch_of b.now) (in_at slots.old.items b.now.channel)
        → IsHeard side got held (bunch_of b.now) (in_at slots.old.items b.now.channel)
        (in_at slots.new.items b.now.channel) heard) }
    ensures others { OnOk result ((ch : ℕ) → ch ≢ b.now.channel
        → in_at slots.new.items ch ≡ in_at slots.old.items ch) }
{
    let place = b.channel as usize;
    grow(alloc, slots, place + 1)?;
    let slot = &mut slots[place];
    let heard = slot.hear(alloc, server, b, held)?;
    Ok(heard)
}
