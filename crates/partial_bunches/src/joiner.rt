// Parts joined to a payload.
ghost use Rattle.std.specs.Prelude.{◌≡◌, ◌+◌, ◌*◌, ◌++◌, ◌<◌, ◌≤◌, ◌==◌, [], ℕ, List, length, OnOk, OnErr, not, IfOk};
ghost use Rattle.protocol_model.specs.Limits.{part_bits, part_limit};
ghost use Rattle.protocol_model.specs.Packet.{Bunch as BunchSpec};
ghost use Rattle.bit_io.specs.Lent.{slice_bits};
ghost use Rattle.connection_model.specs.Windows.{part_fault as fault_of};
ghost use Rattle.packet_codec.specs.Values.{bunch_of};
ghost use Rattle.partial_bunches.specs.Joins.{Joins, IsAdded, kept_after, bits_kept, HasRoom};

use crate::rules::{ends_payload, part_fault};
use bit_io::{BitSlice, BitWriter, Bits, Memory};
use packet_codec::Bunch;
use protocol_model::PartWhy;
use protocol_model::limits::PAYLOAD_BITS;
use std::alloc::Global;
use std::marker::Model;
use thiserror::Error;

/// What a part leads to.
#[derive(Debug, Drop)]
pub enum Joined {
    /// More parts are to come.
    More,
    /// The payload is whole.
    Whole(Bits),
}

/// Why a part isn't joined.
#[derive(Clone, Copy, Debug, PartialEq, Eq, Error)]
pub enum PartRefusal {
    /// It breaks a rule of parts.
    #[error("no part of the payload: {why:?}")]
    BadPart { why: PartWhy },
    /// There is no memory for it.
    #[error("out of memory")]
    Memory,
}

/// The parts of a payload that came so far on a channel, at most 10 of 7,000 bits.
///
///     nothing kept --First--> parts kept --Middle--> parts kept --Last--> nothing kept
///
/// Room for a whole payload, 70,000 bits, is taken with the first part, so each part is copied
/// once.
#[derive(Drop)]
pub struct Joiner {
    alloc: Global,
    count: usize,
    parts: Option<BitWriter>,
}

impl Model for Joiner {
    ghost use Rattle.std.specs.Prelude.{◌≡◌};
    ghost use Rattle.partial_bunches.specs.Joins.{Kept, bits_kept, HasRoom};

    ghost Value = { Kept };

    ghost view = { λ j. record { count = j.count; bits = bits_kept j.parts } };

    ghost invariant = { λ j. HasRoom j.count j.parts };
}

impl Joiner {
    /// Nothing is kept. Memory is taken with a first part.
    pub fn new(alloc: Global) -> Joiner
        ensures { Joins result [] }
    {
        Joiner {
            alloc,
            count: 0,
            parts: None,
        }
    }

    /// Whether a first part is kept.
    pub fn waiting(&self) -> bool
        ensures { (kept : List BunchSpec) → Joins self.now kept → result ≡ not (length kept == 0) }
    {
        self.count > 0
    }

    /// The first rule of parts that a bunch would break if it came next on the channel.
    pub fn fault(&self, b: &Bunch) -> Option<PartWhy>
        ensures { (kept : List BunchSpec) → Joins self.now kept
            → result ≡ fault_of kept (bunch_of b.now) b.now.part }
    {
        part_fault(b, self.count)
    }

    /// Adds the bunch that comes next on the channel. A whole unreliable bunch leaves the parts
    /// alone.
    ///
    /// `BadPart` comes exactly where the bunch breaks a rule of parts, and names the first rule
    /// that it breaks. A refusal changes nothing.
    pub fn add(&mut self, b: &Bunch) -> Result<Joined, PartRefusal>
        ensures answer { (kept : List BunchSpec) → Joins self.old kept
            → IsAdded kept (bunch_of b.now) result }
        ensures joins { OnOk result ((kept : List BunchSpec) → Joins self.old kept
            → Joins self.new (kept_after kept (bunch_of b.now))) }
        ensures err { OnErr result (self.new ≡ self.old) }
    {
        if let Some(why) = part_fault(b, self.count) {
            return Err(PartRefusal::BadPart { why });
        }
        if !ends_payload(b.part) {
            let Ok(()) = keep_part(self.alloc, &mut self.parts, self.count, b.payload) else {
                return Err(PartRefusal::Memory);
            };
            self.count += 1;
            return Ok(Joined::More);
        }
        if b.reliable {
            if let Some(mut parts) = self.parts.take() {
                self.count = 0;
                parts.put_slice(b.payload);
                return Ok(Joined::Whole(parts.into_bits()));
            }
        }
        let Ok(bits) = b.payload.keep(self.alloc) else {
            return Err(PartRefusal::Memory);
        };
        Ok(Joined::Whole(bits))
    }
}

/// Keeps a part of 7,000 bits behind those that are kept. `Memory` changes nothing.
fn keep_part(
    alloc: Global,
    parts: &mut Option<BitWriter>,
    count: usize,
    payload: BitSlice,
) -> Result<(), Memory>
    requires room { HasRoom count parts.old }
    requires bits { length (slice_bits payload) ≡ part_bits }
    requires count { count < part_limit }
    ensures ok { OnOk result (bits_kept parts.new
        ≡ bits_kept parts.old ++ slice_bits payload.entry) }
    ensures room { OnOk result (HasRoom (count + 1) parts.new) }
    ensures err { OnErr result (parts.new ≡ parts.old) }
{
    if let Some(writer) = parts {
        writer.put_slice(payload);
        return Ok(());
    }
    let mut writer = BitWriter::with_room(alloc, PAYLOAD_BITS)?;
    writer.put_slice(payload);
    *parts = Some(writer);
    Ok(())
}
