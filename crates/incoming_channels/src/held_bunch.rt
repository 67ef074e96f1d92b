// A bunch that waits for one before it.
ghost use Rattle.std.specs.Prelude.{◌≡◌, IfOk};
ghost use Rattle.packet_codec.specs.Values.{bunch_of};

use bit_io::{Bits, Memory};
use packet_codec::Bunch;
use protocol_model::Part;
use std::alloc::Global;
use std::marker::Model;

/// A bunch that waits for one before it, with its own bits.
#[derive(Drop)]
pub(crate) struct HeldBunch {
    opens: bool,
    closes: bool,
    sleeps: bool,
    reliable: bool,
    channel: u16,
    exports: bool,
    part: Part,
    seq: u16,
    kind: u8,
    payload: Bits,
}

impl Model for HeldBunch {
    ghost use Rattle.protocol_model.specs.Packet.{Bunch as BunchSpec};

    ghost Value = { BunchSpec };

    ghost view = { λ h. record {
      opens = h.opens;
      closes = h.closes;
      sleeps = h.sleeps;
      reliable = h.reliable;
      channel = h.channel;
      exports = h.exports;
      part = h.part;
      seq = h.seq;
      kind = h.kind;
      payload = h.payload;
    } };
}

impl HeldBunch {
    /// The bunch, with a copy of its bits.
    pub fn keep(alloc: Global, b: &Bunch) -> Result<HeldBunch, Memory>
        ensures { IfOk result (λ h. h ≡ bunch_of b.now) }
    {
        let payload = b.payload.keep(alloc)?;
        Ok(HeldBunch {
            opens: b.opens,
            closes: b.closes,
            sleeps: b.sleeps,
            reliable: b.reliable,
            channel: b.channel,
            exports: b.exports,
            part: b.part,
            seq: b.seq,
            kind: b.kind,
            payload,
        })
    }

    /// The bunch, lent.
    pub fn lend(&self) -> Bunch<'_>
        ensures { bunch_of result ≡ self.now }
    {
        Bunch {
            opens: self.opens,
            closes: self.closes,
            sleeps: self.sleeps,
            reliable: self.reliable,
            channel: self.channel,
            exports: self.exports,
            part: self.part,
            seq: self.seq,
            kind: self.kind,
            payload: self.payload.lend(),
        }
    }
}
