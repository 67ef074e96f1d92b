// Datagrams of version one, written bit by bit: such as a server sends, and such as none does.
use net_core::Memory;
use protocol_model::Part;
use std::alloc::Global;

/// A bunch: its flags, and its payload, which is fields of so many bits each, and then zeros.
#[derive(Clone, Copy)]
pub(crate) struct Sketch<'a> {
    pub opens: bool,
    pub closes: bool,
    pub sleeps: bool,
    pub reliable: bool,
    pub exports: bool,
    pub part: Part,
    pub channel: u16,
    pub seq: u16,
    pub fields: &'a [(u64, usize)],
    pub zeros: usize,
}

/// An unreliable bunch.
pub(crate) fn loose<'a>(channel: u16, fields: &'a [(u64, usize)]) -> Sketch<'a> {
    Sketch {
        opens: false,
        closes: false,
        sleeps: false,
        reliable: false,
        exports: false,
        part: Part::Whole,
        channel,
        seq: 0,
        fields,
        zeros: 0,
    }
}

/// A reliable bunch with a number.
pub(crate) fn sure<'a>(channel: u16, seq: u16, fields: &'a [(u64, usize)]) -> Sketch<'a> {
    Sketch {
        reliable: true,
        seq,
        ..loose(channel, fields)
    }
}

/// A part of a payload of zeros.
pub(crate) fn part_of(channel: u16, seq: u16, part: Part, zeros: usize) -> Sketch<'static> {
    Sketch {
        part,
        zeros,
        ..sure(channel, seq, &[])
    }
}

/// A datagram under way: whole bytes, and the bits of the next one, the first bit lowest.
#[derive(Drop)]
pub(crate) struct Draft {
    bytes: Vec<u8>,
    byte: u8,
    bits: u8,
}

impl Draft {
    /// A packet with this number.
    pub fn new(alloc: Global, number: u64) -> Result<Draft, Memory> {
        let mut draft = Draft {
            bytes: Vec::new(alloc),
            byte: 0,
            bits: 0,
        };
        draft.put(number, 14)?;
        Ok(draft)
    }

    /// An acknowledgement.
    pub fn ack(&mut self, number: u64) -> Result<(), Memory> {
        self.flag(true)?;
        self.put(number, 14)
    }

    /// A bunch.
    pub fn bunch(&mut self, b: &Sketch<'_>) -> Result<(), Memory> {
        self.head(b)?;
        self.part(b)?;
        let mut size = b.zeros;
        for (_, width) in b.fields {
            size = size.saturating_add(*width);
        }
        self.put(size as u64, 13)?;
        for (value, width) in b.fields {
            self.put(*value, *width)?;
        }
        self.put(0, b.zeros)
    }

    /// The bytes, with the end bit.
    pub fn finish(mut self) -> Result<Vec<u8>, Memory> {
        self.flag(true)?;
        for _ in 0..7 {
            self.fill()?;
        }
        Ok(self.bytes)
    }

    /// The flags of a bunch and its channel, which is below 10,240.
    fn head(&mut self, b: &Sketch<'_>) -> Result<(), Memory> {
        self.flag(false)?;
        self.flag(b.opens || b.closes)?;
        if b.opens || b.closes {
            self.flag(b.opens)?;
            self.flag(b.closes)?;
        }
        if b.closes {
            self.flag(b.sleeps)?;
        }
        self.flag(false)?;
        self.flag(b.reliable)?;
        let width = if b.channel % 8192 < 2048 { 14 } else { 13 };
        self.put(u64::from(b.channel), width)?;
        self.flag(b.exports)?;
        self.flag(false)
    }

    /// Which part of its payload the bunch is, its number, and its kind.
    fn part(&mut self, b: &Sketch<'_>) -> Result<(), Memory> {
        let partial = b.part != Part::Whole;
        self.flag(partial)?;
        if b.reliable {
            self.put(u64::from(b.seq), 10)?;
        }
        if partial {
            self.flag(b.part == Part::First || b.part == Part::Lone)?;
            self.flag(b.part == Part::Last || b.part == Part::Lone)?;
        }
        if b.reliable {
            let kind = if b.channel == 0 { 1 } else { 2 };
            self.put(kind, 3)?;
        }
        Ok(())
    }

    /// A number in so many bits.
    fn put(&mut self, value: u64, width: usize) -> Result<(), Memory> {
        let mut rest = value;
        for _ in 0..width {
            self.flag(rest % 2 == 1)?;
            rest /= 2;
        }
        Ok(())
    }

    /// One bit.
    fn flag(&mut self, one: bool) -> Result<(), Memory> {
        self.byte = self.byte / 2 + if one { 128 } else { 0 };
        self.bits = self.bits.wrapping_add(1);
        if self.bits == 8 {
            self.bytes.push(self.byte)?;
            self.bits = 0;
        }
        Ok(())
    }

    /// A 0, unless the byte is whole.
    fn fill(&mut self) -> Result<(), Memory> {
        if self.bits == 0 {
            return Ok(());
        }
        self.flag(false)
    }
}
