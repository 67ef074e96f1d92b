// How many bits the spellings take.
ghost use Rattle.std.specs.Prelude.{◌≡◌, ◌<◌, ◌≤◌, ◌*◌, ◌^◌, ℕ, Bool, IsTrue, length};
ghost use Rattle.protocol_model.specs.Limits.{packet_bytes};
ghost use Rattle.protocol_model.specs.Packet.{rec_bits, Sends, is_rec, is_bunch, channel_bits, channel_limit};
ghost use Rattle.packet_codec.specs.Values.{bunch_of, rec_of, are_recs, recs_bits};
ghost use Rattle.protocol_laws.specs.Parts.{control_bits, numbered_bits};

use crate::packet::{Bunch, Rec};
use protocol_model::{Part, Version};

/// The bits of an acknowledgement, with the bit before it.
const ACK_BITS: usize = 15;

/// The bits of the flags after the channel.
const STANDING_BITS: usize = 3;

/// The bits of a payload's length.
const SIZE_BITS: usize = 13;

/// How many bits the entry takes that is this bunch, with the bit before it in version one.
///
/// The bunch has a spelling in that version.
pub fn bunch_bits(version: Version, b: &Bunch) -> usize
    requires { IsTrue (is_bunch version (bunch_of b.now)) }
    ensures { result ≡ length (rec_bits version (Sends (bunch_of b.now))) }
{
    let mark = match version {
        Version::One => 1,
        Version::Two => 0,
    };
    let header = control_width(b.opens, b.closes)
        + channel_width(version, b.channel)
        + STANDING_BITS
        + numbered_width(b.reliable, b.part)
        + SIZE_BITS;
    mark + header + b.payload.len()
}

/// How many bits the entry takes, which has a spelling in that version.
fn entry_bits(version: Version, r: &Rec) -> usize
    requires { IsTrue (is_rec version (rec_of r.now)) }
    ensures { result ≡ length (rec_bits version (rec_of r.now)) }
{
    match r {
        Rec::Ack(_) => ACK_BITS,
        Rec::Bunch(bunch) => bunch_bits(version, bunch),
    }
}

/// How many bits the entries take, which have spellings in that version that fit a packet.
pub(crate) fn entries_bits(version: Version, recs: &[Rec]) -> usize
    requires recs { IsTrue (are_recs version recs.now) }
    requires few { length (recs_bits version recs.now) ≤ 8 * packet_bytes }
    ensures { result ≡ length (recs_bits version recs.now) }
{
    let mut bits = 0;
    for rec in recs {
        bits += entry_bits(version, rec);
    }
    bits
}

/// How many bits the flags before the channel take.
#[tactic(auto, using(protocol_laws::proofs::FieldLengths::control_length))]
fn control_width(opens: bool, closes: bool) -> usize
    ensures width { (sleeps reliable : Bool)
        → result ≡ length (control_bits opens closes sleeps reliable) }
    ensures most { result < 2 ^ 8 }
{
    let flags = if opens || closes { 5 } else { 3 };
    if closes { flags + 1 } else { flags }
}

/// How many bits the numbers and the flags of a part take.
#[tactic(auto, using(protocol_laws::proofs::FieldLengths::numbered_length))]
fn numbered_width(reliable: bool, part: Part) -> usize
    ensures width { (seq kind : ℕ) → result ≡ length (numbered_bits reliable seq part kind) }
    ensures most { result < 2 ^ 8 }
{
    let numbers = if reliable { 13 } else { 0 };
    if part == Part::Whole {
        numbers
    } else {
        numbers + 2
    }
}

/// How many bits a channel's index takes.
fn channel_width(version: Version, channel: u16) -> usize
    requires { channel < channel_limit version }
    ensures width { result ≡ length (channel_bits version channel) }
    ensures most { result < 2 ^ 8 }
{
    match version {
        Version::One => { if channel % 8192 < 2048 { 14 } else { 13 } }
        Version::Two => {
            if channel < 128 {
                8
            } else if channel < 16384 {
                16
            } else {
                24
            }
        }
    }
}
