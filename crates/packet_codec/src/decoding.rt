// Packets out of datagrams.
ghost use Rattle.std.specs.Prelude.{◌≡◌, ◌≢◌, ◌<◌, ◌≤◌, ◌-◌, ◌*◌, IfOk, IfErr, All, MatchResult, Ok, Err, take, length};
ghost use Rattle.protocol_model.specs.Bits.{bits_of};
ghost use Rattle.protocol_model.specs.Limits.{packet_modulus};
ghost use Rattle.protocol_model.specs.Reading.{place_of};
ghost use Rattle.protocol_model.specs.PacketReading.{packet_of, content_of, content_read, why_of};
ghost use Rattle.bit_io.specs.HeadOf.{IsHead};
ghost use Rattle.packet_codec.specs.Reads.{fault_of};
ghost use Rattle.packet_codec.specs.Values.{packet_value};
ghost use Rattle.packet_codec.specs.Lent.{IsLentFrom};
ghost use Rattle.packet_codec.specs.Refused.{Explains, EndsAt, HasEnd};

use crate::fault::{Fault, Stop};
use crate::packet::{DecodeRefusal, Packet};
use crate::read::content;
use bit_io::BitReader;
use protocol_model::limits::PACKET_BYTES;
use protocol_model::{Version, Why};
use std::alloc::Global;

/// The packet that the bytes spell. Each payload is lent from the bytes themselves.
///
/// `Malformed` exactly where they spell none, with the first rule that they break and its bit:
/// `Empty` at 0 without bytes, `TooLong` at 8,192 for more than 1,024 bytes, `NoEnd` at the first bit
/// of a last byte that is 0; then the rules of the fields from left to right, and `Short` at the last
/// 1 bit. `Memory` only for bytes that break none of the first three.
pub fn decode<'a>(
    alloc: Global,
    version: Version,
    bytes: &'a [u8],
) -> Result<Packet<'a>, DecodeRefusal>
    ensures exact { MatchResult result
        (λ p. packet_of version bytes.now ≡ Ok (packet_value p))
        (λ e. Explains e version bytes.now) }
    ensures number { IfOk result (λ p. p.number < packet_modulus) }
    ensures memory { IfErr result (λ e. e ≡ DecodeRefusal.Memory → HasEnd bytes.now) }
    ensures lent { IfOk result (λ p. All (IsLentFrom bytes.entry) p.recs) }
    ensures head { IfOk result (λ p. IsHead p.head) }
{
    let end = content_end(bytes)?;
    let mut reader = BitReader::new(bytes, end);
    match content(alloc, version, &mut reader) {
        Ok(packet) => Ok(packet),
        Err(Stop::Fault(fault)) => Err(refusal(end, fault)),
        Err(Stop::Memory) => Err(DecodeRefusal::Memory),
    }
}

/// The place of the last 1 bit, before which the content stands.
fn content_end(bytes: &[u8]) -> Result<usize, DecodeRefusal>
    ensures exact { MatchResult result (EndsAt bytes.now)
        (λ e. (version : Version) → Explains e version bytes.now) }
    ensures memory { IfErr result (λ e. e ≢ DecodeRefusal.Memory) }
{
    let Some(last) = bytes.last() else {
        return Err(DecodeRefusal::Malformed {
            at: 0,
            why: Why::Empty,
        });
    };
    if bytes.len() > PACKET_BYTES {
        return Err(DecodeRefusal::Malformed {
            at: 8 * PACKET_BYTES,
            why: Why::TooLong,
        });
    }
    if *last == 0 {
        return Err(DecodeRefusal::Malformed {
            at: 8 * (bytes.len() - 1),
            why: Why::NoEnd,
        });
    }
    Ok(8 * bytes.len() - 1 - last.leading_zeros() as usize)
}

/// The fault in a content of `total` bits.
fn refusal(total: usize, fault: Fault) -> DecodeRefusal
    ensures { result
        ≡ DecodeRefusal.Malformed (place_of total (fault_of fault)) (why_of (fault_of fault)) }
{
    match fault {
        Fault::Short => DecodeRefusal::Malformed {
            at: total,
            why: Why::Short,
        },
        Fault::Broken { left, why } => DecodeRefusal::Malformed {
            at: total.saturating_sub(left),
            why,
        },
    }
}
