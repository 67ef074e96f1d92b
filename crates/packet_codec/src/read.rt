// A packet's content, read from its first bit on.
ghost use Rattle.std.specs.Prelude.{◌≡◌, ◌<◌, ◌≤◌, ◌-◌, OnOk, IfOk, All, map, take, drop, replicate, length, List};
ghost use Rattle.protocol_model.specs.Limits.{packet_modulus};
ghost use Rattle.protocol_model.specs.PacketReading.{head_at, words_at, recs_at, packet_at};
ghost use Rattle.bit_io.specs.HeadOf.{head_of, IsHead};
ghost use Rattle.bit_io.specs.Lent.{bits_left};
ghost use Rattle.packet_codec.specs.Reads.{Follows, FollowsAs, GoesOn};
ghost use Rattle.packet_codec.specs.Stops.{FollowsUnlessMemory};
ghost use Rattle.packet_codec.specs.Values.{rec_of, packet_value};
ghost use Rattle.packet_codec.specs.Lent.{IsLentFrom};

use crate::entries::entry;
use crate::fault::{Fault, Stop};
use crate::fields::{int, word};
use crate::packet::{Packet, Rec, RecList};
use bit_io::{BitReader, Head};
use protocol_model::Version;
use protocol_model::limits::PACKET_MODULUS;
use std::alloc::Global;

/// A packet's content.
pub fn content<'a>(
    alloc: Global,
    version: Version,
    reader: &mut BitReader<'a>,
) -> Result<Packet<'a>, Stop>
    ensures exact { FollowsUnlessMemory packet_value (packet_at version)
        reader.old reader.new result }
    ensures number { IfOk result (λ p. p.number < packet_modulus) }
    ensures lent { IfOk result (λ p. All (IsLentFrom reader.old.bytes) p.recs) }
    ensures head { IfOk result (λ p. IsHead p.head) }
{
    let number = int(reader, PACKET_MODULUS)? as u16;
    let head = head(version, reader)?;
    let recs = RecList::from_vec(entries(alloc, version, reader)?);
    Ok(Packet { number, head, recs })
}

/// The head, which version one doesn't have.
fn head(version: Version, reader: &mut BitReader<'_>) -> Result<Head, Fault>
    ensures exact { FollowsAs head_of (head_at version) reader.old reader.new result }
    ensures head { IfOk result IsHead }
    ensures on { OnOk result (GoesOn reader.old reader.new) }
{
    match version {
        Version::One => Ok(Head {
            top: 0,
            count: 0,
            words: [0; 8],
        }),
        Version::Two => {
            let top = int(reader, PACKET_MODULUS)? as u16;
            let count = int(reader, 8)? as u8 + 1;
            let words = words(reader, count)?;
            Ok(Head { top, count, words })
        }
    }
}

/// `count` words of history, and 0 for those past them.
fn words(reader: &mut BitReader<'_>, count: u8) -> Result<[u32; 8], Fault>
    requires { count ≤ 8 }
    ensures exact { FollowsAs (take count) (words_at count) reader.old reader.new result }
    ensures past { IfOk result (λ words. drop count words ≡ replicate (8 - count) 0) }
    ensures on { OnOk result (GoesOn reader.old reader.new) }
{
    let mut words = [0; 8];
    for i in 0..count as usize {
        words[i] = word(reader)?;
    }
    Ok(words)
}

/// Entries until the bits are used up.
fn entries<'a>(
    alloc: Global,
    version: Version,
    reader: &mut BitReader<'a>,
) -> Result<Vec<Rec<'a>>, Stop>
    ensures exact { FollowsUnlessMemory (λ recs. map rec_of recs.items)
        (recs_at version (length (bits_left reader.old))) reader.old reader.new result }
    ensures lent { IfOk result (λ recs. All (IsLentFrom reader.old.bytes) recs.items) }
{
    let mut recs = Vec::new(alloc);
    while reader.left() > 0 {
        let rec = entry(version, reader)?;
        recs.push(rec)?;
    }
    Ok(recs)
}
