// The entries of a packet, each read from its first bit on.
ghost use Rattle.std.specs.Prelude.{◌≡◌, ◌<◌, ◌+◌, OnOk, IfOk};
ghost use Rattle.protocol_model.specs.PacketReading.{bunch_at, part_of, rec_at, ack_at};
ghost use Rattle.packet_codec.specs.Reads.{Follows, FollowsAs, GoesOn};
ghost use Rattle.protocol_laws.specs.Fields.{on_channel_at, numbered_at};
ghost use Rattle.packet_codec.specs.Values.{bunch_of, rec_of, opening_of, standing_of};
ghost use Rattle.packet_codec.specs.Lent.{IsLentFrom, EndsWith};

use crate::fault::Fault;
use crate::fields::{
    channel, closes, exports, flag, flag_if, int, int_if, kind, partial, reliable, reserved, slice,
};
use crate::packet::{Bunch, Rec};
use bit_io::BitReader;
use protocol_model::limits::{BUNCH_BITS_LIMIT, PACKET_MODULUS, SEQUENCE_MODULUS};
use protocol_model::{Part, Version};

/// What a bunch's header says before its channel.
#[derive(Clone, Copy, Debug)]
struct Opening {
    opens: bool,
    closes: bool,
    sleeps: bool,
    reliable: bool,
}

/// What a bunch's header says from its channel up to its number.
#[derive(Clone, Copy, Debug)]
struct Standing {
    channel: u16,
    exports: bool,
    partial: bool,
}

/// An entry. In version one a bit tells the two kinds apart; in version two each is a bunch.
pub fn entry<'a>(version: Version, reader: &mut BitReader<'a>) -> Result<Rec<'a>, Fault>
    ensures exact { FollowsAs rec_of (rec_at version) reader.old reader.new result }
    ensures lent { IfOk result (λ r. IsLentFrom reader.old.bytes r) }
    ensures place { IfOk result (λ r. EndsWith reader.new.place r) }
    ensures on { OnOk result (GoesOn reader.old reader.new) }
    ensures onward { OnOk result (reader.old.place < reader.new.place) }
{
    match version {
        Version::One => {
            if flag(reader)? {
                return Ok(Rec::Ack(int(reader, PACKET_MODULUS)? as u16));
            }
        }
        Version::Two => {}
    }
    Ok(Rec::Bunch(bunch(version, reader)?))
}

/// A bunch, by the table of its fields.
fn bunch<'a>(version: Version, reader: &mut BitReader<'a>) -> Result<Bunch<'a>, Fault>
    ensures exact { FollowsAs bunch_of (bunch_at version) reader.old reader.new result }
    ensures lent { IfOk result (λ b. b.payload.bytes ≡ reader.old.bytes) }
    ensures place { IfOk result (λ b. b.payload.to ≡ reader.new.place) }
    ensures on { OnOk result (GoesOn reader.old reader.new) }
    ensures onward { OnOk result (reader.old.place < reader.new.place) }
{
    let control = flag(reader)?;
    let opens = flag_if(reader, control)?;
    let closes = closes(reader, control, opens)?;
    let sleeps = flag_if(reader, closes)?;
    reserved(reader)?;
    let reliable = reliable(reader, control, opens)?;
    on_channel(
        version,
        reader,
        Opening {
            opens,
            closes,
            sleeps,
            reliable,
        },
    )
}

/// A bunch, from its channel on.
fn on_channel<'a>(
    version: Version,
    reader: &mut BitReader<'a>,
    opening: Opening,
) -> Result<Bunch<'a>, Fault>
    ensures exact { FollowsAs bunch_of (on_channel_at version (opening_of opening))
        reader.old reader.new result }
    ensures lent { IfOk result (λ b. b.payload.bytes ≡ reader.old.bytes) }
    ensures place { IfOk result (λ b. b.payload.to ≡ reader.new.place) }
    ensures on { OnOk result (GoesOn reader.old reader.new) }
{
    let channel = channel(version, reader)?;
    let exports = exports(reader, opening.opens)?;
    reserved(reader)?;
    let partial = partial(reader, opening.reliable)?;
    numbered(
        reader,
        opening,
        Standing {
            channel,
            exports,
            partial,
        },
    )
}

/// A bunch, from its number on.
fn numbered<'a>(
    reader: &mut BitReader<'a>,
    opening: Opening,
    standing: Standing,
) -> Result<Bunch<'a>, Fault>
    ensures exact { FollowsAs bunch_of (numbered_at (opening_of opening) (standing_of standing))
        reader.old reader.new result }
    ensures lent { IfOk result (λ b. b.payload.bytes ≡ reader.old.bytes) }
    ensures place { IfOk result (λ b. b.payload.to ≡ reader.new.place) }
    ensures on { OnOk result (GoesOn reader.old reader.new) }
{
    let seq = int_if(reader, opening.reliable, SEQUENCE_MODULUS)?;
    let initial = flag_if(reader, standing.partial)?;
    let last = flag_if(reader, standing.partial)?;
    let kind = kind(reader, opening.reliable)?;
    let size = int(reader, BUNCH_BITS_LIMIT)?;
    let payload = slice(reader, size as usize)?;
    Ok(Bunch {
        opens: opening.opens,
        closes: opening.closes,
        sleeps: opening.sleeps,
        reliable: opening.reliable,
        channel: standing.channel,
        exports: standing.exports,
        part: part(standing.partial, initial, last),
        seq: seq as u16,
        kind,
        payload,
    })
}

/// The part by its three flags.
fn part(partial: bool, initial: bool, last: bool) -> Part
    ensures { result ≡ part_of partial initial last }
{
    match (partial, initial, last) {
        (false, _, _) => Part::Whole,
        (true, true, false) => Part::First,
        (true, false, false) => Part::Middle,
        (true, false, true) => Part::Last,
        (true, true, true) => Part::Lone,
    }
}
