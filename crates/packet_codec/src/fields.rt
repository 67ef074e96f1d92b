// The fields of a bunch's header, each with its rule.
ghost use Rattle.std.specs.Prelude.{◌≡◌, ◌<◌, ◌≤◌, ◌^◌, OnOk, IfOk, Ok, Err, false};
ghost use Rattle.protocol_model.specs.Reading.{bit_at, bits_at, int_at, fixed_at};
ghost use Rattle.protocol_model.specs.PacketReading.{read_if, channel_at};
ghost use Rattle.bit_io.specs.Lent.{MovesBy, slice_bits};
ghost use Rattle.packet_codec.specs.Reads.{Follows, FollowsAs, GoesOn};
ghost use Rattle.protocol_laws.specs.Fields.{closes_at, reserved_at, reliable_at, exports_at, partial_at, kind_at};

use crate::fault::Fault;
use bit_io::{BitReader, BitSlice, Short};
use protocol_model::limits::{CHANNELS_ONE, CHANNELS_TWO};
use protocol_model::{NumRefusal, Version, Why};

/// One bit.
pub fn flag(reader: &mut BitReader<'_>) -> Result<bool, Fault>
    ensures exact { Follows bit_at reader.old reader.new result }
    ensures on { OnOk result (MovesBy reader.old reader.new 1) }
{
    Ok(reader.bit()?)
}

/// One bit where the condition holds, and else 0.
pub fn flag_if(reader: &mut BitReader<'_>, stands: bool) -> Result<bool, Fault>
    ensures exact { Follows (read_if stands bit_at false) reader.old reader.new result }
    ensures on { OnOk result (GoesOn reader.old reader.new) }
{
    if !stands {
        return Ok(false);
    }
    flag(reader)
}

/// A number below a bound.
pub fn int(reader: &mut BitReader<'_>, max: u32) -> Result<u32, Fault>
    requires { 1 ≤ max }
    ensures exact { Follows (int_at max) reader.old reader.new result }
    ensures below { IfOk result (λ v. v < max) }
    ensures on { OnOk result (GoesOn reader.old reader.new) }
{
    Ok(reader.int(max)?)
}

/// A number below a bound where the condition holds, and else 0.
pub fn int_if(reader: &mut BitReader<'_>, stands: bool, max: u32) -> Result<u32, Fault>
    requires { 1 ≤ max }
    ensures exact { Follows (read_if stands (int_at max) 0) reader.old reader.new result }
    ensures below { IfOk result (λ v. v < max) }
    ensures on { OnOk result (GoesOn reader.old reader.new) }
{
    if !stands {
        return Ok(0);
    }
    int(reader, max)
}

/// A word of history.
pub fn word(reader: &mut BitReader<'_>) -> Result<u32, Fault>
    ensures exact { Follows (fixed_at 32) reader.old reader.new result }
    ensures on { OnOk result (GoesOn reader.old reader.new) }
{
    Ok(reader.fixed(32)? as u32)
}

/// The flag of a close, which a control bunch has where it doesn't open.
pub fn closes(reader: &mut BitReader<'_>, control: bool, opens: bool) -> Result<bool, Fault>
    ensures exact { Follows (closes_at control opens) reader.old reader.new result }
    ensures on { OnOk result (GoesOn reader.old reader.new) }
{
    if !control {
        return Ok(false);
    }
    let left = reader.left();
    let closes = flag(reader)?;
    if closes == opens {
        return Err(Fault::Broken {
            left,
            why: Why::Control,
        });
    }
    Ok(closes)
}

/// A reserved bit, which is 0.
pub fn reserved(reader: &mut BitReader<'_>) -> Result<bool, Fault>
    ensures exact { Follows reserved_at reader.old reader.new result }
    ensures on { OnOk result (GoesOn reader.old reader.new) }
{
    let left = reader.left();
    let reserved = flag(reader)?;
    if reserved {
        return Err(Fault::Broken {
            left,
            why: Why::Reserved,
        });
    }
    Ok(reserved)
}

/// The flag of a reliable bunch, which a control bunch has.
pub fn reliable(reader: &mut BitReader<'_>, control: bool, opens: bool) -> Result<bool, Fault>
    ensures exact { Follows (reliable_at control opens) reader.old reader.new result }
    ensures on { OnOk result (GoesOn reader.old reader.new) }
{
    let left = reader.left();
    let reliable = flag(reader)?;
    if control && !reliable {
        let why = if opens {
            Why::OpenUnreliable
        } else {
            Why::CloseUnreliable
        };
        return Err(Fault::Broken { left, why });
    }
    Ok(reliable)
}

/// The flag of exports, which only a bunch has that opens.
pub fn exports(reader: &mut BitReader<'_>, opens: bool) -> Result<bool, Fault>
    ensures exact { Follows (exports_at opens) reader.old reader.new result }
    ensures on { OnOk result (GoesOn reader.old reader.new) }
{
    let left = reader.left();
    let exports = flag(reader)?;
    if exports && !opens {
        return Err(Fault::Broken {
            left,
            why: Why::ExportsUnopened,
        });
    }
    Ok(exports)
}

/// The flag of a part of a payload, which only a reliable bunch has.
pub fn partial(reader: &mut BitReader<'_>, reliable: bool) -> Result<bool, Fault>
    ensures exact { Follows (partial_at reliable) reader.old reader.new result }
    ensures on { OnOk result (GoesOn reader.old reader.new) }
{
    let left = reader.left();
    let partial = flag(reader)?;
    if partial && !reliable {
        return Err(Fault::Broken {
            left,
            why: Why::PartialUnreliable,
        });
    }
    Ok(partial)
}

/// The kind of a reliable bunch's channel, 1 or 2, and else 0.
pub fn kind(reader: &mut BitReader<'_>, reliable: bool) -> Result<u8, Fault>
    ensures exact { Follows (kind_at reliable) reader.old reader.new result }
    ensures on { OnOk result (GoesOn reader.old reader.new) }
{
    if !reliable {
        return Ok(0);
    }
    let left = reader.left();
    let kind = int(reader, 8)?;
    if kind != 1 && kind != 2 {
        return Err(Fault::Broken {
            left,
            why: Why::BadKind,
        });
    }
    Ok(kind as u8)
}

/// A channel's index.
pub fn channel(version: Version, reader: &mut BitReader<'_>) -> Result<u16, Fault>
    ensures exact { Follows (channel_at version) reader.old reader.new result }
    ensures on { OnOk result (GoesOn reader.old reader.new) }
{
    match version {
        Version::One => Ok(int(reader, CHANNELS_ONE)? as u16),
        Version::Two => packed_channel(reader),
    }
}

/// A packed index below 32,768.
fn packed_channel(reader: &mut BitReader<'_>) -> Result<u16, Fault>
    ensures exact { Follows (channel_at Version.Two) reader.old reader.new result }
    ensures on { OnOk result (GoesOn reader.old reader.new) }
{
    let left = reader.left();
    match reader.packed() {
        Ok(channel) => {
            if channel >= CHANNELS_TWO {
                return Err(Fault::Broken {
                    left,
                    why: Why::Wide,
                });
            }
            Ok(channel as u16)
        }
        Err(NumRefusal::Short) => Err(Fault::Short),
        Err(NumRefusal::Padded) => Err(Fault::Broken {
            left,
            why: Why::Padded,
        }),
    }
}

/// `count` bits, lent.
pub fn slice<'a>(reader: &mut BitReader<'a>, count: usize) -> Result<BitSlice<'a>, Fault>
    ensures exact { FollowsAs slice_bits (bits_at count) reader.old reader.new result }
    ensures lent { IfOk result (λ s. s.bytes ≡ reader.old.bytes) }
    ensures place { IfOk result (λ s. s.to ≡ reader.new.place) }
    ensures on { OnOk result (GoesOn reader.old reader.new) }
{
    Ok(reader.take(count)?)
}
