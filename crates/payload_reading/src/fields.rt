// The fields of payloads, each with its rule.
ghost use Rattle.std.specs.Prelude.{◌≡◌, ◌≤◌, ◌<◌, IsTrue, IfOk};
ghost use Rattle.protocol_model.specs.Reading.{bit_at, int_at, fixed_at};
ghost use Rattle.connection_model.specs.PayloadReading.{number_at, actor_at, end_at, value_at, octets_at};
ghost use Rattle.value_codec.specs.Values.{whole_of};
ghost use Rattle.value_codec.specs.Reading.{has_values};
ghost use Rattle.payload_reading.specs.Reads.{Follows, itself, stop_of};

use crate::stop::Stop;
use bit_io::{BitReader, Blob};
use class_layout::{Guid, Kind, Value, get_value};
use protocol_model::NumRefusal;
use std::alloc::Global;

/// One bit.
pub fn bit(reader: &mut BitReader<'_>) -> Result<bool, Stop>
    ensures { Follows itself bit_at reader.old reader.new result }
{
    Ok(reader.bit()?)
}

/// A number below a bound.
pub fn int(reader: &mut BitReader<'_>, max: u32) -> Result<u32, Stop>
    requires { 1 ≤ max }
    ensures exact { Follows itself (int_at max) reader.old reader.new result }
    ensures below { IfOk result (λ n. n < max) }
{
    Ok(reader.int(max)?)
}

/// A packed number, spelled in the shortest way.
pub fn number(reader: &mut BitReader<'_>) -> Result<u32, Stop>
    ensures { Follows itself number_at reader.old reader.new result }
{
    let left = reader.left();
    match reader.packed() {
        Ok(n) => Ok(n),
        Err(why) => Err(stop(left, why)),
    }
}

/// The guid of an actor, even and at least 2.
pub fn actor(reader: &mut BitReader<'_>) -> Result<Guid, Stop>
    ensures { Follows itself actor_at reader.old reader.new result }
{
    let left = reader.left();
    let g = number(reader)?;
    if g % 2 != 0 || g < 2 {
        return Err(Stop::Broken { left, cause: None });
    }
    Ok(Guid(g))
}

/// No bits are left over; it answers that there are 0.
pub fn nothing_left(reader: &mut BitReader<'_>) -> Result<usize, Stop>
    ensures { Follows itself end_at reader.old reader.new result }
{
    let left = reader.left();
    if left != 0 {
        return Err(Stop::Broken { left, cause: None });
    }
    Ok(left)
}

/// A value of a kind.
pub fn value(reader: &mut BitReader<'_>, kind: Kind) -> Result<Value, Stop>
    requires { IsTrue (has_values kind) }
    ensures { Follows whole_of (value_at kind) reader.old reader.new result }
{
    let left = reader.left();
    match get_value(reader, kind) {
        Ok(v) => Ok(v),
        Err(why) => Err(stop(left, why)),
    }
}

/// What a number that isn't read breaks.
fn stop(left: usize, why: NumRefusal) -> Stop
    ensures { result ≡ stop_of left why }
{
    match why {
        NumRefusal::Short => Stop::Short,
        NumRefusal::Padded => Stop::Broken { left, cause: None },
    }
}

/// Eight bits.
pub fn byte(reader: &mut BitReader<'_>) -> Result<u8, Stop>
    ensures { Follows itself (fixed_at 8) reader.old reader.new result }
{
    Ok(reader.fixed(8)? as u8)
}

/// So many bytes.
pub fn octets(alloc: Global, reader: &mut BitReader<'_>, count: u32) -> Result<Blob, Stop>
    ensures { Follows itself (octets_at count) reader.old reader.new result }
{
    let mut bytes = Blob::new(alloc);
    for _ in 0..count {
        bytes.push(byte(reader)?)?;
    }
    Ok(bytes)
}
