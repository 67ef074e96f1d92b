// The names that an open exports.
ghost use Rattle.std.specs.Prelude.{◌≡◌, List, nat_le};
ghost use Rattle.protocol_model.specs.Value.{Segment};
ghost use Rattle.connection_model.specs.PayloadReading.{number_at, field, exports_at, segments_at};
ghost use Rattle.netguid_map.specs.Names.{Stands};
ghost use Rattle.payload_reading.specs.Reads.{Follows, itself};
ghost use Rattle.payload_reading.specs.Values.{segment_value};
ghost use Rattle.client_payloads.specs.Learning.{Learns, IsLearning, refused_by};

use bit_io::BitReader;
use netguid_map::{NameRefusal, Names};
use payload_reading::{ReadSegment, Stop, number, read_segment};
use protocol_model::Cause;
use std::alloc::Global;

/// Learns the exports of an open, where its flag says that there are some.
pub(crate) fn exports(
    alloc: Global,
    reader: &mut BitReader<'_>,
    names: &mut Names,
    exports: bool,
) -> Result<(), Stop>
    ensures { (known : List Segment) → Stands names.old known
        → Learns (exports_at exports) known reader.old reader.new names.new result }
{
    if !exports {
        return Ok(());
    }
    let count = export_count(reader)?;
    segments(alloc, reader, names, count)
}

/// How many segments are exported, at least 1.
fn export_count(reader: &mut BitReader<'_>) -> Result<u32, Stop>
    ensures { Follows itself (field number_at (λ n. nat_le 1 n)) reader.old reader.new result }
{
    let left = reader.left();
    let n = number(reader)?;
    if n < 1 {
        return Err(Stop::Broken { left, cause: None });
    }
    Ok(n)
}

/// Learns so many segments, each once it has been read whole.
fn segments(
    alloc: Global,
    reader: &mut BitReader<'_>,
    names: &mut Names,
    count: u32,
) -> Result<(), Stop>
    ensures { (known : List Segment) → Stands names.old known
        → Learns (λ known. segments_at known count) known reader.old reader.new names.new result }
{
    for _ in 0..count {
        let segment = read_segment(alloc, reader)?;
        learn(names, &segment, reader.left())?;
    }
    Ok(())
}

/// Learns a segment.
fn learn(names: &mut Names, segment: &ReadSegment, left: usize) -> Result<(), Stop>
    ensures { (known : List Segment) → Stands names.old known
        → IsLearning known (segment_value segment.now) left names.new result }
{
    match names.learn(segment.guid, segment.outer, segment.name.as_slice()) {
        Ok(()) => Ok(()),
        Err(why) => Err(refusal(left, why)),
    }
}

/// What a refusal of a name breaks.
fn refusal(left: usize, why: NameRefusal) -> Stop
    ensures { result ≡ refused_by left why }
{
    let cause = match why {
        NameRefusal::Unknown { guid } => Cause::UnknownGuid { guid: guid.0 },
        NameRefusal::Clash { guid } => Cause::Clash { guid: guid.0 },
        NameRefusal::NamesFull => Cause::NamesFull,
        NameRefusal::Memory => return Stop::Memory,
    };
    Stop::Broken {
        left,
        cause: Some(cause),
    }
}
