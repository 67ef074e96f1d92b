// Arguments of calls.
ghost use Rattle.std.specs.Prelude.{◌≡◌, map, true, IsTrue};
ghost use Rattle.std.specs.List.{list_all};
ghost use Rattle.table_model.specs.Facts.{is_type};
ghost use Rattle.connection_model.specs.PayloadReading.{arg_at, args_at, octets_arg_at};
ghost use Rattle.value_codec.specs.Values.{arg_of};
ghost use Rattle.payload_reading.specs.Reads.{Follows};
ghost use Rattle.payload_reading.specs.Values.{arg_values};

use crate::fields::{int, octets, value};
use crate::stop::Stop;
use bit_io::BitReader;
use class_layout::{Arg, ArgList, Kind};
use std::alloc::Global;

/// Arguments of these kinds, one after another.
pub fn read_args(alloc: Global, reader: &mut BitReader<'_>, kinds: &[Kind]) -> Result<ArgList, Stop>
    requires { IsTrue (list_all (is_type true) kinds.now) }
    ensures { Follows arg_values (args_at kinds.now) reader.old reader.new result }
{
    let mut list = ArgList::new(alloc);
    for kind in kinds {
        list.push(arg(alloc, reader, *kind)?)?;
    }
    Ok(list)
}

/// An argument by its kind.
fn arg(alloc: Global, reader: &mut BitReader<'_>, kind: Kind) -> Result<Arg, Stop>
    requires { IsTrue (is_type true kind) }
    ensures { Follows arg_of (arg_at kind) reader.old reader.new result }
{
    match kind {
        Kind::Bytes(most) => bytes(alloc, reader, most),
        _ => Ok(Arg::Scalar(value(reader, kind)?)),
    }
}

/// An argument of at most so many bytes.
fn bytes(alloc: Global, reader: &mut BitReader<'_>, most: u16) -> Result<Arg, Stop>
    ensures { Follows arg_of (octets_arg_at most) reader.old reader.new result }
{
    let count = int(reader, most as u32 + 1)?;
    Ok(Arg::Bytes(octets(alloc, reader, count)?))
}
