// Calls.
ghost use Rattle.std.specs.Prelude.{◌≡◌, ◌≤◌, ◌-◌, ℕ, List, Some, IsTrue, IfOk, IfSome, slice_get, cond};
ghost use Rattle.protocol_model.specs.Value.{goes_up, goes_down};
ghost use Rattle.connection_model.specs.PayloadReading.{number_at, field, is_call_of, call_at_end};
ghost use Rattle.class_layout.specs.Tables.{class_of};
ghost use Rattle.class_layout.specs.declared.class.Segment.{Segment};
ghost use Rattle.payload_reading.specs.Reads.{Follows, itself};
ghost use Rattle.payload_reading.specs.TableLimits.{HasTableLimits};
ghost use Rattle.payload_reading.specs.Values.{call_message, finds_call};

use crate::args::read_args;
use crate::fields::{nothing_left, number};
use crate::stop::Stop;
use bit_io::BitReader;
use class_layout::{ArgList, Call, Class, Way};
use std::alloc::Global;

/// A call of a class by its number, from 1, with its arguments.
#[derive(Debug, Drop)]
pub struct ReadCall {
    pub number: u16,
    pub args: ArgList,
}

/// A call's number and arguments, up to the payload's end. The call goes up to the server or down
/// from it, and is as reliable as its bunch.
pub fn read_call(
    alloc: Global,
    reader: &mut BitReader<'_>,
    class: &Class,
    up: bool,
    reliable: bool,
) -> Result<ReadCall, Stop>
    requires { HasTableLimits class.now }
    ensures { (segments : List Segment) (actor : ℕ)
        → Follows (call_message (class_of segments class.now) actor)
        (call_at_end (class_of segments class.now) actor (cond up goes_up goes_down) reliable)
        reader.old reader.new result }
{
    let left = reader.left();
    let n = number(reader)?;
    let Some(call) = call_of(class, n, up, reliable) else {
        return Err(Stop::Broken { left, cause: None });
    };
    let args = read_args(alloc, reader, call.args.as_slice())?;
    nothing_left(reader)?;
    Ok(ReadCall {
        number: n as u16,
        args,
    })
}

/// The call of that number, where there is one that goes so and is so reliable.
fn call_of(class: &Class, n: u32, up: bool, reliable: bool) -> Option<&Call>
    ensures { finds_call class.now.calls n up reliable result }
{
    if n == 0 {
        return None;
    }
    let call = class.calls.get(n as usize - 1)?;
    if call.reliable != reliable || goes_up(call.way) != up {
        return None;
    }
    Some(call)
}

/// The call goes to the server.
fn goes_up(way: Way) -> bool
    ensures { result ≡ goes_up way }
{
    match way {
        Way::Server => true,
        Way::Client | Way::Multicast => false,
    }
}
