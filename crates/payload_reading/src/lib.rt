// The fields of payloads: values, arguments of calls and exported segments, read from left to right.
//
//     update   | handle | value | handle | value | .. | 0 |        read_some_values
//     open     | .. segments .. | handle | value | .. | 0 |        read_segment, read_values
//     call     | number | argument | argument | .. |               read_call
//
// A reader of payloads takes them in the order in which they come, and stops at the first rule that
// is broken:
//
//     let mut reader = payload.reader();
//     let actor = actor(&mut reader)?;
//     let call = read_call(alloc, &mut reader, class, true, bunch.reliable)?;
//
// It stands on `bit_io` for numbers in bits, on `value_codec` for values by their kinds and on
// `class_layout` for the classes. It promises that what is read, and the first broken rule with the
// bits that were left there, are those of the readings of `connection_model`; only want of memory is
// no part of them. It reads from the bits where they lie, and knows no copy, no name that was learnt
// and no channel.
#![tactic(auto)]

mod args;
mod calls;
mod classes;
mod fields;
mod segments;
mod stop;
#[cfg(test)]
mod tests;
mod values;

pub use args::read_args;
pub use calls::{ReadCall, read_call};
pub use class_layout::{Arg, ArgList, Class, Classes, Guid, Kind, PairList, Value};
pub use classes::class_at;
pub use fields::{actor, bit, int, nothing_left, number, value};
pub use segments::{ReadSegment, read_segment};
pub use stop::Stop;
pub use values::{read_some_values, read_values};
