// The values of properties and the arguments of calls: which kinds they fit, and how a value is
// written and read.
//
//     Kind::Enum(4), Value::Enum(2)  --put_value-->  01      (2 bits, the lowest first)
//                    Value::Enum(2)  <--get_value--  01 ..
//
// A value has the tag of its kind, so that a number of one kind is never taken for one of another:
//
//     if !fits(kind, value) {
//         return Err(EditRefusal::OutOfRange);
//     }
//     let mut writer = BitWriter::with_room(alloc, 64)?;
//     put_value(&mut writer, kind, value);
//     let bits = writer.len();
//     let bytes = writer.finish();
//     let mut reader = BitReader::new(bytes.as_slice(), bits);
//     let again = get_value(&mut reader, kind)?; // the same value
//
// It stands on `protocol_model` for which numbers a kind has and how they are spelled, on `bit_io`
// for numbers in bits, and on `net_core` for guids, handles and lists.
//
// It promises that a value fits exactly where the tag and the number do, is written as exactly its
// spelling, and is read exactly where a spelling of its kind begins the bits. It knows no class, no
// actor and no payload: which property has which kind is told by the caller, and arguments are
// written by whoever writes a call.
#![tactic(auto)]

mod args;
mod get;
mod handed;
pub mod laws;
mod pair;
mod put;
#[cfg(test)]
mod tests;
mod value;

pub use args::{Arg, ArgList, args_fit};
pub use bit_io::{BitReader, BitWriter, Blob, Memory};
pub use get::get_value;
pub use handed::{Handed, HandedList};
pub use net_core::{Guid, Handle, Items};
pub use pair::{Pair, PairList};
pub use protocol_model::{CallVerdict, Kind, NumRefusal};
pub use put::put_value;
pub use value::{Value, fits, value_of};
