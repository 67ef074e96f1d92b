// Bits, bytes and whole numbers spelled in bits.
//
// A packet is a list of bits, the least significant bit of each byte first, after Unreal's
// `FBitWriter` and `FBitReader`. A writer appends spellings to room that was taken at once, so no
// `put` can fail. A reader lends parts of the bytes without copying them. The spellings are those
// of `protocol_model`: numbers below a bound, packed numbers, and numbers of a fixed width.
//
// It stands on `protocol_model` for what a spelling is, and on `protocol_laws` for what is proved of
// spellings. It promises that each `put` appends exactly the spelling, that each read takes exactly
// the spelling that begins the bits left, and that a reader that refuses stays where it was. It knows
// no packet, no field's meaning and no input or output.
//
//     BitWriter  --finish-->  Blob: bytes  --BitReader::new-->  BitReader  --take-->  BitSlice
//         \____into_bits____________________>  Bits  --lend------------------------->
//
// A caller:
//
//     let mut writer = BitWriter::with_room(alloc, 72)?;
//     writer.put_int(5, 10);
//     writer.put_packed(300);
//     let bytes = writer.finish();
//     let mut reader = BitReader::new(bytes.as_slice(), 8 * bytes.len());
//     let five = reader.int(10)?;
//     let many = reader.packed()?;
#![tactic(auto)]

mod bits;
mod blob;
mod head;
mod lent;
mod numbers;
mod reader;
mod relative;
mod slice;
mod words;
mod writer;

pub use bits::Bits;
pub use blob::{Blob, Memory};
pub use head::Head;
pub use lent::{BitReader, BitSlice, Short};
pub use protocol_model::{NumRefusal, Version};
pub use relative::near;
pub use writer::BitWriter;

#[cfg(test)]
mod tests;
