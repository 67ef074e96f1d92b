// Where the core meets the outside, and the small types that every crate above hands on, in three
// rooms:
//
//     outside   Files, Sink, write_all, and both traits in memory: MemFiles, MemSink
//     names     Guid, Handle, Player, Text
//     lists     Items, and the lists of names
//
// `Steps` counts steps without any bytes. It stands on `bit_io`, whose `Memory`, `Blob` and `Bits`
// it hands on.
//
//     program -- read(name) -----> Files   contents | Missing | Failed, one fault | Memory
//        |                                 and each call is one read
//        +------ write_all(text) -> Sink   all taken | Failed, one fault | Memory, one shortage
//                                          after a refusal: a prefix of the text was taken
//
// `Files` and `Sink` promise what a program may rely on: one fault a failed call and none else, one
// read a call, and, where an object tells its folder or what it took, which contents a read answers
// and which bytes a write takes. `MemFiles` and `MemSink` keep these promises in memory, and fail at
// the calls that they are told to. It opens no file and no socket: the program has the real ones.
//
// A caller. Where the folder and the sink are told, `Ok` says that the sink took the whole file:
//
//     fn copy_out<F: Files, S: Sink>(files: &mut F, out: &mut S) -> Result<(), CopyRefusal> {
//         let contents = match files.read("motd") {
//             Ok(contents) => contents,
//             Err(ReadRefusal::Missing) => return Ok(()),
//             Err(refusal) => return Err(CopyRefusal::Read(refusal)),
//         };
//         write_all(out, contents.as_slice()).map_err(CopyRefusal::Write)
//     }
#![tactic(auto)]

mod lists;
mod names;
mod outside;
mod steps;
#[cfg(test)]
mod tests;

pub use bit_io::{Bits, Blob, Memory};
pub use lists::{GuidList, HandleList, Items, PlayerList, TextList};
pub use names::{Guid, Handle, Player, Text};
pub use outside::{Entry, Files, MemFiles, MemSink, ReadRefusal, Sink, WriteRefusal, write_all};
pub use steps::Steps;
