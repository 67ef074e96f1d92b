// The datagrams with which a client joins a server, after the handshake of Unreal's control channel
// (NMT_Hello, NMT_Welcome, NMT_Failure): spelled and read.
//
//     client                                     server
//     hello(version, player, digest)  ──────▶    read_hello
//     is_welcome, read_failure        ◀──────    welcome(version, player), failure(version, code)
//
//     Hello    "UNR1" 01 player (2 bytes, the high one first) digest (20 bytes) 00    28 bytes
//     Welcome  "UNR1" 02 player 00                                                     8 bytes
//     Failure  "UNR1" 03 code 00                                                       7 bytes
//
// In version two of packets the magic is "UNR2". A server that hears a datagram:
//
//     match read_hello(bytes) {
//         Some(hello) => admit(from, &hello),
//         None if ends_in_zero(bytes) => {}
//         None => driver.take(player, bytes)?,
//     }
//
// It stands on `live_model` for what each datagram is and on `bit_io` for bytes. It promises that what
// is spelled and read is that of the definitions, for every list of bytes; all of them end in 0, as no
// packet does, so that neither is ever taken for the other. Whom a server admits isn't asked here.
#![tactic(auto)]

mod reading;
mod spelling;
#[cfg(test)]
mod tests;

pub use bit_io::{Blob, Memory};
pub use protocol_model::Version;
pub use reading::{Hello, ends_in_zero, is_welcome, read_failure, read_hello};
pub use spelling::{failure, hello, welcome};
