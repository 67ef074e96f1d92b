// Datagrams of the handshake, spelled.
ghost use Rattle.std.specs.Prelude.{◌≡◌, ◌/◌, ◌%◌, IfOk};
ghost use Rattle.live_model.specs.Handshake.{magic, hello, welcome, failure};

use bit_io::{Blob, Memory};
use protocol_model::Version;
use std::alloc::Global;

/// A client asks to join as this player, over a class table of this digest.
pub fn hello(
    alloc: Global,
    version: Version,
    player: u16,
    digest: &[u8; 20],
) -> Result<Blob, Memory>
    ensures { IfOk result (λ bytes. bytes ≡ hello version player digest.now) }
{
    let mut bytes = Blob::new(alloc);
    bytes.extend_from_slice(&magic(version))?;
    bytes.push(1)?;
    bytes.push(high(player))?;
    bytes.push(low(player))?;
    bytes.extend_from_slice(digest)?;
    bytes.push(0)?;
    Ok(bytes)
}

/// The server has admitted the player.
pub fn welcome(version: Version, player: u16) -> [u8; 8]
    ensures { result ≡ welcome version player }
{
    let [m, a, g, i] = magic(version);
    [m, a, g, i, 2, high(player), low(player), 0]
}

/// The server doesn't admit the player: 1 for another digest, 2 where the player is out of range, was
/// taken, or the peer is another's, 3 where 64 joined.
pub fn failure(version: Version, code: u8) -> [u8; 7]
    ensures { result ≡ failure version code }
{
    let [m, a, g, i] = magic(version);
    [m, a, g, i, 3, code, 0]
}

/// `UNR1`, or `UNR2` in version two.
pub(crate) fn magic(version: Version) -> [u8; 4]
    ensures { result ≡ magic version }
{
    match version {
        Version::One => [0x55, 0x4e, 0x52, 0x31],
        Version::Two => [0x55, 0x4e, 0x52, 0x32],
    }
}

/// A player's first byte.
fn high(player: u16) -> u8
    ensures { result ≡ player / 256 }
{
    (player / 256) as u8
}

/// A player's second byte.
fn low(player: u16) -> u8
    ensures { result ≡ player % 256 }
{
    (player % 256) as u8
}
