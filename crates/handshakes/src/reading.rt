// Datagrams of the handshake, read.
ghost use Rattle.std.specs.Prelude.{◌≡◌, ◌≤◌, ◌++◌, ◌∷◌, [], length, take, true, option_map};
ghost use Rattle.std.specs.Str.{bytes_eq};
ghost use Rattle.live_model.specs.Handshake.{magic, hello_as, hello_in, is_handshake, is_welcome, failure_in, ends_in_zero, player_at};
ghost use Rattle.handshakes.specs.Hellos.{hello_value};

use crate::spelling::{magic, welcome};
use protocol_model::Version;

/// What a Hello says: the player is any number of 16 bits, and the digest is that of the client's
/// class table, 20 bytes.
#[derive(Clone, Copy, Debug)]
pub struct Hello<'a> {
    pub version: Version,
    pub player: u16,
    pub digest: &'a [u8],
}

/// The Hello that these bytes are, of either version; `None` exactly where they are none.
pub fn read_hello(bytes: &[u8]) -> Option<Hello<'_>>
    ensures { option_map hello_value result ≡ hello_in bytes.now }
{
    match hello_as(Version::One, bytes) {
        Some(hello) => Some(hello),
        None => hello_as(Version::Two, bytes),
    }
}

/// The Hello of this version that these bytes are.
fn hello_as(version: Version, bytes: &[u8]) -> Option<Hello<'_>>
    ensures { option_map hello_value result ≡ hello_as version bytes.now }
{
    if !is_handshake(version, 1, 28, bytes) {
        return None;
    }
    Some(Hello {
        version,
        player: player_at(bytes),
        digest: &bytes[7..27],
    })
}

/// These bytes welcome the player.
pub fn is_welcome(version: Version, player: u16, bytes: &[u8]) -> bool
    ensures { result ≡ is_welcome version player bytes.now }
{
    let spelled = welcome(version, player);
    are_same(bytes, &spelled)
}

/// The code of the Failure that these bytes are; `None` exactly where they are none.
pub fn read_failure(version: Version, bytes: &[u8]) -> Option<u8>
    ensures { result ≡ failure_in version bytes.now }
{
    if !is_handshake(version, 3, 7, bytes) {
        return None;
    }
    Some(bytes[5])
}

/// The last byte is 0: no packet ends so.
pub fn ends_in_zero(bytes: &[u8]) -> bool
    ensures { result ≡ ends_in_zero bytes.now }
{
    if bytes.is_empty() {
        return false;
    }
    bytes[bytes.len() - 1] == 0
}

/// A datagram of so many bytes and this kind.
fn is_handshake(version: Version, kind: u8, size: usize, bytes: &[u8]) -> bool
    requires { 5 ≤ size }
    ensures same { result ≡ is_handshake version kind size bytes.now }
    ensures size { result ≡ true → length bytes.now ≡ size }
{
    if bytes.len() != size {
        return false;
    }
    if !begins(version, kind, bytes) {
        return false;
    }
    ends_in_zero(bytes)
}

/// The magic of the version and this kind stand in front.
fn begins(version: Version, kind: u8, bytes: &[u8]) -> bool
    requires { 5 ≤ length bytes.now }
    ensures { result ≡ bytes_eq (take 5 bytes.now) (magic version ++ kind ∷ []) }
{
    let [m, a, g, i] = magic(version);
    are_same(&bytes[..5], &[m, a, g, i, kind])
}

/// The player of a Hello.
fn player_at(bytes: &[u8]) -> u16
    requires { 7 ≤ length bytes.now }
    ensures { result ≡ player_at bytes.now }
{
    256 * bytes[5] as u16 + bytes[6] as u16
}

/// The two have the same bytes.
fn are_same(one: &[u8], other: &[u8]) -> bool
    ensures { result ≡ bytes_eq one.now other.now }
{
    one == other
}
