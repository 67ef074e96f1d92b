// Bytes of a line, in hex.
ghost use Rattle.std.specs.Prelude.{◌≡◌, IfOk, is_some};
ghost use Rattle.std.specs.List.{list_all};
ghost use Rattle.script_model.specs.Script.{octets_of, datagram_of, hex_bytes, hex_value};

use crate::fields::are_same;
use hex::FromHexError;
use net_core::{Blob, Memory};
use std::alloc::Global;

/// The bytes that hex digits of either case spell, two for each byte; `-` spells none.
pub fn octets(alloc: Global, text: &[u8]) -> Result<Option<Blob>, Memory>
    ensures { IfOk result (λ bytes. bytes ≡ octets_of text.now) }
{
    if text.is_empty() {
        return Ok(None);
    }
    if are_same(text, b"-") {
        return Ok(Some(Blob::new(alloc)));
    }
    hex_bytes(alloc, text)
}

/// The bytes that hex digits of either case spell, two for each byte; no text spells none.
pub fn hex_bytes(alloc: Global, text: &[u8]) -> Result<Option<Blob>, Memory>
    ensures { IfOk result (λ bytes. bytes ≡ hex_bytes text.now) }
{
    match hex::decode(alloc, text) {
        Ok(bytes) => Ok(Some(Blob::from_vec(bytes))),
        Err(FromHexError::OutOfMemory) => Err(Memory),
        Err(FromHexError::InvalidHexCharacter { .. }) => Ok(None),
        Err(FromHexError::OddLength) => Ok(None),
        Err(FromHexError::InvalidStringLength) => Ok(None),
    }
}

/// The text spells at most 2,048 bytes.
pub(crate) fn is_datagram(text: &[u8]) -> bool
    ensures { result ≡ is_some (datagram_of text.now) }
{
    if are_same(text, b"-") {
        return true;
    }
    if text.is_empty() {
        return false;
    }
    if text.len() > 4096 {
        return false;
    }
    are_pairs(text)
}

// Hex digits, two for each byte.
fn are_pairs(text: &[u8]) -> bool
    ensures { result ≡ is_some (hex_bytes text.now) }
{
    if text.len() % 2 == 1 {
        return false;
    }
    are_digits(text)
}

fn are_digits(text: &[u8]) -> bool
    ensures { result ≡ list_all (λ c. is_some (hex_value c)) text.now }
{
    text.iter().all(|&byte| is_digit(byte))
}

fn is_digit(byte: u8) -> bool
    ensures { result ≡ is_some (hex_value byte) }
{
    (48 <= byte && byte <= 57) || (97 <= byte && byte <= 102) || (65 <= byte && byte <= 70)
}
