// Fields of the shapes that lines have.
ghost use Rattle.std.specs.Prelude.{◌≡◌, option_map};
ghost use Rattle.script_model.specs.Script.{on_of};
ghost use Rattle.script_spelling.specs.Fields.{pieces_after};
ghost use Rattle.script_spelling.specs.Shapes.{one_in, two_in, three_in, place_in, text_in, named_in, called_in, datagram_in};

use crate::fields::{are_same, first_piece, is_done, next_name, next_number};
use crate::hex_text::is_datagram;

/// A number.
pub(crate) fn one(fields: Option<&[u8]>) -> Option<i128>
    ensures { result ≡ one_in (pieces_after 32 fields.entry) }
{
    let (a, rest) = next_number(fields)?;
    if !is_done(rest) {
        return None;
    }
    Some(a)
}

/// Two numbers.
pub(crate) fn two(fields: Option<&[u8]>) -> Option<(i128, i128)>
    ensures { result ≡ two_in (pieces_after 32 fields.entry) }
{
    let (a, rest) = next_number(fields)?;
    let b = one(rest)?;
    Some((a, b))
}

/// Three numbers.
pub(crate) fn three(fields: Option<&[u8]>) -> Option<(i128, i128, i128)>
    ensures { result ≡ three_in (pieces_after 32 fields.entry) }
{
    let (a, rest) = next_number(fields)?;
    let (b, c) = two(rest)?;
    Some((a, b, c))
}

/// A name and two numbers.
pub(crate) fn place(fields: Option<&[u8]>) -> Option<(&[u8], i128, i128)>
    ensures { option_map (λ r. (r.0.now, r.1, r.2)) result
        ≡ place_in (pieces_after 32 fields.entry) }
{
    let (name, rest) = next_name(fields)?;
    let (x, y) = two(rest)?;
    Some((name, x, y))
}

/// A number, a name and a text, which may be empty.
pub(crate) fn named_text(fields: Option<&[u8]>) -> Option<(i128, &[u8], &[u8])>
    ensures { option_map (λ r. (r.0, r.1.now, r.2.now)) result
        ≡ text_in (pieces_after 32 fields.entry) }
{
    let (a, rest) = next_number(fields)?;
    let (name, rest) = next_name(rest)?;
    let (text, rest) = first_piece(rest?, 32);
    if !is_done(rest) {
        return None;
    }
    Some((a, name, text))
}

/// 0 or 1.
pub(crate) fn on_or_off(text: &[u8]) -> Option<bool>
    ensures { result ≡ on_of text.now }
{
    if are_same(text, b"0") {
        Some(false)
    } else if are_same(text, b"1") {
        Some(true)
    } else {
        None
    }
}

/// A number, a name and any more fields.
pub(crate) fn named(fields: Option<&[u8]>) -> Option<(i128, &[u8], Option<&[u8]>)>
    ensures { option_map (λ r. (r.0, r.1.now, pieces_after 32 r.2)) result
        ≡ named_in (pieces_after 32 fields.entry) }
{
    let (a, rest) = next_number(fields)?;
    let (name, rest) = next_name(rest)?;
    Some((a, name, rest))
}

/// Two numbers, a name and any more fields.
pub(crate) fn called(fields: Option<&[u8]>) -> Option<(i128, i128, &[u8], Option<&[u8]>)>
    ensures { option_map (λ r. (r.0, r.1, r.2.now, pieces_after 32 r.3)) result
        ≡ called_in (pieces_after 32 fields.entry) }
{
    let (a, rest) = next_number(fields)?;
    let (b, name, rest) = named(rest)?;
    Some((a, b, name, rest))
}

/// A number and a text that spells a datagram.
pub(crate) fn datagram(fields: Option<&[u8]>) -> Option<(i128, &[u8])>
    ensures { option_map (λ r. (r.0, r.1.now)) result ≡ datagram_in (pieces_after 32 fields.entry) }
{
    let (a, rest) = next_number(fields)?;
    let (hex, rest) = first_piece(rest?, 32);
    if !is_done(rest) || !is_datagram(hex) {
        return None;
    }
    Some((a, hex))
}
