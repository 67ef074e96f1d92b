// The fields of a line, which have single spaces between.
ghost use Rattle.std.specs.Prelude.{◌≡◌, ◌≤◌, ◌∷◌, ◌<◌, ◌==◌, ◌+◌, IfSome, option_map, position, length, count_by};
ghost use Rattle.std.specs.Str.{bytes_eq};
ghost use Rattle.script_model.specs.Script.{pieces};
ghost use Rattle.script_spelling.specs.Fields.{pieces_after, is_nil, take_number, take_name};

use crate::numbers::number;

fn first_separator(text: &[u8], separator: u8) -> Option<usize>
    ensures exact { result ≡ position (λ b. b == separator) text.now }
    ensures within { IfSome result (λ end. end < length text.now) }
{
    text.iter().position(|&byte| byte == separator)
}

/// The bytes before the first separator, and those after it; all of them where there is none.
pub fn first_piece(text: &[u8], separator: u8) -> (&[u8], Option<&[u8]>)
    ensures shorter { IfSome result.1 (λ rest. length rest.now < length text.now) }
    ensures exact { pieces separator text.now ≡ result.0.now ∷ pieces_after separator result.1 }
{
    match first_separator(text, separator) {
        Some(end) => (&text[..end], Some(&text[end + 1..])),
        None => (text, None),
    }
}

/// The two have the same bytes.
pub(crate) fn are_same(one: &[u8], other: &[u8]) -> bool
    ensures { result ≡ bytes_eq one.now other.now }
{
    one == other
}

fn separators(text: &[u8]) -> usize
    ensures { result ≡ count_by (λ b. b == 32) text.now }
{
    let mut count = 0;
    for byte in text {
        if *byte == 32 {
            count += 1;
        }
    }
    count
}

/// How many fields there are.
pub fn field_count(fields: Option<&[u8]>) -> usize
    ensures { result ≡ length (pieces_after 32 fields.entry) }
{
    match fields {
        None => 0,
        Some(text) => separators(text) + 1,
    }
}

/// There are no fields left.
pub(crate) fn is_done(fields: Option<&[u8]>) -> bool
    ensures { result ≡ is_nil (pieces_after 32 fields.entry) }
{
    match fields {
        None => true,
        Some(_) => false,
    }
}

/// The next field where it is a number, and the fields after it.
pub(crate) fn next_number(fields: Option<&[u8]>) -> Option<(i128, Option<&[u8]>)>
    ensures { option_map (λ r. (r.0, pieces_after 32 r.1)) result
        ≡ take_number (pieces_after 32 fields.entry) }
{
    let (field, rest) = first_piece(fields?, 32);
    let number = number(field)?;
    Some((number, rest))
}

/// The next field where it has bytes, and the fields after it.
pub(crate) fn next_name(fields: Option<&[u8]>) -> Option<(&[u8], Option<&[u8]>)>
    ensures { option_map (λ r. (r.0.now, pieces_after 32 r.1)) result
        ≡ take_name (pieces_after 32 fields.entry) }
{
    let (field, rest) = first_piece(fields?, 32);
    if field.is_empty() {
        return None;
    }
    Some((field, rest))
}
