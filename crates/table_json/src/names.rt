// Names and paths.
ghost use Rattle.std.specs.Prelude.{◌≡◌, ◌∷◌, ◌<◌, length, IfOk, IfSome};
ghost use Rattle.std.specs.List.{list_all};
ghost use Rattle.script_model.specs.Script.{pieces};
ghost use Rattle.table_model.specs.Words.{is_name_byte, is_name, path_of};
ghost use Rattle.table_json.specs.Paths.{pieces_after, path_in};

use net_core::{Memory, Text, TextList};
use protocol_model::limits::{DEPTH_LIMIT, NAME_BYTES};
use std::alloc::Global;

fn is_name_byte(byte: u8) -> bool
    ensures { result ≡ is_name_byte byte }
{
    byte.is_ascii_alphanumeric() || byte == b'_'
}

fn are_name_bytes(text: &[u8]) -> bool
    ensures { result ≡ list_all is_name_byte text.now }
{
    text.iter().all(|&byte| is_name_byte(byte))
}

/// The text is a name: a letter, and then at most 30 letters, digits and `_`, all of ASCII.
pub fn is_name(text: &str) -> bool
    ensures { result ≡ is_name text.now }
{
    match text.as_bytes().split_first() {
        None => false,
        Some((first, rest)) => {
            first.is_ascii_alphabetic() && are_name_bytes(rest) && rest.len() < NAME_BYTES
        }
    }
}

// The text before the first `/`, and the text after it; all of it where there is none.
fn first_piece(text: &str) -> (&str, Option<&str>)
    ensures shorter { IfSome result.1 (λ rest. length rest.now < length text.now) }
    ensures exact { pieces 47 text.now ≡ result.0.now ∷ pieces_after result.1 }
{
    match text.split_once('/') {
        Some((piece, rest)) => (piece, Some(rest)),
        None => (text, None),
    }
}

// The names after the first `/` of a path.
fn names_in(alloc: Global, text: Option<&str>) -> Result<Option<TextList>, Memory>
    ensures { IfOk result (λ path. path ≡ path_in (pieces_after text.entry)) }
{
    let mut names = TextList::new(alloc);
    let mut rest = text;
    while let Some(pieces) = rest {
        let (name, later) = first_piece(pieces);
        if names.len() == DEPTH_LIMIT || !is_name(name) {
            return Ok(None);
        }
        names.push(Text::from_str(alloc, name)?)?;
        rest = later;
    }
    if names.is_empty() {
        return Ok(None);
    }
    Ok(Some(names))
}

/// The names of a path, outermost first; `None` exactly where it isn't 1 to 8 times `/` and a name.
pub fn path_of(alloc: Global, text: &str) -> Result<Option<TextList>, Memory>
    ensures { IfOk result (λ path. path ≡ path_of text.now) }
{
    let (before, rest) = first_piece(text);
    if !before.is_empty() {
        return Ok(None);
    }
    names_in(alloc, rest)
}
