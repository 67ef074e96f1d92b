// Types of properties and arguments.
ghost use Rattle.std.specs.Prelude.{◌≡◌, ℕ, Some, Option, option_map};
ghost use Rattle.std.specs.List.{list_all};
ghost use Rattle.script_model.specs.Script.{is_digit, digits_value, natural_of};
ghost use Rattle.table_model.specs.Words.{meaning_in, plain_types, behind, number_behind, counted, counted_type, type_of};
ghost use Rattle.table_json.specs.Capped.{capped};
ghost use Rattle.protocol_model.specs.declared.Kind.TheVariants.{Enum, Bytes};

use protocol_model::Kind;
use table_model::TableWhy;

/// What a larger number counts as; every range of a type ends below it.
const CAP: u32 = 65_536;

// The number of the digits, capped.
fn capped_value(text: &[u8]) -> u32
    ensures { result ≡ capped (digits_value 0 text.now) }
{
    let mut value = 0u32;
    for digit in text {
        value = CAP.min(10 * value + u32::from(digit.saturating_sub(b'0')));
    }
    value
}

fn are_digits(text: &[u8]) -> bool
    ensures { result ≡ list_all is_digit text.now }
{
    text.iter().all(|&byte| b'0' <= byte && byte <= b'9')
}

// The number where it is spelled in the one way, capped.
fn natural(text: &[u8]) -> Option<u32>
    ensures { result ≡ option_map capped (natural_of text.now) }
{
    if text.is_empty() || (text.len() > 1 && text[0] == b'0') || !are_digits(text) {
        return None;
    }
    Some(capped_value(text))
}

// What stands behind the word that begins the text.
fn behind<'a>(word: &str, text: &'a str) -> Option<&'a str>
    ensures { option_map (λ rest. rest.now) result ≡ behind word.now text.now }
{
    text.strip_prefix(word)
}

// The number behind the word, capped.
fn number_behind(word: &str, text: &str) -> Option<u32>
    ensures { result ≡ option_map capped (number_behind word.now text.now) }
{
    natural(behind(word, text)?.as_bytes())
}

fn enum_type(count: u32) -> Result<Kind, TableWhy>
    ensures { result ≡ counted 2 65535 Enum count }
{
    if 2 <= count && count <= 65_535 {
        Ok(Kind::Enum(count as u16))
    } else {
        Err(TableWhy::Range)
    }
}

fn bytes_type(most: u32) -> Result<Kind, TableWhy>
    ensures { result ≡ counted 1 2048 Bytes most }
{
    if 1 <= most && most <= 2048 {
        Ok(Kind::Bytes(most as u16))
    } else {
        Err(TableWhy::Range)
    }
}

// The type of a word with a number behind it.
fn counted_type(text: &str, argument: bool) -> Result<Kind, TableWhy>
    ensures { result ≡ counted_type argument text.now }
{
    if let Some(count) = number_behind("enum:", text) {
        return enum_type(count);
    }
    if !argument {
        return Err(TableWhy::BadType);
    }
    match number_behind("bytes:", text) {
        Some(most) => bytes_type(most),
        None => Err(TableWhy::BadType),
    }
}

// The type of a word without a number.
fn plain_type(text: &str) -> Option<Kind>
    ensures { result ≡ meaning_in plain_types text.now }
{
    match text {
        "bool" => Some(Kind::Bool),
        "u8" => Some(Kind::U8),
        "i32" => Some(Kind::I32),
        "u32" => Some(Kind::U32),
        "i64" => Some(Kind::I64),
        "packed" => Some(Kind::Packed),
        "guid" => Some(Kind::Guid),
        _ => None,
    }
}

/// The type that the word names among properties, or among arguments.
///
/// `Range` comes exactly where an `enum:` hasn't 2 to 65,535 values, or a `bytes:` of an argument
/// isn't of 1 to 2,048, however large the number is, and `BadType` where the word names no type.
pub fn type_of(text: &str, argument: bool) -> Result<Kind, TableWhy>
    ensures { result ≡ type_of argument text.now }
{
    match plain_type(text) {
        Some(kind) => Ok(kind),
        None => counted_type(text, argument),
    }
}
