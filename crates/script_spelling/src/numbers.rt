// Numbers of a line, in decimal.
ghost use Rattle.std.specs.Prelude.{◌≡◌, ◌≤◌, ◌<◌, ◌-◌, ◌+◌, ◌*◌, ◌^◌, min, option_map, IfSome};
ghost use Rattle.std.specs.List.{list_all};
ghost use Rattle.script_model.specs.Script.{is_digit, digits_value, natural_of, number_of};
ghost use Rattle.script_spelling.specs.Capped.{most_size, capped};

// The number of the digits, and 2^64 - 1 for a larger one.
fn capped_value(text: &[u8]) -> u64
    ensures { result ≡ min most_size (digits_value 0 text.now) }
{
    let mut value = 0u64;
    for digit in text {
        value = with_digit(value, *digit);
    }
    value
}

fn with_digit(value: u64, digit: u8) -> u64
    ensures { result ≡ min most_size (10 * value + (digit - 48)) }
{
    value
        .saturating_mul(10)
        .saturating_add(u64::from(digit.saturating_sub(48)))
}

fn are_digits(text: &[u8]) -> bool
    ensures { result ≡ list_all is_digit text.now }
{
    text.iter().all(|&byte| 48 <= byte && byte <= 57)
}

// The size of a number, without leading zeros.
fn size_of(text: &[u8]) -> Option<u64>
    ensures { result ≡ option_map (λ n. min most_size n) (natural_of text.now) }
{
    if text.is_empty() || (text.len() > 1 && text[0] == 48) || !are_digits(text) {
        return None;
    }
    Some(capped_value(text))
}

/// The whole number where it is spelled in its one way, whatever its length is; one of a larger
/// size than 2^64 - 1 counts as one of that size.
pub fn number(text: &[u8]) -> Option<i128>
    ensures { result ≡ option_map capped (number_of text.now) }
{
    if text.is_empty() {
        return None;
    }
    if text[0] == 45 {
        let size = size_of(&text[1..])?;
        if size == 0 {
            return None;
        }
        Some(-i128::from(size))
    } else {
        let size = size_of(text)?;
        Some(i128::from(size))
    }
}
