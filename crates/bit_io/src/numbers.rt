// The spellings of numbers, over plain values.
ghost use Rattle.std.specs.Prelude.{◌≡◌, ◌<◌, ◌≤◌, ◌+◌, ◌-◌, ◌*◌, ◌^◌, ◌==◌, ◌&&◌, ◌||◌, not, nat_lt, MatchOption, MatchResult, IfSome, IfOk, OnOk, Some, None, Ok, Err, length};
ghost use Rattle.protocol_model.specs.Bits.{digits, int_width, packed_bits};
ghost use Rattle.protocol_model.specs.Numbers.{leading_fixed, leading_int, leading_groups};
ghost use Rattle.bit_io.specs.Between.{bits_between};

use crate::words::{bits_at, low_bits};
use protocol_model::NumRefusal;

/// How many bits tell the number's lowest ones apart among the numbers below the bound.
///
/// It is as many as the greatest of these numbers has, or one less.
pub(crate) fn width_of(max: u32, number: u32) -> u32
    requires { 1 ≤ max }
    ensures width { result ≡ int_width max number }
    ensures bound { result ≤ 32 }
{
    let most = 32 - (max - 1).leading_zeros();
    if most == 0 {
        return 0;
    }
    let fewer = most - 1;
    if low_bits(number as u64, fewer) + (1 << fewer) >= max as u64 {
        fewer
    } else {
        most
    }
}

/// A packed spelling as one number, and how many bits it has.
pub(crate) fn packed_word(value: u32) -> (u64, u32)
    ensures width { result.1 ≤ 40 }
    ensures below { result.0 < 2 ^ result.1 }
    ensures spelling { digits result.1 result.0 ≡ packed_bits value }
{
    let mut word = 0u64;
    let mut width = 0u32;
    let mut rest = value;
    while rest >= 128 {
        word += (2 * (rest as u64 % 128) + 1) << width;
        width += 8;
        rest /= 128;
    }
    word += (2 * rest as u64) << width;
    (word, width + 8)
}

/// The number in so many bits from a place on, where that many are left.
pub(crate) fn fixed_at(bytes: &[u8], at: usize, to: usize, width: u32) -> Option<u64>
    requires width { width ≤ 64 }
    requires order { at ≤ to }
    requires within { to ≤ 8 * length bytes.now }
    requires small { length bytes.now < 2 ^ 58 }
    ensures exact { MatchOption result
        (leading_fixed width (bits_between bytes.now at to) ≡ None)
        (λ v. leading_fixed width (bits_between bytes.now at to)
        ≡ Some (v, bits_between bytes.now (at + width) to)) }
    ensures below { IfSome result (λ v. v < 2 ^ width) }
    ensures fits { IfSome result (λ _. at + width ≤ to) }
{
    if to - at < width as usize {
        return None;
    }
    Some(bits_at(bytes, at, width))
}

/// The number below the bound whose spelling begins at a place, and how many bits it has.
pub(crate) fn int_at(bytes: &[u8], at: usize, to: usize, max: u32) -> Option<(u32, u32)>
    requires max { 1 ≤ max }
    requires order { at ≤ to }
    requires within { to ≤ 8 * length bytes.now }
    requires small { length bytes.now < 2 ^ 58 }
    ensures exact { MatchOption result
        (leading_int max (bits_between bytes.now at to) ≡ None)
        (λ r. leading_int max (bits_between bytes.now at to)
        ≡ Some (r.0, bits_between bytes.now (at + r.1) to)) }
    ensures below { IfSome result (λ r. r.0 < max) }
    ensures width { IfSome result (λ r. r.1 ≡ int_width max r.0) }
    ensures fits { IfSome result (λ r. at + r.1 ≤ to) }
{
    let most = (to - at).min(32) as u32;
    let ahead = bits_at(bytes, at, most);
    let width = width_of(max, ahead as u32);
    if most < width {
        return None;
    }
    Some((low_bits(ahead, width) as u32, width))
}

/// The packed number that begins at a place, and the place behind it.
pub(crate) fn packed_at(
    bytes: &[u8],
    at: usize,
    to: usize,
    groups: u32,
    first: bool,
) -> Result<(u32, usize), NumRefusal>
    requires groups { groups ≤ 5 }
    requires order { at ≤ to }
    requires within { to ≤ 8 * length bytes.now }
    requires small { length bytes.now < 2 ^ 58 }
    ensures exact { MatchResult result
        (λ r. leading_groups groups first (bits_between bytes.now at to)
        ≡ Ok (r.0, bits_between bytes.now r.1 to))
        (λ e. leading_groups groups first (bits_between bytes.now at to) ≡ Err e) }
    ensures some { OnOk result (1 ≤ groups) }
    ensures below { IfOk result (λ r. r.0 < 2 ^ (7 * groups - 3)) }
    ensures fits { IfOk result (λ r. r.1 ≤ to) }
    ensures onward { IfOk result (λ r. at ≤ r.1) }
{
    if groups == 0 {
        return Err(NumRefusal::Padded);
    }
    let Some(group) = fixed_at(bytes, at, to, 8) else {
        return Err(NumRefusal::Short);
    };
    let digit = (group / 2) as u32;
    if group % 2 == 1 {
        return match packed_at(bytes, at + 8, to, groups - 1, false) {
            Ok((rest, end)) => Ok((digit + 128 * rest, end)),
            Err(why) => Err(why),
        };
    }
    if is_padded(digit, groups, first) {
        return Err(NumRefusal::Padded);
    }
    Ok((digit, at + 8))
}

/// The last group of a number is 0 and isn't the first, or is the fifth and above 15.
fn is_padded(digit: u32, groups: u32, first: bool) -> bool
    ensures { result ≡ ((digit == 0 && not first) || (groups == 1 && nat_lt 15 digit)) }
{
    (digit == 0 && !first) || (groups == 1 && digit > 15)
}
