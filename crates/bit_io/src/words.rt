// Parts of packed bytes, written and read a byte or a word at a time.
ghost use Rattle.std.specs.Prelude.{◌≡◌, ◌<◌, ◌≤◌, ◌+◌, ◌*◌, ◌/◌, ◌%◌, ◌^◌, length, take, drop};
ghost use Rattle.protocol_model.specs.Bits.{digits};
ghost use Rattle.protocol_laws.specs.Packed.{number_of_bytes};
ghost use Rattle.bit_io.specs.Between.{bits_between};

/// The number of the lowest bits.
pub(crate) fn low_bits(value: u64, count: u32) -> u64
    requires { count < 64 }
    ensures { result ≡ value % 2 ^ count }
{
    value & ((1 << count) - 1)
}

/// Adds a number of so many bits at a place from which on all bits are 0, in one
/// step where eight bytes hold them.
pub(crate) fn add_bits(bytes: &mut Vec<u8>, at: usize, value: u64, width: u32)
    requires width { width ≤ 64 }
    requires fits { value < 2 ^ width }
    requires room { at + width ≤ 8 * length bytes.old.items }
    requires small { length bytes.old.items < 2 ^ 58 }
    requires clear { number_of_bytes bytes.old.items < 2 ^ at }
    ensures len { length bytes.new.items ≡ length bytes.old.items }
    ensures number { number_of_bytes bytes.new.items
        ≡ number_of_bytes bytes.old.items + value * 2 ^ at }
{
    let first = at / 8;
    let shift = (at % 8) as u32;
    if first + 8 <= bytes.len() && shift + width <= 64 {
        add_word(bytes, first, value << shift);
    } else {
        add_by_bytes(bytes, at, value, width);
    }
}

/// Adds a number to eight bytes, which have room for the sum.
fn add_word(bytes: &mut Vec<u8>, first: usize, word: u64)
    requires within { first + 8 ≤ length bytes.old.items }
    requires fits { number_of_bytes bytes.old.items + word * 2 ^ (8 * first)
        < 2 ^ (8 * first + 64) }
    ensures len { length bytes.new.items ≡ length bytes.old.items }
    ensures number { number_of_bytes bytes.new.items
        ≡ number_of_bytes bytes.old.items + word * 2 ^ (8 * first) }
{
    let sum = word_at(bytes.as_slice(), first) + word;
    bytes[first..first + 8].copy_from_slice(&sum.to_le_bytes());
}

/// Adds a number of so many bits at a place from which on all bits are 0, a byte a turn.
fn add_by_bytes(bytes: &mut Vec<u8>, at: usize, value: u64, width: u32)
    requires width { width ≤ 64 }
    requires fits { value < 2 ^ width }
    requires room { at + width ≤ 8 * length bytes.old.items }
    requires small { length bytes.old.items < 2 ^ 58 }
    requires clear { number_of_bytes bytes.old.items < 2 ^ at }
    ensures len { length bytes.new.items ≡ length bytes.old.items }
    ensures number { number_of_bytes bytes.new.items
        ≡ number_of_bytes bytes.old.items + value * 2 ^ at }
{
    let mut place = at;
    let mut left = width;
    let mut rest = value;
    while left > 0 {
        let count = left.min(8 - (place % 8) as u32);
        let part = low_bits(rest, count);
        add_part(bytes, place, part, count);
        rest >>= count;
        left -= count;
        place += count as usize;
    }
}

/// Adds a number of so few bits that they are in one byte.
fn add_part(bytes: &mut Vec<u8>, place: usize, part: u64, count: u32)
    requires within { place < 8 * length bytes.old.items }
    requires one_byte { count + place % 8 ≤ 8 }
    requires fits { part < 2 ^ count }
    requires clear { number_of_bytes bytes.old.items < 2 ^ place }
    ensures len { length bytes.new.items ≡ length bytes.old.items }
    ensures number { number_of_bytes bytes.new.items
        ≡ number_of_bytes bytes.old.items + part * 2 ^ place }
{
    let shifted = part << (place % 8);
    bytes[place / 8] += shifted as u8;
}

/// The number in so many bits, in one step where eight bytes hold them.
pub(crate) fn bits_at(bytes: &[u8], at: usize, width: u32) -> u64
    requires width { width ≤ 64 }
    requires small { length bytes.now < 2 ^ 58 }
    requires within { at + width ≤ 8 * length bytes.now }
    ensures { result ≡ number_of_bytes bytes.now / 2 ^ at % 2 ^ width }
{
    let first = at / 8;
    let shift = (at % 8) as u32;
    if first + 8 <= bytes.len() && shift + width <= 64 {
        let word = word_at(bytes, first);
        return low_word(word >> shift, width);
    }
    bits_by_bytes(bytes, at, width)
}

/// Eight bytes as one number, lowest byte first.
fn word_at(bytes: &[u8], first: usize) -> u64
    requires { first + 8 ≤ length bytes.now }
    ensures number { result ≡ number_of_bytes bytes.now / 2 ^ (8 * first) % 2 ^ 64 }
    ensures part { result ≡ number_of_bytes (take 8 (drop first bytes.now)) }
{
    u64::from_le_bytes([
        bytes[first],
        bytes[first + 1],
        bytes[first + 2],
        bytes[first + 3],
        bytes[first + 4],
        bytes[first + 5],
        bytes[first + 6],
        bytes[first + 7],
    ])
}

/// The number of the lowest bits of a word, or of all of them.
fn low_word(value: u64, count: u32) -> u64
    requires { count ≤ 64 }
    ensures { result ≡ value % 2 ^ count }
{
    if count == 64 {
        value
    } else {
        low_bits(value, count)
    }
}

/// The number in so many bits, a byte a turn.
fn bits_by_bytes(bytes: &[u8], at: usize, width: u32) -> u64
    requires width { width ≤ 64 }
    requires small { length bytes.now < 2 ^ 58 }
    requires within { at + width ≤ 8 * length bytes.now }
    ensures { result ≡ number_of_bytes bytes.now / 2 ^ at % 2 ^ width }
{
    let mut done = 0u32;
    let mut value = 0u64;
    while done < width {
        let place = at + done as usize;
        let shift = (place % 8) as u32;
        let count = (width - done).min(8 - shift);
        let part = low_bits(bytes[place / 8] as u64 >> shift, count);
        value += part << done;
        done += count;
    }
    value
}

/// The most bits of a part that lie in eight bytes wherever in a byte they begin, in bits.
const WORD_PART: usize = 56;

/// Adds so many bits of other bytes at a place from which on all bits are 0.
pub(crate) fn add_slice(bytes: &mut Vec<u8>, at: usize, source: &[u8], from: usize, count: usize)
    requires room { at + count ≤ 8 * length bytes.old.items }
    requires small { length bytes.old.items < 2 ^ 58 }
    requires clear { number_of_bytes bytes.old.items < 2 ^ at }
    requires within { from + count ≤ 8 * length source.now }
    requires source_small { length source.now < 2 ^ 58 }
    ensures len { length bytes.new.items ≡ length bytes.old.items }
    ensures number { number_of_bytes bytes.new.items
        ≡ number_of_bytes bytes.old.items
        + number_of_bytes source.now / 2 ^ from % 2 ^ count * 2 ^ at }
    ensures part { digits count (number_of_bytes source.now / 2 ^ from % 2 ^ count)
        ≡ bits_between source.now from (from + count) }
{
    let mut done = 0usize;
    while done < count {
        let width = (count - done).min(WORD_PART) as u32;
        let part = bits_at(source, from + done, width);
        add_bits(bytes, at + done, part, width);
        done += width as usize;
    }
}
