// Which numbers were taken: those that are owed an acknowledgement in version one, and in version
// two a history of the last 256, a bit a number, the newest lowest.
ghost use Rattle.std.specs.Prelude.{◌≡◌, ◌+◌, ◌-◌, ◌*◌, ◌/◌, ◌%◌, ◌^◌, ◌<◌, ◌≤◌, ◌==◌, ◌∷◌, ◌++◌, [], ℕ, length, slice_index, nat_lt, nat_le, if◌then◌else◌, IfSome, IfNone};
ghost use Rattle.protocol_model.specs.Search.{least_from};
ghost use Rattle.circular_buffer.specs.Buffer.{buffer, keep_last};
ghost use Rattle.ack_book.specs.History.{bit_in};

use circular_buffer::HeapCircularBuffer;
use protocol_model::Version;

/// Notes that `number` was taken, which is `by` above the greatest number taken before.
pub fn note_number(
    version: Version,
    owed: &mut HeapCircularBuffer<u64>,
    history: &mut [u32; 8],
    number: u64,
    by: u64,
)
    requires { 0 < by }
    ensures one { version ≡ Version.One
        → owed.new ≡ buffer (keep_last owed.old.capacity
        (owed.old.items ++ number ∷ [])) owed.old.capacity }
    ensures two { version ≡ Version.Two → owed.new ≡ owed.old }
    ensures capacity { owed.new.capacity ≡ owed.old.capacity }
    ensures history { version ≡ Version.Two → (i : ℕ) → i < 256 → bit_in history.new i
        ≡ (if i == 0 then 1 else (if nat_lt i by then 0 else bit_in history.old (i - by))) }
{
    match version {
        Version::One => {
            owed.push_back(number);
        }
        Version::Two => push_number(history, by),
    }
}

/// Brings the number that is `by` above the newest one into the history.
fn push_number(words: &mut [u32; 8], by: u64)
    requires { 0 < by }
    ensures { (i : ℕ) → i < 256
        → bit_in words.new i
        ≡ (if i == 0 then 1 else (if nat_lt i by then 0 else bit_in words.old (i - by))) }
{
    shift(words, by);
    words[0] |= 1;
}

/// Moves the history up by so many bits.
fn shift(words: &mut [u32; 8], by: u64)
    ensures { (i : ℕ) → i < 256
        → bit_in words.new i ≡ (if nat_lt i by then 0 else bit_in words.old (i - by)) }
{
    let old = *words;
    for w in 0..8 {
        words[w] = shifted_word(&old, w, by);
    }
}

/// Word `w` of the history after it is moved up by so many bits.
fn shifted_word(words: &[u32; 8], w: usize, by: u64) -> u32
    requires { w < 8 }
    ensures { (i : ℕ) → i < 32
        → result / 2 ^ i % 2
        ≡ (if nat_lt (32 * w + i) by then 0 else bit_in words.now (32 * w + i - by)) }
{
    let back = (by / 32) as usize;
    let bits = by % 32;
    let high = word_before(words, w, back);
    let low = word_before(words, w, back + 1);
    upper_word(high, low, bits)
}

/// The upper of two words that are moved up together by fewer bits than a word has.
fn upper_word(high: u32, low: u32, bits: u64) -> u32
    requires { bits < 32 }
    ensures { result ≡ (high * 2 ^ 32 + low) / 2 ^ (32 - bits) % 2 ^ 32 }
{
    let both = (high as u64) * 0x1_0000_0000 + low as u64;
    ((both >> (32 - bits)) & 0xffff_ffff) as u32
}

/// The word that stands so many words before word `w`, 0 before the first.
fn word_before(words: &[u32; 8], w: usize, back: usize) -> u32
    requires { w < 8 }
    ensures { result ≡ (if nat_lt w back then 0 else slice_index words.now (w - back)) }
{
    if w < back { 0 } else { words[w - back] }
}

/// How many words tell so many numbers, from 1 to 8.
pub fn word_count(span: u64) -> u8
    ensures count { result ≡ least_from (λ w. nat_le span (32 * w)) 7 1 }
    ensures least { 1 ≤ result }
    ensures most { result ≤ 8 }
{
    if span > 224 {
        8
    } else if span == 0 {
        1
    } else {
        ((span + 31) / 32) as u8
    }
}

/// The first words, and 0 past them.
pub fn first_words(words: &[u32; 8], count: u8) -> [u32; 8]
    requires { count ≤ 8 }
    ensures len { length result ≡ 8 }
    ensures fits { (k : ℕ) → slice_index result k < 2 ^ 32 }
    ensures each { (k : ℕ) → k < 8
        → slice_index result k ≡ (if nat_lt k count then slice_index words.now k else 0) }
{
    let mut kept = [0; 8];
    for w in 0..count as usize {
        kept[w] = words[w];
    }
    kept
}

/// The lowest bit that is set.
pub fn first_set(words: &[u32; 8]) -> Option<u32>
    ensures some { IfSome result (λ i. (i < 256) × (bit_in words.now i ≡ 1)
        × ((j : ℕ) → j < i → bit_in words.now j ≡ 0)) }
    ensures none { IfNone result ((j : ℕ) → bit_in words.now j ≡ 0) }
{
    for w in 0..8 {
        if words[w] != 0 {
            return Some(w as u32 * 32 + words[w].trailing_zeros());
        }
    }
    None
}

/// Whether bit `i` is set; none past the words is.
pub fn is_set(words: &[u32; 8], i: u64) -> bool
    ensures { result ≡ (bit_in words.now i == 1) }
{
    i < 256 && (words[(i / 32) as usize] >> (i % 32)) & 1 == 1
}
