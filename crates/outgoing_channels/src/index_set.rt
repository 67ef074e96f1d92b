// Sets of channel indexes.
ghost use Rattle.std.specs.Prelude.{◌≡◌, ◌≢◌, ◌+◌, ◌*◌, ◌<◌, ◌≤◌, ◌==◌, ◌^◌, ℕ, length, if◌then◌else◌, IfOk, IfSome, IfNone};
ghost use Rattle.std.specs.Int.{bit_at};
ghost use Rattle.protocol_model.specs.Limits.{channels_two};
ghost use Rattle.reliable_window.specs.Bits.{bit_in};
ghost use Rattle.outgoing_channels.specs.Indexes.{index_words};

use bit_io::Memory;
use std::alloc::Global;
use std::marker::Model;

/// How many words of 64 bits tell of all indexes.
const WORDS: usize = 512;

/// A set of channel indexes, below 32,768, a bit an index.
///
/// Beside the words of indexes stands for each word a bit whether it has an index, and one whether
/// it lacks one, so no search looks at each word.
///
///     filled   1 0 0 1 ..         words that aren't empty, from which `next` takes one
///     gaps     1 1 0 1 ..         words that aren't full, from which `least_outside` takes one
///     words    [64] [64] [64] [64] ..
#[derive(Drop)]
pub struct IndexSet {
    words: Vec<u64>,
    filled: [u64; 8],
    gaps: [u64; 8],
}

impl Model for IndexSet {
    ghost use Rattle.std.specs.Prelude.{◌≡◌, ◌≢◌, ℕ, List, length};
    ghost use Rattle.outgoing_channels.specs.Indexes.{index_words, AreFilled, HaveGaps};

    ghost Value = { List ℕ };

    ghost view = { λ s. s.words.items };

    ghost invariant = { λ s. (length s.words.items ≡ index_words)
        × (AreFilled s.words.items s.filled) × (HaveGaps s.words.items s.gaps) };
}

impl IndexSet {
    /// The empty set.
    pub fn new(alloc: Global) -> Result<IndexSet, Memory>
        ensures { IfOk result (λ set. (i : ℕ) → bit_in set i ≡ 0) }
    {
        let words = vec![in alloc; 0u64; WORDS]?;
        Ok(IndexSet {
            words,
            filled: [0; 8],
            gaps: [u64::MAX; 8],
        })
    }

    /// Puts an index into the set, or takes it out.
    pub fn put(&mut self, index: usize, is_in: bool)
        requires { index < channels_two }
        ensures { (i : ℕ) → bit_in self.new i
            ≡ (if i == index then (if is_in then 1 else 0) else bit_in self.old i) }
    {
        let place = index / 64;
        let word = with_bit(self.words[place], index % 64, is_in);
        self.words[place] = word;
        let (group, bit) = (place / 64, place % 64);
        self.filled[group] = with_bit(self.filled[group], bit, word != 0);
        self.gaps[group] = with_bit(self.gaps[group], bit, word != u64::MAX);
    }

    /// The least index of the set from one on.
    pub fn next(&self, from: usize) -> Option<usize>
        ensures some { IfSome result (λ d. (from ≤ d) × (d < channels_two)
            × (bit_in self.now d ≡ 1)
            × ((j : ℕ) → from ≤ j → j < d → bit_in self.now j ≡ 0)) }
        ensures none { IfNone result ((j : ℕ) → from ≤ j → bit_in self.now j ≡ 0) }
    {
        let word = from / 64;
        if word >= self.words.len() {
            return None;
        }
        let rest = self.words[word] >> (from % 64);
        if rest != 0 {
            return Some(from + rest.trailing_zeros() as usize);
        }
        let Some(k) = next_bit(&self.filled, word + 1) else {
            return None;
        };
        let next = self.words[k];
        Some(64 * k + next.trailing_zeros() as usize)
    }

    /// The least index from 1 on that neither this set nor the other has; 32,768 where there is
    /// none.
    pub fn least_outside(&self, other: &IndexSet) -> usize
        ensures least { 1 ≤ result }
        ensures most { result ≤ channels_two }
        ensures outside { result < channels_two → (bit_in self.now result ≡ 0)
            × (bit_in other.now result ≡ 0) }
        ensures inside { (j : ℕ) → 1 ≤ j → j < result → bit_in other.now j ≡ 0
            → bit_in self.now j ≡ 1 }
    {
        let mut at = 0usize;
        while let Some(k) = next_bit(&self.gaps, at) {
            let free = !(other.words[k] | self.words[k] | never_free(k));
            if free != 0 {
                return 64 * k + free.trailing_zeros() as usize;
            }
            at = k + 1;
        }
        64 * WORDS
    }
}

/// The word with a bit set, or cleared.
fn with_bit(word: u64, place: usize, is_in: bool) -> u64
    requires { place < 64 }
    ensures here { bit_at result place ≡ (if is_in then 1 else 0) }
    ensures others { (i : ℕ) → i < 64 → i ≢ place → bit_at result i ≡ bit_at word i }
{
    let bit = 1u64 << place;
    if is_in { word | bit } else { word & !bit }
}

/// Index 0 as a bit of the first word, since it is never free; nothing in any other word.
fn never_free(place: usize) -> u64
    ensures { result ≡ (if place == 0 then 1 else 0) }
{
    if place == 0 { 1 } else { 0 }
}

/// The least place of a set of bits from one on.
fn next_bit(words: &[u64; 8], from: usize) -> Option<usize>
    ensures some { IfSome result (λ d. (from ≤ d) × (d < index_words) × (bit_in words.now d ≡ 1)
        × ((j : ℕ) → from ≤ j → j < d → bit_in words.now j ≡ 0)) }
    ensures none { IfNone result ((j : ℕ) → from ≤ j → j < index_words → bit_in words.now j ≡ 0) }
{
    let (word, bit) = (from / 64, from % 64);
    if word >= 8 {
        return None;
    }
    let rest = words[word] >> bit;
    if rest != 0 {
        return Some(from + rest.trailing_zeros() as usize);
    }
    for k in word + 1..8 {
        let next = words[k];
        if next != 0 {
            return Some(64 * k + next.trailing_zeros() as usize);
        }
    }
    None
}
