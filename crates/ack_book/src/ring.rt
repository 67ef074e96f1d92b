// A ring that tells of each of the last packets whether it arrived.
ghost use Rattle.std.specs.Prelude.{◌≡◌, ◌+◌, ◌-◌, ◌%◌, ◌^◌, ◌<◌, ◌≤◌, ◌==◌, ℕ, length, vec_capacity, true, false, slice_index_or};
ghost use Rattle.ack_book.specs.Book.{fates_kept};
ghost use Rattle.ack_book.specs.History.{bit_in};

use crate::FATES_KEPT;
use crate::history::is_set;

/// Marks the numbers above `from` and below `to` as lost, and `to` as arrived, each at its place.
pub fn mark_arrived(ring: &mut Vec<bool>, from: u64, to: u64)
    requires below { from < to }
    requires len { length ring.old.items ≡ fates_kept }
    ensures len { length ring.new.items ≡ fates_kept }
    ensures capacity { vec_capacity ring.new ≡ vec_capacity ring.old }
    ensures arrived { slice_index_or ring.new.items (to % fates_kept) false ≡ true }
    ensures lost { (n : ℕ) → from < n → n < to → to < n + fates_kept
        → slice_index_or ring.new.items (n % fates_kept) false ≡ false }
    ensures kept { (n : ℕ) → n ≤ from → to < n + fates_kept
        → slice_index_or ring.new.items (n % fates_kept) false
        ≡ slice_index_or ring.old.items (n % fates_kept) false }
{
    for number in from + 1..to {
        ring[(number % FATES_KEPT) as usize] = false;
    }
    ring[(to % FATES_KEPT) as usize] = true;
}

/// Marks each number above `from`, up to `to`, by the bit of the history that stands for it, where
/// bit `first` stands for `to` and each further one for the number below.
pub fn mark_named(ring: &mut Vec<bool>, words: &[u32; 8], first: u64, from: u64, to: u64)
    requires below { from < to }
    requires most { to < 2 ^ 62 }
    requires first { first < 256 }
    requires len { length ring.old.items ≡ fates_kept }
    ensures len { length ring.new.items ≡ fates_kept }
    ensures capacity { vec_capacity ring.new ≡ vec_capacity ring.old }
    ensures named { (n : ℕ) → from < n → n ≤ to → to < n + fates_kept
        → slice_index_or ring.new.items (n % fates_kept) false
        ≡ (bit_in words.now (first + (to - n)) == 1) }
    ensures kept { (n : ℕ) → n ≤ from → to < n + fates_kept
        → slice_index_or ring.new.items (n % fates_kept) false
        ≡ slice_index_or ring.old.items (n % fates_kept) false }
{
    for number in from + 1..to + 1 {
        ring[(number % FATES_KEPT) as usize] = is_set(words, first + (to - number));
    }
}
