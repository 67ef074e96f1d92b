// Items by how far they stand ahead of the next.
ghost use Rattle.std.specs.Prelude.{◌≡◌, ◌+◌, ◌<◌, ◌≤◌, ◌^◌, ◌==◌, ℕ, length, None, Some, OnOk, OnErr, is_some, max, if◌then◌else◌};
ghost use Rattle.reliable_window.specs.In.{held_from, kept_at};

use bit_io::Memory;
use std::collections::VecDeque;

/// There is an item at this place.
pub fn is_held<T>(held: &VecDeque<Option<T>>, at: usize) -> bool
    ensures { result ≡ is_some (kept_at held.now.items at) }
{
    match held.get(at) {
        Some(Some(_)) => true,
        _ => false,
    }
}

/// Makes places up to `len`, which hold nothing. `Memory` leaves the items as they were.
#[tactic(auto, using(crate::proofs::Received::kept_more, crate::proofs::Received::from_more))]
fn make_places<T: Drop>(held: &mut VecDeque<Option<T>>, len: usize) -> Result<(), Memory>
    ensures kept { (i : ℕ) → kept_at held.new.items i ≡ kept_at held.old.items i }
    ensures from { (next : ℕ) → held_from next held.new.items ≡ held_from next held.old.items }
    ensures least { OnOk result (len ≤ length held.new.items) }
    ensures most { length held.new.items ≤ max (length held.old.items) len }
{
    for _count in held.len()..len {
        held.push_back(None)?;
    }
    Ok(())
}

/// Keeps an item at a place. `Memory` leaves the items as they were.
#[tactic(auto, using(crate::proofs::Received::kept_set))]
pub fn hold<T: Drop>(held: &mut VecDeque<Option<T>>, at: usize, item: T) -> Result<(), Memory>
    requires at { at < 1024 }
    ensures ok { OnOk result ((i : ℕ) → kept_at held.new.items i
        ≡ (if i == at then Some item else kept_at held.old.items i)) }
    ensures err { OnErr result ((next : ℕ)
        → held_from next held.new.items ≡ held_from next held.old.items) }
    ensures most { length held.new.items ≤ max (length held.old.items) 1024 }
{
    make_places(held, at + 1)?;
    if let Some(place) = held.get_mut(at) {
        *place = Some(item);
    }
    Ok(())
}
