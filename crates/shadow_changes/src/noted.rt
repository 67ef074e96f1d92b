// Lists of changes that ascend by handle, and how the changes of a newer one go into an older one.
ghost use Rattle.std.specs.Prelude.{◌≡◌, ◌≤◌, ◌<◌, ◌∷◌, [], ℕ, length, filter, nat_lt, IfOk, OnOk};
ghost use Rattle.protocol_model.specs.Search.{or_else};
ghost use Rattle.shadow_changes.specs.Lists.{tick_of, newest_in, AreListed, AreFalling};
ghost use Rattle.shadow_changes.specs.Puts.{put_in, IsPlace};

use crate::change::{Change, ChangeList};
use net_core::{Handle, Memory};

/// What one sample noted, or the two oldest lists merged: none of its ticks is above `tick`.
#[derive(Drop)]
pub struct Noted {
    pub tick: u64,
    pub changes: ChangeList,
}

/// Puts the changes of a newer list into an older one.
pub fn note_all(changes: &mut Vec<Change>, newer: &[Change]) -> Result<(), Memory>
    ensures { OnOk result ((count newest : ℕ) → AreListed count newest 0 changes.old.items
        → AreListed count newest 0 newer.now
        → AreListed count newest 0 changes.new.items × ((h : ℕ) → tick_of changes.new.items h
        ≡ or_else (tick_of newer.now h) (tick_of changes.old.items h))) }
{
    for change in newer {
        note(changes, *change)?;
    }
    Ok(())
}

/// Puts a change at the place of its handle, over an older one of the same handle.
fn note(changes: &mut Vec<Change>, change: Change) -> Result<(), Memory>
    ensures { OnOk result ((count newest : ℕ) → AreListed count newest 0 changes.old.items
        → changes.new.items ≡ put_in change changes.old.items) }
{
    let place = place_of(changes.as_slice(), change.prop);
    if place < changes.len() && changes[place].prop == change.prop {
        changes[place] = change;
        return Ok(());
    }
    changes.insert(place, change)?;
    Ok(())
}

/// How many changes are of handles below one.
fn place_of(changes: &[Change], prop: Handle) -> usize
    ensures bound { result ≤ length changes.now }
    ensures place { (count newest : ℕ) → AreListed count newest 0 changes.now
        → IsPlace prop changes.now result }
{
    let handle = prop.0;
    changes.partition_point(
        |c: &Change| -> bool
            ensures { result ≡ nat_lt c.now.prop handle }
        { c.prop.0 < handle },
    )
}

/// One list of two.
pub fn merged(newer: Noted, older: Noted) -> Result<Noted, Memory>
    ensures falling { IfOk result (λ both. (count newest : ℕ)
        → AreFalling count newest (newer ∷ older ∷ []) → AreFalling count newest (both ∷ [])) }
    ensures noted { IfOk result (λ both. (count newest : ℕ)
        → AreFalling count newest (newer ∷ older ∷ []) → (h : ℕ)
        → newest_in (both ∷ []) h ≡ newest_in (newer ∷ older ∷ []) h) }
{
    let mut changes = older.changes.into_vec();
    note_all(&mut changes, newer.changes.as_slice())?;
    Ok(Noted {
        tick: newer.tick,
        changes: ChangeList::from_vec(changes),
    })
}

/// The changes above a tick.
pub fn later_than(mut changes: Vec<Change>, tick: u64) -> ChangeList
    ensures { result ≡ filter (λ c. nat_lt tick c.tick) changes.items }
{
    changes.retain(|c| c.tick > tick);
    ChangeList::from_vec(changes)
}
