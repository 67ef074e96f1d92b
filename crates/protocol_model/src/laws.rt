// Laws of the definitions, each the contract of a function that does nothing.
ghost use Rattle.std.specs.Prelude.{◌≡◌, ◌+◌, ◌*◌, ◌∷◌, [], ℕ, ℤ, Bool, true, false, Some};
ghost use Rattle.protocol_model.specs.Cond.{visible, updatable};
ghost use Rattle.protocol_model.specs.Value.{Table};
ghost use Rattle.protocol_model.specs.World.{owner_of, lives, value_of, spawn_of, spawn_count, Edits, Edit, Spawned};

use crate::Cond;

/// In an empty world nothing lives, and nobody owns anything.
pub fn empty_world()
    ensures alive { (actor : ℕ) → lives [] actor ≡ false }
    ensures owner { (actor : ℕ) → owner_of [] actor ≡ 0 }
{}

/// The n-th spawn has guid 2n.
pub fn spawn_has_next_guid()
    ensures { (edits : Edits) (class : ℕ) (x y : ℤ)
        → spawn_of (Edit.Spawn class x y ∷ edits) (2 * (spawn_count edits + 1))
        ≡ Some (record { class = class; x = x; y = y }) }
{}

/// A cell has the value that was set last.
pub fn last_set_counts()
    ensures { (table : Table) (edits : Edits) (actor handle : ℕ) (value : ℤ)
        → value_of table (Edit.Set actor handle value ∷ edits) actor handle ≡ value }
{}

/// By the table of conditions a property that is its owner's alone goes to nobody else, neither with
/// an open nor with an update.
pub fn owner_only_goes_to_the_owner()
    ensures open { (on : Bool) → visible Cond.OwnerOnly false on ≡ false }
    ensures update { (on : Bool) → updatable Cond.OwnerOnly false on ≡ false }
{}
