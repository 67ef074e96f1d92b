// What may be exported, for the crates that make opens.
//
// The law is the contract of a function that does nothing.
ghost use Rattle.std.specs.Prelude.{◌≡◌, ℕ, Bool, Some, filter, slice_get};
ghost use Rattle.class_layout.specs.Tables.{Layout, IsLayout};
ghost use Rattle.class_layout.specs.declared.class.Class.{Class};
ghost use Rattle.payload_writing.specs.Exports.{MayExport};

/// The path of a class of the table may be exported, and so may any part of it.
pub fn path_may_be_exported()
    ensures whole { (layout : Layout) (place : ℕ) (class : Class) → IsLayout layout
        → slice_get layout.classes place ≡ Some class
        → MayExport layout.segments class.path }
    ensures part { (layout : Layout) (place : ℕ) (class : Class) (is_kept : ℕ → Bool)
        → IsLayout layout → slice_get layout.classes place ≡ Some class
        → MayExport layout.segments (filter is_kept class.path) }
{}
