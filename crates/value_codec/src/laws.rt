// Laws of the values' spellings, for the crates that read what they wrote.
//
// Each law is the contract of a function that does nothing.
ghost use Rattle.std.specs.Prelude.{◌≡◌, ◌≤◌, ◌++◌, List, Bool, IsTrue, Ok, ℤ, length};
ghost use Rattle.protocol_model.specs.declared.Kind.{Kind};
ghost use Rattle.protocol_model.specs.Value as Model;
ghost use Rattle.protocol_model.specs.Payload.{value_bits};
ghost use Rattle.value_codec.specs.Reading.{has_values, is_kind, leading_value};

/// A value that fits is read back as it was spelled, whatever follows.
pub fn value_is_read_back()
    ensures { (kind : Kind) (v : ℤ) (rest : List Bool) → IsTrue (is_kind kind)
        → IsTrue (Model.fits kind v)
        → leading_value kind (value_bits kind v ++ rest) ≡ Ok (v, rest) }
{}

/// Only a value of the kind that was spelled is read.
pub fn value_was_spelled()
    ensures { (kind : Kind) (v : ℤ) (bits rest : List Bool) → IsTrue (is_kind kind)
        → IsTrue (has_values kind)
        → leading_value kind bits ≡ Ok (v, rest)
        → IsTrue (Model.fits kind v) × (bits ≡ value_bits kind v ++ rest) }
{}

/// A value takes at most 64 bits.
pub fn value_is_short()
    ensures { (kind : Kind) (v : ℤ) → IsTrue (is_kind kind) → length (value_bits kind v) ≤ 64 }
{}
