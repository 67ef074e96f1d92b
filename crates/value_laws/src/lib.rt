// Values in payloads and values by themselves are read alike.
//
//     bits --leading_value kind--> value and the bits behind      (what code reads, in `value_codec`)
//       \---value_at kind--------> the same, with places of faults (what a payload's reading does)
//
// `value_codec` promises what `get_value` reads by `leading_value`, and the definition of a payload's
// reading goes by `value_at`. This law ties the two, so that a reader of payloads may read its values
// by `get_value`. It stands on `value_codec` and on `connection_model`, and has no code.
//
// A crate above that reads a payload's values cites it:
//
//     use Rattle.value_laws.proofs.Values.{value_as}
//
//     rw (value_as kind (bits_left reader) h) refl
#![tactic(auto)]

ghost use Rattle.std.specs.Prelude.{◌≡◌, List, Bool, IsTrue, length};
ghost use Rattle.connection_model.specs.PayloadReading.{value_at};
ghost use Rattle.protocol_model.specs.declared.Kind.{Kind};
ghost use Rattle.value_codec.specs.Reading.{has_values, leading_value};
ghost use Rattle.value_laws.specs.Alike.{as_payload};

/// A payload's reading of a value answers what the bits begin with: the value and the bits behind
/// it, that bits are missing, or the rule of short spelling at the value's first bit.
#[tactic(auto, using(crate::proofs::Values::value_as))]
pub fn payloads_read_values_alike()
    ensures { (kind : Kind) (bits : List Bool) → IsTrue (has_values kind)
        → value_at kind bits ≡ as_payload (length bits) (leading_value kind bits) }
{}
