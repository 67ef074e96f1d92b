// Laws of the spellings of numbers.
//
// Each form of number is read back as it was spelled, whatever follows; only a spelled number is
// read; so no spelling is the beginning of another one, and a reader refuses exactly where no
// spelling begins the bits.
ghost use Rattle.std.specs.Prelude.{◌≡◌, ◌≢◌, ◌<◌, ◌≤◌, ◌^◌, ◌++◌, ◌↔◌, ℕ, List, [], Bool, Some, None, Ok, IsErr};
ghost use Rattle.protocol_model.specs.Bits.{int_width, int_bits, packed_bits, fixed_bits};
ghost use Rattle.protocol_model.specs.Numbers.{leading_int, leading_packed, leading_fixed};
ghost use Rattle.protocol_laws.specs.IntWidth.{IsIntWidth};

/// The width of a number below a bound is the least that tells it apart.
pub fn int_width_is_least()
    ensures { (max v : ℕ) → v < max → max ≤ 2 ^ 32 → IsIntWidth max v (int_width max v) }
{}

/// A number below a bound is read as it was spelled.
pub fn int_is_read_back()
    ensures { (max v : ℕ) (rest : List Bool) → v < max → max ≤ 2 ^ 32
        → leading_int max (int_bits max v ++ rest) ≡ Some (v, rest) }
{}

/// Only a number below the bound that was spelled is read.
pub fn int_was_spelled()
    ensures { (max v : ℕ) (bits rest : List Bool) → 1 ≤ max → max ≤ 2 ^ 32
        → leading_int max bits ≡ Some (v, rest) → (v < max) × (bits ≡ int_bits max v ++ rest) }
{}

/// No spelling of a number below a bound begins another one.
pub fn int_begins_no_other()
    ensures { (max v w : ℕ) (more : List Bool) → v < max → w < max → max ≤ 2 ^ 32
        → int_bits max w ≡ int_bits max v ++ more → (v ≡ w) × (more ≡ []) }
{}

/// No number below a bound is read exactly where no spelling of one begins the bits.
pub fn int_is_refused()
    ensures { (max : ℕ) (bits : List Bool) → 1 ≤ max → max ≤ 2 ^ 32
        → (leading_int max bits ≡ None)
        ↔ ((v : ℕ) (rest : List Bool) → v < max → bits ≢ int_bits max v ++ rest) }
{}

/// A packed number is read as it was spelled.
pub fn packed_is_read_back()
    ensures { (v : ℕ) (rest : List Bool) → v < 2 ^ 32
        → leading_packed (packed_bits v ++ rest) ≡ Ok (v, rest) }
{}

/// Only a packed number that was spelled is read.
pub fn packed_was_spelled()
    ensures { (v : ℕ) (bits rest : List Bool) → leading_packed bits ≡ Ok (v, rest)
        → (v < 2 ^ 32) × (bits ≡ packed_bits v ++ rest) }
{}

/// No spelling of a packed number begins another one.
pub fn packed_begins_no_other()
    ensures { (v w : ℕ) (more : List Bool) → v < 2 ^ 32 → w < 2 ^ 32
        → packed_bits w ≡ packed_bits v ++ more → (v ≡ w) × (more ≡ []) }
{}

/// No packed number is read exactly where no spelling of one begins the bits.
pub fn packed_is_refused()
    ensures { (bits : List Bool)
        → IsErr (leading_packed bits)
        ↔ ((v : ℕ) (rest : List Bool) → v < 2 ^ 32 → bits ≢ packed_bits v ++ rest) }
{}

/// A number of a fixed width is read as it was spelled.
pub fn fixed_is_read_back()
    ensures { (width v : ℕ) (rest : List Bool) → v < 2 ^ width
        → leading_fixed width (fixed_bits width v ++ rest) ≡ Some (v, rest) }
{}

/// Only a number of a fixed width that was spelled is read.
pub fn fixed_was_spelled()
    ensures { (width v : ℕ) (bits rest : List Bool) → leading_fixed width bits ≡ Some (v, rest)
        → (v < 2 ^ width) × (bits ≡ fixed_bits width v ++ rest) }
{}

/// No spelling in a fixed width begins another one.
pub fn fixed_begins_no_other()
    ensures { (width v w : ℕ) (more : List Bool) → v < 2 ^ width → w < 2 ^ width
        → fixed_bits width w ≡ fixed_bits width v ++ more → (v ≡ w) × (more ≡ []) }
{}

/// No number of a fixed width is read exactly where no spelling of one begins the bits.
pub fn fixed_is_refused()
    ensures { (width : ℕ) (bits : List Bool)
        → (leading_fixed width bits ≡ None)
        ↔ ((v : ℕ) (rest : List Bool) → v < 2 ^ width → bits ≢ fixed_bits width v ++ rest) }
{}
