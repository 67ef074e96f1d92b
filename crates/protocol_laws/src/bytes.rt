// Laws of bytes and their bits.
ghost use Rattle.std.specs.Prelude.{◌≡◌, ◌<◌, ◌++◌, ℕ, List, Bool, false, All, replicate};
ghost use Rattle.protocol_model.specs.Bits.{bits_of, bytes_of};

/// Bytes made of bits hold them, and then fewer than eight 0 bits.
pub fn bytes_hold_bits()
    ensures { (bits : List Bool)
        → (pad : ℕ) × (pad < 8) × (bits_of (bytes_of bits) ≡ bits ++ replicate pad false) }
{}

/// Bytes are those that their bits make.
pub fn bits_make_bytes()
    ensures { (bytes : List ℕ) → All (λ byte. byte < 256) bytes → bytes_of (bits_of bytes) ≡ bytes }
{}
