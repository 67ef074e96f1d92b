// What holds of the pieces of a payload.
ghost use Rattle.std.specs.Prelude.{◌≡◌, ◌+◌, ◌<◌, ◌≤◌, ℕ, List, Bool, length};
ghost use Rattle.std.specs.List.{flat_map, range_with_len};
ghost use Rattle.protocol_model.specs.Limits.{part_bits};
ghost use Rattle.protocol_model.specs.Payload.{part_count};
ghost use Rattle.partial_bunches.specs.Joins.{piece_of, piece_bits};

/// The pieces of a payload in order are the payload.
pub fn pieces_are_the_payload()
    ensures { (bits : List Bool)
        → flat_map (λ i. piece_bits bits (piece_of (length bits) i))
        (range_with_len 0 (part_count (length bits)))
        ≡ bits }
{}

/// Each piece but the last has 7,000 bits.
pub fn pieces_are_full()
    ensures { (bits i : ℕ) → i + 1 < part_count bits
        → (piece_of bits i).end ≡ (piece_of bits i).start + part_bits }
{}
