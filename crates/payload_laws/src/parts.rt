// The parts of a message: what each holds, how they join, and what a reader does with them.
ghost use Rattle.std.specs.Prelude.{◌≡◌, ◌<◌, ◌≤◌, ◌+◌, ◌*◌, ◌==◌, ◌++◌, ℕ, List, [], ◌∷◌, Bool, true, false, None, length};
ghost use Rattle.std.specs.List.{flat_map, range_with_len};
ghost use Rattle.protocol_model.specs.Limits.{part_bits, part_limit};
ghost use Rattle.protocol_model.specs.Packet.{Bunch};
ghost use Rattle.protocol_model.specs.Payload.{Message, part_count, piece_at, message_bits, parts_of};
ghost use Rattle.connection_model.specs.Feed.{End, Past};
ghost use Rattle.connection_model.specs.Bunches.{made_bunch};
ghost use Rattle.connection_model.specs.Windows.{part_fault, kept_of, wholes_from};
ghost use Rattle.connection_model.specs.Verdict.{lacks_copy, bunches_result};
ghost use Rattle.payload_laws.specs.Parts.{bunches_from, bunches_of, kept_parts, after_message};
ghost use Rattle.payload_laws.specs.Passing.{Passes, is_gone, is_reliable};

/// The pieces of a payload, one after another, are the payload.
pub fn pieces_join()
    ensures { (bits : List Bool)
        → flat_map (piece_at bits) (range_with_len 0 (part_count (length bits))) ≡ bits }
{}

/// Each piece has at most 7,000 bits, one before the last has as many, and the last has the rest.
pub fn piece_lengths()
    ensures most { (bits : List Bool) (i : ℕ) → length (piece_at bits i) ≤ part_bits }
    ensures full { (bits : List Bool) (i : ℕ) → i + 1 < part_count (length bits)
        → length (piece_at bits i) ≡ part_bits }
    ensures last { (bits : List Bool) (i : ℕ) → i + 1 ≡ part_count (length bits)
        → part_bits * i + length (piece_at bits i) ≡ length bits }
{}

/// A payload is cut into the least count of parts that has room for it, and at least one.
pub fn part_count_is_least()
    ensures some { (size : ℕ) → 1 ≤ part_count size }
    ensures enough { (size : ℕ) → size ≤ part_bits * part_count size }
    ensures least { (size count : ℕ) → 1 ≤ count → size ≤ part_bits * count
        → part_count size ≤ count }
{}

/// The parts of a message join to its payload, with the bunch that it began with; what follows them
/// is joined by itself.
pub fn parts_make_the_payload()
    ensures { (ch first : ℕ) (message : Message) (more : List Bunch)
        → wholes_from [] (bunches_of ch first message ++ more)
        ≡ (made_bunch ch first message 0, message_bits message) ∷ wholes_from [] more }
{}

/// No part of a message of at most ten parts breaks a rule of parts, where those before it are
/// kept.
pub fn parts_break_no_rule()
    ensures { (ch first n : ℕ) (message : Message) (i : ℕ)
        → i < parts_of message → parts_of message ≤ part_limit
        → part_fault (kept_parts ch first message i) (made_bunch ch n message i)
        (made_bunch ch n message i).part ≡ None }
{}

/// Where the parts before the i-th are kept, those from it on hand the message on, once.
pub fn message_is_handed_on()
    ensures { (end : End) (past : Past) (ch first : ℕ) (message : Message) (more : List Bunch)
        (i count : ℕ) → i + count ≡ parts_of message → 0 < count → parts_of message ≤ part_limit
        → is_reliable message ≡ true → (ch == 0) ≡ is_gone message
        → lacks_copy end.side past [] (made_bunch ch first message 0) ≡ false
        → Passes end past ch message
        → bunches_result end past (kept_parts ch first message i)
        (bunches_from ch first message i count ++ more)
        ≡ bunches_result end (after_message end past ch first message) [] more }
{}

/// Parts before the last of a message change nothing, where those before them are kept.
pub fn parts_before_the_last_wait()
    ensures { (end : End) (past : Past) (ch first : ℕ) (message : Message) (i count : ℕ)
        → i + count < parts_of message → parts_of message ≤ part_limit
        → lacks_copy end.side past [] (made_bunch ch first message 0) ≡ false
        → bunches_result end past (kept_parts ch first message i)
        (bunches_from ch first message i count) ≡ record { past = past; cause = None } }
{}

/// Behind whole payloads the parts of the next message are kept, until all of them are there.
pub fn parts_are_kept()
    ensures prefix { (ch first : ℕ) (message : Message) (before : List Bunch) (i : ℕ)
        → kept_of before ≡ [] → i < parts_of message
        → kept_of (before ++ bunches_from ch first message 0 i) ≡ kept_parts ch first message i }
    ensures none { (ch first : ℕ) (message : Message) (before : List Bunch)
        → kept_of (before ++ bunches_of ch first message) ≡ [] }
{}
