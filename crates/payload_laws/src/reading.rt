// A payload is read as the message that it spells.
//
// `Passes end past channel message` is all that the reader has to know: its copy has the class of
// the message, the exported segments are learnt without a clash, handles ascend and are in the
// class, and values fit their kinds.
ghost use Rattle.std.specs.Prelude.{◌≡◌, ◌==◌, ◌++◌, ◌^◌, ◌<◌, ℕ, ℤ, List, [], Bool, true, false, IsTrue, Ok, length};
ghost use Rattle.std.specs.List.{list_all, flat_map};
ghost use Rattle.protocol_model.specs.declared.Kind.{Kind};
ghost use Rattle.protocol_model.specs.Value.{Class, Pair, Segment, Arg, fits, args_fit};
ghost use Rattle.protocol_model.specs.Packet.{Bunch};
ghost use Rattle.protocol_model.specs.Payload.{Message, value_bits, list_bits, args_bits, segment_bits, message_bits};
ghost use Rattle.table_model.specs.Facts.{is_type};
ghost use Rattle.connection_model.specs.Feed.{End, Past};
ghost use Rattle.connection_model.specs.Bunches.{made_bunch};
ghost use Rattle.connection_model.specs.Items.{loose_bunch};
ghost use Rattle.connection_model.specs.PayloadReading.{value_at, values_at, args_at, segments_at, payload_at};
ghost use Rattle.payload_laws.specs.Limits.{HasLimits, AreValues};
ghost use Rattle.payload_laws.specs.Passing.{Begins, AreLearnt, Passes, is_gone, is_reliable};

/// A value of a kind that a table may name is read as it was spelled.
pub fn value_is_read_back()
    ensures { (argument : Bool) (kind : Kind) (v : ℤ) (rest : List Bool)
        → IsTrue (is_type argument kind) → IsTrue (fits kind v)
        → value_at kind (value_bits kind v ++ rest) ≡ Ok (v, rest) }
{}

/// Values of ascending handles of a class are read as they were spelled.
pub fn values_are_read_back()
    ensures { (class : Class) (values : List Pair) (rest : List Bool)
        → HasLimits class → AreValues class 0 values
        → values_at class (list_bits class values ++ rest) ≡ Ok (values, rest) }
{}

/// The arguments of a call, lists of bytes included, are read as they were spelled.
pub fn args_are_read_back()
    ensures { (kinds : List Kind) (args : List Arg) (rest : List Bool)
        → IsTrue (list_all (is_type true) kinds) → IsTrue (args_fit kinds args)
        → args_at kinds (args_bits kinds args ++ rest) ≡ Ok (args, rest) }
{}

/// Exported segments, each learnt after those before it, are read as they were spelled.
pub fn segments_are_read_back()
    ensures { (names exports : List Segment) (rest : List Bool) → AreLearnt names exports
        → segments_at names (length exports) (flat_map segment_bits exports ++ rest)
        ≡ Ok (exports, rest) }
{}

/// A payload is read as the message that it spells, at either end, where the rules let it through.
pub fn payload_is_read_back()
    ensures { (end : End) (past : Past) (first : Bunch) (message : Message)
        → Begins message first → Passes end past first.channel message
        → payload_at end past first (message_bits message) ≡ Ok (message, []) }
{}

/// The payload of a reliable message is read so by the first of its bunches.
pub fn made_payload_is_read_back()
    ensures { (end : End) (past : Past) (ch n : ℕ) (message : Message)
        → is_reliable message ≡ true → (ch == 0) ≡ is_gone message → Passes end past ch message
        → payload_at end past (made_bunch ch n message 0) (message_bits message)
        ≡ Ok (message, []) }
{}

/// The payload of an unreliable message is read so by its bunch.
pub fn loose_payload_is_read_back()
    ensures { (end : End) (past : Past) (ch : ℕ) (message : Message)
        → is_reliable message ≡ false → (ch == 0) ≡ false → Passes end past ch message
        → payload_at end past (loose_bunch ch message) (message_bits message)
        ≡ Ok (message, []) }
{}
