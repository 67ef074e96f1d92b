// How many bits a message takes, and that no message exceeds its limit.
//
// `HasLimits class` says that the class has kinds, calls and counts that a table may have.
ghost use Rattle.std.specs.Prelude.{◌≡◌, ◌<◌, ◌≤◌, ◌+◌, ℕ, List, Bool, false, IsTrue, Some, length};
ghost use Rattle.protocol_model.specs.Bits.{packed_bits};
ghost use Rattle.protocol_model.specs.Limits.{depth_limit, update_bits};
ghost use Rattle.protocol_model.specs.Value.{Class, Call, Arg, Pair, Segment, call_at, args_fit};
ghost use Rattle.protocol_model.specs.Payload.{Message, Opens, Closes, Calls, Gone, message_bits, parts_of};
ghost use Rattle.protocol_model.specs.Sight.{Seen};
ghost use Rattle.table_model.specs.Rules.{args_limit};
ghost use Rattle.connection_model.specs.Items.{update_message, update_pairs};
ghost use Rattle.payload_laws.specs.Limits.{HasLimits, AreValues, AreSegments};
ghost use Rattle.payload_laws.specs.Sizes.{packed_size, message_size, most_open_bits};

/// A packed number takes 8, 16, 24, 32 or 40 bits, by its size.
pub fn packed_size_is()
    ensures size { (v : ℕ) → length (packed_bits v) ≡ packed_size v }
    ensures most { (v : ℕ) → packed_size v ≤ 40 }
{}

/// A message takes the bits of its fields.
pub fn message_size_is()
    ensures { (message : Message) → length (message_bits message) ≡ message_size message }
{}

/// An open that exports at most eight segments takes at most 18,768 bits, and so at most three
/// parts.
pub fn open_is_short()
    ensures bits { (exports : List Segment) (actor : ℕ) (class : Class) (values : List Pair)
        → AreSegments exports → length exports ≤ depth_limit
        → HasLimits class → AreValues class 0 values
        → length (message_bits (Opens exports actor class values)) ≤ most_open_bits }
    ensures parts { (exports : List Segment) (actor : ℕ) (class : Class) (values : List Pair)
        → AreSegments exports → length exports ≤ depth_limit
        → HasLimits class → AreValues class 0 values
        → parts_of (Opens exports actor class values) ≤ 3 }
{}

/// An update takes at most 6,000 bits, and so one part.
pub fn update_is_short()
    ensures bits { (seen : Seen) (due : List Pair)
        → length (message_bits (update_message seen (update_pairs seen due))) ≤ update_bits }
    ensures parts { (seen : Seen) (due : List Pair)
        → parts_of (update_message seen (update_pairs seen due)) ≡ 1 }
{}

/// An update of some due handles has a handle, and its handles ascend with values that fit.
pub fn update_has_a_handle()
    ensures some { (seen : Seen) (due : List Pair)
        → HasLimits seen.class → AreValues seen.class 0 due
        → 0 < length due → 0 < length (update_pairs seen due) }
    ensures values { (seen : Seen) (due : List Pair) → AreValues seen.class 0 due
        → AreValues seen.class 0 (update_pairs seen due) }
{}

/// A call takes at most 49 bits more than the limit of its arguments, for its tag, its actor and
/// its number; an unreliable one has one part, and a reliable one at most nine.
pub fn call_is_short()
    ensures bits { (class : Class) (actor number : ℕ) (call : Call) (args : List Arg)
        → HasLimits class → call_at class number ≡ Some call → IsTrue (args_fit call.args args)
        → length (message_bits (Calls actor number call args)) ≤ 49 + args_limit call.reliable }
    ensures loose { (class : Class) (actor number : ℕ) (call : Call) (args : List Arg)
        → HasLimits class → call_at class number ≡ Some call → IsTrue (args_fit call.args args)
        → call.reliable ≡ false → parts_of (Calls actor number call args) ≡ 1 }
    ensures parts { (class : Class) (actor number : ℕ) (call : Call) (args : List Arg)
        → HasLimits class → call_at class number ≡ Some call → IsTrue (args_fit call.args args)
        → parts_of (Calls actor number call args) ≤ 9 }
{}

/// A close and a Gone have one part.
pub fn others_are_short()
    ensures gone { (actor : ℕ) → parts_of (Gone actor) ≡ 1 }
    ensures close { (actor : ℕ) (sleeps : Bool) → parts_of (Closes actor sleeps) ≡ 1 }
{}
