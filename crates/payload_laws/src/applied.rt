// What one more payload does to a client's copies and names.
//
// `Applied past later d` says that the later past handed on the payload `d` besides what the first
// one did.
ghost use Rattle.std.specs.Prelude.{◌≡◌, ◌≢◌, ◌==◌, ℕ, ℤ, List, Bool, true, false, Some, None};
ghost use Rattle.std.specs.List.{fold};
ghost use Rattle.protocol_model.specs.Value.{Segment, Class, Call, Arg, Pair, value_among};
ghost use Rattle.protocol_model.specs.Payload.{Opens, Closes, Updates, Calls, Gone, actor_of};
ghost use Rattle.connection_model.specs.Feed.{End, Past, Delivered};
ghost use Rattle.protocol_model.specs.Side.{Side};
ghost use Rattle.protocol_model.specs.Sight.{Seen};
ghost use Rattle.connection_model.specs.Pack.{after_tick};
ghost use Rattle.connection_model.specs.CallAnswers.{after_call};
ghost use Rattle.connection_model.specs.Names.{names_in, names_with, names_of};
ghost use Rattle.connection_model.specs.Copies.{delivered_of, copy_class, has_copy, copy_channel, copy_on, copy_value};
ghost use Rattle.payload_laws.specs.Applied.{Applied, Stays};

/// An open gives the actor a copy of its class on its channel, with its values; values that it
/// leaves out stay, where the copy was there and of that class.
pub fn open_makes_a_copy()
    ensures class { (past later : Past) (d : Delivered) (exports : List Segment) (actor : ℕ)
        (class : Class) (values : List Pair)
        → Applied past later d → d.message ≡ Opens exports actor class values
        → copy_class later actor ≡ Some class }
    ensures channel { (past later : Past) (d : Delivered) (exports : List Segment) (actor : ℕ)
        (class : Class) (values : List Pair)
        → Applied past later d → d.message ≡ Opens exports actor class values
        → copy_channel later actor ≡ Some d.channel }
    ensures value { (past later : Past) (d : Delivered) (exports : List Segment) (actor : ℕ)
        (class : Class) (values : List Pair) (h : ℕ) (v : ℤ)
        → Applied past later d → d.message ≡ Opens exports actor class values
        → value_among values h ≡ Some v → copy_value later actor h ≡ v }
    ensures kept { (past later : Past) (d : Delivered) (exports : List Segment) (actor : ℕ)
        (class : Class) (values : List Pair) (h : ℕ)
        → Applied past later d → d.message ≡ Opens exports actor class values
        → value_among values h ≡ None → copy_class past actor ≡ Some class
        → copy_value later actor h ≡ copy_value past actor h }
{}

/// An update sets its values, and all else of the copy stays.
pub fn update_sets_values()
    ensures class { (past later : Past) (d : Delivered) (actor : ℕ) (class : Class)
        (values : List Pair)
        → Applied past later d → d.message ≡ Updates actor class values
        → copy_class later actor ≡ copy_class past actor }
    ensures channel { (past later : Past) (d : Delivered) (actor : ℕ) (class : Class)
        (values : List Pair)
        → Applied past later d → d.message ≡ Updates actor class values
        → copy_channel later actor ≡ copy_channel past actor }
    ensures value { (past later : Past) (d : Delivered) (actor : ℕ) (class : Class)
        (values : List Pair) (h : ℕ) (v : ℤ)
        → Applied past later d → d.message ≡ Updates actor class values
        → value_among values h ≡ Some v → copy_value later actor h ≡ v }
    ensures kept { (past later : Past) (d : Delivered) (actor : ℕ) (class : Class)
        (values : List Pair) (h : ℕ)
        → Applied past later d → d.message ≡ Updates actor class values
        → value_among values h ≡ None → copy_value later actor h ≡ copy_value past actor h }
{}

/// A plain close ends a copy, and so does the message that a sleeping actor is gone; after a
/// dormant close the copy sleeps as it was, without a channel.
pub fn close_ends_a_copy()
    ensures plain { (past later : Past) (d : Delivered) (actor : ℕ) → Applied past later d
        → d.message ≡ Closes actor false → copy_class later actor ≡ None }
    ensures gone { (past later : Past) (d : Delivered) (actor : ℕ) → Applied past later d
        → d.message ≡ Gone actor → copy_class later actor ≡ None }
    ensures class { (past later : Past) (d : Delivered) (actor : ℕ) → Applied past later d
        → d.message ≡ Closes actor true → copy_class later actor ≡ copy_class past actor }
    ensures channel { (past later : Past) (d : Delivered) (actor : ℕ) → Applied past later d
        → d.message ≡ Closes actor true → copy_channel later actor ≡ None }
    ensures value { (past later : Past) (d : Delivered) (actor h : ℕ) → Applied past later d
        → d.message ≡ Closes actor true → copy_value later actor h ≡ copy_value past actor h }
{}

/// A payload leaves the copies of other actors as they were, and a call leaves every copy.
pub fn other_copies_stay()
    ensures others { (past later : Past) (d : Delivered) (a : ℕ) → Applied past later d
        → (actor_of d.message == a) ≡ false → Stays past later a }
    ensures calls { (past later : Past) (d : Delivered) (actor number : ℕ) (call : Call)
        (args : List Arg) (a : ℕ) → Applied past later d
        → d.message ≡ Calls actor number call args → Stays past later a }
{}

/// The client's names are those that it had, and then those that the payload exports.
pub fn names_follow()
    ensures { (past later : Past) (d : Delivered) → Applied past later d
        → names_of later ≡ fold names_with (names_of past) (names_in d) }
{}

/// A copy that is alone on its channel holds it; what holds a channel is a copy on it; and a
/// channel without a copy is held by none.
pub fn channel_is_held()
    ensures holds { (past : Past) (ch a : ℕ)
        → has_copy past a ≡ true → copy_channel past a ≡ Some ch
        → ((b : ℕ) → has_copy past b ≡ true → copy_channel past b ≡ Some ch → b ≡ a)
        → copy_on past ch ≡ Some a }
    ensures holder { (past : Past) (ch a : ℕ) → copy_on past ch ≡ Some a
        → (has_copy past a ≡ true) × (copy_channel past a ≡ Some ch) }
    ensures none { (past : Past) (ch : ℕ)
        → ((a : ℕ) → has_copy past a ≡ true → copy_channel past a ≢ Some ch)
        → copy_on past ch ≡ None }
{}

/// A tick and a call of the end's own hand nothing on, so copies and names stay.
pub fn ticks_and_calls_deliver_nothing()
    ensures tick { (end : End) (past : Past) (sight : List Seen)
        → delivered_of (after_tick end past sight) ≡ delivered_of past }
    ensures call { (side : Side) (past : Past) (actor number : ℕ) (args : List Arg)
        → delivered_of (after_call side past actor number args) ≡ delivered_of past }
{}
