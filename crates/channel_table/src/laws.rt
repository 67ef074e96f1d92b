// Laws that callers use.
ghost use Rattle.std.specs.Prelude.{◌≡◌, ◌<◌, ◌≤◌, ℕ, List, [], ◌∷◌, ◌++◌, Some, true, false};
ghost use Rattle.protocol_model.specs.Side.{Side};
ghost use Rattle.protocol_model.specs.Payload.{Message};
ghost use Rattle.protocol_model.specs.Sight.{Seen};
ghost use Rattle.connection_model.specs.Feed.{Past, Deed, Item};
ghost use Rattle.connection_model.specs.Bunches.{is_carried_as, is_due, has_arrived, made_count};
ghost use Rattle.channel_laws.specs.Moves.{SameNews};
ghost use Rattle.channel_laws.specs.Alike.{Alike, SameHeard};
ghost use Rattle.channel_laws.specs.Due.{next_due};
ghost use Rattle.channel_table.specs.Channels.{Channels};
ghost use Rattle.channel_laws.specs.Sendings.{are_sendings};
ghost use Rattle.channel_table.specs.Keeps.{Keeps};
ghost use Rattle.channel_table.specs.Stands.{Stands, actor_bound, held_channel};

/// The table doesn't see how acknowledgements were spelled, ticks, calls that wait, a packet that
/// begins, items that are no bunches made, and a packet that is taken, before its entries.
pub fn unseen_by_the_table()
    ensures news { (t : Channels) (side : Side) (one other : Past) → SameNews one other
        → Keeps t side one → Keeps t side other }
    ensures ticked { (t : Channels) (side : Side) (past : Past) (time : ℕ) (sight : List Seen)
        → Keeps t side past → Keeps t side (Deed.Ticked time sight ∷ past) }
    ensures waits { (t : Channels) (side : Side) (past : Past) (message : Message)
        → Keeps t side past → Keeps t side (Deed.Waits message ∷ past) }
    ensures begun { (t : Channels) (side : Side) (past : Past) (packet time : ℕ)
        → Keeps t side past → Keeps t side (Deed.Sent packet time [] ∷ past) }
    ensures item { (t : Channels) (side : Side) (past : Past) (packet time : ℕ) (items : List Item)
        (item : Item)
        → ((ch n : ℕ) → is_carried_as ch n item ≡ false)
        → Keeps t side (Deed.Sent packet time items ∷ past)
        → Keeps t side (Deed.Sent packet time (items ++ item ∷ []) ∷ past) }
    ensures taken { (t : Channels) (side : Side) (past : Past) (number : ℕ)
        → Keeps t side past → Keeps t side (Deed.Took number [] [] ∷ past) }
{}

/// The table is right about each past in which the same bunches were made, carried and received,
/// the same packets moved, and the same payloads were handed on.
pub fn alike_is_unseen()
    ensures { (t : Channels) (side : Side) (past later : Past)
        → Alike past later → SameHeard past later
        → Keeps t side past → Keeps t side later }
{}

/// A due bunch that is found was made.
pub fn due_bunches_were_made()
    ensures { (past : Past) (ch from c n : ℕ) → next_due past ch from ≡ Some (c, n)
        → (is_due past c n ≡ true) × (1 ≤ n) × (n ≤ made_count past c) }
{}

/// A bunch that wasn't made hasn't arrived, and so it is in a tick for the past before its packets.
pub fn what_was_not_made_has_not_arrived()
    ensures now { (t : Channels) (side : Side) (past : Past) → Keeps t side past
        → (ch n : ℕ) → made_count past ch < n → has_arrived past ch n ≡ false }
    ensures in_tick { (t : Channels) (side : Side) (sent past : Past) → Keeps t side (sent ++ past)
        → are_sendings sent ≡ true
        → (ch n : ℕ) → made_count past ch < n → has_arrived past ch n ≡ false }
{}

/// What a table binds is what the past says that is held, both ways.
pub fn holders_are_those_of_the_past()
    ensures held { (t : Channels) (side : Side) (past : Past) (ch a : ℕ) → Stands t side past
        → actor_bound t.bound ch ≡ Some a → held_channel side past a ≡ Some ch }
    ensures bound { (t : Channels) (side : Side) (past : Past) (ch a : ℕ) → Stands t side past
        → held_channel side past a ≡ Some ch → actor_bound t.bound ch ≡ Some a }
{}
