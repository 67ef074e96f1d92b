// What ticks, messages, packets and moves change of carries, services, flush numbers and segments.
ghost use Rattle.std.specs.Prelude.{◌≡◌, ◌<◌, ◌≤◌, ◌+◌, ◌==◌, ◌∷◌, ◌++◌, [], ℕ, List, Some, None, true, false, if◌then◌else◌};
ghost use Rattle.std.specs.List.{list_any};
ghost use Rattle.protocol_model.specs.Value.{Class, Pair, Segment, value_among};
ghost use Rattle.protocol_model.specs.Packet.{Bunch};
ghost use Rattle.protocol_model.specs.Payload.{Message, Opens, Updates};
ghost use Rattle.protocol_model.specs.Search.{or_else};
ghost use Rattle.protocol_model.specs.Sight.{Seen};
ghost use Rattle.protocol_model.specs.declared.Fate.TheVariants.{Arrived, Lost};
ghost use Rattle.connection_model.specs.Feed.{Past, Deed, Item, tick_count, is_relevant_in};
ghost use Rattle.connection_model.specs.Fates.{fate_of, high_of};
ghost use Rattle.connection_model.specs.Bunches.{has_arrived, after_making};
ghost use Rattle.connection_model.specs.Carry.{carry_of, carry_in};
ghost use Rattle.connection_model.specs.Exports.{is_known};
ghost use Rattle.connection_model.specs.Items.{last_service, kept_flush, is_open_made, is_update_of};
ghost use Rattle.connection_model.specs.Pack.{idle_ticks};
ghost use Rattle.sender_laws.specs.Acts.{IsAlike, MovesTo, ArrivesMade, are_sent, sent_more};
ghost use Rattle.sender_laws.specs.Items.{CarriesAwaited, has_update};
ghost use Rattle.sender_laws.specs.States.{sleeps_actor, flush_seen};

/// A tick whose sight has the actor as relevant ends its idle ticks; any other is one more.
pub fn idle_by_sight()
    ensures shown { (past : Past) (t a : ℕ) (sight : List Seen) → is_relevant_in sight a ≡ true
        → idle_ticks (Deed.Ticked t sight ∷ past) a ≡ 0 }
    ensures unshown { (past : Past) (t a : ℕ) (sight : List Seen) → is_relevant_in sight a ≡ false
        → idle_ticks (Deed.Ticked t sight ∷ past) a ≡ idle_ticks past a + 1 }
{}

/// An open serves its actor in the tick in which it is made, an update in that of its packet; no
/// other message serves.
pub fn service_by_deed()
    ensures opened { (past : Past) (ch a : ℕ) (m : Message) → is_open_made a m ≡ true
        → last_service (after_making past ch m) a ≡ Some (tick_count past) }
    ensures other { (past : Past) (ch a : ℕ) (m : Message) → is_open_made a m ≡ false
        → last_service (after_making past ch m) a ≡ last_service past a }
    ensures sent { (k t a : ℕ) (items : List Item) (item : Item) (past : Past)
        → last_service (sent_more k t items item past) a
        ≡ (if is_update_of a item then Some t else last_service (Deed.Sent k t items ∷ past) a) }
{}

/// A dormant close keeps the flush number of the last sight; every other message leaves the one
/// that is kept.
pub fn flush_by_close()
    ensures { (past : Past) (ch a : ℕ) (m : Message) → kept_flush (after_making past ch m) a
        ≡ (if sleeps_actor a m then flush_seen past a else kept_flush past a) }
{}

/// An open carries each of its handles, and an update those that it has.
pub fn carries_by_deed()
    ensures opened { (sent past : Past) (ch a : ℕ) (exports : List Segment) (class : Class)
        (values : List Pair) (h : ℕ) → are_sent sent ≡ true → has_update a sent ≡ false
        → carry_of (sent ++ after_making past ch (Opens exports a class values)) a h
        ≡ carry_in None (value_among values h) }
    ensures updated { (k t a : ℕ) (items : List Item) (class : Class) (values : List Pair)
        (bunch : Bunch) (past : Past) (h : ℕ) → list_any (is_update_of a) items ≡ false
        → carry_of (sent_more k t items (Item.Loose (Updates a class values) bunch) past) a h
        ≡ or_else (carry_in (Some k) (value_among values h))
        (carry_of (Deed.Sent k t items ∷ past) a h) }
{}

/// What was heard, handed on or waits makes no segment known.
pub fn known_by_acts()
    ensures { (past later : Past) (g : ℕ) → IsAlike past later
        → is_known later g ≡ is_known past g }
{}

/// What is made makes no segment known before it arrives, nor does a packet that is sent.
pub fn known_on_arrival()
    ensures made { (sent past : Past) (ch : ℕ) (m : Message) (g : ℕ) → are_sent sent ≡ true
        → ArrivesMade (sent ++ past)
        → is_known (sent ++ after_making past ch m) g ≡ is_known (sent ++ past) g }
    ensures sent { (k t : ℕ) (items : List Item) (item : Item) (past : Past) (g : ℕ)
        → high_of past < k → CarriesAwaited (Deed.Sent k t items ∷ past) item
        → is_known (sent_more k t items item past) g ≡ is_known (Deed.Sent k t items ∷ past) g }
{}

/// A move loses the packets between, and the last one arrived; all other fates stay, and what had
/// arrived has.
pub fn move_tells_fates()
    ensures within { (from to : ℕ) (past later : Past) (n : ℕ) → MovesTo from to past later
        → from < n → n ≤ to → fate_of later n ≡ (if n == to then Arrived else Lost) }
    ensures before { (from to : ℕ) (past later : Past) (n : ℕ) → MovesTo from to past later
        → n ≤ from → fate_of later n ≡ fate_of past n }
    ensures after { (from to : ℕ) (past later : Past) (n : ℕ) → MovesTo from to past later
        → to < n → fate_of later n ≡ fate_of past n }
    ensures grows { (from to : ℕ) (past later : Past) (ch n : ℕ) → MovesTo from to past later
        → has_arrived past ch n ≡ true → has_arrived later ch n ≡ true }
{}
