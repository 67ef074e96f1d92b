// What a message that is made, and a packet under way, leave as it was.
ghost use Rattle.std.specs.Prelude.{◌≡◌, ◌+◌, ◌<◌, ◌≤◌, ◌∷◌, ◌++◌, ℕ, List, Some, true};
ghost use Rattle.protocol_model.specs.Packet.{Bunch};
ghost use Rattle.protocol_model.specs.Payload.{Message, parts_of};
ghost use Rattle.protocol_model.specs.Search.{newest_of};
ghost use Rattle.connection_model.specs.Feed.{Past, Deed, Item};
ghost use Rattle.connection_model.specs.Bunches.{made_count, made_bunch, after_making, is_due, span, span_sum, room};
ghost use Rattle.connection_model.specs.Items.{made_as};
ghost use Rattle.connection_model.specs.Windows.{held_count};
ghost use Rattle.channel_laws.specs.Alike.{Alike, SameHeard};
ghost use Rattle.channel_laws.specs.Sendings.{are_sendings, sent_with, MayCarry};

/// Each part of a message that is made is found by its number; the bunches made before stay.
pub fn made_parts_are_found()
    ensures part { (past : Past) (ch : ℕ) (message : Message) (i : ℕ) → i < parts_of message
        → newest_of (made_as ch (made_count past ch + 1 + i)) (after_making past ch message)
        ≡ Some (made_bunch ch (made_count past ch + 1 + i) message i) }
    ensures before { (past : Past) (ch : ℕ) (message : Message) (n : ℕ) → n ≤ made_count past ch
        → newest_of (made_as ch n) (after_making past ch message)
        ≡ newest_of (made_as ch n) past }
{}

/// A message that a tick makes may as well stand below the packets that it sent before: bunches,
/// carriers and fates are the same, and nothing was received.
pub fn making_goes_below_sendings()
    ensures alike { (sent past : Past) (ch : ℕ) (message : Message) → are_sendings sent ≡ true
        → Alike (after_making (sent ++ past) ch message)
        (sent ++ after_making past ch message) }
    ensures room { (sent past : Past) (ch c : ℕ) (message : Message) → are_sendings sent ≡ true
        → room (sent ++ after_making past ch message) c
        ≡ room (after_making (sent ++ past) ch message) c }
    ensures heard { (sent past : Past) (ch : ℕ) (message : Message) → are_sendings sent ≡ true
        → SameHeard (sent ++ past) (sent ++ after_making past ch message) }
    ensures held { (sent past : Past) (ch : ℕ) (message : Message) → are_sendings sent ≡ true
        → held_count (sent ++ after_making past ch message) ≡ held_count (sent ++ past) }
{}

/// A packet of which nothing is known yet, that carries one more due bunch, changes no span.
pub fn carrying_keeps_spans()
    ensures span { (packet t ch n c : ℕ) (items : List Item) (past : Past) (bunch : Bunch)
        → MayCarry packet t items past ch n
        → span (sent_with packet t items (Item.Carries ch n bunch) past) c
        ≡ span (Deed.Sent packet t items ∷ past) c }
    ensures sum { (packet t ch n : ℕ) (items : List Item) (past : Past) (bunch : Bunch)
        → MayCarry packet t items past ch n
        → span_sum (sent_with packet t items (Item.Carries ch n bunch) past)
        ≡ span_sum (Deed.Sent packet t items ∷ past) }
{}
