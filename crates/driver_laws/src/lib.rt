// Laws of what a server shows its connections, and of what its ends keep of it.
//
//     world --> sight shown -- minus what is quiet or done --> sight given      sights_leave_out
//     feed: each actor that was opened was shown, and by its class              opened_was_shown
//     a datagram, a call: calls that wait are short; what was closed is closed  datagrams_open_nothing,
//                                                                               calls_open_nothing
//     a tick: closed actors that it doesn't show stay closed; who stalls        ticks_open_the_shown,
//                                                                               ticks_stall
//
// A server keeps destroyed actors only as long as something of them is left to close, and knows of
// an end that was alive in each tick what it may leave out. These laws say that it may.
//
// It stands on `connection_model`, whose definitions it speaks of, on `replication_model` for what a
// story shows, and on the laws of a connection (`connection_laws`, `sender_laws`, `sight_laws`,
// `turn_laws`) for lemmas. Each function does nothing, and its contract is the law. It knows no code.
//
// A caller's proof, of an actor that was opened and is destroyed now:
//
//     opened_earlier (end_for table seat) seat.feed actor opened
#![tactic(auto)]

ghost use Rattle.std.specs.Prelude.{◌≡◌, ℕ, List, [], Bool, true, false, Some, nat_le};
ghost use Rattle.std.specs.List.{flat_map};
ghost use Rattle.protocol_model.specs.Limits.{unresolved_limit};
ghost use Rattle.protocol_model.specs.Search.{is_among};
ghost use Rattle.protocol_model.specs.Side.{AtServer};
ghost use Rattle.protocol_model.specs.Value.{Table, Class, Arg};
ghost use Rattle.protocol_model.specs.World.{Edits};
ghost use Rattle.protocol_model.specs.Sight.{Seen, sight};
ghost use Rattle.connection_model.specs.Feed.{End, Event, Past, has_ended, is_relevant_in};
ghost use Rattle.connection_model.specs.Fates.{unresolved_count};
ghost use Rattle.connection_model.specs.State.{state_of, is_closed, opened_class, was_opened};
ghost use Rattle.connection_model.specs.Pack.{after_tick};
ghost use Rattle.connection_model.specs.Past.{past_of};
ghost use Rattle.connection_model.specs.Verdict.{after_got};
ghost use Rattle.connection_model.specs.CallAnswers.{after_call, waiting_of};
ghost use Rattle.replication_model.specs.Story.{relevant_in};
ghost use Rattle.sight_laws.specs.Sights.{Shows};
ghost use Rattle.driver_laws.specs.Feeds.{AreShown, AreShort, IsShort, IsOfWorld, StayClosed};
ghost use Rattle.driver_laws.specs.Given.{given_sight, AreGone};

/// A sight without the values of quiet actors, and with those destroyed actors alone of which
/// something is left to close, may be handed to a sender.
pub fn sights_leave_out()
    ensures { (table : Table) (edits : Edits) (player : ℕ) (past : Past) (earlier : List ℕ)
        (gone : ℕ → Bool) → AreGone edits past earlier gone
        → Shows past (sight table edits player earlier)
        (given_sight table edits player past gone) }
{}

/// Each actor that an end ever opened was shown as relevant, and by the class of its open: where each
/// entry so shown is of the world, so is each open.
pub fn opened_was_shown()
    ensures class { (table : Table) (edits : Edits) (end : End) (feed : List Event)
        → AreShown (IsOfWorld table edits) feed → (actor : ℕ) (class : Class)
        → opened_class (past_of end feed) actor ≡ Some class
        → IsOfWorld table edits actor class }
    ensures earlier { (end : End) (feed : List Event) (actor : ℕ)
        → was_opened (past_of end feed) actor ≡ true
        → is_among actor (flat_map relevant_in feed) ≡ true }
{}

/// A datagram opens no channel, and leaves the calls that wait.
pub fn datagrams_open_nothing()
    ensures closed { (end : End) (past : Past) (bytes : List ℕ)
        → StayClosed past (after_got end past bytes) }
    ensures waiting { (end : End) (past : Past) (bytes : List ℕ)
        → waiting_of (after_got end past bytes) ≡ waiting_of past }
{}

/// A call opens no channel; of short calls those that wait stay short.
pub fn calls_open_nothing()
    ensures closed { (past : Past) (actor number : ℕ) (args : List Arg)
        → IsShort past actor number args
        → StayClosed past (after_call AtServer past actor number args) }
    ensures short { (past : Past) (actor number : ℕ) (args : List Arg)
        → IsShort past actor number args → AreShort past
        → AreShort (after_call AtServer past actor number args) }
{}

/// In a tick of an end that is alive the channel of an actor that isn't shown as relevant stays closed
/// where it was; and after it no call waits.
pub fn ticks_open_the_shown()
    ensures closed { (end : End) (feed : List Event) (sight : List Seen) (actor : ℕ)
        → has_ended (past_of end feed) ≡ false → is_relevant_in sight actor ≡ false
        → is_closed (state_of (past_of end feed) actor) ≡ true
        → is_closed (state_of (after_tick end (past_of end feed) sight) actor) ≡ true }
    ensures waiting { (end : End) (past : Past) (sight : List Seen) → has_ended past ≡ false
        → waiting_of (after_tick end past sight) ≡ [] }
{}

/// A tick ends an end exactly where as many packets are open after it as may be.
pub fn ticks_stall()
    ensures { (end : End) (feed : List Event) (sight : List Seen)
        → has_ended (past_of end feed) ≡ false
        → has_ended (after_tick end (past_of end feed) sight)
        ≡ nat_le unresolved_limit
        (unresolved_count (after_tick end (past_of end feed) sight)) }
{}
