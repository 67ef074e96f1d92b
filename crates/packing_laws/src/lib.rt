// Laws of packing: what the packets of a tick leave as it was, and what is packed as it begins.
//
// A tick is defined over the past before its packets: which bunches are due, which channels have
// room, what the head tells. An end that packs has begun packets by then, and has made bunches
// besides. These laws say that it may ask either past:
//
//     tick begins        offers ..                          tick ends
//     | acks, one packet | item item | item item item | ..   | sent
//                          \_ asks the past, or the past as if all so far were sent
//
// It stands on `connection_model`, whose definitions it speaks of, and on `connection_laws` and
// `protocol_laws` for lemmas. Each function does nothing, and its contract is the law; `proofs/`
// has the lemmas, which the crates of an end use by themselves: packets sent behind a past
// (`Sendings`), the packets of a tick under way (`Packings`), its beginning (`Beginnings`) and
// bunches made meanwhile (`Making`). It knows no code.
//
// A caller's proof, where a channel's room is asked of the past with the packets begun:
//
//     room_behind past sent sendings channel : room (sent ++ past) channel ≡ room past channel
#![tactic(auto)]

ghost use Rattle.std.specs.Prelude.{◌≡◌, ◌≤◌, ◌<◌, ◌++◌, ℕ, List, filter_map};
ghost use Rattle.protocol_model.specs.Limits.{unresolved_limit};
ghost use Rattle.protocol_model.specs.Payload.{Message};
ghost use Rattle.protocol_model.specs.Sight.{Seen};
ghost use Rattle.protocol_model.specs.declared.Version.{Version};
ghost use Rattle.connection_model.specs.Bunches.{has_arrived, span, room, after_making};
ghost use Rattle.connection_model.specs.CallAnswers.{waiting_of};
ghost use Rattle.connection_model.specs.Fates.{head_of, unresolved_count};
ghost use Rattle.connection_model.specs.Feed.{End, Past, Item};
ghost use Rattle.connection_model.specs.Items.{due_items, call_item, first_items};
ghost use Rattle.connection_model.specs.Pack.{Packing, after_offer};
ghost use Rattle.connection_model.specs.State.{state_of, index_of, free_index};
ghost use Rattle.packing_laws.specs.Sendings.{AreSendings};
ghost use Rattle.packing_laws.specs.Beginning.{beginning, begun, ticked, nothing_packed, after_offers};

/// Packets that carry no bunch that has arrived change nothing that a tick asks of its past.
pub fn sendings_change_nothing()
    ensures arrived { (past sent : Past) (ch n : ℕ) → AreSendings past sent
        → has_arrived (sent ++ past) ch n ≡ has_arrived past ch n }
    ensures span { (past sent : Past) (ch : ℕ) → AreSendings past sent
        → span (sent ++ past) ch ≡ span past ch }
    ensures room { (past sent : Past) (ch : ℕ) → AreSendings past sent
        → room (sent ++ past) ch ≡ room past ch }
    ensures state { (past sent : Past) (a : ℕ) → AreSendings past sent
        → state_of (sent ++ past) a ≡ state_of past a }
    ensures index { (past sent : Past) (a : ℕ) → AreSendings past sent
        → index_of (sent ++ past) a ≡ index_of past a }
    ensures free { (past sent : Past) → AreSendings past sent
        → free_index (sent ++ past) ≡ free_index past }
    ensures head { (v : Version) (past sent : Past) → AreSendings past sent
        → head_of v (sent ++ past) ≡ head_of v past }
{}

/// An offer asks of its past no more than its head and how many packets are open.
pub fn offer_asks_little()
    ensures { (end : End) (p : Packing) (past : Past) (item : Item)
        → head_of end.version past ≡ head_of end.version p.past
        → unresolved_count past ≡ unresolved_count p.past
        → after_offer end (record p { past = past }) item
        ≡ record (after_offer end p item) { past = past } }
{}

/// All acknowledgements owed stand in one packet, the first.
pub fn beginning_is()
    ensures { (end : End) (past : Past) (sight : List Seen) → 1 ≤ end.budget
        → unresolved_count past < unresolved_limit
        → beginning end past sight ≡ begun end past sight }
{}

/// Bunches made while a tick packs change no head and no count of open packets, and so no offer.
pub fn making_changes_no_offer()
    ensures head { (v : Version) (past : Past) (ch : ℕ) (message : Message)
        → head_of v (after_making past ch message) ≡ head_of v past }
    ensures open_packets { (past : Past) (ch : ℕ) (message : Message)
        → unresolved_count (after_making past ch message) ≡ unresolved_count past }
    ensures offers { (end : End) (before now : Past) (sight : List Seen)
        → head_of end.version now ≡ head_of end.version (ticked before sight)
        → unresolved_count now ≡ unresolved_count (ticked before sight)
        → after_offers end (nothing_packed now) (first_items end before now)
        ≡ after_offers end (record (beginning end before sight) { past = now })
        (due_items now ++ filter_map (call_item end.side now) (waiting_of before)) }
{}
