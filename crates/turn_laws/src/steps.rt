// A tick as its steps.
ghost use Rattle.std.specs.Prelude.{◌≡◌, ◌≤◌, ◌<◌, List, false};
ghost use Rattle.std.specs.List.{fold};
ghost use Rattle.protocol_model.specs.Limits.{unresolved_limit};
ghost use Rattle.protocol_model.specs.Sight.{Seen};
ghost use Rattle.connection_model.specs.Fates.{unresolved_count};
ghost use Rattle.connection_model.specs.Feed.{End, Past, has_ended, sight_of};
ghost use Rattle.connection_model.specs.Items.{first_items};
ghost use Rattle.connection_model.specs.Pack.{after_offer, after_packing, after_tick};
ghost use Rattle.packing_laws.specs.Beginning.{nothing_packed};
ghost use Rattle.sight_laws.specs.Sights.{IsSight};
ghost use Rattle.turn_laws.specs.Turns.{after_turns, before_turns, closed_up, turns_of};

/// The closes of a tick leave its sight. What is packed before the first turn are the
/// acknowledgements in one packet, then due bunches, then calls. A live end's tick is the closes,
/// these, the turns, and the packets.
pub fn ticks_go_by_steps()
    ensures sight { (past : Past) (sight : List Seen) → sight_of (closed_up past sight) ≡ sight }
    ensures first { (end : End) (past : Past) (sight : List Seen) → 1 ≤ end.budget
        → unresolved_count past < unresolved_limit
        → fold (after_offer end) (nothing_packed (closed_up past sight))
        (first_items end past (closed_up past sight))
        ≡ before_turns end past sight }
    ensures tick { (end : End) (past : Past) (sight : List Seen) → has_ended past ≡ false
        → IsSight sight → 1 ≤ end.budget → unresolved_count past < unresolved_limit
        → after_tick end past sight
        ≡ after_packing end past
        (after_turns end (closed_up past sight) (before_turns end past sight)
        (turns_of (closed_up past sight))) }
{}
