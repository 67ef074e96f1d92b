// What is done in turns.
ghost use Rattle.std.specs.Prelude.{◌≡◌, ◌≢◌, ℕ, List, true};
ghost use Rattle.std.specs.List.{fold};
ghost use Rattle.protocol_model.specs.Value.{Segment};
ghost use Rattle.protocol_model.specs.Payload.{Opens};
ghost use Rattle.protocol_model.specs.Sight.{Seen};
ghost use Rattle.connection_model.specs.Feed.{End, Past, sight_of};
ghost use Rattle.connection_model.specs.Bunches.{after_making};
ghost use Rattle.connection_model.specs.Carry.{due_pairs};
ghost use Rattle.connection_model.specs.State.{state_of, index_of};
ghost use Rattle.connection_model.specs.Items.{actors_by_score, wants_open};
ghost use Rattle.connection_model.specs.Pack.{Packing, after_actor};
ghost use Rattle.sight_laws.specs.Sights.{IsSight};
ghost use Rattle.turn_laws.specs.Turns.{after_turns, turns_of};

/// The turns do what is defined over all relevant actors: the others have nothing to send, and what
/// each is to do stays as it was before the first turn.
pub fn turns_serve_all_actors()
    ensures { (end : End) (p : Packing) → IsSight (sight_of p.past)
        → fold (after_actor end) p (actors_by_score p.past)
        ≡ after_turns end p.past p (turns_of p.past) }
{}

/// Once an item found no room, no turn does anything.
pub fn turns_end_without_room()
    ensures { (end : End) (now : Past) (p : Packing) (turns : List Seen) → p.full ≡ true
        → after_turns end now p turns ≡ p }
{}

/// An open leaves the state and the index of every other actor, whether it wants an open, and which
/// of its handles are due.
pub fn opens_leave_other_actors()
    ensures state { (past : Past) (ch : ℕ) (exports : List Segment) (seen other : Seen)
        → seen.actor ≢ other.actor
        → state_of (after_making past ch (Opens exports seen.actor seen.class seen.values))
        other.actor
        ≡ state_of past other.actor }
    ensures index { (past : Past) (ch : ℕ) (exports : List Segment) (seen other : Seen)
        → seen.actor ≢ other.actor
        → index_of (after_making past ch (Opens exports seen.actor seen.class seen.values))
        other.actor
        ≡ index_of past other.actor }
    ensures wants { (past : Past) (ch : ℕ) (exports : List Segment) (seen other : Seen)
        → seen.actor ≢ other.actor
        → wants_open (after_making past ch (Opens exports seen.actor seen.class seen.values)) other
        ≡ wants_open past other }
    ensures due { (past : Past) (ch : ℕ) (exports : List Segment) (seen other : Seen)
        → seen.actor ≢ other.actor
        → due_pairs (after_making past ch (Opens exports seen.actor seen.class seen.values)) other
        ≡ due_pairs past other }
{}
