// The order of turns.
ghost use Rattle.std.specs.Prelude.{◌≡◌, ◌≢◌, ℕ, List, map, filter, true, false};
ghost use Rattle.std.specs.List.Sorted.{IsPermutation, IsSortedBy};
ghost use Rattle.std.specs.Cmp.{IsStrictWeakOrder};
ghost use Rattle.protocol_model.specs.Sight.{Seen};
ghost use Rattle.connection_model.specs.Feed.{Past, sight_of};
ghost use Rattle.connection_model.specs.Items.{goes_before, actors_by_score};
ghost use Rattle.sight_laws.specs.Sights.{IsSight};
ghost use Rattle.turn_laws.specs.Turns.{has_turn, scored_turns, turns_of};

/// The greater score goes first, and of two that are alike the lower guid: of two actors one goes
/// before the other.
pub fn score_orders_actors()
    ensures order { IsStrictWeakOrder goes_before }
    ensures decided { (one other : ℕ × Seen) → other.1.actor ≢ one.1.actor
        → goes_before other one ≡ false → goes_before one other ≡ true }
{}

/// However the actors with a turn are sorted by score, they stand as they do among all relevant
/// actors.
pub fn turns_are_sorted()
    ensures left_out { (past : Past)
        → filter (has_turn past) (actors_by_score past) ≡ turns_of past }
    ensures sorted { (past : Past) (turns : List (ℕ × Seen)) → IsSight (sight_of past)
        → IsPermutation (scored_turns past) turns → IsSortedBy goes_before turns
        → map (λ (scored : ℕ × Seen). scored.1) turns ≡ turns_of past }
{}
