// Sights of worlds, and what may be given in their place.
ghost use Rattle.std.specs.Prelude.{◌≡◌, ℕ, List};
ghost use Rattle.protocol_model.specs.Value.{Table};
ghost use Rattle.protocol_model.specs.World.{Edits};
ghost use Rattle.protocol_model.specs.Sight.{Seen, sight, ShowsSame};
ghost use Rattle.connection_model.specs.Feed.{Past, is_relevant_in};
ghost use Rattle.connection_model.specs.Items.{is_quiet};
ghost use Rattle.sight_laws.specs.Sights.{Shows, IsSight};
ghost use Rattle.sight_laws.specs.Differing.{SameButSights};

/// What a player sees of a world ascends by actor, and has no actor that is both destroyed and
/// relevant.
pub fn worlds_show_sights()
    ensures { (table : Table) (edits : Edits) (player : ℕ) (earlier : List ℕ)
        → IsSight (sight table edits player earlier) }
{}

/// A sight may be given whole, and without the values of quiet actors alone. What is given is a
/// sight again, with the same actors as relevant; an end that went on with other sights judges
/// alike what may be left out.
pub fn sights_are_given()
    ensures whole { (past : Past) (shown : List Seen) → Shows past shown shown }
    ensures valueless { (past : Past) (shown given : List Seen)
        → ShowsSame (is_quiet past) shown given → Shows past shown given }
    ensures ascends { (past : Past) (shown given : List Seen) → IsSight shown
        → Shows past shown given → IsSight given }
    ensures relevant { (past : Past) (shown given : List Seen) (a : ℕ) → Shows past shown given
        → is_relevant_in given a ≡ is_relevant_in shown a }
    ensures judged { (past other : Past) (shown given : List Seen) → SameButSights past other
        → Shows other shown given → Shows past shown given }
{}
