// Laws of turns: a tick by steps, as an end with records of its actors takes them.
//
//     closes of actors --> acknowledgements, --> a turn for each actor that --> packets
//     that aren't closed   due bunches, calls    has something to send, by score
//
// A tick is defined over every actor that was ever opened and over every relevant one: a close of
// each where one is called for, and then of each by score its open or its update. Most of them have
// nothing to close and nothing to send. An end that looks at those alone, and asks of each before
// the first turn what it is to do in its own, does the same.
//
// It stands on `connection_model`, whose definitions it speaks of, on `packing_laws` for what is
// packed first, and on `sight_laws` for what a sight is. It has no code: each law is the contract
// of a function that does nothing, and `specs/` has the words that a law is stated in.
//
// It promises that the closes of a tick are those of the actors that aren't closed (`closes`), that
// score and guid put all actors into one order and that sorting those with a turn gives the order
// that they have among all (`order`), that turns do what is defined over all relevant actors,
// though earlier ones have made opens by then (`turns`), and that a tick is these steps (`steps`).
// The tick's sight ascends by actor, and none in it is both destroyed and relevant.
//
// It doesn't say how an end finds the actors that have a turn.
//
// A crate above cites a law by its lemma in `proofs/`, at a past of its own:
//
//     use Rattle.turn_laws.proofs.Stepping.{full_stays}
//
//     -- after a turn that found no room the rest may be left out
//     rest_passed : (end : End) (now : Past) (p : Packing) (rest : List Seen) → p.full ≡ true
//         → after_turns end now p rest ≡ p
//     rest_passed end now p rest full = full_stays end now p rest full
#![tactic(auto)]

pub mod closes;
pub mod order;
pub mod steps;
pub mod turns;
