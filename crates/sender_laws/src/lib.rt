// Laws of what a sender of actors keeps: what each deed of an end changes of it, and what it leaves
// alone, whatever the end did before.
//
//     deed               state, index   carries, service   idle ticks   segments known   fates
//     a tick begins            .                .            changes          .            .
//     a message is made     changes          changes            .             .            .
//     a packet is sent         .             changes            .             .            .
//     a packet arrived      changes             .               .          changes      changes
//     anything else            .                .               .             .            .
//
// It stands on `connection_model`, whose pasts and words it speaks of, on `change_model` for
// sampled values, and on `connection_laws`. It has no code: each law is the contract of a function
// that does nothing, and `specs/` has the words that a law is stated in.
//
// It promises that all that a sender keeps follows from ticks, messages made, packets sent and
// packets that arrived (`IsAlike`, `MovesTo`), that a carried handle is told by the open and the
// updates of its actor, that the state of an actor with an open or a close under way follows from
// the span of its index alone, and that a value of which no change is noted since a tick is the
// value of that tick. It asks of no past that a feed led to it: the middle of a tick is a past like
// any other. It doesn't say which packets an end sends.
//
// A crate above cites a law by its lemma in `proofs/`, at a past of its own:
//
//     use Rattle.sender_laws.proofs.Arriving.{close_by_span}
//
//     -- a dormant close sleeps once nothing is outstanding on its index
//     sleeps : (past : Past) (a : ℕ) (mark : Mark) → last_mark past a ≡ Some mark
//         → is_closing mark.message ≡ true → is_sleeping mark.message ≡ true → IsLast past mark
//         → span past mark.channel ≡ 0 → state_of past a ≡ Asleep
#![tactic(auto)]

pub mod deeds;
pub mod states;
pub mod values;
