// Laws of what an end's past tells of its bunches, for a layer that keeps a part of the past and
// hears of it deed by deed.
//
//     made, sent, acknowledged  -->  past  -->  carrier of a bunch --> known, lost or arrived
//                                      |
//                    one deed more ----+--->  spans, room, due, held: which change, and how
//
// It stands on `connection_model`, whose pasts it speaks of, and on `connection_laws`. It has no
// code: each law is the contract of a function that does nothing, and `specs/` has the words that a
// law is stated in.
//
// It promises what each deed changes of the bunches made and of those received: a packet that moves
// (`fates`), a message that is made, a packet that is sent or carries one more bunch (`messages`).
// Its pasts are any lists of deeds, such as stand in the middle of a tick or of a packet, and not
// those of feeds alone. It doesn't say which deeds an end may do; that is `connection_laws`.
//
// A crate above cites a law by its lemma in `proofs/`, at a past of its own:
//
//     use Rattle.channel_laws.specs.Alike.{Alike}
//     use Rattle.channel_laws.proofs.Alike.{same_room, alike_ticked}
//
//     -- a tick gives no room
//     no_room_by_time : (past : Past) (t : ℕ) (sight : List Seen) (ch : ℕ)
//         → room (Ticked t sight ∷ past) ch ≡ room past ch
//     no_room_by_time past t sight ch =
//         same_room past (Ticked t sight ∷ past) (alike_ticked t sight past) ch
#![tactic(auto)]

pub mod fates;
pub mod messages;
