// Laws of sights: what a sight may leave out when it is handed to a sender, and that no byte of
// what the sender sends changes by it.
//
//     world --> sight shown -- minus: values of quiet actors, entries of destroyed actors
//                   |                 of which nothing is left to close --> sight given
//                   v                                                           v
//          past after a tick  ---- the same but for the sights that it notes ---- past
//                   \______________ packets, answers, verdicts: the same _______/
//
// A tick is defined over all that a player sees. Of an actor that sleeps and wasn't flushed no
// value is ever looked at, and a destroyed actor stays in every later sight though its channel is
// long gone: a server that read and carried those would pay for each actor there ever was. So a
// sender is handed a sight that leaves them out (`Shows`), and what it sends is proved for the
// whole one.
//
// It stands on `connection_model`, whose pasts and ticks it speaks of, and on the laws of a
// connection. It has no code: each law is the contract of a function that does nothing, and
// `specs/` has the words that a law is stated in.
//
// It promises, for every end and all pasts that are the same but for such sights
// (`SameButSights`): a tick given either sight, a datagram and a call keep them so (`ticks`,
// `hearing`), they sent the same packets, and all that a tick, a call or a datagram asks of one is
// what it asks of the other (`asks`). An end that is given such sights all along sends byte for
// byte what one sends that is given whole ones (`feeds_send_the_same`). The whole sight ascends by
// actor, and none in it is both destroyed and relevant, as in every sight of a world (`sights`).
//
// It doesn't say that a sender may leave out anything else, such as an actor that is relevant and
// has nothing to send, nor which sights a server makes.
//
// A crate above proves its tick for the sight that it was given, and goes over to the whole one:
//
//     let same = tick_same end past past shown given (same_self past) order shows in
//     states_same (after_tick end past shown) (after_tick end past given) same.done actor
#![tactic(auto)]

pub mod asks;
pub mod hearing;
pub mod sights;
pub mod ticks;
