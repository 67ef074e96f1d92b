// Laws of live runs: turns that are taken step by step do what the definitions say of whole lists.
//
//     heard:   datagram, datagram, Quiet │ datagram, .. │ ..      what an end hears, as it comes
//              a turn's part             │ the next one's
//     turns:   after_server_turn         │ after_server_turn
//
// The definitions of a live run take all that an end hears as one list, of which each turn hears its
// part. A program hears one thing after another and doesn't know what comes. These laws say that it
// needn't: where a turn's part ends is seen as it comes, what a turn does is decided by its part alone,
// and what follows the part is left for the next turn. A run that is cut short did a front of what it
// would do if nothing more came.
//
// It stands on `live_model` alone. It has no code: each law is the contract of a function that does
// nothing.
//
// A proof above cites the lemma that answers a law. A server's turn whose part is whole, with the turns
// after it:
//
//     use Rattle.live_laws.proofs.ServerTurns.{turns_leave}
//
//     on = turns_leave table digest turns part more server acts is_whole
#![tactic(auto)]

pub mod ends;
pub mod turns;
