// Laws of bunches that are received: what a bunch does is what its whole payloads do, read one by
// one.
//
// The definitions of receiving read each payload as soon as it is whole. An end that is built in
// layers doesn't: its channels make whole payloads of a bunch, by numbers and parts alone, and the
// layer above reads them. These laws say that it comes to the same:
//
//     bunch --numbers, parts--> whole payloads --read one by one--> the past after it, or a cause
//        \___________________ the definition of receiving ____________________/
//
// A crate above cites a law by its lemma in `proofs/`, at a past of its own:
//
//     use Rattle.receiving_laws.proofs.Reading.{heard_is_read}
//
// It stands on `connection_model`, whose definitions it speaks of, and has no code: each law is the
// contract of a function that does nothing, and `specs/` has whole payloads before they are read.
// Here are the laws of a server, where no payload opens or closes a channel; those of a client need
// more of its past and stand above.
#![tactic(auto)]

pub mod bunches;
