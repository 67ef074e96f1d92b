// Laws of bunches that a client receives: what a bunch does there is what its whole payloads do,
// read one by one.
//
// At a client an open makes a copy that holds the channel and a close takes it away, so the next
// payload of the same bunch run may be heard or refused by what was read before it. The channels
// don't read: they go by the flags of the first bunch of each payload.
//
//     flags of its bunches --> a copy holds the channel, or none
//     payloads read ---------> a copy holds the channel, or none      the same: `Agrees`
//
// It stands on `receiving_laws` for whole payloads before they are read, on `connection_laws` and on
// `payload_laws`, and has no code: each law is the contract of a function that does nothing. `Holds`
// is what the laws need of a client's past, and each entry keeps: copies and flags agree on who
// holds a channel, no two copies hold one, and a payload under way may go on. A crate above cites a
// law by its lemma in `proofs/`:
//
//     use Rattle.client_laws.proofs.Heard.{heard_is_read}
//
// That a datagram's bunches are proper (`IsProper`) is what its decoding promises.
#![tactic(auto)]

pub mod bunches;
