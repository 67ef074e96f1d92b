// Laws of the protocol's definitions, for every crate that reads what another wrote.
//
// `protocol_model` says how numbers and packets are spelled, and what is read of bits and bytes. Here
// stands that the two belong to each other one to one, as contracts of functions that do nothing,
// and the lemmas from which that follows, for the crates above to cite.
//
//     number  --int_bits max-->         bits   --leading_int max-->   number, and the bits behind
//     packet  --spelling_of version-->  bytes  --packet_of version-->  packet
//
// It stands on `protocol_model` alone. It has no code, and promises nothing of any program.
//
// A caller that put `v` and then reads it cites the lemma behind `numbers::int_is_read_back`:
//
//     use Rattle.protocol_laws.proofs.IntLaws.{int-read}
//
//     returns c = int-read c.args.max c.args.value rest c.requires.below most
#![tactic(auto)]

pub mod bytes;
pub mod numbers;
pub mod packets;
