// The definitions of live runs: what a server and a client do in turns, from what the ends of a link
// hear.
//
//     heard on an end ── a turn's part ──▶ handshake, admitted players' feeds ──▶ acts, in order
//     acts ── sent_on, text_of ──▶ the datagrams sent on each end, and the lines written
//
// A datagram of the handshake ends in 0, which no packet does. It has definitions, laws about them
// and no code. It stands on the models of replication and of scripts, and on `sha1`'s meaning of a
// digest. `proofs/` computes short runs.
#![tactic(auto)]

ghost use Rattle.std.specs.Prelude.{◌≡◌, ◌<◌, ◌^◌, ℕ, [], List, length, true, Some, None};
ghost use Rattle.protocol_model.specs.declared.Version.{Version};
ghost use Rattle.live_model.specs.Outside.{Heard, part_within};
ghost use Rattle.live_model.specs.Handshake.{hello, welcome, failure, hello_in, is_welcome, failure_in, ends_in_zero};

/// A part of no datagrams is empty.
pub fn no_part()
    ensures { (heard : List Heard) → part_within 0 heard ≡ [] }
{}

/// What is spelled is read back: a Hello with its version, player and digest, a Welcome and a Failure
/// of the version that they are of.
pub fn handshakes_are_read_back()
    ensures hello { (version : Version) (player : ℕ) (digest : List ℕ) → length digest ≡ 20
        → player < 2 ^ 16 → hello_in (hello version player digest)
        ≡ Some (record { version = version; player = player; digest = digest }) }
    ensures welcome { (version : Version) (player : ℕ)
        → is_welcome version player (welcome version player) ≡ true }
    ensures failure { (version : Version) (code : ℕ)
        → failure_in version (failure version code) ≡ Some code }
{}

/// Each ends in 0, and so is no packet.
pub fn handshakes_end_in_zero()
    ensures hello { (version : Version) (player : ℕ) (digest : List ℕ) → length digest ≡ 20
        → ends_in_zero (hello version player digest) ≡ true }
    ensures welcome { (version : Version) (player : ℕ)
        → ends_in_zero (welcome version player) ≡ true }
    ensures failure { (version : Version) (code : ℕ)
        → ends_in_zero (failure version code) ≡ true }
{}

/// An answer is no Hello, and no Welcome is taken for a Failure.
pub fn answers_are_apart()
    ensures welcome { (version : Version) (player : ℕ)
        → hello_in (welcome version player) ≡ None }
    ensures failure { (version : Version) (code : ℕ) → hello_in (failure version code) ≡ None }
    ensures refused { (version : Version) (player : ℕ)
        → failure_in version (welcome version player) ≡ None }
{}
