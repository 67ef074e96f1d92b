// What a link doesn't see: bunches made, calls that wait, payloads handed on, and the end's death;
// and that a bunch has room whatever its number is.
ghost use Rattle.std.specs.Prelude.{◌≡◌, ◌<◌, ℕ, List, ◌∷◌, true};
ghost use Rattle.protocol_model.specs.Limits.{sequence_modulus};
ghost use Rattle.protocol_model.specs.declared.Version.{Version as VersionSpec};
ghost use Rattle.protocol_model.specs.Packet.{Bunch as BunchSpec, Sends};
ghost use Rattle.protocol_model.specs.Payload.{Message};
ghost use Rattle.connection_model.specs.Feed.{End, Past, Deed, Item, Ending};
ghost use Rattle.connection_model.specs.Pack.{Packing, has_room, rec_of};
ghost use Rattle.link_end.specs.Link.{Link};
ghost use Rattle.connection_model.specs.Bunches.{after_making};
ghost use Rattle.link_end.specs.Rests.{Rests};
ghost use Rattle.link_end.specs.Packs.{Packs};
ghost use Rattle.link_end.specs.Begun.{IsPackable};
ghost use Rattle.protocol_model.specs.Side.{Side};
ghost use Rattle.protocol_model.specs.Value.{Arg};
ghost use Rattle.connection_model.specs.Past.{sent_bytes};
ghost use Rattle.connection_model.specs.Verdict.{after_got};
ghost use Rattle.connection_model.specs.CallAnswers.{after_call};

use ack_book::laws;

/// A link is right about the same past with a reliable bunch made.
pub fn made_is_unseen()
    ensures { (l : Link) (end : End) (past : Past) (channel number : ℕ) (message : Message) (i : ℕ)
        → Rests l end past → Rests l end (Deed.Made channel number message i ∷ past) }
{
    laws::made_is_unseen();
}

/// In a tick, a link is right about the same packets with a reliable bunch made before them.
pub fn made_is_unseen_in_tick()
    ensures { (l : Link) (end : End) (before : Past) (p : Packing) (channel number : ℕ)
        (message : Message) (i : ℕ)
        → Packs l end before p
        → Packs l end before (record p { past = Deed.Made channel number message i ∷ p.past }) }
{}

/// And with a whole message made.
pub fn making_is_unseen_in_tick()
    ensures { (l : Link) (end : End) (before : Past) (p : Packing) (channel : ℕ) (message : Message)
        → Packs l end before p
        → Packs l end before (record p { past = after_making p.past channel message }) }
{}

/// A link is right about the same past with a call that waits.
pub fn waiting_is_unseen()
    ensures { (l : Link) (end : End) (past : Past) (message : Message)
        → Rests l end past → Rests l end (Deed.Waits message ∷ past) }
{
    laws::waiting_is_unseen();
}

/// A link is right about the same past once the end is dead.
pub fn ending_is_unseen()
    ensures { (l : Link) (end : End) (past : Past) (ending : Ending)
        → Rests l end past → Rests l end (Deed.Ended ending ∷ past) }
{
    laws::ending_is_unseen();
}

/// Only a tick sends: a datagram and a call add no packet.
pub fn only_ticks_send()
    ensures got { (end : End) (past : Past) (bytes : List ℕ)
        → sent_bytes end (after_got end past bytes) ≡ sent_bytes end past }
    ensures called { (end : End) (side : Side) (past : Past) (actor number : ℕ) (args : List Arg)
        → sent_bytes end (after_call side past actor number args) ≡ sent_bytes end past }
{}

/// Whether a bunch has room doesn't depend on its number, so that it can be asked before the bunch
/// is made.
pub fn a_number_takes_no_room()
    ensures packable { (v : VersionSpec) (b : BunchSpec) (number : ℕ) → b.reliable ≡ true
        → number < sequence_modulus
        → IsPackable v (Sends b) → IsPackable v (Sends (record b { seq = number })) }
    ensures room { (end : End) (p : Packing) (one other : Item) (b : BunchSpec) (number : ℕ)
        → rec_of one ≡ Sends b → rec_of other ≡ Sends (record b { seq = number })
        → has_room end p one ≡ has_room end p other }
{}
