// Laws of a packet that is taken, entry by entry: which single moves of fates lead from the past
// before an entry to the past after it.
//
// An acknowledgement, and the more so a head of version two, tells of several packets at once. Whoever
// follows fates goes packet by packet: a move tells that one packet arrived, and that those between it
// and the one that moved before are lost. These laws say that the steps end where the entry does:
//
//     past --Moves 3 4--> --Moves 4 7--> .. --Moves 7 9--> past that was told the entry
//
// And of a packet as a whole (`packets`): its news one after another, moves and bunches, lead from the
// past before it to the past after it, up to the first rule that is broken.
//
// It stands on `connection_model`, whose definitions it speaks of, on the moves of `channel_laws` and
// the news of `link_end`, and on `connection_laws`, `protocol_laws` and `sender_laws` for lemmas. Each
// function does nothing, and its contract is the law. It knows no code.
//
// A caller's proof, of an entry:
//
//     entry_leads n es hs before entry heard (moved_near (Took n es hs ∷ before) entry)
#![tactic(auto)]

ghost use Rattle.std.specs.Prelude.{◌≡◌, ℕ, List, ◌∷◌, ◌++◌, reverse, false};
ghost use Rattle.connection_model.specs.Feed.{End, Past, Took, Entry, Delivered};
ghost use Rattle.connection_model.specs.Fates.{high_of, moved_of};
ghost use Rattle.connection_model.specs.Verdict.{with_told, after_got};
ghost use Rattle.channel_laws.specs.Moves.{is_heard, but_fates};
ghost use Rattle.link_end.specs.News.{moves_from, news_in};
ghost use Rattle.sender_laws.specs.Acts.{acts};
ghost use Rattle.hearing_laws.specs.Chains.{Chain, AreNear, moved_in};

pub mod packets;
pub mod plain;

/// Where these numbers move, each within half of the numbers above the one before, single moves lead
/// from the past before to each past in which they moved and nothing else was done.
pub fn moves_lead_on()
    ensures { (n : ℕ) (es : List Entry) (hs : List Delivered) (before : Past) (ns : List ℕ)
        (later : Past)
        → AreNear (high_of (Took n es hs ∷ before)) ns
        → moved_of later ≡ reverse ns ++ moved_of (Took n es hs ∷ before)
        → but_fates later ≡ but_fates (Took n es hs ∷ before)
        → Chain (moves_from (high_of (Took n es hs ∷ before)) ns) (Took n es hs ∷ before) later }
{}

/// The moves that an acknowledgement or a head tells lead from the past before it to the past that
/// was told it.
pub fn entry_leads_on()
    ensures { (n : ℕ) (es : List Entry) (hs : List Delivered) (before : Past) (entry : Entry)
        → is_heard entry ≡ false
        → AreNear (high_of (Took n es hs ∷ before)) (moved_in (Took n es hs ∷ before) entry)
        → Chain (news_in (high_of (Took n es hs ∷ before)) entry) (Took n es hs ∷ before)
        (with_told entry (Took n es hs ∷ before)) }
{}

/// The numbers that an entry moves are near: a number that travels is told from half of all others
/// above the greatest moved.
pub fn moved_numbers_are_near()
    ensures { (past : Past) (entry : Entry) → AreNear (high_of past) (moved_in past entry) }
{}

/// A datagram makes nothing and sends nothing: ticks, bunches made and packets sent stay.
pub fn datagrams_do_nothing()
    ensures { (end : End) (past : Past) (bytes : List ℕ) → acts (after_got end past bytes)
        ≡ acts past }
{}
