// A packet that is taken, from the past before it to the past after it, news by news.
ghost use Rattle.std.specs.Prelude.{◌≡◌, ◌++◌, ◌∷◌, ℕ, List, [], reverse};
ghost use Rattle.protocol_model.specs.Packet.{Bunch};
ghost use Rattle.connection_model.specs.Feed.{Past, Took, Entry, Delivered};
ghost use Rattle.connection_model.specs.Copies.{delivered_of};
ghost use Rattle.connection_model.specs.CallAnswers.{waiting_of};
ghost use Rattle.connection_model.specs.Verdict.{after_entries};
ghost use Rattle.channel_laws.specs.Moves.{IsMove, SameNews};
ghost use Rattle.channel_laws.specs.Alike.{Alike, SameHeard};
ghost use Rattle.link_end.specs.News.{news_of, bad_of};
ghost use Rattle.sender_laws.specs.Acts.{IsAlike};
ghost use Rattle.hearing_laws.specs.Courses.{Taking, during, heard_then, Leads, handed_since};

/// The news of a packet's entries, and its bad acknowledgement where it has one, lead to the past
/// after the packet. Each bunch is heard by an end whose parts stand for a past with the same news.
pub fn packets_go_by_news()
    ensures { (k : Taking) (entries : List Entry) → k.told ≡ reverse entries
        → Leads k (news_of (during k [] []) entries) (bad_of (during k [] []) entries)
        (during k [] []) (after_entries k.end (during k [] []) entries) }
{}

/// A packet that is taken is seen by no part of an end before its entries.
pub fn taken_is_unseen()
    ensures acts { (past : Past) (n : ℕ) → IsAlike past (Took n [] [] ∷ past) }
    ensures bunches { (past : Past) (n : ℕ) → Alike past (Took n [] [] ∷ past) }
    ensures heard { (past : Past) (n : ℕ) → SameHeard past (Took n [] [] ∷ past) }
    ensures waiting { (past : Past) (n : ℕ) → waiting_of (Took n [] [] ∷ past) ≡ waiting_of past }
{}

/// Pasts with the same news have the same acts, and the same calls wait.
pub fn news_are_unseen()
    ensures acts { (one other : Past) → SameNews one other → IsAlike one other }
    ensures waiting { (one other : Past) → SameNews one other
        → waiting_of other ≡ waiting_of one }
    ensures handed { (one other : Past) → SameNews one other
        → delivered_of other ≡ delivered_of one }
{}

/// A move hands nothing on, and lets no call wait.
pub fn moves_are_unseen()
    ensures waiting { (from to : ℕ) (past after : Past) → IsMove from to past after
        → waiting_of after ≡ waiting_of past }
    ensures handed { (from to : ℕ) (past after : Past) → IsMove from to past after
        → delivered_of after ≡ delivered_of past }
{}

/// A bunch tells no entry by itself, and hands payloads on behind those handed on before.
pub fn bunches_hand_on()
    ensures { (k : Taking) (entries : List Entry) (handed : List Delivered) (b : Bunch)
        → (more : List Delivered)
        × ((heard_then k entries handed b).past ≡ during k entries (more ++ handed)) }
{}

/// The payloads that a packet handed on are those of its deed.
pub fn payloads_of_a_packet()
    ensures { (k : Taking) (entries : List Entry) (handed : List Delivered)
        → handed_since k.before (during k entries handed) ≡ reverse handed }
{}
