// How a tick begins and ends, and what its packets leave as it was.
ghost use Rattle.std.specs.Prelude.{◌≡◌, ◌<◌, ◌≤◌, ℕ, List, false};
ghost use Rattle.protocol_model.specs.Limits.{unresolved_limit};
ghost use Rattle.protocol_model.specs.Side.{Side};
ghost use Rattle.protocol_model.specs.Sight.{Seen};
ghost use Rattle.connection_model.specs.Bunches.{made_count, has_arrived, room};
ghost use Rattle.connection_model.specs.State.{state_of, index_of, free_index};
ghost use Rattle.connection_model.specs.Feed.{End, Past};
ghost use Rattle.connection_model.specs.Fates.{unresolved_count};
ghost use Rattle.connection_model.specs.Pack.{Packing, after_packing};
ghost use Rattle.link_end.specs.Link.{Link};
ghost use Rattle.link_end.specs.Packs.{Packs, sent_now};
ghost use Rattle.link_end.specs.Answers.{beginning};
ghost use Rattle.channel_table.specs.Channels.{Channels};
ghost use Rattle.channel_table.specs.Keeps.{Keeps};
ghost use Rattle.bunch_packing.specs.Both.{PacksBoth, NonePacked, IsLow};

/// A link that has begun a tick, and channels that rest, stand for what a tick packs as it begins,
/// with no bunch that was made, and room for more.
pub fn ticks_begin()
    ensures both { (l : Link) (t : Channels) (end : End) (side : Side) (past : Past)
        (sight : List Seen)
        → Packs l end past (beginning end past sight) → Keeps t side past → IsLow end.version past
        → PacksBoth l t end side past (beginning end past sight) }
    ensures none { (end : End) (past : Past) (sight : List Seen)
        → NonePacked (beginning end past sight) }
    ensures ready { (end : End) (past : Past) (sight : List Seen) → 1 ≤ end.budget
        → unresolved_count past < unresolved_limit → (beginning end past sight).full ≡ false }
{}

/// Once a tick has ended, the channels are right about its packets, and it has made nothing.
pub fn ticks_end()
    ensures keeps { (l : Link) (t : Channels) (end : End) (side : Side) (before : Past)
        (p : Packing)
        → PacksBoth l t end side before p → Keeps t side (after_packing end before p) }
    ensures count { (end : End) (before : Past) (p : Packing) (ch : ℕ)
        → made_count (after_packing end before p) ch ≡ made_count p.past ch }
{}

/// In the middle of a tick the past before its packets and the past with them tell the same of
/// room, of who holds which channel, and of the next free index.
pub fn packets_change_no_answer()
    ensures room { (l : Link) (t : Channels) (end : End) (side : Side) (before : Past)
        (p : Packing) (ch : ℕ) → PacksBoth l t end side before p
        → room (sent_now p) ch ≡ room p.past ch }
    ensures count { (p : Packing) (ch : ℕ) → made_count (sent_now p) ch ≡ made_count p.past ch }
    ensures arrived { (l : Link) (t : Channels) (end : End) (side : Side) (before : Past)
        (p : Packing) (ch n : ℕ) → PacksBoth l t end side before p
        → has_arrived (sent_now p) ch n ≡ has_arrived p.past ch n }
    ensures state { (l : Link) (t : Channels) (end : End) (side : Side) (before : Past)
        (p : Packing) (a : ℕ)
        → PacksBoth l t end side before p → state_of (sent_now p) a ≡ state_of p.past a }
    ensures index { (l : Link) (t : Channels) (end : End) (side : Side) (before : Past)
        (p : Packing) (a : ℕ)
        → PacksBoth l t end side before p → index_of (sent_now p) a ≡ index_of p.past a }
    ensures free { (l : Link) (t : Channels) (end : End) (side : Side) (before : Past)
        (p : Packing) → PacksBoth l t end side before p
        → free_index (sent_now p) ≡ free_index p.past }
{}
