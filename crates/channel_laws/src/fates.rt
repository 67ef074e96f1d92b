// What is known of packets, and what it tells of bunches.
ghost use Rattle.std.specs.Prelude.{◌≡◌, ℕ, true, false};
ghost use Rattle.connection_model.specs.Feed.{Past};
ghost use Rattle.connection_model.specs.Fates.{high_of};
ghost use Rattle.connection_model.specs.Bunches.{made_count, carrier_of, has_arrived, span, room, is_due};
ghost use Rattle.connection_model.specs.Windows.{held_count};
ghost use Rattle.channel_laws.specs.Known.{known, known_then, arrived_by, needed_by};
ghost use Rattle.channel_laws.specs.Moves.{IsMove, SameNews};
ghost use Rattle.channel_laws.specs.Alike.{SameHeard};

/// A bunch has arrived where the packet that carried it last is known to have, and is due where it
/// was never carried or that packet is known to be lost; so what has arrived isn't due.
pub fn known_packets_tell_bunches()
    ensures arrived { (past : Past) (ch n : ℕ)
        → has_arrived past ch n ≡ arrived_by (known past) (carrier_of past ch n) }
    ensures due { (past : Past) (ch n : ℕ)
        → is_due past ch n ≡ needed_by (known past) (carrier_of past ch n) }
    ensures once { (past : Past) (ch n : ℕ) → has_arrived past ch n ≡ true
        → is_due past ch n ≡ false }
{}

/// A move to a packet tells that it arrived, and that those before it of which nothing was known
/// are lost. It makes and carries no bunch.
pub fn moves_tell_fates()
    ensures high { (from to : ℕ) (past after : Past) → IsMove from to past after
        → high_of after ≡ to }
    ensures known { (from to packet : ℕ) (past after : Past) → IsMove from to past after
        → known after packet ≡ known_then to packet (known past packet) }
    ensures made { (from to ch : ℕ) (past after : Past) → IsMove from to past after
        → made_count after ch ≡ made_count past ch }
    ensures carriers { (from to ch n : ℕ) (past after : Past) → IsMove from to past after
        → carrier_of after ch n ≡ carrier_of past ch n }
{}

/// Acknowledgements that were spelled otherwise change no span, no room, nothing that is due and
/// nothing that was received.
pub fn news_keep_bunches()
    ensures span { (one other : Past) (ch : ℕ) → SameNews one other → span other ch ≡ span one ch }
    ensures room { (one other : Past) (ch : ℕ) → SameNews one other → room other ch ≡ room one ch }
    ensures due { (one other : Past) (ch n : ℕ) → SameNews one other
        → is_due other ch n ≡ is_due one ch n }
    ensures heard { (one other : Past) → SameNews one other → SameHeard one other }
    ensures held { (one other : Past) → SameNews one other → held_count other ≡ held_count one }
{}
