// What an end asks of its past, where pasts are the same but for their sights.
ghost use Rattle.std.specs.Prelude.{◌≡◌, ℕ};
ghost use Rattle.protocol_model.specs.Value.{Class};
ghost use Rattle.protocol_model.specs.Sight.{Seen};
ghost use Rattle.protocol_model.specs.declared.Version.{Version};
ghost use Rattle.connection_model.specs.Feed.{Past, has_ended, tick_count};
ghost use Rattle.connection_model.specs.Fates.{fate_of, head_of, last_sent, moved_of, owed_of};
ghost use Rattle.connection_model.specs.Bunches.{has_arrived, made_count, room, span};
ghost use Rattle.connection_model.specs.State.{state_of, index_of, free_index, opened_class};
ghost use Rattle.connection_model.specs.Carry.{carry_of, due_pairs};
ghost use Rattle.connection_model.specs.Exports.{is_known, needed_segments};
ghost use Rattle.connection_model.specs.Items.{due_items, first_sight, kept_flush, last_service, score_of};
ghost use Rattle.connection_model.specs.Settled.{is_settled_as};
ghost use Rattle.connection_model.specs.CallAnswers.{is_seen_owned, waiting_of};
ghost use Rattle.connection_model.specs.Pack.{idle_ticks};
ghost use Rattle.sight_laws.specs.Differing.{SameButSights};

/// Numbers of packets, fates and heads are the same.
pub fn packets_are_the_same()
    ensures ended { (past other : Past) → SameButSights past other
        → has_ended other ≡ has_ended past }
    ensures last { (past other : Past) → SameButSights past other
        → last_sent other ≡ last_sent past }
    ensures moved { (past other : Past) → SameButSights past other
        → moved_of other ≡ moved_of past }
    ensures fate { (past other : Past) (packet : ℕ) → SameButSights past other
        → fate_of other packet ≡ fate_of past packet }
    ensures owed { (past other : Past) (v : Version) → SameButSights past other
        → owed_of v other ≡ owed_of v past }
    ensures head { (past other : Past) (v : Version) → SameButSights past other
        → head_of v other ≡ head_of v past }
{}

/// The bunches made are the same, and so are those that have arrived and those that are due.
pub fn bunches_are_the_same()
    ensures count { (past other : Past) (ch : ℕ) → SameButSights past other
        → made_count other ch ≡ made_count past ch }
    ensures arrived { (past other : Past) (ch n : ℕ) → SameButSights past other
        → has_arrived other ch n ≡ has_arrived past ch n }
    ensures span { (past other : Past) (ch : ℕ) → SameButSights past other
        → span other ch ≡ span past ch }
    ensures room { (past other : Past) (ch : ℕ) → SameButSights past other
        → room other ch ≡ room past ch }
    ensures due { (past other : Past) → SameButSights past other
        → due_items other ≡ due_items past }
    ensures waiting { (past other : Past) → SameButSights past other
        → waiting_of other ≡ waiting_of past }
{}

/// Each actor has the same state, index, class and flush number, and the same is known to be owned;
/// an open would take the same index and export the same segments.
pub fn channels_are_the_same()
    ensures state { (past other : Past) (a : ℕ) → SameButSights past other
        → state_of other a ≡ state_of past a }
    ensures index { (past other : Past) (a : ℕ) → SameButSights past other
        → index_of other a ≡ index_of past a }
    ensures class { (past other : Past) (a : ℕ) → SameButSights past other
        → opened_class other a ≡ opened_class past a }
    ensures flush { (past other : Past) (a : ℕ) → SameButSights past other
        → kept_flush other a ≡ kept_flush past a }
    ensures owned { (past other : Past) (a : ℕ) → SameButSights past other
        → is_seen_owned other a ≡ is_seen_owned past a }
    ensures free { (past other : Past) → SameButSights past other
        → free_index other ≡ free_index past }
    ensures needed { (past other : Past) (class : Class) → SameButSights past other
        → needed_segments other class ≡ needed_segments past class }
    ensures known { (past other : Past) (guid : ℕ) → SameButSights past other
        → is_known other guid ≡ is_known past guid }
{}

/// Each handle has the same carry; of an entry the same handles are due, it has the same score, and
/// it is settled at both or at none.
pub fn actors_are_the_same()
    ensures carry { (past other : Past) (a h : ℕ) → SameButSights past other
        → carry_of other a h ≡ carry_of past a h }
    ensures due { (past other : Past) (seen : Seen) → SameButSights past other
        → due_pairs other seen ≡ due_pairs past seen }
    ensures settled { (past other : Past) (seen : Seen) → SameButSights past other
        → is_settled_as other seen ≡ is_settled_as past seen }
    ensures ticks { (past other : Past) → SameButSights past other
        → tick_count other ≡ tick_count past }
    ensures idle { (past other : Past) (a : ℕ) → SameButSights past other
        → idle_ticks other a ≡ idle_ticks past a }
    ensures first { (past other : Past) (a : ℕ) → SameButSights past other
        → first_sight other a ≡ first_sight past a }
    ensures service { (past other : Past) (a : ℕ) → SameButSights past other
        → last_service other a ≡ last_service past a }
    ensures score { (past other : Past) (seen : Seen) → SameButSights past other
        → score_of other seen ≡ score_of past seen }
{}
