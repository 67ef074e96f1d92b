// A tick, and a whole feed, with either sight.
ghost use Rattle.std.specs.Prelude.{◌≡◌, List};
ghost use Rattle.protocol_model.specs.Sight.{Seen};
ghost use Rattle.connection_model.specs.Feed.{End, Event, Past};
ghost use Rattle.connection_model.specs.Pack.{after_tick};
ghost use Rattle.connection_model.specs.Past.{past_of, sent_bytes, out_of};
ghost use Rattle.sight_laws.specs.Sights.{Shows, IsSight};
ghost use Rattle.sight_laws.specs.Differing.{SameButSights, HandsLess};

/// A tick that is given what a sight may leave out sends what one sends that is given the sight,
/// and pasts that were the same but for their sights are so after it.
pub fn ticks_send_the_same()
    ensures keeps { (end : End) (past other : Past) (shown given : List Seen)
        → SameButSights past other → IsSight shown → Shows past shown given
        → SameButSights (after_tick end past shown) (after_tick end other given) }
    ensures sends { (end : End) (past : Past) (shown given : List Seen) → IsSight shown
        → Shows past shown given
        → sent_bytes end (after_tick end past given) ≡ sent_bytes end (after_tick end past shown) }
{}

/// Pasts that are the same but for their sights sent the same packets.
pub fn sights_stay_inside()
    ensures { (end : End) (past other : Past) → SameButSights past other
        → sent_bytes end other ≡ sent_bytes end past }
{}

/// An end that is given such sights all along sends byte for byte what one sends that is given
/// whole ones, whatever datagrams and calls come between.
pub fn feeds_send_the_same()
    ensures keeps { (end : End) (feed other : List Event) → HandsLess end feed other
        → SameButSights (past_of end feed) (past_of end other) }
    ensures sends { (end : End) (feed other : List Event) → HandsLess end feed other
        → out_of end other ≡ out_of end feed }
{}
