// What holds of the past of one end, whatever it heard.
ghost use Rattle.std.specs.Prelude.{◌≡◌, ◌<◌, ◌∷◌, ℕ, List, false};
ghost use Rattle.protocol_model.specs.Limits.{unresolved_limit};
ghost use Rattle.protocol_model.specs.Side.{AtServer};
ghost use Rattle.connection_model.specs.Feed.{End, Event, Past, has_ended};
ghost use Rattle.connection_model.specs.Fates.{taken_of, unresolved_count};
ghost use Rattle.connection_model.specs.Past.{past_of};
ghost use Rattle.connection_laws.specs.Run.{IsRun};
ghost use Rattle.connection_laws.specs.Deeds.{DeedsFit};
ghost use Rattle.connection_laws.specs.Fates.{FatesFit};
ghost use Rattle.connection_laws.specs.Spans.{SpansFit};
ghost use Rattle.connection_laws.specs.Holding.{HoldsFit};
ghost use Rattle.connection_laws.specs.Taken.{Falls};
ghost use Rattle.connection_laws.specs.Acknowledged.{AcknowledgesTaken};
ghost use Rattle.connection_laws.specs.Delivered.{is_closed_by, HandsReceived};
ghost use Rattle.connection_laws.specs.InTurn.{BracketsFit};
ghost use Rattle.connection_laws.specs.SentStays.{SendsMore};

/// What an end does, whatever it hears, is a run; and while it is alive, a fate is free for its
/// next packet.
pub fn every_feed_runs()
    ensures run { (end : End) (feed : List Event) → IsRun end (past_of end feed) }
    ensures few { (end : End) (feed : List Event) → has_ended (past_of end feed) ≡ false
        → unresolved_count (past_of end feed) < unresolved_limit }
{}

/// Packets, ticks and the bunches of each index are numbered 1, 2, 3 and on; a packet carries what
/// was made and hasn't arrived; the parts of a message are made in a row.
pub fn deeds_fit()
    ensures { (end : End) (past : Past) → IsRun end past → DeedsFit end past }
{}

/// A packet that is known to have arrived was sent, a bunch that was carried was made, and at most
/// 4,096 packets have an open fate.
pub fn fates_fit()
    ensures { (end : End) (past : Past) → IsRun end past → FatesFit past }
{}

/// No index has a span above 256, and the sum of all spans isn't above 512.
pub fn spans_fit()
    ensures { (end : End) (past : Past) → IsRun end past → SpansFit past }
{}

/// An index has one holder at most, which was opened.
pub fn holds_fit()
    ensures { (end : End) (past : Past) → IsRun end past → HoldsFit past }
{}

/// The numbers of the packets taken ascend, from 1 on.
pub fn taken_ascend()
    ensures { (end : End) (past : Past) → IsRun end past → Falls (taken_of past) }
{}

/// A number that is acknowledged in version One was taken, and each is acknowledged once, in order.
pub fn acknowledged_once()
    ensures { (end : End) (past : Past) → IsRun end past → AcknowledgesTaken past }
{}

/// What an end hands on from each index is what it received whole there, read one by one, as long
/// as no datagram closed it.
pub fn hands_on_in_order()
    ensures { (end : End) (feed : List Event) → is_closed_by (past_of end feed) ≡ false
        → HandsReceived end (past_of end feed) }
{}

/// At a server each message of an index stands between its actor's open and close, one use of the
/// index after another.
pub fn index_used_in_turn()
    ensures { (end : End) (past : Past) → end.side ≡ AtServer → IsRun end past
        → BracketsFit past }
{}

/// A datagram that was sent stays as it was: an event adds to those sent, and changes none.
pub fn sent_stays()
    ensures { (end : End) (feed : List Event) (event : Event)
        → SendsMore end (past_of end feed) (past_of end (event ∷ feed)) }
{}
