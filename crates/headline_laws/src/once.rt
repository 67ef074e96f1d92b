// Unreliable calls: each is sent no more often than it was queued, and handed over no more often.
ghost use Rattle.std.specs.Prelude.{◌≤◌, Bool, List};
ghost use Rattle.std.specs.List.{count_by};
ghost use Rattle.script_model.specs.Lines.{Line};
ghost use Rattle.connection_model.specs.Feed.{End, Event};
ghost use Rattle.connection_model.specs.Handed.{Asked};
ghost use Rattle.connection_model.specs.Past.{past_of};
ghost use Rattle.replication_model.specs.Story.{Player};
ghost use Rattle.table_model.specs.Rules.{Entry};
ghost use Rattle.table_model.specs.Grammar.{table_of};
ghost use Rattle.connection_laws.specs.Honest.{IsHonestPlayer};
ghost use Rattle.headline_laws.specs.Once.{loosely_queued, loosely_sent, HandsOverAtMost, HandsOverOnce};
ghost use Rattle.headline_laws.specs.Players.{ArePlayable};

/// Of the unreliable calls that pass any test an end sends no more than were queued, whatever it
/// hears, forged datagrams too.
pub fn unreliable_calls_are_sent_once()
    ensures { (end : End) (feed : List Event) (test : Asked → Bool)
        → count_by test (loosely_sent (past_of end feed))
        ≤ count_by test (loosely_queued (past_of end feed)) }
{}

/// Where nothing was forged an unreliable call is handed over once at most, in both directions: no
/// more pass any test than were queued, and those handed over are among those queued.
pub fn unreliable_calls_come_once()
    ensures counts { (entries : List Entry) (lines : List Line) (p : Player)
        → ArePlayable entries lines → IsHonestPlayer (table_of entries) lines p
        → HandsOverAtMost (table_of entries) p }
    ensures once { (entries : List Entry) (lines : List Line) (p : Player)
        → ArePlayable entries lines → IsHonestPlayer (table_of entries) lines p
        → HandsOverOnce (table_of entries) p }
{}
