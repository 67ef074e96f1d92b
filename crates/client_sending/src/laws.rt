// What calls and ticks leave as it was.
ghost use Rattle.std.specs.Prelude.{◌≡◌, ℕ, List, [], false};
ghost use Rattle.protocol_model.specs.Side.{AtClient};
ghost use Rattle.protocol_model.specs.Value.{Arg};
ghost use Rattle.protocol_model.specs.declared.Version.{Version};
ghost use Rattle.connection_model.specs.CallAnswers.{after_call};
ghost use Rattle.connection_model.specs.Fates.{entries_of, top_of};
ghost use Rattle.connection_model.specs.Feed.{End, Past, has_ended};
ghost use Rattle.connection_model.specs.Pack.{after_tick};
ghost use Rattle.connection_model.specs.Verdict.{after_got};
ghost use Rattle.class_layout.specs.Tables.{Layout};
ghost use Rattle.actor_copies.specs.declared.copy.ActorCopy.{ActorCopy};
ghost use Rattle.actor_copies.specs.Stands.{Stands as StandCopies};
ghost use Rattle.client_sending.specs.Stands.{MaySend, OpensNone};

/// The copies stand for what was done before a call or a tick, and with it.
pub fn sending_changes_no_copy()
    ensures call { (layout : Layout) (copies : List ActorCopy) (past : Past) (actor number : ℕ)
        (args : List Arg)
        → StandCopies layout copies past
        → StandCopies layout copies (after_call AtClient past actor number args) }
    ensures tick { (layout : Layout) (copies : List ActorCopy) (end : End) (past : Past)
        → StandCopies layout copies past → StandCopies layout copies (after_tick end past []) }
{
    actor_copies::laws::nothing_handed_on_changes_nothing();
    payload_laws::applied::ticks_and_calls_deliver_nothing();
}

/// A call or a tick of a client that is alive takes no packet and hears no entry.
pub fn sending_hears_nothing()
    ensures call_top { (past : Past) (actor number : ℕ) (args : List Arg)
        → top_of (after_call AtClient past actor number args) ≡ top_of past }
    ensures call_entries { (past : Past) (actor number : ℕ) (args : List Arg)
        → entries_of (after_call AtClient past actor number args) ≡ entries_of past }
    ensures tick_top { (end : End) (past : Past)
        → end.side ≡ AtClient → has_ended past ≡ false → OpensNone past
        → top_of (after_tick end past []) ≡ top_of past }
    ensures tick_entries { (end : End) (past : Past)
        → end.side ≡ AtClient → has_ended past ≡ false → OpensNone past
        → entries_of (after_tick end past []) ≡ entries_of past }
{}

/// A datagram that is taken leaves what a client may rest on when it sends.
pub fn datagrams_leave_what_may_be_sent()
    ensures { (version : Version) (end : End) (past : Past) (bytes : List ℕ)
        → MaySend version past → MaySend version (after_got end past bytes) }
{}
