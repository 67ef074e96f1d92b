// Bunches that a server takes: none opens a channel or closes it.
ghost use Rattle.std.specs.Prelude.{◌≡◌, ◌∷◌, ℕ, List, None};
ghost use Rattle.protocol_model.specs.Packet.{Bunch};
ghost use Rattle.protocol_model.specs.Side.{AtServer};
ghost use Rattle.protocol_model.specs.Sight.{Seen};
ghost use Rattle.protocol_model.specs.Value.{Arg};
ghost use Rattle.connection_model.specs.Feed.{End, Event, Past, Entry, Delivered};
ghost use Rattle.connection_model.specs.Fates.{entries_of};
ghost use Rattle.connection_model.specs.Pack.{after_tick};
ghost use Rattle.connection_model.specs.CallAnswers.{after_call};
ghost use Rattle.connection_model.specs.Past.{past_of};
ghost use Rattle.channel_laws.specs.Moves.{IsMove, SameNews};
ghost use Rattle.receiving_laws.specs.Receiving.{raws_heard};
ghost use Rattle.hearing_laws.specs.Courses.{Taking, during, heard_then};
ghost use Rattle.hearing_laws.specs.Plain.{IsCalm, BeginPlain};

/// Whatever a server's end hears, no reliable bunch that it received opens or closes.
pub fn servers_take_plain_bunches()
    ensures { (end : End) (feed : List Event) → end.side ≡ AtServer → IsCalm (past_of end feed) }
{}

/// And it stays so in the middle of a packet, where no rule is broken.
pub fn plain_bunches_leave_calm()
    ensures heard { (k : Taking) (entries : List Entry) (handed later : List Delivered) (b : Bunch)
        → k.end.side ≡ AtServer → IsCalm (during k entries handed)
        → (heard_then k entries handed b).cause ≡ None
        → IsCalm (during k (Entry.Heard b ∷ entries) later) }
    ensures moved { (from to : ℕ) (past after : Past) → IsMove from to past after → IsCalm past
        → IsCalm after }
    ensures news { (one other : Past) → SameNews one other → IsCalm one → IsCalm other }
{}

/// Then no whole payload begins with a bunch that opens or closes.
pub fn plain_bunches_begin_payloads()
    ensures { (past : Past) (b : Bunch) → IsCalm past
        → BeginPlain (raws_heard AtServer past b).whole }
{}

/// Ticks and calls tell no entry: only a datagram does.
pub fn only_datagrams_tell()
    ensures ticked { (end : End) (past : Past) (sight : List Seen)
        → entries_of (after_tick end past sight) ≡ entries_of past }
    ensures called { (end : End) (past : Past) (actor number : ℕ) (args : List Arg)
        → entries_of (after_call end.side past actor number args) ≡ entries_of past }
{}
