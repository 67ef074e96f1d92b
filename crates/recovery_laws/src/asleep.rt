// Copies of actors that sleep.
ghost use Rattle.std.specs.Prelude.{◌≡◌, ℕ, List, true};
ghost use Rattle.protocol_model.specs.Value.{Segment};
ghost use Rattle.protocol_model.specs.World.{Edits};
ghost use Rattle.connection_model.specs.Feed.{End, Event};
ghost use Rattle.connection_model.specs.Past.{past_of};
ghost use Rattle.connection_model.specs.State.{state_of, is_asleep};
ghost use Rattle.table_model.specs.Rules.{Entry};
ghost use Rattle.recovery_laws.specs.Faithful.{IsSoundTalk};
ghost use Rattle.recovery_laws.specs.Asleep.{SleepsAsSeen};

/// Of an actor that sleeps at the server the client's copy sleeps too, and each handle that was
/// updatable when the dormant close was made has the value that the player saw then.
pub fn sleeping_copies_are_as_seen()
    ensures { (entries : List Entry) (server client : End)
        (server_feed client_feed : List Event) (player : ℕ) (edits : Edits)
        (segments : List Segment) (a : ℕ)
        → IsSoundTalk entries server client server_feed client_feed player edits segments
        → is_asleep (state_of (past_of server server_feed) a) ≡ true
        → SleepsAsSeen (past_of server server_feed) (past_of client client_feed) a }
{}
