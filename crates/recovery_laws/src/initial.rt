// Initial-only properties: a copy has those of the tick that made its last open.
ghost use Rattle.std.specs.Prelude.{◌≡◌, ℕ, List, Some};
ghost use Rattle.protocol_model.specs.Value.{Segment};
ghost use Rattle.protocol_model.specs.World.{Edits, class_of, value_of};
ghost use Rattle.connection_model.specs.Feed.{End, Event};
ghost use Rattle.connection_model.specs.Past.{past_of};
ghost use Rattle.connection_model.specs.Copies.{copy_channel, copy_value};
ghost use Rattle.table_model.specs.Rules.{Entry};
ghost use Rattle.table_model.specs.Grammar.{table_of};
ghost use Rattle.recovery_laws.specs.Faithful.{IsSoundTalk};
ghost use Rattle.recovery_laws.specs.Initial.{IsInitial, LastOpen};

/// A copy with a channel came of an open that the server made on that channel, at a tick whose
/// sight was the player's of some world before; and each initial-only property has its value in
/// that world.
pub fn initial_values_stay()
    ensures opening { (entries : List Entry) (server client : End)
        (server_feed client_feed : List Event) (player : ℕ) (edits : Edits)
        (segments : List Segment) (a ch : ℕ)
        → IsSoundTalk entries server client server_feed client_feed player edits segments
        → copy_channel (past_of client client_feed) a ≡ Some ch
        → LastOpen (table_of entries) player edits (past_of server server_feed)
        (past_of client client_feed) a ch }
    ensures value { (entries : List Entry) (server client : End)
        (server_feed client_feed : List Event) (player : ℕ) (edits : Edits)
        (segments : List Segment) (a ch h : ℕ)
        → IsSoundTalk entries server client server_feed client_feed player edits segments
        → (o : LastOpen (table_of entries) player edits (past_of server server_feed)
        (past_of client client_feed) a ch) → IsInitial (class_of (table_of entries) edits a) h
        → copy_value (past_of client client_feed) a h ≡ value_of (table_of entries) o.world a h }
{}
