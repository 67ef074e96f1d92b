// What a client has of the actors that are opened and settled at its server, over any two ends.
//
// `IsFaithfulTalk server client server_feed client_feed player edits segments` says that two ends
// talked over a network that loses, repeats and reorders packets, that the server saw a world grow
// to these edits, and that the client follows the server and applied what is unreliable in each
// packet that it took.
ghost use Rattle.std.specs.Prelude.{◌≡◌, ℕ, List, Some, true};
ghost use Rattle.protocol_model.specs.Value.{Table, Segment, Pair};
ghost use Rattle.protocol_model.specs.World.{Edits, class_of};
ghost use Rattle.protocol_model.specs.Side.{AtServer, AtClient};
ghost use Rattle.connection_model.specs.Feed.{End, Event};
ghost use Rattle.connection_model.specs.Past.{past_of};
ghost use Rattle.connection_model.specs.State.{state_of, is_opened, index_of};
ghost use Rattle.connection_model.specs.Carry.{Carry, carry_of, is_carried};
ghost use Rattle.connection_model.specs.Copies.{copy_class, copy_channel, copy_value};
ghost use Rattle.replication_model.specs.Story.{Story, Player, end_of};
ghost use Rattle.replication_model.specs.Headline.{CopiesSettled};
ghost use Rattle.recovery_laws.specs.Faithful.{IsFaithfulTalk, HasArrived};

/// Of each actor that is opened at the server the client has a copy, of the actor's class and on
/// the index that it holds, and each handle whose carry has arrived has the value that was carried.
pub fn opened_actors_are_copied()
    ensures class { (server client : End) (server_feed client_feed : List Event) (player : ℕ)
        (edits : Edits) (segments : List Segment) (a : ℕ)
        → IsFaithfulTalk server client server_feed client_feed player edits segments
        → is_opened (state_of (past_of server server_feed) a) ≡ true
        → copy_class (past_of client client_feed) a ≡ Some (class_of server.table edits a) }
    ensures channel { (server client : End) (server_feed client_feed : List Event) (player : ℕ)
        (edits : Edits) (segments : List Segment) (a : ℕ)
        → IsFaithfulTalk server client server_feed client_feed player edits segments
        → is_opened (state_of (past_of server server_feed) a) ≡ true
        → copy_channel (past_of client client_feed) a ≡ index_of (past_of server server_feed) a }
    ensures carry { (server client : End) (server_feed client_feed : List Event) (player : ℕ)
        (edits : Edits) (segments : List Segment) (a h : ℕ) (c : Carry)
        → IsFaithfulTalk server client server_feed client_feed player edits segments
        → is_opened (state_of (past_of server server_feed) a) ≡ true
        → carry_of (past_of server server_feed) a h ≡ Some c
        → HasArrived (past_of server server_feed) c
        → copy_value (past_of client client_feed) a h ≡ c.value }
    ensures value { (server client : End) (server_feed client_feed : List Event) (player : ℕ)
        (edits : Edits) (segments : List Segment) (a : ℕ) (pair : Pair)
        → IsFaithfulTalk server client server_feed client_feed player edits segments
        → is_opened (state_of (past_of server server_feed) a) ≡ true
        → is_carried (past_of server server_feed) a pair ≡ true
        → copy_value (past_of client client_feed) a pair.handle ≡ pair.value }
{}

/// Of each settled actor of a story the player's client has a copy of its class, open on the index
/// that it holds, with each updatable handle as the player sees it.
pub fn settled_actors_are_copied()
    ensures { (table : Table) (story : Story) (p : Player) (segments : List Segment)
        → IsFaithfulTalk (end_of table AtServer p) (end_of table AtClient p) p.server_feed
        p.client_feed p.number story.edits segments → CopiesSettled table story p }
{}
