// What copies that stand for a past tell of it.
ghost use Rattle.std.specs.Prelude.{◌≡◌, ℕ, List, [], length, map, option_map, option_and_then};
ghost use Rattle.protocol_model.specs.Value.{Call, Arg};
ghost use Rattle.protocol_model.specs.World.{class_at};
ghost use Rattle.protocol_model.specs.Payload.{Calls};
ghost use Rattle.connection_model.specs.Feed.{Past};
ghost use Rattle.connection_model.specs.Copies.{delivered_of, copied_actors, copy_class, copy_channel, copy_on};
ghost use Rattle.class_layout.specs.Tables.{Layout, table_in};
ghost use Rattle.actor_copies.specs.declared.copy.ActorCopy.{ActorCopy};
ghost use Rattle.actor_copies.specs.Applied.{WasHanded, Follow};
ghost use Rattle.actor_copies.specs.Copies.{copies_of, copy_value_of};
ghost use Rattle.actor_copies.specs.Kept.{copy_actor, kept_of, kept_on};
ghost use Rattle.actor_copies.specs.Stands.{Stands};

/// The copies are all that the definitions have, in the order of their actors.
pub fn copies_are_all()
    ensures copies { (layout : Layout) (copies : List ActorCopy) (past : Past)
        → Stands layout copies past → map (copy_value_of layout) copies ≡ copies_of past }
    ensures count { (layout : Layout) (copies : List ActorCopy) (past : Past)
        → Stands layout copies past → length copies ≡ length (copied_actors past) }
{}

/// An actor's copy has the class and the channel that the past tells.
pub fn actors_are_known()
    ensures class { (layout : Layout) (copies : List ActorCopy) (past : Past) (a : ℕ)
        → Stands layout copies past
        → option_map (λ (c : ActorCopy). class_at (table_in layout) c.class) (kept_of copies a)
        ≡ copy_class past a }
    ensures channel { (layout : Layout) (copies : List ActorCopy) (past : Past) (a : ℕ)
        → Stands layout copies past
        → option_and_then (λ (c : ActorCopy). c.channel) (kept_of copies a)
        ≡ copy_channel past a }
{}

/// A channel is held by the copy that the past tells.
pub fn holders_are_known()
    ensures { (layout : Layout) (copies : List ActorCopy) (past : Past) (ch : ℕ)
        → Stands layout copies past
        → option_map copy_actor (kept_on copies ch) ≡ copy_on past ch }
{}

/// A call changes no copy.
pub fn calls_change_nothing()
    ensures { (layout : Layout) (copies : List ActorCopy) (a number : ℕ) (call : Call)
        (args : List Arg) → Follow layout copies copies (WasHanded (Calls a number call args)) }
{}

/// There are no copies before anything was done, and whatever hands nothing on changes none.
pub fn nothing_handed_on_changes_nothing()
    ensures first { (layout : Layout) → Stands layout [] [] }
    ensures still { (layout : Layout) (copies : List ActorCopy) (past later : Past)
        → delivered_of later ≡ delivered_of past → Stands layout copies past
        → Stands layout copies later }
{}
