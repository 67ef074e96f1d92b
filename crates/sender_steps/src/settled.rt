// When nothing is left to send of an actor.
ghost use Rattle.std.specs.Prelude.{◌≡◌, ◌&&◌, ℕ, List, true, not};
ghost use Rattle.std.specs.List.{list_all};
ghost use Rattle.protocol_model.specs.Side.{Side};
ghost use Rattle.protocol_model.specs.World.{class_at};
ghost use Rattle.change_model.specs.Changes.{Sample};
ghost use Rattle.connection_model.specs.Feed.{Past};
ghost use Rattle.connection_model.specs.State.{state_of, is_opened};
ghost use Rattle.connection_model.specs.Carry.{is_carried, updatable_pairs, is_updatable as is_updatable_pair};
ghost use Rattle.connection_model.specs.Settled.{is_settled_as, is_clear as is_clear_at};
ghost use Rattle.class_layout.specs.Tables.{table_in};
ghost use Rattle.channel_table.specs.Keeps.{Keeps as KeepsTable};
ghost use Rattle.sender_records.specs.Actors.{KeepsActor};
ghost use Rattle.sender_records.specs.Handles.{KeepsHandles, is_updatable_in, pair_value};
ghost use Rattle.sender_steps.specs.Sights.{seen_value};

use crate::sight::Seen;
use channel_table::ChannelTable;
use class_layout::{Classes, Pair};
use net_core::Handle;
use sender_records::{ActorRecord, is_updatable};

/// Nothing is left to send of this actor, as it is seen now.
pub fn is_settled(kept: &ActorRecord, seen: &Seen, table: &ChannelTable, classes: &Classes) -> bool
    ensures { (side : Side) (past : Past) (samples : List Sample)
        → KeepsActor past samples seen.now.actor kept.now → KeepsTable table.now side past
        → result ≡ is_settled_as past (seen_value classes.now seen.now) }
{
    if !seen.relevant {
        return false;
    }
    if !kept.life.state.is_opened() {
        return false;
    }
    if !is_clear(table, kept.life.index) {
        return false;
    }
    have_arrived(kept, classes, seen)
}

/// Every bunch made on the index has arrived, where there is one.
pub fn is_clear(table: &ChannelTable, index: Option<u16>) -> bool
    ensures { (side : Side) (past : Past) → KeepsTable table.now side past
        → result ≡ is_clear_at past index }
{
    match index {
        Some(index) => table.span(index) == 0,
        None => false,
    }
}

/// Each handle that an update may hold now was carried with its value now, and that has arrived;
/// the actor is opened.
fn have_arrived(kept: &ActorRecord, classes: &Classes, seen: &Seen) -> bool
    ensures { (past : Past) (actor : ℕ) (samples : List Sample)
        → KeepsHandles past samples actor kept.now.handles
        → is_opened (state_of past actor) ≡ true
        → result ≡ list_all (is_carried past actor)
        (updatable_pairs (seen_value classes.now seen.now)) }
{
    for pair in seen.values.as_slice() {
        if lacks(kept, classes, seen, pair) {
            return false;
        }
    }
    true
}

/// An update may hold the handle now, and it wasn't carried with this value or that hasn't
/// arrived.
fn lacks(kept: &ActorRecord, classes: &Classes, seen: &Seen, pair: &Pair) -> bool
    ensures { (past : Past) (actor : ℕ) (samples : List Sample)
        → KeepsHandles past samples actor kept.now.handles
        → is_opened (state_of past actor) ≡ true
        → result ≡ (is_updatable_pair (seen_value classes.now seen.now) (pair_value pair.now)
        && not (is_carried past actor (pair_value pair.now))) }
{
    if !may_update(classes, seen.class, seen.owns, pair.prop) {
        return false;
    }
    !kept.handles.has_arrived(pair, true)
}

/// An update may hold the handle of an actor of this class.
fn may_update(classes: &Classes, class: u16, owns: bool, prop: Handle) -> bool
    ensures { result ≡ is_updatable_in (class_at (table_in classes.now) class) owns prop }
{
    match classes.class(class) {
        Some(class) => is_updatable(class, owns, prop),
        None => prop.0 >= 1 && prop.0 <= 3,
    }
}
