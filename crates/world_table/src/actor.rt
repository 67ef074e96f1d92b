// The records of actors, and the flat cells of their properties.
ghost use Rattle.std.specs.Prelude.{◌≡◌, ◌<◌, ◌==◌, ℕ, ◌++◌, map, length, slice_get, slice_set, IsSome, IfSome, IsTrue, Some, OnOk, OnErr, if◌then◌else◌};
ghost use Rattle.std.specs.Option.{option_copied};
ghost use Rattle.protocol_model.specs.declared.Kind.{Kind as KindSpec};
ghost use Rattle.value_codec.specs.Values.{value_fits};
ghost use Rattle.world_table.specs.Kept.{place_of, actor_at, living_at, place_in, cell_at, record_value, switch_at, first_cell, moved_look, are_alike};
ghost use Rattle.world_table.specs.declared.actor.Actor.{Actor as ActorSpec};
ghost use Rattle.world_table.specs.declared.actor.Cell.{Cell as CellSpec};

use crate::edit::Look;
use class_layout::{Prop, Value};
use net_core::{Guid, Handle, Memory};
use protocol_model::Cond;

/// What is kept of an actor: its cells are those from `first` on and below `past`, one a property of
/// its class, for the handles from 4 on.
#[derive(Clone, Copy)]
pub(crate) struct Actor {
    pub look: Look,
    /// The team that it is given to, 0 for none.
    pub given: u8,
    pub first: usize,
    pub past: usize,
}

/// What is kept of a property of an actor.
#[derive(Clone, Copy)]
pub(crate) struct Cell {
    pub value: Value,
    /// The property is a custom one, and its switch is on.
    pub on: bool,
}

/// The place of an actor's record: n - 1 for guid 2n.
fn place(actor: Guid) -> Option<usize>
    ensures { result ≡ place_of actor }
{
    if actor.0 == 0 || actor.0 % 2 != 0 {
        return None;
    }
    Some((actor.0 / 2 - 1) as usize)
}

/// The record of an actor, `None` exactly where it was never spawned.
pub(crate) fn record_at(actors: &[Actor], actor: Guid) -> Option<&Actor>
    ensures { option_copied result ≡ actor_at actors.now actor }
{
    actors.get(place(actor)?)
}

/// The record of an actor that lives.
pub(crate) fn living(actors: &[Actor], actor: Guid) -> Option<&Actor>
    ensures { option_copied result ≡ living_at actors.now actor }
{
    match record_at(actors, actor) {
        Some(kept) if kept.look.alive => Some(kept),
        _ => None,
    }
}

/// Puts a record in the place of the one that the actor has.
pub(crate) fn put_record(actors: &mut Vec<Actor>, actor: Guid, kept: Actor)
    requires { IsSome (actor_at actors.old.items actor) }
    ensures len { length actors.new.items ≡ length actors.old.items }
    ensures each { (a : ℕ) → actor_at actors.new.items a
        ≡ (if a == actor then Some kept else actor_at actors.old.items a) }
{
    if let Some(place) = place(actor) {
        actors[place] = kept;
    }
}

/// The place of the cell that an actor has for a property, `None` exactly where it has none.
pub(crate) fn cell_place(kept: &Actor, prop: Handle) -> Option<usize>
    ensures { result ≡ place_in kept.now prop }
{
    let count = kept.past.saturating_sub(kept.first);
    let index = usize::from(prop.0.checked_sub(4)?);
    if index < count {
        Some(kept.first + index)
    } else {
        None
    }
}

/// The cell that an actor has for a property.
pub(crate) fn cell_for(cells: &[Cell], kept: &Actor, prop: Handle) -> Option<Cell>
    ensures { result ≡ cell_at cells.now kept.now prop }
{
    cells.get(cell_place(kept, prop)?).copied()
}

/// The value that an actor has for a property, `None` exactly where it can't be set.
pub(crate) fn value_for(cells: &[Cell], kept: &Actor, prop: Handle) -> Option<Value>
    ensures value { result ≡ record_value cells.now kept.now prop }
    ensures place { prop < 4 → IfSome result (λ v. IsTrue (value_fits KindSpec.I32 v)) }
{
    if prop.0 == 1 {
        return Some(Value::I32(kept.look.x));
    }
    if prop.0 == 2 {
        return Some(Value::I32(kept.look.y));
    }
    let cell = cell_for(cells, kept, prop)?;
    Some(cell.value)
}

/// The switch that an actor has for a property, off where it has none.
pub(crate) fn switch_for(actors: &[Actor], cells: &[Cell], actor: Guid, prop: Handle) -> bool
    ensures { result ≡ switch_at actors.now cells.now actor prop }
{
    let Some(kept) = record_at(actors, actor) else {
        return false;
    };
    match cell_for(cells, kept, prop) {
        Some(cell) => cell.on,
        None => false,
    }
}

/// Puts a value of x or y into the record of an actor.
pub(crate) fn put_moved(actors: &mut Vec<Actor>, actor: Guid, prop: Handle, value: Value)
    requires { IsSome (actor_at actors.old.items actor) }
    ensures len { length actors.new.items ≡ length actors.old.items }
    ensures each { (kept : ActorSpec) → actor_at actors.old.items actor ≡ Some kept
        → (a : ℕ) → actor_at actors.new.items a ≡ (if a == actor
        then Some (record kept { look = moved_look kept.look prop value })
        else actor_at actors.old.items a) }
{
    if let Some(kept) = record_at(actors, actor) {
        let mut after = *kept;
        after.look = moved(after.look, prop, value);
        put_record(actors, actor, after);
    }
}

/// How an actor stands once a value of x or y is set.
fn moved(look: Look, prop: Handle, value: Value) -> Look
    ensures { result ≡ moved_look look prop value }
{
    match value {
        Value::I32(x) if prop.0 == 1 => Look { x, ..look },
        Value::I32(y) if prop.0 == 2 => Look { y, ..look },
        _ => look,
    }
}

/// The value in a cell has the tag of this one, and it is no enum's. Each kind that the cell's value
/// fits, this one fits too.
pub(crate) fn holds_alike(cells: &[Cell], place: usize, value: Value) -> bool
    requires { place < length cells.now }
    ensures alike { (cell : CellSpec) → slice_get cells.now place ≡ Some cell
        → result ≡ are_alike cell.value value }
    ensures fits { IsTrue result → (cell : CellSpec) → slice_get cells.now place ≡ Some cell
        → (kind : KindSpec) → IsTrue (value_fits kind cell.value) → IsTrue (value_fits kind value) }
{
    are_alike(cells[place].value, value)
}

/// Both values have one tag, and it is no enum's, so that each kind that the one fits, the other
/// fits.
fn are_alike(held: Value, value: Value) -> bool
    ensures alike { result ≡ are_alike held value }
    ensures fits { IsTrue result → (kind : KindSpec) → IsTrue (value_fits kind held)
        → IsTrue (value_fits kind value) }
{
    match held {
        Value::Bool(_) => matches!(value, Value::Bool(_)),
        Value::U8(_) => matches!(value, Value::U8(_)),
        Value::I32(_) => matches!(value, Value::I32(_)),
        Value::U32(_) => matches!(value, Value::U32(_)),
        Value::I64(_) => matches!(value, Value::I64(_)),
        Value::Enum(_) => false,
        Value::Packed(_) => matches!(value, Value::Packed(_)),
        Value::Guid(_) => matches!(value, Value::Guid(_)),
    }
}

/// Puts a value into a cell.
pub(crate) fn put_value(cells: &mut Vec<Cell>, place: usize, value: Value)
    requires { place < length cells.old.items }
    ensures { (cell : CellSpec) → slice_get cells.old.items place ≡ Some cell
        → cells.new.items ≡ slice_set cells.old.items place (record cell { value = value }) }
{
    cells[place].value = value;
}

/// Puts a switch into a cell.
pub(crate) fn put_switch(cells: &mut Vec<Cell>, place: usize, on: bool)
    requires { place < length cells.old.items }
    ensures { (cell : CellSpec) → slice_get cells.old.items place ≡ Some cell
        → cells.new.items ≡ slice_set cells.old.items place (record cell { on = on }) }
{
    cells[place].on = on;
}

/// Appends a cell for each property. After `Memory` the cells are those from before.
pub(crate) fn push_cells(cells: &mut Vec<Cell>, props: &[Prop]) -> Result<(), Memory>
    ensures ok { OnOk result (cells.new.items ≡ cells.old.items ++ map first_cell props.now) }
    ensures err { OnErr result (cells.new.items ≡ cells.old.items) }
{
    let first = cells.len();
    for prop in props {
        let cell = Cell {
            value: prop.init,
            on: prop.cond == Cond::Custom,
        };
        if cells.push(cell).is_err() {
            cells.truncate(first);
            return Err(Memory);
        }
    }
    Ok(())
}
