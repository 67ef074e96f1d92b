// Changes, and which of an actor's values changed.
ghost use Rattle.std.specs.Prelude.{◌≡◌, ◌+◌, ◌<◌, ◌≤◌, ◌++◌, ◌∷◌, length, map, take, drop, slice_get, filter_map, false, Some, IfOk, OnOk};
ghost use Rattle.std.specs.List.{range_with_len};
ghost use Rattle.protocol_model.specs.Limits.{handle_limit};
ghost use Rattle.change_model.specs.Changes.{handle_of};
ghost use Rattle.value_codec.specs.Values.{whole_of};
ghost use Rattle.shadow_changes.specs.Lists.{is_other, changed_at};

use class_layout::Value;
use net_core::{Handle, Items, Memory};
use std::alloc::Global;

/// A property that changed, and the tick at which it changed last.
#[derive(Clone, Copy, Debug, PartialEq, Eq)]
pub struct Change {
    /// The property's handle: 1 for x, 2 for y, 4 and on for the class's own.
    pub prop: Handle,
    /// The tick of the sample that differed from the one before, or of the first one.
    pub tick: u64,
}

/// A list of changes.
pub type ChangeList = Items<Change>;

/// Puts an actor's values in place of its last ones, writing those alone that differ, and answers
/// these, ascending by handle. A value that wasn't there before has changed.
pub fn changed(
    alloc: Global,
    last: &mut Vec<i64>,
    values: &[Value],
    tick: u64,
) -> Result<ChangeList, Memory>
    requires { length values.now < handle_limit }
    ensures changes { IfOk result (λ changes. changes
        ≡ filter_map (changed_at last.old.items values.now tick)
        (range_with_len 0 (length values.now))) }
    ensures last { OnOk result (last.new.items
        ≡ map whole_of values.now ++ drop (length values.now) last.old.items) }
{
    let mut changes = ChangeList::new(alloc);
    for i in 0..values.len() {
        if set_value(last, i, values[i])? {
            let prop = handle_at(i);
            changes.push(Change { prop, tick })?;
        }
    }
    Ok(changes)
}

/// Sets the i-th of the last values, where it differs or is the first past the end, and answers
/// whether it did.
fn set_value(last: &mut Vec<i64>, i: usize, value: Value) -> Result<bool, Memory>
    requires { i ≤ length last.old.items }
    ensures set { OnOk result (last.new.items
        ≡ take i last.old.items ++ whole_of value ∷ drop (i + 1) last.old.items) }
    ensures other { IfOk result (λ other. other
        ≡ is_other (whole_of value) (slice_get last.old.items i)) }
{
    if i >= last.len() {
        last.push(whole(value))?;
        return Ok(true);
    }
    if !differs(&last[i], value) {
        return Ok(false);
    }
    last[i] = whole(value);
    Ok(true)
}

/// The value is another number than the one before.
fn differs(before: &i64, value: Value) -> bool
    ensures other { result ≡ is_other (whole_of value) (Some before.now) }
    ensures same { result ≡ false → before.now ≡ whole_of value }
{
    *before != whole(value)
}

/// The handle of the i-th value: the role, handle 3, is none.
fn handle_at(i: usize) -> Handle
    requires { i < handle_limit }
    ensures { result ≡ handle_of i }
{
    if i < 2 {
        Handle(i as u16 + 1)
    } else {
        Handle(i as u16 + 2)
    }
}

/// The whole number that a value is.
fn whole(v: Value) -> i64
    ensures { result ≡ whole_of v }
{
    match v {
        Value::Bool(b) => b as i64,
        Value::U8(n) => n as i64,
        Value::I32(z) => z as i64,
        Value::U32(n) => n as i64,
        Value::I64(z) => z,
        Value::Enum(n) => n as i64,
        Value::Packed(n) => n as i64,
        Value::Guid(n) => n as i64,
    }
}
