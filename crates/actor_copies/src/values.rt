// The values of a copy, by handle.
ghost use Rattle.std.specs.Prelude.{◌≡◌, ◌<◌, ◌≤◌, List, map, length, IfOk};
ghost use Rattle.class_layout.specs.Tables.{class_of};
ghost use Rattle.class_layout.specs.declared.class.Segment.{Segment};
ghost use Rattle.payload_reading.specs.TableLimits.{HasTableLimits};
ghost use Rattle.payload_reading.specs.Values.{pair_values};
ghost use Rattle.actor_copies.specs.Kept.{IsNumbered, set_one, set_all};
ghost use Rattle.actor_copies.specs.Copies.{initial_values};

use bit_io::Memory;
use class_layout::{Class, Handle, Pair, PairList, Value};
use std::alloc::Global;
use std::mem;

/// The values with which a copy of a class begins.
pub(crate) fn initial(alloc: Global, class: &Class) -> Result<PairList, Memory>
    requires { HasTableLimits class.now }
    ensures values { IfOk result (λ list. (segments : List Segment)
        → pair_values list ≡ initial_values (class_of segments class.now)) }
    ensures numbered { IfOk result (λ list. IsNumbered 1 list) }
{
    let mut list = PairList::new(alloc);
    list.push(pair(1, Value::I32(0)))?;
    list.push(pair(2, Value::I32(0)))?;
    list.push(pair(3, Value::Bool(false)))?;
    let mut handle = 4;
    for prop in class.props.as_slice() {
        list.push(pair(handle, prop.init))?;
        handle += 1;
    }
    Ok(list)
}

/// A value with its handle.
fn pair(handle: u16, value: Value) -> Pair
    ensures { result ≡ record { prop = handle; value = value } }
{
    Pair {
        prop: Handle(handle),
        value,
    }
}

/// Puts each of these values in the place of its handle; where a handle stands twice the first
/// counts.
pub(crate) fn set_list(alloc: Global, list: &mut PairList, pairs: &[Pair])
    requires { IsNumbered 1 list.old }
    ensures { list.new ≡ map (set_all pairs.now) list.old }
{
    // An empty list takes no memory, and the values stay where they are.
    let before = mem::replace(list, PairList::new(alloc));
    let mut values = before.into_vec();
    set_values(&mut values, pairs);
    *list = PairList::from_vec(values);
}

/// Puts each of these values in the place of its handle, the last of them first.
fn set_values(values: &mut [Pair], pairs: &[Pair])
    requires { IsNumbered 1 values.old }
    ensures { values.new ≡ map (set_all pairs.now) values.old }
{
    let mut rest = pairs.len();
    while rest > 0 {
        rest -= 1;
        set_value(values, pairs[rest]);
    }
}

/// Puts a value in the place of its handle, if that is there.
fn set_value(values: &mut [Pair], pair: Pair)
    requires { IsNumbered 1 values.old }
    ensures { values.new ≡ map (set_one pair) values.old }
{
    let Some(place) = (pair.prop.0 as usize).checked_sub(1) else {
        return;
    };
    if place < values.len() {
        values[place].value = pair.value;
    }
}
