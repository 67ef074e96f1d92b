// Value lists.
ghost use Rattle.std.specs.Prelude.{◌≡◌, ◌≤◌, ◌+◌, ◌-◌, ◌==◌, ◌&&◌, ◌||◌, nat_lt, nat_le, length, List, map, IsTrue, IfOk};
ghost use Rattle.protocol_model.specs.Limits.{handle_limit};
ghost use Rattle.protocol_model.specs.Value.{handle_count};
ghost use Rattle.protocol_model.specs.Payload.{kind_at};
ghost use Rattle.connection_model.specs.PayloadReading.{number_at, field, pairs_at, values_at, some_values_at};
ghost use Rattle.class_layout.specs.Tables.{class_of};
ghost use Rattle.value_codec.specs.Reading.{has_values};
ghost use Rattle.class_layout.specs.declared.class.Segment.{Segment};
ghost use Rattle.payload_reading.specs.Reads.{Follows, Collects, itself};
ghost use Rattle.payload_reading.specs.Values.{pair_value, pair_values, own_kind};
ghost use Rattle.payload_reading.specs.TableLimits.{HasTableLimits};

use crate::fields::{number, value};
use crate::stop::Stop;
use bit_io::BitReader;
use class_layout::{Class, Handle, Kind, Pair, PairList, Prop};
use std::alloc::Global;

/// The values of a list that may be empty, by ascending handles of the class.
pub fn read_values(
    alloc: Global,
    reader: &mut BitReader<'_>,
    class: &Class,
) -> Result<PairList, Stop>
    requires { HasTableLimits class.now }
    ensures { (segments : List Segment) → Follows pair_values
        (values_at (class_of segments class.now)) reader.old reader.new result }
{
    let mut list = PairList::new(alloc);
    pairs(reader, class, count_of(class), 0, &mut list)?;
    Ok(list)
}

/// The values of a list with at least one.
pub fn read_some_values(
    alloc: Global,
    reader: &mut BitReader<'_>,
    class: &Class,
) -> Result<PairList, Stop>
    requires { HasTableLimits class.now }
    ensures { (segments : List Segment) → Follows pair_values
        (some_values_at (class_of segments class.now)) reader.old reader.new result }
{
    let count = count_of(class);
    let h = first_handle(reader, count)?;
    let v = value(reader, kind_of(class, h))?;
    let mut list = PairList::new(alloc);
    list.push(Pair {
        prop: Handle(h as u16),
        value: v,
    })?;
    pairs(reader, class, count - 1, h, &mut list)?;
    Ok(list)
}

/// Puts the values up to handle 0, at most so many more, behind those read by now.
fn pairs(
    reader: &mut BitReader<'_>,
    class: &Class,
    more: u32,
    last: u32,
    list: &mut PairList,
) -> Result<(), Stop>
    requires { HasTableLimits class.now }
    ensures { (segments : List Segment) → Collects pair_value
        (pairs_at (class_of segments class.now) more last)
        reader.old reader.new list.old list.new result }
{
    let most = count_of(class);
    let mut last = last;
    for _ in 0..more {
        let h = handle(reader, last, most)?;
        if h == 0 {
            return Ok(());
        }
        let v = value(reader, kind_of(class, h))?;
        list.push(Pair {
            prop: Handle(h as u16),
            value: v,
        })?;
        last = h;
    }
    no_handle(reader)
}

/// A handle above the last one, or 0.
fn handle(reader: &mut BitReader<'_>, last: u32, most: u32) -> Result<u32, Stop>
    ensures exact { Follows itself
        (field number_at (λ h. h == 0 || (nat_lt last h && nat_le h most)))
        reader.old reader.new result }
    ensures most { IfOk result (λ h. h ≤ most) }
{
    let left = reader.left();
    let h = number(reader)?;
    if h != 0 && (h <= last || h > most) {
        return Err(Stop::Broken { left, cause: None });
    }
    Ok(h)
}

/// The first handle of a list that isn't empty.
fn first_handle(reader: &mut BitReader<'_>, most: u32) -> Result<u32, Stop>
    ensures exact { Follows itself (field number_at (λ h. nat_lt 0 h && nat_le h most))
        reader.old reader.new result }
    ensures most { IfOk result (λ h. h ≤ most) }
{
    let left = reader.left();
    let h = number(reader)?;
    if h == 0 || h > most {
        return Err(Stop::Broken { left, cause: None });
    }
    Ok(h)
}

/// Handle 0, where there can be no other.
fn no_handle(reader: &mut BitReader<'_>) -> Result<(), Stop>
    ensures { Follows (λ done. 0) (field number_at (λ h. h == 0)) reader.old reader.new result }
{
    let left = reader.left();
    let h = number(reader)?;
    if h != 0 {
        return Err(Stop::Broken { left, cause: None });
    }
    Ok(())
}

/// How many handles a class has.
#[tactic(auto, using(crate::proofs::Handles::count_is))]
fn count_of(class: &Class) -> u32
    requires { HasTableLimits class.now }
    ensures count { (segments : List Segment)
        → result ≡ handle_count (class_of segments class.now) }
    ensures most { result ≤ handle_limit }
    ensures least { 3 ≤ result }
{
    class.props.len() as u32 + 3
}

/// The kind of a handle's values.
fn kind_of(class: &Class, handle: u32) -> Kind
    requires { HasTableLimits class.now }
    ensures kind { (segments : List Segment)
        → result ≡ kind_at (class_of segments class.now) handle }
    ensures values { IsTrue (has_values result) }
{
    if handle == 1 || handle == 2 {
        return Kind::I32;
    }
    if handle < 4 {
        return Kind::Bool;
    }
    kind_in(class.props.as_slice(), handle as usize - 4)
}

/// The kind of a property among these.
fn kind_in(props: &[Prop], place: usize) -> Kind
    ensures { result ≡ own_kind props.now place }
{
    match props.get(place) {
        Some(prop) => prop.kind,
        None => Kind::Bool,
    }
}
