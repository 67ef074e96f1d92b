// Values by their handles.
ghost use Rattle.std.specs.Prelude.{◌≡◌, ◌≤◌, ◌+◌, ◌*◌, List, IsTrue, length};
ghost use Rattle.std.specs.List.{flat_map};
ghost use Rattle.protocol_model.specs.Payload.{kind_at, pair_bits};
ghost use Rattle.class_layout.specs.Tables.{class_of};
ghost use Rattle.class_layout.specs.declared.class.Segment.{Segment};
ghost use Rattle.bit_io.specs.Written.{Appends};
ghost use Rattle.payload_reading.specs.Values.{own_kind, pair_value, pair_values};
ghost use Rattle.payload_writing.specs.Values.{pair_fits, pairs_fit};
ghost use Rattle.payload_writing.specs.Room.{pair_room};

use bit_io::BitWriter;
use class_layout::{Class, Handle, Kind, Pair, Prop, put_value};

/// How many bits a handle with its value takes at most, a packed number and 64 bits.
pub(crate) const PAIR_BITS: usize = 104;

/// Appends a handle and its value.
pub(crate) fn put_pair(w: &mut BitWriter, class: &Class, pair: &Pair)
    requires fit { (segments : List Segment)
        × IsTrue (pair_fits (class_of segments class.now) pair.now) }
    requires room { pair_room ≤ w.old.spare }
    ensures bits { (segments : List Segment)
        → Appends w.old w.new (pair_bits (class_of segments class.now) (pair_value pair.now)) }
    ensures room { w.old.spare ≤ w.new.spare + pair_room }
{
    w.put_packed(u32::from(pair.prop.0));
    put_value(w, kind_of(class, pair.prop), pair.value);
}

/// Appends handles and their values.
pub(crate) fn put_pairs(w: &mut BitWriter, class: &Class, pairs: &[Pair])
    requires fit { (segments : List Segment)
        × IsTrue (pairs_fit (class_of segments class.now) pairs.now) }
    requires room { pair_room * length pairs.now ≤ w.old.spare }
    ensures bits { (segments : List Segment) → Appends w.old w.new
        (flat_map (pair_bits (class_of segments class.now)) (pair_values pairs.now)) }
    ensures room { w.old.spare ≤ w.new.spare + pair_room * length pairs.now }
{
    for pair in pairs {
        put_pair(w, class, pair);
    }
}

/// The kind of a handle's values.
pub(crate) fn kind_of(class: &Class, prop: Handle) -> Kind
    ensures { (segments : List Segment)
        → result ≡ kind_at (class_of segments class.now) prop }
{
    let handle = usize::from(prop.0);
    if handle == 1 || handle == 2 {
        return Kind::I32;
    }
    if handle < 4 {
        return Kind::Bool;
    }
    kind_in(class.props.as_slice(), handle - 4)
}

/// The kind of a property among these.
fn kind_in(props: &[Prop], place: usize) -> Kind
    ensures { result ≡ own_kind props.now place }
{
    match props.get(place) {
        Some(prop) => prop.kind,
        None => Kind::Bool,
    }
}
