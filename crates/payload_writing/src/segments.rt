// The segments that an open exports, and the guid that names a class.
ghost use Rattle.std.specs.Prelude.{◌≡◌, ◌≤◌, ◌+◌, ◌*◌, List, length, map};
ghost use Rattle.std.specs.List.{flat_map};
ghost use Rattle.protocol_model.specs.Limits.{name_bytes};
ghost use Rattle.protocol_model.specs.Value as Model;
ghost use Rattle.protocol_model.specs.Payload.{exports_bits, segment_bits};
ghost use Rattle.class_layout.specs.Tables.{class_of, segment_at};
ghost use Rattle.class_layout.specs.declared.class.Segment.{Segment as SegmentValue};
ghost use Rattle.bit_io.specs.Written.{Appends};
ghost use Rattle.netguid_map.specs.Chains.{AreThere, IsThere};
ghost use Rattle.payload_writing.specs.Exports.{MayExport};
ghost use Rattle.payload_writing.specs.Room.{segment_room};

use crate::fields::{put_guid, put_octets};
use bit_io::BitWriter;
use class_layout::{Class, Classes, Segment};
use net_core::Guid;
use protocol_model::limits::NAME_BYTES;

/// How many bits of room a segment takes: two packed numbers, a length and a name.
pub(crate) const SEGMENT_BITS: usize = 2 * 40 + 32 + 8 * NAME_BYTES;

/// Appends how many segments there are, and the segments, where there are some.
pub(crate) fn put_exports(w: &mut BitWriter, classes: &Classes, guids: &[Guid])
    requires there { MayExport classes.now.segments guids.now }
    requires room { 40 + segment_room * length guids.now ≤ w.old.spare }
    ensures bits { Appends w.old w.new
        (exports_bits (map (segment_at classes.now.segments) guids.now)) }
    ensures room { w.old.spare ≤ w.new.spare + 40 + segment_room * length guids.now }
{
    if guids.is_empty() {
        return;
    }
    w.put_packed(guids.len() as u32);
    put_segments(w, classes, guids);
}

/// Appends segments.
fn put_segments(w: &mut BitWriter, classes: &Classes, guids: &[Guid])
    requires there { AreThere classes.now.segments guids.now }
    requires room { segment_room * length guids.now ≤ w.old.spare }
    ensures bits { Appends w.old w.new
        (flat_map segment_bits (map (segment_at classes.now.segments) guids.now)) }
    ensures room { w.old.spare ≤ w.new.spare + segment_room * length guids.now }
{
    for guid in guids {
        put_segment(w, classes, *guid);
    }
}

/// Appends a segment: its guid, its outer's, and its name.
fn put_segment(w: &mut BitWriter, classes: &Classes, guid: Guid)
    requires there { IsThere classes.now.segments guid }
    requires room { segment_room ≤ w.old.spare }
    ensures bits { Appends w.old w.new (segment_bits (segment_at classes.now.segments guid)) }
    ensures room { w.old.spare ≤ w.new.spare + segment_room }
{
    let segment = segment_of(classes, guid);
    let name = segment.name.as_bytes();
    put_guid(w, guid);
    put_guid(w, segment.outer);
    w.put_int(name.len() as u32, 64);
    put_octets(w, name);
}

/// The segment of a guid of the table.
fn segment_of(classes: &Classes, guid: Guid) -> &Segment
    requires { IsThere classes.now.segments guid }
    ensures segment { segment_at classes.now.segments guid
        ≡ record { guid = guid; outer = result.now.outer; name = result.now.name } }
    ensures short { length result.now.name ≤ name_bytes }
{
    classes.keeps_rules();
    classes.segment(guid).unwrap()
}

/// The guid of a class: that of its path's last segment.
pub(crate) fn class_guid(class: &Class) -> Guid
    ensures { (segments : List SegmentValue)
        → result ≡ Model.class_guid (class_of segments class.now) }
{
    match class.path.as_slice().last() {
        Some(guid) => *guid,
        None => Guid(0),
    }
}
