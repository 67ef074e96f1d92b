// Paths of classes, as guids of segments.
ghost use Rattle.std.specs.Prelude.{◌≡◌, ◌+◌, ◌*◌, ◌^◌, ◌<◌, ◌≤◌, ◌++◌, ◌∷◌, ◌&&◌, ◌==◌, [], List, map, length, IsTrue, IfOk, OnOk, IfSome};
ghost use Rattle.std.specs.List.{position as list_position};
ghost use Rattle.std.specs.Str.{bytes_eq};
ghost use Rattle.protocol_model.specs.Limits.{depth_limit, segment_limit};
ghost use Rattle.protocol_model.specs.Value as Model;
ghost use Rattle.table_model.specs.Rules.{path_under, segment_under};
ghost use Rattle.class_layout.specs.Tables.{AreOf, Extends, segment_at, stand_within};
ghost use Rattle.class_layout.specs.declared.class.Segment.{Segment as SegmentSpec};

use crate::class::{Segment, SegmentList};
use net_core::{Guid, GuidList, Items, Memory, Text};
use std::alloc::Global;

/// The guids of a path's segments, outermost first. Segments that aren't there yet are added.
pub(crate) fn add_path(
    alloc: Global,
    segments: &mut SegmentList,
    names: &[Text],
) -> Result<GuidList, Memory>
    requires few { length segments.old ≤ segment_limit }
    requires short { length names.now ≤ depth_limit }
    ensures path { (known : List Model.Segment) → AreOf segments.old known
        → IfOk result (λ path. map (segment_at segments.new) path ≡ path_under known 0 names.now) }
    ensures are { (known : List Model.Segment) → AreOf segments.old known
        → OnOk result (AreOf segments.new (known ++ path_under known 0 names.now)) }
    ensures within { IfOk result (λ path. IsTrue (stand_within (length segments.new) path)) }
    ensures extends { OnOk result (Extends segments.old segments.new) }
{
    let mut path = Vec::new(alloc);
    let mut outer = Guid(0);
    for name in names {
        outer = add_segment(alloc, segments, outer, name)?;
        path.push(outer)?;
    }
    Ok(Items::from_vec(path))
}

/// The guid of the segment of that name under an outer, which is added if it isn't there yet.
fn add_segment(
    alloc: Global,
    segments: &mut SegmentList,
    outer: Guid,
    name: &Text,
) -> Result<Guid, Memory>
    requires { length segments.old < 2 ^ 20 }
    ensures guid { (known : List Model.Segment) → AreOf segments.old known
        → IfOk result (λ guid. guid ≡ (segment_under known outer name.now).guid) }
    ensures are { (known : List Model.Segment) → AreOf segments.old known
        → OnOk result (AreOf segments.new (known ++ segment_under known outer name.now ∷ [])) }
    ensures there { IfOk result (λ guid. segment_at segments.new guid
        ≡ record { guid = guid; outer = outer; name = name.now }) }
    ensures within { IfOk result (λ guid. IsTrue (stand_within (length segments.new) (guid ∷ []))) }
    ensures extends { OnOk result (Extends segments.old segments.new) }
    ensures one { OnOk result (length segments.new ≤ length segments.old + 1) }
{
    match find_segment(segments, outer, name) {
        Some(i) => Ok(Guid(2 * i as u32 + 3)),
        None => add_new(alloc, segments, outer, name),
    }
}

/// Adds a segment that isn't there yet, and answers its guid.
fn add_new(
    alloc: Global,
    segments: &mut SegmentList,
    outer: Guid,
    name: &Text,
) -> Result<Guid, Memory>
    requires { length segments.old < 2 ^ 20 }
    ensures guid { IfOk result (λ guid. guid ≡ 2 * length segments.old + 3) }
    ensures added { OnOk result (segments.new
        ≡ segments.old ++ record { outer = outer; name = name.now } ∷ []) }
{
    let added = Guid(2 * segments.len() as u32 + 3);
    let name = name.copied(alloc)?;
    segments.push(Segment { outer, name })?;
    Ok(added)
}

/// The place of the segment of that name under an outer.
fn find_segment(segments: &SegmentList, outer: Guid, name: &Text) -> Option<usize>
    ensures { result
        ≡ list_position (λ (s : SegmentSpec). s.outer == outer && bytes_eq s.name name.now)
        segments.now }
{
    segments
        .as_slice()
        .iter()
        .position(|s| s.outer == outer && s.name == *name)
}
