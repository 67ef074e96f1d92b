// Finding classes by their names and paths.
ghost use Rattle.std.specs.Prelude.{◌≡◌, ◌<◌, ◌≤◌, List, map, length, IfSome};
ghost use Rattle.std.specs.List.{list_any, position as list_position};
ghost use Rattle.std.specs.Str.{bytes_eq};
ghost use Rattle.protocol_model.specs.Limits.{class_limit};
ghost use Rattle.table_model.specs.Rules.{class_names, has_path, is_there, path_names, place_of, same_names};
ghost use Rattle.class_layout.specs.Tables.{entry_of, has_names, place_of_path, segment_at};
ghost use Rattle.class_layout.specs.declared.class.Class.{Class as ClassSpec};
ghost use Rattle.class_layout.specs.declared.class.Segment.{Segment as SegmentSpec};

use crate::class::{Class, ClassList, Segment, SegmentList};
use net_core::{Guid, Text, TextList};

/// A class has this name.
pub(crate) fn has_name(classes: &ClassList, name: &str) -> bool
    ensures { (segments : List SegmentSpec) → result
        ≡ is_there (class_names (map (entry_of segments) classes.now)) name.now }
{
    any_name(classes, name)
}

fn any_name(classes: &ClassList, name: &str) -> bool
    ensures { result ≡ list_any (λ (c : ClassSpec). bytes_eq name.now c.name) classes.now }
{
    classes.as_slice().iter().any(|c| name == c.name.as_str())
}

/// A class has this path.
pub(crate) fn has_path(classes: &ClassList, segments: &SegmentList, names: &TextList) -> bool
    ensures { result ≡ has_path (map (entry_of segments.now) classes.now) names.now }
{
    any_path(classes, segments, names)
}

fn any_path(classes: &ClassList, segments: &SegmentList, names: &TextList) -> bool
    ensures { result ≡ list_any (has_names segments.now names.now) classes.now }
{
    classes.as_slice().iter().any(|c| is_path(
        segments.as_slice(),
        c.path.as_slice(),
        names.as_slice(),
    ))
}

/// The place of the class of that name, counted from 0.
#[tactic(auto, using(crate::proofs::Finding::class_place, crate::proofs::Finding::found_within))]
pub(crate) fn find(classes: &[Class], name: &str) -> Option<u16>
    requires { length classes.now ≤ class_limit }
    ensures { (segments : List SegmentSpec)
        → result ≡ place_of (map (entry_of segments) classes.now) name.now }
{
    narrow(position(classes, name))
}

/// The place of the class that has this path, its names outermost first.
#[tactic(auto, using(crate::proofs::Finding::found_within))]
pub(crate) fn find_path(classes: &[Class], segments: &[Segment], names: &[Text]) -> Option<u16>
    requires { length classes.now ≤ class_limit }
    ensures { result ≡ place_of_path (map (entry_of segments.now) classes.now) names.now }
{
    narrow(path_position(classes, segments, names))
}

fn position(classes: &[Class], name: &str) -> Option<usize>
    ensures { result ≡ list_position (λ (c : ClassSpec). bytes_eq c.name name.now) classes.now }
{
    classes.iter().position(|c| c.name.as_str() == name)
}

fn path_position(classes: &[Class], segments: &[Segment], names: &[Text]) -> Option<usize>
    ensures { result ≡ list_position (has_names segments.now names.now) classes.now }
{
    classes
        .iter()
        .position(|c| is_path(segments, c.path.as_slice(), names))
}

/// A place in a table.
fn narrow(place: Option<usize>) -> Option<u16>
    requires { IfSome place (λ i. i < class_limit) }
    ensures { result ≡ place }
{
    match place {
        Some(i) => Some(i as u16),
        None => None,
    }
}

/// The path has these names.
fn is_path(segments: &[Segment], path: &[Guid], names: &[Text]) -> bool
    ensures { result ≡ same_names names.now (path_names (map (segment_at segments.now) path.now)) }
{
    if names.len() != path.len() {
        return false;
    }
    for (name, guid) in names.iter().zip(path) {
        if name.as_str() != name_of(segments, *guid) {
            return false;
        }
    }
    true
}

/// The name of the segment of a guid; one that isn't there has none.
fn name_of(segments: &[Segment], guid: Guid) -> &str
    ensures { result.now ≡ (segment_at segments.now guid).name }
{
    match segments.get((guid.0.saturating_sub(3) / 2) as usize) {
        Some(segment) => segment.name.as_str(),
        None => "",
    }
}
