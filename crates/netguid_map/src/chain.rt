// Finding the class that a name stands for.
ghost use Rattle.std.specs.Prelude.{◌≡◌, ◌+◌, ◌<◌, ◌≤◌, ℕ, List, map, find, length, option_map, IfSome};
ghost use Rattle.std.specs.Str.{bytes_eq};
ghost use Rattle.protocol_model.specs.Value.{Segment};
ghost use Rattle.protocol_model.specs.World.{class_at};
ghost use Rattle.class_layout.specs.Tables.{segment_at, table_in};
ghost use Rattle.netguid_map.specs.Names.{Stands};
ghost use Rattle.netguid_map.specs.Chains.{AreThere, IsThere, has_names, is_path, names_up, most_above};

use crate::names::Learnt;
use class_layout::{Classes, Guid};
use std::collections::BTreeMap;

/// The place of the class whose path has the names from a learnt one up.
pub(crate) fn class_place(
    names: &BTreeMap<u32, Learnt>,
    classes: &Classes,
    known: &Learnt,
) -> Option<u16>
    ensures place { (learnt : List Segment) → Stands names.now.entries learnt
        → find (has_names (names_up learnt most_above known.now)) (table_in classes.now)
        ≡ option_map (class_at (table_in classes.now)) result }
    ensures within { IfSome result (λ place. place < length classes.now.classes) }
{
    for place in 0..classes.count() {
        if is_class(names, classes, known, place) {
            return Some(place);
        }
    }
    None
}

/// The path of the class at a place has the names from a learnt one up.
fn is_class(names: &BTreeMap<u32, Learnt>, classes: &Classes, known: &Learnt, place: u16) -> bool
    requires { place < length classes.now.classes }
    ensures { (learnt : List Segment) → Stands names.now.entries learnt
        → result ≡ has_names (names_up learnt most_above known.now)
        (class_at (table_in classes.now) place) }
{
    classes.keeps_rules();
    match classes.class(place) {
        Some(class) => leads_up(names, classes, known, class.path.as_slice()),
        None => false,
    }
}

/// A path has the names from a learnt one up. The last names are compared first, since they differ
/// most.
fn leads_up(names: &BTreeMap<u32, Learnt>, classes: &Classes, known: &Learnt, path: &[Guid]) -> bool
    requires { AreThere classes.now.segments path.now }
    ensures { (learnt : List Segment) (most : ℕ) → Stands names.now.entries learnt
        → length path.now ≤ most + 1
        → result ≡ is_path (names_up learnt most known.now)
        (map (segment_at classes.now.segments) path.now) }
{
    let Some((last, outer)) = path.split_last() else {
        return false;
    };
    if !is_named(classes, *last, known.name.as_slice()) {
        return false;
    }
    if known.outer == 0 {
        return outer.is_empty();
    }
    match names.get(&known.outer) {
        Some(above) => leads_up(names, classes, above, outer),
        None => false,
    }
}

/// The segment of a guid of the table has this name.
fn is_named(classes: &Classes, guid: Guid, name: &[u8]) -> bool
    requires { IsThere classes.now.segments guid }
    ensures { result ≡ bytes_eq (segment_at classes.now.segments guid).name name.now }
{
    classes.keeps_rules();
    match classes.segment(guid) {
        Some(segment) => segment.name.as_bytes() == name,
        None => false,
    }
}
