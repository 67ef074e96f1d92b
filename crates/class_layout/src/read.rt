// Reading a class table: the top of its file, and then class by class.
ghost use Rattle.std.specs.Prelude.{◌≡◌, ◌<◌, ◌≤◌, ◌+◌, ◌++◌, ◌^◌, ◌&&◌, ◌-◌, [], nat_le, List, IsTrue, IfOk, OnOk, length, map};
ghost use Rattle.serde_json.specs.View.{view};
ghost use Rattle.table_model.specs.Grammar as Grammar;
ghost use Rattle.protocol_model.specs.Limits.{call_limit, class_limit, handle_limit, segment_limit};
ghost use Rattle.table_model.specs.Rules.{segments_of};
ghost use Rattle.class_layout.specs.Growing.{IsSoFar};
ghost use Rattle.class_layout.specs.Headings.{AllHaveFew, HasFew};
ghost use Rattle.class_layout.specs.Tables.{AreOf, Extends, HaveTags, class_of, entry_of, stand_within};
ghost use Rattle.class_members.specs.Members.{are_tagged, call_of, calls_after, prop_of, props_after};
ghost use Rattle.class_members.specs.declared.members.Call.{Call as CallSpec};
ghost use Rattle.class_layout.specs.declared.class.Class.{Class as ClassSpec};
ghost use Rattle.class_members.specs.declared.members.Prop.{Prop as PropSpec};
ghost use Rattle.class_layout.specs.declared.class.Segment.{Segment as SegmentSpec};
ghost use Rattle.class_members.specs.Agreement.{Reads};

use crate::class::{Class, ClassList, SegmentList};
use crate::heading::heading_after;
use crate::inherit::{inherited_calls, inherited_props};
use crate::paths::add_path;
use class_members::{CallList, PropList, TableRefusal, add_calls, add_props};
use protocol_model::limits::{CALL_LIMIT, HANDLE_LIMIT, SEGMENT_LIMIT};
use serde_json::Value as Json;
use std::alloc::Global;
use table_model::{Place, TableWhy};

/// The sizes of a class, and how many segments there are with it, are within their limits. Of its
/// handles three are those of x, y and the role.
fn sizes_fit(props: usize, calls: usize, segments: usize) -> bool
    ensures { result ≡ (nat_le props (handle_limit - 3) && nat_le calls call_limit
        && nat_le segments segment_limit) }
{
    props <= HANDLE_LIMIT - 3 && calls <= CALL_LIMIT && segments <= SEGMENT_LIMIT
}

/// The properties of a class, the inherited ones first.
fn read_props(
    alloc: Global,
    class: u32,
    classes: &ClassList,
    parent: Option<u16>,
    elements: &[Json],
) -> Result<PropList, TableRefusal>
    requires tags { HaveTags classes.now }
    requires few { length elements.now < 2 ^ 30 }
    ensures reads { (segments : List SegmentSpec)
        → Reads (λ (ps : List PropSpec). map prop_of ps) result (props_after class
        (Grammar.parent_in (map (entry_of segments) classes.now) parent).props
        (map view elements.now)) }
    ensures tags { IfOk result (λ ps. IsTrue (are_tagged ps)) }
{
    let mut props = inherited_props(alloc, classes, parent)?;
    add_props(alloc, class, &mut props, elements)?;
    Ok(props)
}

/// The calls of a class, the inherited ones first.
fn read_calls(
    alloc: Global,
    class: u32,
    classes: &ClassList,
    parent: Option<u16>,
    elements: &[Json],
) -> Result<CallList, TableRefusal>
    requires { length elements.now < 2 ^ 30 }
    ensures { (segments : List SegmentSpec)
        → Reads (λ (cs : List CallSpec). map call_of cs) result (calls_after class
        (Grammar.parent_in (map (entry_of segments) classes.now) parent).calls
        (map view elements.now)) }
{
    let mut calls = inherited_calls(alloc, classes, parent)?;
    add_calls(alloc, class, &mut calls, elements)?;
    Ok(calls)
}

/// The class of an object, of this number from 1, after the classes before it. Segments of its path
/// that aren't there yet are added.
fn class_after(
    alloc: Global,
    class: u32,
    classes: &ClassList,
    segments: &mut SegmentList,
    element: &Json,
) -> Result<Class, TableRefusal>
    requires so_far { IsSoFar classes.now segments.old }
    requires classes { length classes.now < class_limit }
    requires few { HasFew (view element.now) }
    ensures reads { Reads (entry_of segments.new) result
        (Grammar.class_after class (map (entry_of segments.old) classes.now) (view element.now)) }
    ensures tags { IfOk result (λ c. IsTrue (are_tagged c.props)) }
    ensures within { IfOk result (λ c. IsTrue (stand_within (length segments.new) c.path)) }
    ensures segments { IfOk result (λ c. AreOf segments.new
        (segments_of (map (entry_of segments.old) classes.now) ++ (class_of segments.new c).path)) }
    ensures extends { OnOk result (Extends segments.old segments.new) }
    ensures few { OnOk result (length segments.new ≤ segment_limit) }
{
    let heading = match heading_after(alloc, classes, segments, element) {
        Ok(heading) => heading,
        Err(fault) => return Err(fault.at(Place::Class { class })),
    };
    let props = read_props(alloc, class, classes, heading.parent, heading.properties)?;
    let calls = read_calls(alloc, class, classes, heading.parent, heading.calls)?;
    let path = add_path(alloc, segments, heading.path.as_slice())?;
    if !sizes_fit(props.len(), calls.len(), segments.len()) {
        return Err(TableRefusal::BadTable {
            place: Place::Class { class },
            why: TableWhy::TooMany,
        });
    }
    Ok(Class {
        name: heading.name,
        path,
        parent: heading.parent,
        reach: heading.reach,
        priority: heading.priority,
        props,
        calls,
    })
}

/// The classes of these objects, one after another, and the segments of their paths.
pub(crate) fn read_classes(
    alloc: Global,
    elements: &[Json],
) -> Result<(ClassList, SegmentList), TableRefusal>
    requires most { length elements.now ≤ class_limit }
    requires few { AllHaveFew (map view elements.now) }
    ensures reads { Reads (λ (t : List ClassSpec × List SegmentSpec). map (entry_of t.1) t.0) result
        (Grammar.classes_after [] (map view elements.now)) }
    ensures so_far { IfOk result (λ t. IsSoFar t.0 t.1) }
{
    let mut classes = ClassList::new(alloc);
    let mut segments = SegmentList::new(alloc);
    for element in elements {
        let number = classes.len() as u32 + 1;
        let class = class_after(alloc, number, &classes, &mut segments, element)?;
        classes.push(class)?;
    }
    Ok((classes, segments))
}
