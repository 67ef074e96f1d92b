// What a class inherits.
ghost use Rattle.std.specs.Prelude.{◌≡◌, List, map, slice_get, option_and_then, IfOk, IsTrue};
ghost use Rattle.std.specs.Option.{option_copied};
ghost use Rattle.table_model.specs.Grammar.{parent_in};
ghost use Rattle.class_layout.specs.Tables.{HaveTags, entry_of};
ghost use Rattle.class_members.specs.Members.{are_tagged, call_of, prop_of};
ghost use Rattle.class_layout.specs.declared.class.Segment.{Segment as SegmentSpec};

use crate::class::{Class, ClassList};
use class_members::{CallList, PropList, copied_calls, copied_props};
use net_core::Memory;
use std::alloc::Global;

/// The properties of the parent, or none.
pub(crate) fn inherited_props(
    alloc: Global,
    classes: &ClassList,
    parent: Option<u16>,
) -> Result<PropList, Memory>
    requires { HaveTags classes.now }
    ensures props { (segments : List SegmentSpec) → IfOk result (λ ps. map prop_of ps
        ≡ (parent_in (map (entry_of segments) classes.now) parent).props) }
    ensures tags { IfOk result (λ ps. IsTrue (are_tagged ps)) }
{
    match parent_class(classes, parent) {
        Some(class) => copied_props(alloc, &class.props),
        None => Ok(PropList::new(alloc)),
    }
}

/// The calls of the parent, or none.
pub(crate) fn inherited_calls(
    alloc: Global,
    classes: &ClassList,
    parent: Option<u16>,
) -> Result<CallList, Memory>
    ensures { (segments : List SegmentSpec) → IfOk result (λ cs. map call_of cs
        ≡ (parent_in (map (entry_of segments) classes.now) parent).calls) }
{
    match parent_class(classes, parent) {
        Some(class) => copied_calls(alloc, &class.calls),
        None => Ok(CallList::new(alloc)),
    }
}

/// The class at the parent's place.
fn parent_class(classes: &ClassList, parent: Option<u16>) -> Option<&Class>
    ensures { option_copied result ≡ option_and_then (λ n. slice_get classes.now n) parent }
{
    match parent {
        Some(place) => classes.get(place as usize),
        None => None,
    }
}
