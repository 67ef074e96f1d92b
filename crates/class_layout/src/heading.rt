// What a class says before its properties, read after the classes before it.
ghost use Rattle.std.specs.Prelude.{◌≡◌, ◌<◌, ◌≤◌, ◌^◌, List, true, false, length, map, option_map, unsigned_abs, IfOk, IfErr};
ghost use Rattle.serde_json.specs.View.{view};
ghost use Rattle.protocol_model.specs.Limits.{class_limit, priority_limit};
ghost use Rattle.table_model.specs.Rules as Rules;
ghost use Rattle.class_members.specs.Agreement.{Gives};
ghost use Rattle.class_layout.specs.Tables.{entry_of};
ghost use Rattle.class_layout.specs.Headings.{HasFew, heading_of};
ghost use Rattle.class_layout.specs.declared.class.Segment.{Segment as SegmentSpec};

use crate::class::{ClassList, SegmentList};
use crate::search;
use class_members::{Fault, must};
use net_core::{Text, TextList};
use protocol_model::Reach;
use protocol_model::limits::PRIORITY_LIMIT;
use serde_json::Value as Json;
use std::alloc::Global;
use table_json::{class_object, is_name, path_of, reach_of};
use table_model::TableWhy;

/// A class without its properties and calls, which are still to be read.
#[derive(Drop)]
pub(crate) struct Heading<'a> {
    pub(crate) name: Text,
    pub(crate) path: TextList,
    pub(crate) parent: Option<u16>,
    pub(crate) reach: Reach,
    pub(crate) priority: u8,
    pub(crate) properties: &'a [Json],
    pub(crate) calls: &'a [Json],
}

/// The place of the parent of that name, or no parent.
fn parent_of(classes: &ClassList, name: Option<&str>) -> Result<Option<u16>, TableWhy>
    requires { length classes.now ≤ class_limit }
    ensures { (segments : List SegmentSpec) → result
        ≡ Rules.parent_of (map (entry_of segments) classes.now)
        (option_map (λ n. n.now) name.entry) }
{
    let Some(name) = name else {
        return Ok(None);
    };
    match search::find(classes.as_slice(), name) {
        Some(place) => Ok(Some(place)),
        None => Err(TableWhy::Parent),
    }
}

/// The priority that a number is; `Range` exactly where it isn't 1 to the greatest one.
fn priority_of(n: i128) -> Result<u8, TableWhy>
    ensures ok { IfOk result (λ priority. (Rules.is_from_to 1 priority_limit n ≡ true)
        × (priority ≡ unsigned_abs n)) }
    ensures err { IfErr result (λ why. (Rules.is_from_to 1 priority_limit n ≡ false)
        × (why ≡ TableWhy.Range)) }
{
    if 1 <= n && n <= i128::from(PRIORITY_LIMIT) {
        Ok(n as u8)
    } else {
        Err(TableWhy::Range)
    }
}

/// The heading of an object, after the classes before it.
pub(crate) fn heading_after<'a>(
    alloc: Global,
    classes: &ClassList,
    segments: &SegmentList,
    element: &'a Json,
) -> Result<Heading<'a>, Fault>
    requires classes { length classes.now ≤ class_limit }
    requires few { HasFew (view element.now) }
    ensures gives { Gives heading_of result
        (Rules.heading_after (map (entry_of segments.now) classes.now) (view element.now)) }
    ensures properties { IfOk result (λ h. length h.properties.now < 2 ^ 30) }
    ensures calls { IfOk result (λ h. length h.calls.now < 2 ^ 30) }
{
    let Some(object) = class_object(element) else {
        return Err(Fault::Broken(TableWhy::Shape));
    };
    must(is_name(object.name), TableWhy::Name)?;
    must(!search::has_name(classes, object.name), TableWhy::Twice)?;
    let Some(path) = path_of(alloc, object.path)? else {
        return Err(Fault::Broken(TableWhy::Name));
    };
    must(!search::has_path(classes, segments, &path), TableWhy::Twice)?;
    let parent = parent_of(classes, object.parent)?;
    let reach = reach_of(object.relevancy, object.cull)?;
    let priority = priority_of(object.priority)?;
    let name = Text::from_str(alloc, object.name)?;
    Ok(Heading {
        name,
        path,
        parent,
        reach,
        priority,
        properties: object.properties,
        calls: object.calls,
    })
}
