// Class tables: which properties and calls each class has.
//
// `Classes::read` reads a table from its file, a JSON object of this project's own format, after
// what Unreal's reflection tells of a class: its properties with their replication conditions, its
// remote procedure calls, and its path, whose segments have NetGUIDs. A class inherits its parent's
// properties and calls and lists them before its own, so that a handle is the same in both.
//
//     /Game/Pawn                         handles 1 x, 2 y, 3 role, 4 hp, 5 ammo, ..
//      |    `-- segment 5, outer 3       calls   1 fire, 2 hurt, ..
//      `------- segment 3, outer 0
//
// A caller reads a table and looks a property up by its handle:
//
//     let classes = Classes::read(alloc, file)?;
//     let Some(place) = classes.find("Pawn") else {
//         return Ok(None);
//     };
//     let class = classes.class(place).ok_or("no class")?;
//     let health = &class.props[4 - 4]; // x, y and the role aren't among the class's own
//     if fits(health.kind, value) {
//         ..
//     }
//
// It stands on `table_model` for which files are tables and why any other is refused, on
// `table_json` for a table's objects and words, on `class_members` for properties and calls, and on
// `value_codec` for their values.
//
// It promises that a file is read exactly where the definitions accept it, with their classes, and
// is refused with their first broken rule and its place; and that every table in memory keeps the
// rules. It knows no actor and no payload, and takes no memory after a table is read.
#![tactic(auto)]

mod class;
mod classes;
mod heading;
mod inherit;
mod paths;
mod read;
mod search;

pub use class::{Class, ClassList, Segment};
pub use class_members::{
    Call, CallList, KindList, Place, Prop, PropList, TableRefusal, TableWhy, check_args,
};
pub use classes::Classes;
pub use net_core::{Guid, GuidList, Handle, Items, Memory, Text, TextList};
pub use protocol_model::{CallAnswer, CallVerdict, Cond, Kind, NumRefusal, Reach, Way};
pub use value_codec::{
    Arg, ArgList, BitReader, BitWriter, Blob, Handed, HandedList, Pair, PairList, Value, args_fit,
    fits, get_value, put_value,
};
