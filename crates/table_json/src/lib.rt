// The objects and words of a class table's file, each read by itself.
//
// `json_of` reads the bytes into JSON, `classes_of`, `class_object`, `property_object` and
// `call_object` lend what one object has under its keys, and the functions of words give the meaning
// of one text: a name, a path, a type, a condition, the way of a call, a relevancy. It stands on
// `table_model` for which keys an object has and what each word means, on `script_model` for numbers
// in decimal, and on `serde_json` for JSON.
//
//     bytes --json_of--> {"classes":[..]} --classes_of--> [{"name":"Pawn", ..}, ..]
//                                            class_object |
//                         name "Pawn", path "/Game/Pawn", parent null, relevancy "near", cull 1000, ..
//
// A caller reads objects from the top down, and each word by itself:
//
//     let Some(json) = json_of(alloc, bytes)? else {
//         return Ok(None);
//     };
//     for element in classes_of(&json)? {
//         let object = class_object(element)?;
//         let reach = reach_of(object.relevancy, object.cull)?;
//         let path = path_of(alloc, object.path)?;
//         ..
//     }
//
// It promises that each object and each word is taken exactly where the definitions take it, with
// the meaning that they give it. It looks at no object beside another one: that names differ, that
// parents come first and that sizes fit is left to the caller.
#![tactic(auto)]

mod members;
mod names;
mod objects;
#[cfg(test)]
mod tests;
mod types;
mod words;

pub use names::{is_name, path_of};
pub use net_core::{Memory, Text, TextList};
pub use objects::{
    CallObject, ClassObject, PropertyObject, call_object, class_object, classes_of, json_of,
    property_object, text_of,
};
pub use protocol_model::{Cond, Kind, Reach, Way};
pub use table_model::TableWhy;
pub use types::type_of;
pub use words::{condition_of, reach_of, way_of};
