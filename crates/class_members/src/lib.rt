// The members of a class: its properties and its calls, each read from its object in a class table.
//
//     {"name":"hp", "type":"u8", "cond":"none", "init":100}  -->  Prop { name, kind, cond, init }
//     {"name":"fire", "kind":"server", "reliable":true, "args":["i32"]}  -->  Call { name, way, .. }
//
// A class's own members come behind the ones that it inherits:
//
//     let mut props = copied_props(alloc, &parent.props)?;
//     add_props(alloc, class, &mut props, object.properties)?;
//     let mut calls = copied_calls(alloc, &parent.calls)?;
//     add_calls(alloc, class, &mut calls, object.calls)?;
//
// It stands on `table_model` for which objects are members and why any other is refused, on
// `table_json` for their words, and on `value_codec` for initial values.
//
// It promises that members are read exactly where the definitions take them, one after another, and
// that else the first broken rule is told with its place; and that an initial value has its kind's
// tag. Names and paths of classes, parents and sizes are looked at above.
#![tactic(auto)]

mod call;
mod members;
mod property;
mod refusal;

pub use call::{add_calls, check_args};
pub use members::{Call, CallList, KindList, Prop, PropList, copied_calls, copied_props};
pub use net_core::{Items, Memory, Text};
pub use property::add_props;
pub use protocol_model::{Cond, Kind, Way};
pub use refusal::{Fault, TableRefusal, must};
pub use table_model::{Place, TableWhy};
pub use value_codec::{Arg, Value};
