// The objects of a class table's file.
ghost use Rattle.std.specs.Prelude.{◌≡◌, map, option_map, IfOk, IfSome, IsTrue};
ghost use Rattle.std.specs.List.{AllPass};
ghost use Rattle.serde_json.specs.View.{view};
ghost use Rattle.table_model.specs.Grammar.{json_of};
ghost use Rattle.table_model.specs.Objects.{classes_of, class_object, property_object, call_object};
ghost use Rattle.table_json.specs.Objects.{is_text, text_in, class_object_of, property_object_of, call_object_of};

use crate::members::{flag_at, list_at, members_of, text_at, text_or_null_at, texts_at, whole_at};
use net_core::Memory;
use serde_json::Value as Json;
use std::alloc::Global;

/// A class as its object spells it. Its properties and calls aren't looked at yet.
#[derive(Clone, Copy, Debug, PartialEq)]
pub struct ClassObject<'a> {
    pub name: &'a str,
    pub path: &'a str,
    /// The name of the parent; `None` for null.
    pub parent: Option<&'a str>,
    pub relevancy: &'a str,
    /// The cull distance: any number that 64 bits have, with a sign or without one.
    pub cull: i128,
    /// Any number that 64 bits have, with a sign or without one.
    pub priority: i128,
    pub properties: &'a [Json],
    pub calls: &'a [Json],
}

/// A property as its object spells it.
#[derive(Clone, Copy, Debug, PartialEq)]
pub struct PropertyObject<'a> {
    pub name: &'a str,
    /// The word under `type`.
    pub type_word: &'a str,
    /// The word for its condition.
    pub cond: &'a str,
    /// Its initial value: any number that 64 bits have, with a sign or without one.
    pub init: i128,
}

/// A call as its object spells it.
#[derive(Clone, Copy, Debug, PartialEq)]
pub struct CallObject<'a> {
    pub name: &'a str,
    /// The word for the way that it goes.
    pub kind: &'a str,
    pub reliable: bool,
    /// The arguments' types, each of which is a text; `text_of` lends it.
    pub args: &'a [Json],
}

/// The value of the bytes; `None` exactly where they are no JSON in UTF-8.
pub fn json_of(alloc: Global, bytes: &[u8]) -> Result<Option<Json>, Memory>
    ensures { IfOk result (λ value. option_map view value ≡ json_of bytes.now) }
{
    let Ok(text) = std::str::from_utf8(bytes) else {
        return Ok(None);
    };
    match Json::from_str(alloc, text) {
        Ok(value) => Ok(Some(value)),
        Err(error) => if error.is_memory() {
            Err(Memory)
        } else {
            Ok(None)
        },
    }
}

/// The classes of a whole file, which is an object with the key `classes` alone.
pub fn classes_of(top: &Json) -> Option<&[Json]>
    ensures { option_map (λ classes. map view classes.now) result ≡ classes_of (view top.now) }
{
    list_at(members_of(top, 1)?, "classes")
}

/// The object of a class; `None` exactly where a key is missing, is one too many, or has a value of
/// another kind.
pub fn class_object(v: &Json) -> Option<ClassObject<'_>>
    ensures { option_map class_object_of result ≡ class_object (view v.now) }
{
    let members = members_of(v, 8)?;
    Some(ClassObject {
        name: text_at(members, "name")?,
        path: text_at(members, "path")?,
        parent: text_or_null_at(members, "parent")?,
        relevancy: text_at(members, "relevancy")?,
        cull: whole_at(members, "cull")?,
        priority: whole_at(members, "priority")?,
        properties: list_at(members, "properties")?,
        calls: list_at(members, "calls")?,
    })
}

/// The object of a property; `None` exactly where a key is missing, is one too many, or has a value
/// of another kind.
pub fn property_object(v: &Json) -> Option<PropertyObject<'_>>
    ensures { option_map property_object_of result ≡ property_object (view v.now) }
{
    let members = members_of(v, 4)?;
    Some(PropertyObject {
        name: text_at(members, "name")?,
        type_word: text_at(members, "type")?,
        cond: text_at(members, "cond")?,
        init: whole_at(members, "init")?,
    })
}

/// The object of a call; `None` exactly where a key is missing, is one too many, or has a value of
/// another kind, an argument that is no text among them.
pub fn call_object(v: &Json) -> Option<CallObject<'_>>
    ensures exact { option_map call_object_of result ≡ call_object (view v.now) }
    ensures texts { IfSome result (λ call. AllPass is_text call.args.now) }
{
    let members = members_of(v, 4)?;
    Some(CallObject {
        name: text_at(members, "name")?,
        kind: text_at(members, "kind")?,
        reliable: flag_at(members, "reliable")?,
        args: texts_at(members, "args")?,
    })
}

/// The text that a value is.
pub fn text_of(v: &Json) -> &str
    requires { IsTrue (is_text v.now) }
    ensures { result.now ≡ text_in v.now }
{
    v.as_str().unwrap()
}
