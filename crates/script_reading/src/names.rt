// Names of classes, properties and calls.
ghost use Rattle.std.specs.Prelude.{◌≡◌, ◌<◌, ◌≤◌, length, map, IfSome};
ghost use Rattle.std.specs.Str.{bytes_eq};
ghost use Rattle.protocol_model.specs.World.{class_at};
ghost use Rattle.class_layout.specs.Tables.{table_in};
ghost use Rattle.class_members.specs.Members.{prop_of, call_of};
ghost use Rattle.script_model.specs.ScriptRules as rules;
ghost use Rattle.script_reading.specs.Judging.{class_of, settable_of, switchable_of, called_of};
ghost use Rattle.script_reading.specs.KeptIn.{seen_by};
ghost use Rattle.script_reading.specs.Members.{prop_place, call_place, is_built_in, settable_in, switchable_in, called_in};

use class_layout::{Call, Classes, Prop};
use net_core::Handle;
use protocol_model::{Cond, Kind, LineWhy};

fn are_same(one: &[u8], other: &[u8]) -> bool
    ensures { result ≡ bytes_eq one.now other.now }
{
    one == other
}

/// The properties of the class at a place of the table, none where there is no class.
pub(crate) fn props_at(classes: &Classes, class: u16) -> &[Prop]
    ensures props { map prop_of result.now ≡ (class_at (table_in classes.now) class).props }
    ensures few { length result.now ≤ 200 }
{
    classes.keeps_rules();
    match classes.class(class) {
        Some(class) => class.props.as_slice(),
        None => &[],
    }
}

/// Its calls.
pub(crate) fn calls_at(classes: &Classes, class: u16) -> &[Call]
    ensures calls { map call_of result.now ≡ (class_at (table_in classes.now) class).calls }
    ensures few { length result.now ≤ 64 }
{
    classes.keeps_rules();
    match classes.class(class) {
        Some(class) => class.calls.as_slice(),
        None => &[],
    }
}

fn is_named(classes: &Classes, place: u16, name: &[u8]) -> bool
    requires { place < length classes.now.classes }
    ensures { result ≡ bytes_eq (class_at (table_in classes.now) place).name name.now }
{
    match classes.class(place) {
        Some(class) => are_same(class.name.as_bytes(), name),
        None => false,
    }
}

#[tactic(auto, using(crate::proofs::Finding::first_named, crate::proofs::Finding::none_named, crate::proofs::Finding::one_more))]
fn class_place(classes: &Classes, name: &[u8]) -> Option<u16>
    ensures { result ≡ rules.class_named (table_in classes.now) name.now }
{
    for place in 0..classes.count() {
        if is_named(classes, place, name) {
            return Some(place);
        }
    }
    None
}

/// The place in the table of the class of a name.
#[tactic(auto, unfolding(crate::specs::Judging::class_of))]
pub(crate) fn class_named(classes: &Classes, name: &[u8]) -> Result<u16, LineWhy>
    ensures { result ≡ class_of (table_in classes.now) name.now }
{
    match class_place(classes, name) {
        Some(place) => Ok(place),
        None => Err(LineWhy::NoClass),
    }
}

fn prop_place(props: &[Prop], name: &[u8]) -> Option<usize>
    ensures exact { result ≡ prop_place props.now name.now }
    ensures within { IfSome result (λ n. n < length props.now) }
{
    props.iter().position(|p| p.name.as_bytes() == name)
}

// Any but the role.
fn settable_in(props: &[Prop], name: &[u8]) -> Result<(Handle, Kind), LineWhy>
    requires { length props.now ≤ 200 }
    ensures { result ≡ settable_in props.now name.now }
{
    if are_same(b"x", name) {
        return Ok((Handle(1), Kind::I32));
    }
    if are_same(b"y", name) {
        return Ok((Handle(2), Kind::I32));
    }
    if are_same(b"role", name) {
        return Err(LineWhy::NoName);
    }
    let Some(place) = prop_place(props, name) else {
        return Err(LineWhy::NoName);
    };
    match props.get(place) {
        Some(p) => Ok((Handle(place as u16 + 4), p.kind)),
        None => Err(LineWhy::NoName),
    }
}

/// The property of a name that can be set: its handle and its kind.
pub(crate) fn settable(
    classes: &Classes,
    class: u16,
    name: &[u8],
) -> Result<(Handle, Kind), LineWhy>
    ensures { result ≡ settable_of (class_at (table_in classes.now) class) name.now }
{
    let props = props_at(classes, class);
    settable_in(props, name)
}

fn is_built_in(name: &[u8]) -> bool
    ensures { result ≡ is_built_in name.now }
{
    are_same(b"x", name) || are_same(b"y", name) || are_same(b"role", name)
}

fn switchable_in(props: &[Prop], name: &[u8]) -> Result<Handle, LineWhy>
    requires { length props.now ≤ 200 }
    ensures { result ≡ switchable_in props.now name.now }
{
    if is_built_in(name) {
        return Err(LineWhy::NoName);
    }
    let Some(place) = prop_place(props, name) else {
        return Err(LineWhy::NoName);
    };
    match props.get(place) {
        Some(p) => match p.cond {
            Cond::Custom => Ok(Handle(place as u16 + 4)),
            _ => Err(LineWhy::NoName),
        },
        None => Err(LineWhy::NoName),
    }
}

/// The handle of a custom property of a name.
pub(crate) fn switchable(classes: &Classes, class: u16, name: &[u8]) -> Result<Handle, LineWhy>
    ensures { result ≡ switchable_of (class_at (table_in classes.now) class) name.now }
{
    let props = props_at(classes, class);
    switchable_in(props, name)
}

fn call_place(calls: &[Call], name: &[u8], count: usize) -> Option<usize>
    ensures exact { result ≡ call_place calls.now name.now count }
    ensures within { IfSome result (λ n. n < length calls.now) }
{
    calls
        .iter()
        .position(|c| c.name.as_bytes() == name && c.args.len() == count)
}

fn called_in<'a>(calls: &'a [Call], name: &[u8], count: usize) -> Result<(u16, &'a Call), LineWhy>
    requires { length calls.now ≤ 64 }
    ensures { seen_by (λ r. (r.0, r.1.now)) result ≡ called_in calls.now name.now count }
{
    let Some(place) = call_place(calls, name, count) else {
        return Err(LineWhy::NoName);
    };
    match calls.get(place) {
        Some(call) => Ok((place as u16 + 1, call)),
        None => Err(LineWhy::NoName),
    }
}

/// The call of a name with so many arguments, and its number.
pub(crate) fn called<'a>(
    classes: &'a Classes,
    class: u16,
    name: &[u8],
    count: usize,
) -> Result<(u16, &'a Call), LineWhy>
    ensures { seen_by (λ r. (r.0, call_of r.1.now)) result
        ≡ called_of (class_at (table_in classes.now) class) name.now count }
{
    let calls = calls_at(classes, class);
    called_in(calls, name, count)
}
