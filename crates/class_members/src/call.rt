// Calls of a class, read one after another.
ghost use Rattle.std.specs.Prelude.{◌≡◌, ⊤, ◌<◌, ◌≤◌, ◌^◌, List, length, map};
ghost use Rattle.std.specs.List.{AllPass, list_any};
ghost use Rattle.std.specs.Str.{bytes_eq};
ghost use Rattle.serde_json.specs.View.{view};
ghost use Rattle.protocol_model.specs.Bits.{int_width};
ghost use Rattle.table_model.specs.Rules as Rules;
ghost use Rattle.table_json.specs.Objects.{is_text, text_in};
ghost use Rattle.protocol_model.specs.declared.Kind.{Kind as KindSpec};
ghost use Rattle.class_members.specs.Agreement.{Gives, Reads};
ghost use Rattle.class_members.specs.Members.{call_of, calls_after};
ghost use Rattle.class_members.specs.declared.members.Call.{Call as CallSpec};
ghost use Rattle.value_codec.specs.Values.{arguments_fit};

use crate::members::{Call, CallList, KindList};
use crate::refusal::{Fault, TableRefusal, must};
use net_core::Text;
use protocol_model::Kind;
use protocol_model::limits::{ARGUMENT_LIMIT, RELIABLE_CALL_BITS, UNRELIABLE_CALL_BITS};
use serde_json::Value as Json;
use std::alloc::Global;
use table_json::{call_object, is_name, text_of, type_of, way_of};
use table_model::{Place, TableWhy};
use value_codec::{Arg, args_fit};

/// The longest spelling of a number below `max`, in bits.
fn longest_int(max: u32) -> u32
    requires { max ≤ 65536 }
    ensures exact { result ≡ int_width max 0 }
    ensures short { result ≤ 16 }
{
    let mut width = 0u32;
    while width < 16 && (1u32 << width) < max {
        width += 1;
    }
    width
}

/// How many bits the longest argument of a kind takes.
fn most_bits(kind: Kind) -> u32
    ensures exact { result ≡ Rules.most_bits kind }
    ensures short { result ≤ 600000 }
{
    match kind {
        Kind::Bool => 1,
        Kind::U8 => 8,
        Kind::I32 | Kind::U32 => 32,
        Kind::I64 => 64,
        Kind::Packed | Kind::Guid => 40,
        Kind::Enum(count) => longest_int(u32::from(count)),
        Kind::Bytes(most) => longest_int(u32::from(most) + 1) + 8 * u32::from(most),
    }
}

/// How many bits the longest arguments of these kinds take.
fn largest_args(kinds: &[Kind]) -> u32
    requires { length kinds.now ≤ 16 }
    ensures { result ≡ Rules.largest_args kinds.now }
{
    let mut sum = 0;
    for kind in kinds {
        sum += most_bits(*kind);
    }
    sum
}

/// The kinds of arguments, by their types.
fn arg_kinds(alloc: Global, types: &[Json]) -> Result<KindList, Fault>
    requires { AllPass is_text types.now }
    ensures gives { Gives (λ (kinds : List KindSpec). kinds) result
        (Rules.arg_kinds (map text_in types.now)) }
{
    let mut kinds = KindList::new(alloc);
    for word in types {
        kinds.push(type_of(text_of(word), true)?)?;
    }
    Ok(kinds)
}

/// The name is one of these calls'.
fn is_taken(calls: &[Call], name: &str) -> bool
    ensures { result ≡ Rules.is_there (Rules.call_names (map call_of calls.now)) name.now }
{
    is_there(calls, name)
}

fn is_there(calls: &[Call], name: &str) -> bool
    ensures { result ≡ list_any (λ (c : CallSpec). bytes_eq name.now c.name) calls.now }
{
    calls.iter().any(|c| name == c.name.as_str())
}

/// The call of an object, after those before it.
fn call_after(alloc: Global, before: &CallList, element: &Json) -> Result<Call, Fault>
    ensures { Gives call_of result
        (Rules.call_after (map call_of before.now) (view element.now)) }
{
    let Some(object) = call_object(element) else {
        return Err(Fault::Broken(TableWhy::Shape));
    };
    must(is_name(object.name), TableWhy::Name)?;
    must(!is_taken(before.as_slice(), object.name), TableWhy::Twice)?;
    let Some(way) = way_of(object.kind) else {
        return Err(Fault::Broken(TableWhy::BadType));
    };
    let args = arg_kinds(alloc, object.args)?;
    must(args.len() <= ARGUMENT_LIMIT, TableWhy::Range)?;
    let most = if object.reliable {
        RELIABLE_CALL_BITS
    } else {
        UNRELIABLE_CALL_BITS
    };
    must(largest_args(args.as_slice()) <= most, TableWhy::TooBig)?;
    let name = Text::from_str(alloc, object.name)?;
    Ok(Call {
        name,
        way,
        reliable: object.reliable,
        args,
    })
}

/// The arguments are ones of the call: as many as its kinds, each with its kind's tag and one of its
/// values.
pub fn check_args(call: &Call, args: &[Arg]) -> bool
    ensures { result ≡ arguments_fit call.now.args args.now }
{
    args_fit(call.args.as_slice(), args)
}

/// Appends the calls of these elements, one after another. `class` is the class's number, from 1, in
/// the places of refusals; after one the list may have grown.
pub fn add_calls(
    alloc: Global,
    class: u32,
    calls: &mut CallList,
    elements: &[Json],
) -> Result<(), TableRefusal>
    requires { length elements.now < 2 ^ 30 }
    ensures { Reads (λ (u : ⊤). map call_of calls.new) result
        (calls_after class (map call_of calls.old) (map view elements.now)) }
{
    let mut number = 1;
    for element in elements {
        match call_after(alloc, calls, element) {
            Ok(call) => calls.push(call)?,
            Err(fault) => return Err(fault.at(Place::Call {
                class,
                call: number,
            })),
        }
        number += 1;
    }
    Ok(())
}
