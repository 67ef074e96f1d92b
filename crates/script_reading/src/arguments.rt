// Values and arguments.
ghost use Rattle.std.specs.Prelude.{◌≡◌, IsTrue, option_map, map, IfOk, IfSome};
ghost use Rattle.value_codec.specs.Values.{whole_of, is_of, arg_of, arg_is_of, args_are_of};
ghost use Rattle.class_members.specs.Members.{call_of};
ghost use Rattle.script_model.specs.ScriptRules as rules;
ghost use Rattle.script_spelling.specs.Fields.{pieces_after};
ghost use Rattle.script_reading.specs.Judging as judging;
ghost use Rattle.script_reading.specs.Judging.{args_in};
ghost use Rattle.script_reading.specs.KeptIn.{seen_by};
ghost use Rattle.script_reading.specs.Taken.{IsSmall, in_kind, take_arg};
ghost use Rattle.script_reading.specs.Tells.{Tells};

use crate::refusal::Stop;
use class_layout::Call;
use net_core::Memory;
use protocol_model::{Kind, LineWhy};
use script_spelling::{first_piece, number, octets};
use std::alloc::Global;
use value_codec::{Arg, ArgList, Value, value_of};

// An enum has fewer values than numbers are told apart.
fn is_small(kind: Kind)
    ensures { IsSmall kind }
{
    match kind {
        Kind::Enum(_count) => (),
        _ => (),
    }
}

fn in_kind(kind: Kind, n: Option<i128>) -> Result<Value, LineWhy>
    ensures number { seen_by whole_of result ≡ in_kind kind n }
    ensures tag { IfOk result (λ v. IsTrue (is_of kind v)) }
{
    let Some(n) = n else {
        return Err(LineWhy::Value);
    };
    match value_of(kind, n) {
        Some(value) => Ok(value),
        None => Err(LineWhy::Value),
    }
}

/// The value of the kind that the text spells.
pub(crate) fn value(kind: Kind, text: &[u8]) -> Result<Value, LineWhy>
    ensures number { seen_by whole_of result ≡ judging.value_of kind text.now }
    ensures tag { IfOk result (λ v. IsTrue (is_of kind v)) }
{
    is_small(kind);
    let n = number(text);
    in_kind(kind, n)
}

fn scalar(kind: Kind, text: &[u8]) -> Option<Arg>
    ensures number { option_map arg_of result ≡ rules.scalar_of kind text.now }
    ensures tag { IfSome result (λ a. IsTrue (arg_is_of kind a)) }
{
    match value(kind, text) {
        Ok(value) => Some(Arg::Scalar(value)),
        Err(_) => None,
    }
}

// At most so many bytes.
fn bytes(alloc: Global, most: u16, text: &[u8]) -> Result<Option<Arg>, Memory>
    ensures bytes { IfOk result (λ a. option_map arg_of a ≡ rules.octets_arg most text.now) }
    ensures tag { IfOk result (λ a. IfSome a (λ a. IsTrue (arg_is_of (Kind.Bytes most) a))) }
{
    let Some(bytes) = octets(alloc, text)? else {
        return Ok(None);
    };
    if bytes.len() > most as usize {
        return Ok(None);
    }
    Ok(Some(Arg::Bytes(bytes)))
}

fn argument(alloc: Global, kind: Kind, text: &[u8]) -> Result<Option<Arg>, Memory>
    ensures argument { IfOk result (λ a. option_map arg_of a ≡ rules.arg_of kind text.now) }
    ensures tag { IfOk result (λ a. IfSome a (λ a. IsTrue (arg_is_of kind a))) }
{
    match kind {
        Kind::Bytes(most) => bytes(alloc, most, text),
        _ => Ok(scalar(kind, text)),
    }
}

// The first field's argument, and the fields after it.
fn next_argument(
    alloc: Global,
    kind: Kind,
    fields: Option<&[u8]>,
) -> Result<Option<(Arg, Option<&[u8]>)>, Memory>
    ensures exact { IfOk result (λ r. option_map (λ a. (arg_of a.0, pieces_after 32 a.1)) r
        ≡ take_arg kind (pieces_after 32 fields.entry)) }
    ensures tag { IfOk result (λ r. IfSome r (λ r. IsTrue (arg_is_of kind r.0))) }
{
    let Some(text) = fields else {
        return Ok(None);
    };
    let (field, later) = first_piece(text, 32);
    let Some(arg) = argument(alloc, kind, field)? else {
        return Ok(None);
    };
    Ok(Some((arg, later)))
}

// One for each kind.
fn all_arguments(
    alloc: Global,
    kinds: &[Kind],
    fields: Option<&[u8]>,
) -> Result<Option<ArgList>, Memory>
    ensures exact { IfOk result (λ args. option_map (map arg_of) args
        ≡ rules.args_of kinds.now (pieces_after 32 fields.entry)) }
    ensures tags { IfOk result (λ args. IfSome args (λ args. IsTrue (args_are_of kinds.now args))) }
{
    let mut args = ArgList::new(alloc);
    let mut rest = fields;
    for kind in kinds {
        let Some((arg, later)) = next_argument(alloc, *kind, rest)? else {
            return Ok(None);
        };
        args.push(arg)?;
        rest = later;
    }
    Ok(Some(args))
}

/// The arguments of the call that the fields spell.
#[tactic(auto, unfolding(crate::specs::Judging::args_in))]
pub(crate) fn arguments(alloc: Global, call: &Call, fields: Option<&[u8]>) -> Result<ArgList, Stop>
    ensures exact { Tells (map arg_of) (args_in (call_of call.now) (pieces_after 32 fields.entry))
        result }
    ensures tags { IfOk result (λ args. IsTrue (args_are_of call.now.args args)) }
{
    match all_arguments(alloc, call.args.as_slice(), fields)? {
        Some(args) => Ok(args),
        None => Err(Stop::Why(LineWhy::Value)),
    }
}
