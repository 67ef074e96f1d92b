// Arguments by their numbers: a call is spelled by the kinds of its class, whatever tags the caller
// gave the numbers.
ghost use Rattle.std.specs.Prelude.{◌≡◌, ◌≤◌, map, length, IsTrue, IfOk};
ghost use Rattle.protocol_model.specs.Limits.{argument_limit};
ghost use Rattle.protocol_model.specs.Payload.{Calls, message_bits};
ghost use Rattle.protocol_model.specs.Value.{args_fit, arg_fits, fits};
ghost use Rattle.class_members.specs.Members.{call_of};
ghost use Rattle.value_codec.specs.Values.{arg_of, arg_is_of, arguments_fit, is_of, whole_of};

use bit_io::{Bits, Blob, Memory};
use class_layout::{Arg, ArgList, Call, Guid, Kind, Value, check_args};
use payload_writing::call_payload;
use std::alloc::Global;
use value_codec::value_of;

/// There are as many arguments as kinds, and the number of each is one of its kind.
pub(crate) fn are_fitting(kinds: &[Kind], args: &[Arg]) -> bool
    ensures { result ≡ args_fit kinds.now (map arg_of args.now) }
{
    if kinds.len() != args.len() {
        return false;
    }
    for (kind, arg) in kinds.iter().zip(args) {
        if !is_fitting(*kind, arg) {
            return false;
        }
    }
    true
}

/// The argument's number, or its bytes, are of the kind.
fn is_fitting(kind: Kind, arg: &Arg) -> bool
    ensures { result ≡ arg_fits kind (arg_of arg.now) }
{
    match arg {
        Arg::Scalar(v) => value_of(kind, whole(*v)).is_some(),
        Arg::Bytes(bytes) => are_few(kind, bytes.as_slice()),
    }
}

/// The kind is of at least as many bytes as these.
fn are_few(kind: Kind, bytes: &[u8]) -> bool
    ensures { result ≡ arg_fits kind (arg_of (Arg.Bytes bytes.now)) }
{
    match kind {
        Kind::Bytes(most) => bytes.len() <= most as usize,
        _ => false,
    }
}

/// The number that a value is.
pub(crate) fn whole(v: Value) -> i128
    ensures { result ≡ whole_of v }
{
    match v {
        Value::Bool(b) => i128::from(b),
        Value::U8(n) => i128::from(n),
        Value::I32(n) => i128::from(n),
        Value::U32(n) => i128::from(n),
        Value::I64(n) => i128::from(n),
        Value::Enum(n) => i128::from(n),
        Value::Packed(n) => i128::from(n),
        Value::Guid(guid) => i128::from(guid),
    }
}

/// The payload of a call, whose arguments fit its kinds by their numbers.
pub(crate) fn spell_call(
    alloc: Global,
    called: &Call,
    actor: Guid,
    number: u16,
    args: &[Arg],
) -> Result<Bits, Memory>
    requires few { length called.now.args ≤ argument_limit }
    requires fit { IsTrue (args_fit called.now.args (map arg_of args.now)) }
    ensures { IfOk result (λ bits. bits ≡ message_bits
        (Calls actor number (call_of called.now) (map arg_of args.now))) }
{
    if check_args(called, args) {
        return call_payload(alloc, called, actor, number, args);
    }
    let tagged = with_tags(alloc, called.args.as_slice(), args)?;
    call_payload(alloc, called, actor, number, tagged.as_slice())
}

/// The same arguments, with the tags of their kinds.
fn with_tags(alloc: Global, kinds: &[Kind], args: &[Arg]) -> Result<ArgList, Memory>
    requires { IsTrue (args_fit kinds.now (map arg_of args.now)) }
    ensures same { IfOk result (λ list. map arg_of list ≡ map arg_of args.now) }
    ensures fit { IfOk result (λ list. IsTrue (arguments_fit kinds.now list)) }
{
    let mut list = ArgList::new(alloc);
    for (kind, arg) in kinds.iter().zip(args) {
        list.push(with_tag(alloc, *kind, arg)?)?;
    }
    Ok(list)
}

/// The same argument, with the tag of its kind.
fn with_tag(alloc: Global, kind: Kind, arg: &Arg) -> Result<Arg, Memory>
    requires { IsTrue (arg_fits kind (arg_of arg.now)) }
    ensures same { IfOk result (λ a. arg_of a ≡ arg_of arg.now) }
    ensures tag { IfOk result (λ a. IsTrue (arg_is_of kind a)) }
{
    match arg {
        Arg::Scalar(v) => Ok(Arg::Scalar(tagged(kind, *v))),
        Arg::Bytes(bytes) => {
            let copied = bytes.as_slice().to_vec(alloc)?;
            Ok(Arg::Bytes(Blob::from_vec(copied)))
        }
    }
}

/// The same number, with the tag of its kind.
fn tagged(kind: Kind, v: Value) -> Value
    requires { IsTrue (fits kind (whole_of v)) }
    ensures same { whole_of result ≡ whole_of v }
    ensures tag { IsTrue (is_of kind result) }
{
    value_of(kind, whole(v)).unwrap()
}
