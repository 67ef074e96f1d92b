// The payload of a call.
ghost use Rattle.std.specs.Prelude.{◌≡◌, ◌≤◌, ◌+◌, ◌*◌, ◌^◌, IfOk, IsTrue, length, map};
ghost use Rattle.protocol_model.specs.Limits.{argument_limit};
ghost use Rattle.protocol_model.specs.Payload.{Calls, message_bits, arg_bits, args_bits};
ghost use Rattle.protocol_model.specs.Value.{Octets};
ghost use Rattle.class_members.specs.Members.{call_of};
ghost use Rattle.value_codec.specs.Values.{arg_of, argument_fits, arguments_fit};
ghost use Rattle.bit_io.specs.Written.{Appends};
ghost use Rattle.payload_writing.specs.Room.{arg_room, args_room};

use crate::fields::{put_guid, put_octets};
use bit_io::{BitWriter, Bits, Memory};
use class_layout::{Arg, Call, Kind, put_value};
use net_core::Guid;
use std::alloc::Global;

/// The payload of a call of an actor, by its number in the actor's class, with arguments that fit
/// it.
pub fn call_payload(
    alloc: Global,
    called: &Call,
    actor: Guid,
    number: u16,
    args: &[Arg],
) -> Result<Bits, Memory>
    requires few { length called.now.args ≤ argument_limit }
    requires fit { IsTrue (arguments_fit called.now.args args.now) }
    ensures { IfOk result (λ bits. bits ≡ message_bits
        (Calls actor number (call_of called.now) (map arg_of args.now))) }
{
    let kinds = called.args.as_slice();
    let mut w = BitWriter::with_room(alloc, 81 + room_for(kinds, args))?;
    w.put_bit(true);
    put_guid(&mut w, actor);
    w.put_packed(u32::from(number));
    put_args(&mut w, kinds, args);
    Ok(w.into_bits())
}

/// Room for arguments of these kinds.
fn room_for(kinds: &[Kind], args: &[Arg]) -> usize
    requires few { length kinds.now ≤ argument_limit }
    requires fit { IsTrue (arguments_fit kinds.now args.now) }
    ensures room { result ≡ args_room args.now }
    ensures most { result ≤ 2 ^ 24 }
{
    let mut room = 0;
    for (kind, arg) in kinds.iter().zip(args) {
        room += room_of(*kind, arg);
    }
    room
}

/// Room for an argument of the kind.
fn room_of(kind: Kind, arg: &Arg) -> usize
    requires { IsTrue (argument_fits kind arg.now) }
    ensures room { result ≡ arg_room arg.now }
    ensures most { result ≤ 2 ^ 20 }
{
    match arg {
        Arg::Scalar(_) => 64,
        Arg::Bytes(bytes) => 32 + 8 * bytes.len(),
    }
}

/// Appends arguments of these kinds.
fn put_args(w: &mut BitWriter, kinds: &[Kind], args: &[Arg])
    requires fit { IsTrue (arguments_fit kinds.now args.now) }
    requires room { args_room args.now ≤ w.old.spare }
    ensures { Appends w.old w.new (args_bits kinds.now (map arg_of args.now)) }
{
    for (kind, arg) in kinds.iter().zip(args) {
        put_arg(w, *kind, arg);
    }
}

/// Appends an argument of the kind.
fn put_arg(w: &mut BitWriter, kind: Kind, arg: &Arg)
    requires fit { IsTrue (argument_fits kind arg.now) }
    requires room { arg_room arg.now ≤ w.old.spare }
    ensures bits { Appends w.old w.new (arg_bits kind (arg_of arg.now)) }
    ensures room { w.old.spare ≤ w.new.spare + arg_room arg.now }
{
    match arg {
        Arg::Scalar(v) => put_value(w, kind, *v),
        Arg::Bytes(bytes) => put_bytes(w, kind, bytes.as_slice()),
    }
}

/// Appends the length of some bytes, at most the kind's, and the bytes.
fn put_bytes(w: &mut BitWriter, kind: Kind, bytes: &[u8])
    requires fit { IsTrue (argument_fits kind (Arg.Bytes bytes.now)) }
    requires room { 32 + 8 * length bytes.now ≤ w.old.spare }
    ensures bits { Appends w.old w.new (arg_bits kind (Octets bytes.now)) }
    ensures room { w.old.spare ≤ w.new.spare + 32 + 8 * length bytes.now }
{
    if let Kind::Bytes(most) = kind {
        w.put_int(bytes.len() as u32, u32::from(most) + 1);
        put_octets(w, bytes);
    }
}
