// Arguments, and which lists of kinds they fit.
ghost use Rattle.std.specs.Prelude.{◌≡◌};
ghost use Rattle.value_codec.specs.Values.{argument_fits, arguments_fit};

use crate::value::{Value, fits};
use bit_io::Blob;
use net_core::Items;
use protocol_model::Kind;

/// An argument of a call.
#[derive(Debug, Drop)]
pub enum Arg {
    Scalar(Value),
    Bytes(Blob),
}

/// A list of arguments.
pub type ArgList = Items<Arg>;

/// There are as many arguments as kinds, and each has its kind's tag and is one of its values.
pub fn args_fit(kinds: &[Kind], args: &[Arg]) -> bool
    ensures { result ≡ arguments_fit kinds.now args.now }
{
    if kinds.len() != args.len() {
        return false;
    }
    for (kind, arg) in kinds.iter().zip(args) {
        if !arg_fits(*kind, arg) {
            return false;
        }
    }
    true
}

/// The argument has the kind's tag and is one of its values.
fn arg_fits(kind: Kind, arg: &Arg) -> bool
    ensures { result ≡ argument_fits kind arg.now }
{
    match arg {
        Arg::Scalar(v) => fits(kind, *v),
        Arg::Bytes(bytes) => are_few(kind, bytes.as_slice()),
    }
}

/// The kind is of at least as many bytes as these.
fn are_few(kind: Kind, bytes: &[u8]) -> bool
    ensures { result ≡ argument_fits kind (Arg.Bytes bytes.now) }
{
    match kind {
        Kind::Bytes(most) => bytes.len() <= most as usize,
        _ => false,
    }
}
