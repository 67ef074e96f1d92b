// Values, and which kinds they fit.
ghost use Rattle.std.specs.Prelude.{◌≡◌, ◌&&◌, pos, option_map, IfSome, IsTrue};
ghost use Rattle.std.specs.Bool.{then_some};
ghost use Rattle.protocol_model.specs.Value as Model;
ghost use Rattle.value_codec.specs.Values.{is_of, value_fits, whole_of};

use protocol_model::Kind;

/// A value with the tag of its kind.
#[derive(Clone, Copy, Debug, PartialEq, Eq)]
pub enum Value {
    Bool(bool),
    U8(u8),
    I32(i32),
    U32(u32),
    I64(i64),
    /// One of a few, counted from 0.
    Enum(u16),
    Packed(u32),
    Guid(u32),
}

/// The value has the kind's tag and is one of its numbers.
pub fn fits(kind: Kind, v: Value) -> bool
    ensures { result ≡ value_fits kind v }
{
    match v {
        Value::Bool(_) => kind == Kind::Bool,
        Value::U8(_) => kind == Kind::U8,
        Value::I32(_) => kind == Kind::I32,
        Value::U32(_) => kind == Kind::U32,
        Value::I64(_) => kind == Kind::I64,
        Value::Enum(n) => is_below(kind, n),
        Value::Packed(_) => kind == Kind::Packed,
        Value::Guid(_) => kind == Kind::Guid,
    }
}

/// The kind is an enum's, and has more values than `n`.
fn is_below(kind: Kind, n: u16) -> bool
    ensures { result ≡ value_fits kind (Value.Enum n) }
{
    match kind {
        Kind::Enum(count) => n < count,
        _ => false,
    }
}

/// The value of the kind that is this number; `None` exactly where the kind hasn't the number.
pub fn value_of(kind: Kind, n: i128) -> Option<Value>
    ensures number { option_map whole_of result ≡ then_some (Model.fits kind n) n }
    ensures tag { IfSome result (λ v. IsTrue (is_of kind v)) }
{
    match kind {
        Kind::Bool => bool_of(n),
        Kind::U8 => Some(Value::U8(u8::try_from(n).ok()?)),
        Kind::I32 => Some(Value::I32(i32::try_from(n).ok()?)),
        Kind::U32 => Some(Value::U32(u32::try_from(n).ok()?)),
        Kind::I64 => Some(Value::I64(i64::try_from(n).ok()?)),
        Kind::Packed => Some(Value::Packed(u32::try_from(n).ok()?)),
        Kind::Guid => Some(Value::Guid(u32::try_from(n).ok()?)),
        Kind::Enum(count) => enum_of(count, n),
        Kind::Bytes(_) => None,
    }
}

fn bool_of(n: i128) -> Option<Value>
    ensures number { option_map whole_of result ≡ then_some (Model.fits Kind.Bool n) n }
    ensures tag { IfSome result (λ v. IsTrue (is_of Kind.Bool v)) }
{
    match n {
        0 => Some(Value::Bool(false)),
        1 => Some(Value::Bool(true)),
        _ => None,
    }
}

fn enum_of(count: u16, n: i128) -> Option<Value>
    ensures number { option_map whole_of result ≡ then_some (Model.fits (Kind.Enum count) n) n }
    ensures tag { IfSome result (λ v. IsTrue (is_of (Kind.Enum count) v)) }
{
    if 0 <= n && n < i128::from(count) {
        Some(Value::Enum(n as u16))
    } else {
        None
    }
}
