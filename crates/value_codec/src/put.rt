// Writing a value.
ghost use Rattle.std.specs.Prelude.{◌≤◌, IsTrue, pos};
ghost use Rattle.protocol_model.specs.Bits.{signed_bits};
ghost use Rattle.protocol_model.specs.Payload.{value_bits};
ghost use Rattle.bit_io.specs.Written.{Appends};
ghost use Rattle.value_codec.specs.Values.{value_fits, whole_of};

use crate::value::Value;
use bit_io::BitWriter;
use protocol_model::Kind;

/// Appends a value of the kind, which takes at most 64 bits.
pub fn put_value(w: &mut BitWriter, kind: Kind, v: Value)
    requires fits { IsTrue (value_fits kind v) }
    requires room { 64 ≤ w.old.spare }
    ensures { Appends w.old w.new (value_bits kind (whole_of v)) }
{
    match v {
        Value::Bool(b) => w.put_fixed(b as u64, 1),
        Value::U8(n) => w.put_fixed(n as u64, 8),
        Value::I32(z) => put_word(w, z),
        Value::U32(n) => w.put_fixed(n as u64, 32),
        Value::I64(z) => put_long(w, z),
        Value::Enum(n) => put_enum(w, kind, n),
        Value::Packed(n) | Value::Guid(n) => w.put_packed(n),
    }
}

/// Appends the number of an enum's value.
fn put_enum(w: &mut BitWriter, kind: Kind, n: u16)
    requires fits { IsTrue (value_fits kind (Value.Enum n)) }
    requires room { 64 ≤ w.old.spare }
    ensures { Appends w.old w.new (value_bits kind (pos n)) }
{
    if let Kind::Enum(count) = kind {
        w.put_int(n as u32, count as u32);
    }
}

/// Appends a number of 32 bits with a sign.
fn put_word(w: &mut BitWriter, z: i32)
    requires room { 64 ≤ w.old.spare }
    ensures { Appends w.old w.new (signed_bits 32 z) }
{
    w.put_fixed(z.cast_unsigned() as u64, 32);
}

/// Appends a number of 64 bits with a sign.
fn put_long(w: &mut BitWriter, z: i64)
    requires room { 64 ≤ w.old.spare }
    ensures { Appends w.old w.new (signed_bits 64 z) }
{
    w.put_fixed(z.cast_unsigned(), 64);
}
