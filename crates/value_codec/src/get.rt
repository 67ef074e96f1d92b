// Reading a value.
ghost use Rattle.std.specs.Prelude.{◌≡◌, ◌<◌, ◌≤◌, ◌^◌, IsTrue, IfOk, OnErr, OnOk, MatchResult, Some, None, Ok, Err, length};
ghost use Rattle.protocol_model.specs.Bits.{int_width};
ghost use Rattle.protocol_model.specs.Numbers.{leading_fixed, leading_int};
ghost use Rattle.protocol_model.specs.Payload.{value_bits};
ghost use Rattle.bit_io.specs.Lent.{bits_left, MovesBy};
ghost use Rattle.value_codec.specs.Values.{value_fits, whole_of};
ghost use Rattle.value_codec.specs.Reading.{has_values, leading_value, or_short};

use crate::value::Value;
use bit_io::BitReader;
use protocol_model::{Kind, NumRefusal};

/// The value of the kind whose spelling begins the bits left, which are left out from then on.
///
/// `Short` exactly where bits are missing, and `Padded` exactly where a packed number isn't spelled
/// in the shortest way or isn't below 2^32; the reader then stays where it was.
#[tactic(auto, using(crate::proofs::Lengths::spelled_lengths), unfolding(crate::specs::Reading::leading_value))]
pub fn get_value(r: &mut BitReader<'_>, kind: Kind) -> Result<Value, NumRefusal>
    requires { IsTrue (has_values kind) }
    ensures exact { MatchResult result
        (λ v. leading_value kind (bits_left r.old) ≡ Ok (whole_of v, bits_left r.new))
        (λ why. leading_value kind (bits_left r.old) ≡ Err why) }
    ensures fits { IfOk result (λ v. IsTrue (value_fits kind v)) }
    ensures moves { IfOk result (λ v. MovesBy r.old r.new (length (value_bits kind (whole_of v)))) }
    ensures err { OnErr result (r.new ≡ r.old) }
{
    match kind {
        Kind::Bool => Ok(Value::Bool(get_fixed(r, 1)? == 1)),
        Kind::U8 => Ok(Value::U8(get_fixed(r, 8)? as u8)),
        Kind::I32 => Ok(Value::I32((get_fixed(r, 32)? as u32).cast_signed())),
        Kind::U32 => Ok(Value::U32(get_fixed(r, 32)? as u32)),
        Kind::I64 => Ok(Value::I64(get_fixed(r, 64)?.cast_signed())),
        Kind::Enum(count) => Ok(Value::Enum(get_int(r, count as u32)? as u16)),
        Kind::Packed => Ok(Value::Packed(r.packed()?)),
        Kind::Guid => Ok(Value::Guid(r.packed()?)),
        Kind::Bytes(_) => Err(NumRefusal::Short),
    }
}

/// The number in the next `width` bits.
fn get_fixed(r: &mut BitReader<'_>, width: u32) -> Result<u64, NumRefusal>
    requires least { 1 ≤ width }
    requires most { width ≤ 64 }
    ensures exact { MatchResult result
        (λ n. leading_fixed width (bits_left r.old) ≡ Some (n, bits_left r.new))
        (λ why. or_short (leading_fixed width (bits_left r.old)) ≡ Err why) }
    ensures below { IfOk result (λ n. n < 2 ^ width) }
    ensures moves { OnOk result (MovesBy r.old r.new width) }
    ensures err { OnErr result (r.new ≡ r.old) }
{
    match r.fixed(width) {
        Ok(n) => Ok(n),
        Err(_) => Err(NumRefusal::Short),
    }
}

/// The number below `max` whose spelling comes next.
fn get_int(r: &mut BitReader<'_>, max: u32) -> Result<u32, NumRefusal>
    requires { 1 ≤ max }
    ensures exact { MatchResult result
        (λ n. leading_int max (bits_left r.old) ≡ Some (n, bits_left r.new))
        (λ why. or_short (leading_int max (bits_left r.old)) ≡ Err why) }
    ensures below { IfOk result (λ n. n < max) }
    ensures moves { IfOk result (λ n. MovesBy r.old r.new (int_width max n)) }
    ensures err { OnErr result (r.new ≡ r.old) }
{
    match r.int(max) {
        Ok(n) => Ok(n),
        Err(_) => Err(NumRefusal::Short),
    }
}
