// Values, bytes, and the words of answers to calls.
ghost use Rattle.std.specs.Prelude.{◌≡◌, ◌∷◌, ◌++◌, IfOk, OnOk, map, string_bytes};
ghost use Rattle.script_model.specs.Reports.{hex_of, call_word, handed_word, state_word};
ghost use Rattle.value_codec.specs.Values.{whole_of};
ghost use Rattle.event_text.specs.Words.{after_words, word_of};

use net_core::Memory;
use protocol_model::{CallAnswer, CallVerdict};
use script_lines::{Arg, Value};
use std::alloc::Global;
use std::fmt::Write;

/// Bytes in lower-case hex, `-` for none.
pub fn bytes_text(alloc: Global, bytes: &[u8]) -> Result<String, Memory>
    ensures { IfOk result (λ text. string_bytes text ≡ hex_of bytes.now) }
{
    if bytes.is_empty() {
        Ok(format!(in alloc; "-")?)
    } else {
        Ok(hex::encode(alloc, bytes)?)
    }
}

/// The whole number that a value is.
pub(crate) fn whole(value: &Value) -> i64
    ensures { result ≡ whole_of value.now }
{
    match *value {
        Value::Bool(b) => if b { 1 } else { 0 },
        Value::U8(n) => i64::from(n),
        Value::I32(n) => i64::from(n),
        Value::U32(n) => i64::from(n),
        Value::I64(n) => n,
        Value::Enum(n) => i64::from(n),
        Value::Packed(n) => i64::from(n),
        Value::Guid(n) => i64::from(n),
    }
}

/// Whether a copy is open.
pub(crate) fn state_word(channel: Option<u16>) -> &'static str
    ensures { result.now ≡ state_word channel }
{
    match channel {
        Some(_) => "open",
        None => "asleep",
    }
}

/// The answer to a call.
pub(crate) fn call_word(answer: CallAnswer) -> &'static str
    ensures { result.now ≡ call_word answer }
{
    match answer {
        CallAnswer::Queued => "queued",
        CallAnswer::Dead => "dead",
        CallAnswer::NotOpen => "notopen",
        CallAnswer::NotOwner => "notowner",
        CallAnswer::WindowFull => "windowfull",
    }
}

/// The verdict on a call.
pub(crate) fn handed_word(verdict: CallVerdict) -> &'static str
    ensures { result.now ≡ handed_word verdict }
{
    match verdict {
        CallVerdict::Run => "run",
        CallVerdict::NotOwner => "notowner",
        CallVerdict::Stale => "stale",
    }
}

// An argument after a space.
fn put_arg(alloc: Global, text: &mut String, arg: &Arg) -> Result<(), Memory>
    ensures { OnOk result (string_bytes text.new
        ≡ string_bytes text.old ++ 32 ∷ word_of arg.now) }
{
    match arg {
        Arg::Scalar(value) => {
            let value = whole(value);
            write!(text, " {value}")?;
        }
        Arg::Bytes(bytes) => {
            let bytes = bytes_text(alloc, bytes.as_slice())?;
            write!(text, " {bytes}")?;
        }
    }
    Ok(())
}

/// The arguments, each after a space.
pub(crate) fn args_text(alloc: Global, args: &[Arg]) -> Result<String, Memory>
    ensures { IfOk result (λ text. string_bytes text
        ≡ after_words (map word_of args.now)) }
{
    let mut text = String::new(alloc);
    for arg in args {
        put_arg(alloc, &mut text, arg)?;
    }
    Ok(text)
}
