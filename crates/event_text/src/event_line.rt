// The lines of events, each by its word and the words after it.
ghost use Rattle.std.specs.Prelude.{◌≡◌, ◌∷◌, ◌++◌, [], map, IfOk, OnOk, codes, decimal, string_bytes, if◌then◌else◌};
ghost use Rattle.script_model.specs.Reports.{words, hex_of, actor_text, verdict_words, answer_words, call_word};
ghost use Rattle.script_lines.specs.ReportOf.{answer_of};
ghost use Rattle.event_text.specs.Words.{line, after_words, value_text, handed_text, copy_text};

use crate::names::{call_name, class_name, handle_name};
use crate::verdict::{answer_text, verdict_text};
use crate::words::{args_text, bytes_text, call_word, handed_word, state_word, whole};
use class_layout::Class;
use net_core::{Guid, Memory, Player};
use protocol_model::{CallAnswer, Verdict};
use script_lines::{Delivery, Handed, Pair};
use std::alloc::Global;
use std::fmt::Write;

/// A line of a player alone.
pub(crate) fn player_line(alloc: Global, word: &str, player: Player) -> Result<String, Memory>
    ensures { IfOk result (λ text. string_bytes text ≡ line (word.now ∷ decimal player ∷ [])) }
{
    let player = player.0;
    Ok(format!(in alloc; "{word} {player}\n")?)
}

/// A packet that was sent.
pub(crate) fn sent_line(
    alloc: Global,
    word: &str,
    player: Player,
    packet: u64,
    bytes: &[u8],
) -> Result<String, Memory>
    ensures { IfOk result (λ text. string_bytes text
        ≡ line (word.now ∷ decimal player ∷ decimal packet ∷ hex_of bytes.now ∷ [])) }
{
    let bytes = bytes_text(alloc, bytes)?;
    let player = player.0;
    Ok(format!(in alloc; "{word} {player} {packet} {bytes}\n")?)
}

/// A packet that was delivered.
pub(crate) fn answer_line(
    alloc: Global,
    word: &str,
    player: Player,
    packet: u64,
    answer: Delivery,
) -> Result<String, Memory>
    ensures { IfOk result (λ text. string_bytes text
        ≡ line (word.now ∷ decimal player ∷ decimal packet ∷ answer_words (answer_of answer))) }
{
    let answer = answer_text(alloc, answer)?;
    let player = player.0;
    Ok(format!(in alloc; "{word} {player} {packet} {answer}\n")?)
}

/// Bytes that nobody sent.
pub(crate) fn forged_line(
    alloc: Global,
    word: &str,
    player: Player,
    verdict: Verdict,
) -> Result<String, Memory>
    ensures { IfOk result (λ text. string_bytes text
        ≡ line (word.now ∷ decimal player ∷ verdict_words verdict)) }
{
    let verdict = verdict_text(alloc, verdict)?;
    let player = player.0;
    Ok(format!(in alloc; "{word} {player} {verdict}\n")?)
}

/// A call that was made.
pub(crate) fn called_line(
    alloc: Global,
    word: &str,
    player: Player,
    answer: CallAnswer,
) -> Result<String, Memory>
    ensures { IfOk result (λ text. string_bytes text
        ≡ line (word.now ∷ decimal player ∷ call_word answer ∷ [])) }
{
    let answer = call_word(answer);
    let player = player.0;
    Ok(format!(in alloc; "{word} {player} {answer}\n")?)
}

/// A call that was handed over; it is of this class.
pub(crate) fn handed_line(
    alloc: Global,
    word: &str,
    player: Player,
    class: Option<&Class>,
    handed: &Handed,
) -> Result<String, Memory>
    ensures { IfOk result (λ text. string_bytes text
        ≡ handed_text word.now player class.entry handed.now) }
{
    let args = args_text(alloc, handed.args.as_slice())?;
    let name = call_name(class, handed.call);
    let verdict = handed_word(handed.verdict);
    let actor = handed.actor.0 / 2;
    let player = player.0;
    Ok(format!(in alloc; "{word} {player} {actor} {name} {verdict}{args}\n")?)
}

/// Whether nothing of an actor is left to be sent.
pub(crate) fn settled_line(
    alloc: Global,
    player: Player,
    actor: Guid,
    holds: bool,
) -> Result<String, Memory>
    ensures { IfOk result (λ text. string_bytes text ≡ line (codes "settled" ∷ decimal player
        ∷ actor_text actor ∷ (if holds then codes "yes" else codes "no") ∷ [])) }
{
    let player = player.0;
    let actor = actor.0 / 2;
    if holds {
        Ok(format!(in alloc; "settled {player} {actor} yes\n")?)
    } else {
        Ok(format!(in alloc; "settled {player} {actor} no\n")?)
    }
}

// A value after a space.
fn put_value(text: &mut String, class: Option<&Class>, pair: &Pair) -> Result<(), Memory>
    ensures { OnOk result (string_bytes text.new
        ≡ string_bytes text.old ++ 32 ∷ value_text class.entry pair.now) }
{
    let name = handle_name(class, pair.prop);
    let value = whole(&pair.value);
    write!(text, " {name}={value}")?;
    Ok(())
}

// The values, each after a space.
fn values_text(alloc: Global, class: Option<&Class>, values: &[Pair]) -> Result<String, Memory>
    ensures { IfOk result (λ text. string_bytes text
        ≡ after_words (map (value_text class.entry) values.now)) }
{
    let mut text = String::new(alloc);
    for pair in values {
        put_value(&mut text, class, pair)?;
    }
    Ok(text)
}

/// A copy; it is of this class.
pub(crate) fn copy_line(
    alloc: Global,
    player: Player,
    actor: Guid,
    class: Option<&Class>,
    channel: Option<u16>,
    values: &[Pair],
) -> Result<String, Memory>
    ensures { IfOk result (λ text. string_bytes text
        ≡ copy_text player actor class.entry channel values.now) }
{
    let values = values_text(alloc, class, values)?;
    let state = state_word(channel);
    let name = class_name(class);
    let player = player.0;
    let actor = actor.0 / 2;
    Ok(format!(in alloc; "copy {player} {actor} {name} {state}{values}\n")?)
}
