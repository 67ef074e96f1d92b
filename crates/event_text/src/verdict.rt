// The words of verdicts.
ghost use Rattle.std.specs.Prelude.{◌≡◌, ◌∷◌, ◌++◌, IfOk, string_bytes};
ghost use Rattle.script_model.specs.Reports.{words, part_word, why_word, cause_words, verdict_words, answer_words};
ghost use Rattle.script_lines.specs.ReportOf.{answer_of};

use net_core::Memory;
use protocol_model::{Cause, PartWhy, Verdict, Why};
use script_lines::Delivery;
use std::alloc::Global;

fn part_word(why: PartWhy) -> &'static str
    ensures { result.now ≡ part_word why }
{
    match why {
        PartWhy::Oversize => "Oversize",
        PartWhy::Lone => "Lone",
        PartWhy::Flags => "Flags",
        PartWhy::Restart => "Restart",
        PartWhy::Inside => "Inside",
        PartWhy::NoFirst => "NoFirst",
        PartWhy::Opens => "Opens",
        PartWhy::FewBits => "FewBits",
        PartWhy::TooMany => "TooMany",
    }
}

/// The name of the rule that a packet breaks.
pub fn why_word(why: Why) -> &'static str
    ensures { result.now ≡ why_word why }
{
    match why {
        Why::Empty => "Empty",
        Why::TooLong => "TooLong",
        Why::NoEnd => "NoEnd",
        Why::Control => "Control",
        Why::Reserved => "Reserved",
        Why::OpenUnreliable => "OpenUnreliable",
        Why::CloseUnreliable => "CloseUnreliable",
        Why::ExportsUnopened => "ExportsUnopened",
        Why::PartialUnreliable => "PartialUnreliable",
        Why::BadKind => "BadKind",
        Why::Short => "Short",
        Why::Padded => "Padded",
        Why::Wide => "Wide",
    }
}

// The name of the cause, then its fields in order.
fn cause_text(alloc: Global, cause: Cause) -> Result<String, Memory>
    ensures { IfOk result (λ text. string_bytes text ≡ words (cause_words cause)) }
{
    let text = match cause {
        Cause::BadAck { acked, sent } => format!(in alloc; "BadAck {acked} {sent}")?,
        Cause::BadChannel { channel } => format!(in alloc; "BadChannel {channel}")?,
        Cause::BadPart { channel, why } => {
            let name = part_word(why);
            format!(in alloc; "BadPart {channel} {name}")?
        }
        Cause::BadPayload { channel, at } => format!(in alloc; "BadPayload {channel} {at}")?,
        Cause::UnknownGuid { guid } => format!(in alloc; "UnknownGuid {guid}")?,
        Cause::Clash { guid } => format!(in alloc; "Clash {guid}")?,
        Cause::Overrun { channel } => format!(in alloc; "Overrun {channel}")?,
        Cause::NamesFull => format!(in alloc; "NamesFull")?,
        Cause::ActorsFull => format!(in alloc; "ActorsFull")?,
    };
    Ok(text)
}

/// The words of a verdict.
pub fn verdict_text(alloc: Global, verdict: Verdict) -> Result<String, Memory>
    ensures { IfOk result (λ text. string_bytes text ≡ words (verdict_words verdict)) }
{
    let text = match verdict {
        Verdict::Taken { .. } => format!(in alloc; "taken")?,
        Verdict::Malformed { at, why } => {
            let name = why_word(why);
            format!(in alloc; "malformed {at} {name}")?
        }
        Verdict::Old { .. } => format!(in alloc; "old")?,
        Verdict::Closed(cause) => {
            let cause = cause_text(alloc, cause)?;
            format!(in alloc; "closed {cause}")?
        }
        Verdict::Dead => format!(in alloc; "dead")?,
    };
    Ok(text)
}

/// The answer to a delivery.
pub(crate) fn answer_text(alloc: Global, answer: Delivery) -> Result<String, Memory>
    ensures { IfOk result (λ text. string_bytes text ≡ words (answer_words (answer_of answer))) }
{
    let text = match answer {
        Delivery::Says(verdict) => verdict_text(alloc, verdict)?,
        Delivery::Absent => format!(in alloc; "absent")?,
        Delivery::Late => format!(in alloc; "late")?,
    };
    Ok(text)
}
