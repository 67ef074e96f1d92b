// The words of an entry.
ghost use Rattle.std.specs.Prelude.{◌≡◌, ◌∷◌, ◌++◌, IfOk, OnOk, decimal, codes, string_bytes};
ghost use Rattle.script_model.specs.Reports.{words};
ghost use Rattle.program_model.specs.Shown.{word_if, part_words, number_words, rec_words};
ghost use Rattle.packet_codec.specs.Values.{bunch_of, rec_of};
ghost use Rattle.event_text.specs.Words.{after_words};

use net_core::Memory;
use packet_codec::{Bunch, Part, Rec};
use std::alloc::Global;
use std::fmt::Write;

/// An acknowledgement, or a bunch by its channel, its flags that hold, and its bits.
pub(crate) fn entry_text(alloc: Global, entry: &Rec<'_>) -> Result<String, Memory>
    ensures { IfOk result (λ text. string_bytes text ≡ words (rec_words (rec_of entry.now))) }
{
    match entry {
        Rec::Ack(number) => Ok(format!(in alloc; "ack {number}")?),
        Rec::Bunch(bunch) => bunch_text(alloc, bunch),
    }
}

fn bunch_text(alloc: Global, bunch: &Bunch<'_>) -> Result<String, Memory>
    ensures { IfOk result (λ text. string_bytes text
        ≡ words (rec_words (rec_of (Rec.Bunch bunch.now)))) }
{
    let channel = bunch.channel;
    let mut text = format!(in alloc; "bunch {channel}")?;
    put_if(&mut text, bunch.opens, "open")?;
    put_if(&mut text, bunch.closes, "close")?;
    put_if(&mut text, bunch.sleeps, "dormant")?;
    put_if(&mut text, bunch.reliable, "reliable")?;
    put_if(&mut text, bunch.exports, "exports")?;
    put_part(&mut text, bunch.part)?;
    put_number(&mut text, bunch)?;
    let bits = bunch.payload.len();
    write!(text, " bits {bits}")?;
    Ok(text)
}

// The word after a space, where it holds.
fn put_if(text: &mut String, holds: bool, word: &str) -> Result<(), Memory>
    ensures { OnOk result (string_bytes text.new
        ≡ string_bytes text.old ++ after_words (word_if holds word.now)) }
{
    if holds {
        write!(text, " {word}")?;
    }
    Ok(())
}

// Where the bunch stands in its payload.
fn put_part(text: &mut String, part: Part) -> Result<(), Memory>
    ensures { OnOk result (string_bytes text.new
        ≡ string_bytes text.old ++ after_words (part_words part)) }
{
    match part {
        Part::Whole => Ok(()),
        Part::First => put_if(text, true, "first"),
        Part::Middle => put_if(text, true, "middle"),
        Part::Last => put_if(text, true, "last"),
        Part::Lone => put_if(text, true, "lone"),
    }
}

// A reliable bunch's number and kind.
fn put_number(text: &mut String, bunch: &Bunch<'_>) -> Result<(), Memory>
    ensures { OnOk result (string_bytes text.new ≡ string_bytes text.old
        ++ after_words (number_words bunch.now.reliable (bunch_of bunch.now))) }
{
    if bunch.reliable {
        let seq = bunch.seq;
        let kind = bunch.kind;
        write!(text, " seq {seq} kind {kind}")?;
    }
    Ok(())
}
