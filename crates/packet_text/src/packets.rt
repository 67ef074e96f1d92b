// The lines of a packet.
ghost use Rattle.std.specs.Prelude.{◌≡◌, ◌∷◌, ◌++◌, [], List, map, length, IfOk, OnOk, decimal, codes, string_bytes};
ghost use Rattle.std.specs.List.{flat_map};
ghost use Rattle.script_model.specs.Reports.{words};
ghost use Rattle.program_model.specs.Checked.{line};
ghost use Rattle.program_model.specs.Shown.{word_text, head_text, packet_text, rec_words};
ghost use Rattle.bit_io.specs.HeadOf.{IsHead, head_of};
ghost use Rattle.packet_codec.specs.Values.{rec_of, packet_value};
ghost use Rattle.event_text.specs.Words.{after_words};

use crate::entries::entry_text;
use bit_io::Head;
use event_text::bytes_text;
use net_core::Memory;
use packet_codec::{Packet, Rec};
use protocol_model::Version;
use std::alloc::Global;
use std::fmt::Write;

/// The packet's lines after the text: its number and how many entries it has, in version two its
/// head, and each entry.
pub(crate) fn put_packet(
    alloc: Global,
    version: Version,
    packet: &Packet<'_>,
    text: &mut String,
) -> Result<(), Memory>
    requires { IsHead packet.now.head }
    ensures { OnOk result (string_bytes text.new
        ≡ string_bytes text.old ++ packet_text version (packet_value packet.now)) }
{
    let number = packet.number;
    let count = packet.recs.len();
    writeln!(text, "packet {number} {count}")?;
    put_head(alloc, version, &packet.head, text)?;
    put_entries(alloc, packet.recs.as_slice(), text)
}

// In version two the history: its top, and each of its words.
fn put_head(alloc: Global, version: Version, head: &Head, text: &mut String) -> Result<(), Memory>
    requires { IsHead head.now }
    ensures { OnOk result (string_bytes text.new
        ≡ string_bytes text.old ++ head_text version (head_of head.now)) }
{
    match version {
        Version::One => Ok(()),
        Version::Two => {
            let top = head.top;
            let history = words_text(alloc, &head.words[..usize::from(head.count)])?;
            writeln!(text, "head {top}{history}")?;
            Ok(())
        }
    }
}

// The words, each after a space in eight hex digits.
fn words_text(alloc: Global, history: &[u32]) -> Result<String, Memory>
    ensures { IfOk result (λ text. string_bytes text
        ≡ after_words (map word_text history.now)) }
{
    let mut text = String::new(alloc);
    for word in history {
        put_word(alloc, word, &mut text)?;
    }
    Ok(text)
}

fn put_word(alloc: Global, word: &u32, text: &mut String) -> Result<(), Memory>
    ensures { OnOk result (string_bytes text.new
        ≡ string_bytes text.old ++ 32 ∷ word_text word.now) }
{
    let word = bytes_text(alloc, &word.to_be_bytes())?;
    write!(text, " {word}")?;
    Ok(())
}

// A line for each entry.
fn put_entries(alloc: Global, entries: &[Rec<'_>], text: &mut String) -> Result<(), Memory>
    ensures { OnOk result (string_bytes text.new ≡ string_bytes text.old
        ++ flat_map (λ rec. line (rec_words rec)) (map rec_of entries.now)) }
{
    for entry in entries {
        put_entry(alloc, entry, text)?;
    }
    Ok(())
}

fn put_entry(alloc: Global, entry: &Rec<'_>, text: &mut String) -> Result<(), Memory>
    ensures { OnOk result (string_bytes text.new
        ≡ string_bytes text.old ++ line (rec_words (rec_of entry.now))) }
{
    let entry = entry_text(alloc, entry)?;
    writeln!(text, "{entry}")?;
    Ok(())
}
