// What a packet that was taken tells: its acknowledgements are handed to the book, and news to the
// layer above.
ghost use Rattle.std.specs.Prelude.{◌≡◌, ◌<◌, ◌≤◌, ◌+◌, ◌++◌, ◌∷◌, ◌-◌, [], ℕ, List, IfOk, OnOk, IsTrue, map, reverse, filter, None, if◌then◌else◌};
ghost use Rattle.protocol_model.specs.declared.Version.{Version};
ghost use Rattle.protocol_model.specs.Limits.{packet_modulus, unresolved_limit};
ghost use Rattle.protocol_model.specs.Packet.{is_head, is_rec};
ghost use Rattle.protocol_model.specs.Search.{is_among};
ghost use Rattle.connection_model.specs.Feed.{Past, Deed, Entry as EntrySpec, Delivered};
ghost use Rattle.connection_model.specs.Fates.{moved_of, high_of, last_sent};
ghost use Rattle.connection_model.specs.Verdict.{entry_of, entries_in};
ghost use Rattle.packet_codec.specs.Values.{rec_of, are_recs, packet_value};
ghost use Rattle.bit_io.specs.HeadOf.{head_of, IsHead};
ghost use Rattle.ack_book.specs.Book.{fates_kept};
ghost use Rattle.ack_book.specs.Keeps.{Keeps};
ghost use Rattle.link_end.specs.News.{Moves, moves_from, moved_above};
ghost use Rattle.link_end.specs.Heard.{HearsAll, HearsPacket, entries_of, is_answered};
ghost use Rattle.link_end.specs.Answers.{news_value};

use crate::arrival::{Arrival, Entry, EntryList, FateMove};
use ack_book::{AckBook, Acked, BadAck, Fate};
use bit_io::{Head, Memory};
use packet_codec::{Packet, Rec};
use protocol_model::Version;
use std::alloc::Global;

/// A packet that was taken is answered at the next tick, even by an empty one: in version two
/// alone.
pub fn answers(version: Version) -> bool
    ensures { result ≡ is_answered version }
{
    match version {
        Version::One => false,
        Version::Two => true,
    }
}

/// Hears a packet that was taken with this number.
pub fn hear<'a>(
    alloc: Global,
    book: &mut AckBook,
    number: u64,
    packet: &Packet<'a>,
) -> Result<Arrival<'a>, Memory>
    requires words { IsHead packet.now.head }
    requires stands { (v : Version) × (past : Past) × (m : ℕ) × (handed : List Delivered)
        × Keeps book.old v (Deed.Took m [] handed ∷ past)
        × IsTrue (is_head v (head_of packet.now.head)) × IsTrue (are_recs v packet.now.recs) }
    ensures number { IfOk result (λ a. a.number ≡ number) }
    ensures order { OnOk result (book.new.high ≤ book.new.last_sent) }
    ensures heard { IfOk result (λ a. HearsPacket book.old book.new [] a.entries
        (packet_value packet.now) a.bad) }
{
    let mut news = Vec::new(alloc);
    let bad = hear_packet(book, packet, &mut news)?;
    let _unresolved = book.unresolved();
    Ok(Arrival {
        number,
        entries: EntryList::from_vec(news),
        bad,
    })
}

/// Hears a head, where there is one, and entries.
fn hear_packet<'a>(
    book: &mut AckBook,
    packet: &Packet<'a>,
    news: &mut Vec<Entry<'a>>,
) -> Result<Option<BadAck>, Memory>
    requires words { IsHead packet.now.head }
    requires stands { (v : Version) × (past : Past) × (m : ℕ) × (handed : List Delivered)
        × Keeps book.old v (Deed.Took m [] handed ∷ past)
        × IsTrue (is_head v (head_of packet.now.head)) × IsTrue (are_recs v packet.now.recs) }
    ensures { IfOk result (λ bad. HearsPacket book.old book.new news.old.items news.new.items
        (packet_value packet.now) bad) }
{
    match book.version() {
        Version::One => {
            let bad = hear_recs(book, packet.recs.as_slice(), news)?;
            Ok(bad)
        }
        Version::Two => {
            if let Some(bad) = hear_head(book, packet.head, news)? {
                return Ok(Some(bad));
            }
            let bad = hear_recs(book, packet.recs.as_slice(), news)?;
            Ok(bad)
        }
    }
}

/// Hears entries in order, up to the first acknowledgement of a packet that wasn't sent, which it
/// answers.
fn hear_recs<'a>(
    book: &mut AckBook,
    recs: &[Rec<'a>],
    news: &mut Vec<Entry<'a>>,
) -> Result<Option<BadAck>, Memory>
    requires { (v : Version) × IsTrue (are_recs v recs.now) }
    ensures { IfOk result (λ bad. HearsAll book.old book.new news.old.items news.new.items
        (entries_of recs.now) bad) }
{
    for rec in recs {
        if let Some(bad) = hear_rec(book, rec, news)? {
            return Ok(Some(bad));
        }
    }
    Ok(None)
}

/// Hears one entry.
fn hear_rec<'a>(
    book: &mut AckBook,
    rec: &Rec<'a>,
    news: &mut Vec<Entry<'a>>,
) -> Result<Option<BadAck>, Memory>
    requires { (v : Version) × IsTrue (is_rec v (rec_of rec.now)) }
    ensures { IfOk result (λ bad. HearsAll book.old book.new news.old.items news.new.items
        (entry_of (rec_of rec.now) ∷ []) bad) }
{
    match rec {
        Rec::Ack(number) => match book.take_ack(*number) {
            Ok(Acked::Ignored) => {}
            Ok(Acked::Moved { from, to }) => tell_move(news, from, to)?,
            Err(bad) => return Ok(Some(bad)),
        },
        Rec::Bunch(bunch) => news.push(Entry::Bunch(*bunch))?,
    }
    Ok(None)
}

/// Hears the head of a packet, which comes before its entries.
fn hear_head<'a>(
    book: &mut AckBook,
    head: Head,
    news: &mut Vec<Entry<'a>>,
) -> Result<Option<BadAck>, Memory>
    requires top { head.top < packet_modulus }
    requires whole { IsHead head }
    requires stands { (v : Version) × (past : Past) × (m : ℕ) × (told : List EntrySpec)
        × (handed : List Delivered)
        × Keeps book.old v (Deed.Took m told handed ∷ past) }
    ensures { IfOk result (λ bad. HearsAll book.old book.new news.old.items news.new.items
        (EntrySpec.Told (head_of head) ∷ []) bad) }
{
    let from = book.high();
    let _unresolved = book.unresolved();
    match book.take_head(head) {
        Ok(()) => {
            tell_moves(book, from, news)?;
            Ok(None)
        }
        Err(bad) => Ok(Some(bad)),
    }
}

/// Tells each packet above `from` that is known to have arrived.
fn tell_moves<'a>(book: &AckBook, from: u64, news: &mut Vec<Entry<'a>>) -> Result<(), Memory>
    requires from { from ≤ book.now.high }
    requires near { book.now.last_sent ≤ from + unresolved_limit }
    ensures { OnOk result ((v : Version) (past : Past) → Keeps book.now v past
        → map news_value news.new.items ≡ map news_value news.old.items
        ++ moves_from from (moved_above from past)) }
{
    let high = book.high();
    let _unresolved = book.unresolved();
    let mut last = from;
    for number in from + 1..high + 1 {
        last = tell_one(book, last, number, news)?;
    }
    Ok(())
}

/// Tells packet `number` where it is known to have arrived, `last` being the one told before, and
/// answers the last one told.
fn tell_one<'a>(
    book: &AckBook,
    last: u64,
    number: u64,
    news: &mut Vec<Entry<'a>>,
) -> Result<u64, Memory>
    requires first { 1 ≤ number }
    requires sent { number ≤ book.now.last_sent }
    requires near { book.now.last_sent < number + fates_kept }
    ensures last { IfOk result (λ told. (v : Version) (past : Past) → Keeps book.now v past
        → told ≡ (if is_among number (moved_of past) then number else last)) }
    ensures news { OnOk result ((v : Version) (past : Past) → Keeps book.now v past
        → map news_value news.new.items ≡ map news_value news.old.items
        ++ (if is_among number (moved_of past) then Moves last number ∷ [] else [])) }
{
    match book.fate(number) {
        Fate::Arrived => {
            tell_move(news, last, number)?;
            Ok(number)
        }
        Fate::Open => Ok(last),
        Fate::Lost => Ok(last),
    }
}

/// Tells that a packet arrived, and that those above `from` and below it are lost.
fn tell_move<'a>(news: &mut Vec<Entry<'a>>, from: u64, to: u64) -> Result<(), Memory>
    ensures { OnOk result (map news_value news.new.items
        ≡ map news_value news.old.items ++ Moves from to ∷ []) }
{
    news.push(Entry::Moved(FateMove { from, to }))?;
    Ok(())
}
