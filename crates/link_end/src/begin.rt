// How a tick, and each of its packets, begins.
ghost use Rattle.std.specs.Prelude.{◌≡◌, ◌<◌, ◌≤◌, ◌+◌, ◌*◌, ◌^◌, ◌∷◌, [], ℕ, List, Bool, Some, IfOk, OnOk, IsOk, IsErrOf, length, map, min, true, false, if◌then◌else◌};
ghost use Rattle.protocol_model.specs.Limits.{packet_bytes, unresolved_limit, owed_limit};
ghost use Rattle.protocol_model.specs.declared.Version.{Version};
ghost use Rattle.connection_model.specs.Feed.{Past, Deed, Item};
ghost use Rattle.connection_model.specs.Fates.{last_sent, unresolved_count};
ghost use Rattle.protocol_model.specs.Sight.{Seen};
ghost use Rattle.ack_book.specs.Keeps.{Keeps};
ghost use Rattle.link_end.specs.Answers.{numbered, sent_value, sent_size};
ghost use Rattle.link_end.specs.Link.{silence_most};
ghost use Rattle.link_end.specs.Begun.{entry_most, all_bytes, whole_bytes, with_packet, with_bits, next_start, acks_bits, first_begun, is_asked, with_asked, fits_after, may_with, asks_with};

use crate::arrival::OfferRefusal;
use crate::packets::Packets;
use crate::sent::SentList;
use ack_book::AckBook;
use bit_io::Memory;
use packet_codec::Rec;
use protocol_model::limits::{PACKET_MODULUS, UNRESOLVED_LIMIT};
use std::alloc::Global;

/// The greatest number of a packet that a link sends or takes. No connection lives long enough to
/// come to it; a link that did would answer want of memory.
pub const LAST_NUMBER: u64 = 1 << 61;

/// Ticks without a packet after which an empty one asks what became of those that are open.
const SILENCE: u8 = 8;

/// The packets with which a tick begins: where acknowledgements are owed, one that has them all.
/// The book isn't told of it.
pub fn first_packets(alloc: Global, book: &AckBook) -> Result<Packets, Memory>
    requires { (v : Version) × (past : Past) × Keeps book.now v past }
    ensures numbers { OnOk result (book.now.last_sent < 2 ^ 61) }
    ensures begun { IfOk result (λ packets. (v : Version) (past : Past) → Keeps book.now v past
        → packets ≡ first_begun v past) }
{
    if book.last_sent() >= LAST_NUMBER {
        return Err(Memory);
    }
    let mut packets = Packets::new(alloc, book.last_sent() + 1);
    let Some(_) = book.owed(0) else {
        return Ok(packets);
    };
    packets.begin(alloc, book.version(), book.last_sent() + 1, book.head())?;
    put_owed(book, &mut packets);
    Ok(packets)
}

/// Puts all acknowledgements owed into a packet that has nothing else.
fn put_owed(book: &AckBook, packets: &mut Packets)
    requires version { book.now.version ≡ Version.One }
    requires few { length book.now.owed ≤ owed_limit }
    requires room { (bits : List Bool) × (packets.old.current ≡ Some bits) × (length bits ≤ 256) }
    ensures { packets.new ≡ with_bits (acks_bits Version.One book.now.owed) packets.old }
{
    let mut i = 0;
    while let Some(number) = book.owed(i) {
        packets.put(
            book.version(),
            &Rec::Ack((number % PACKET_MODULUS as u64) as u16),
        );
        i += 1;
    }
}

/// Tells a book that a tick begins, and of the packet with which it does, where it does with one. A
/// fate is free.
pub fn tell_tick(book: &mut AckBook, begins: bool)
    requires numbers { book.old.last_sent < 2 ^ 61 }
    requires free { (v : Version) × (past : Past) × Keeps book.old v past
        × (unresolved_count past < unresolved_limit) }
    ensures empty { begins ≡ false → (v : Version) (past : Past) (t : ℕ) (sight : List Seen)
        → Keeps book.old v past
        → Keeps book.new v (Deed.Ticked t sight ∷ past) }
    ensures begun { begins ≡ true
        → (v : Version) (past : Past) (t : ℕ) (sight : List Seen) (k : ℕ) (items : List Item)
        → Keeps book.old v past
        → Keeps book.new v (Deed.Sent (last_sent past + 1) k items ∷ Deed.Ticked t sight ∷ past) }
{
    book.clear_owed();
    if begins {
        book.sent();
    }
}

/// Begins one more packet. A fate is free, and the packets begun are the last ones sent.
pub fn begin_packet(alloc: Global, book: &mut AckBook, packets: &mut Packets) -> Result<(), Memory>
    requires free { book.old.last_sent < book.old.high + unresolved_limit }
    requires few { length (all_bytes packets.old) < unresolved_limit }
    requires stands { (v : Version) × (past : Past) × Keeps book.old v past }
    ensures bits { OnOk result ((v : Version) (past : Past) → Keeps book.old v past
        → packets.new ≡ with_packet (next_start v past) packets.old) }
    ensures book { OnOk result ((v : Version) (past : Past) (t : ℕ) (items : List Item)
        → Keeps book.old v past
        → Keeps book.new v (Deed.Sent (last_sent past + 1) t items ∷ past)) }
    ensures room { OnOk result (fits_after packets.new.current entry_most ≡ true) }
{
    if book.last_sent() >= LAST_NUMBER {
        return Err(Memory);
    }
    let head = book.head();
    let version = book.version();
    let number = book.sent();
    packets.begin(alloc, version, number, head)?;
    Ok(())
}

/// The budget and the count of open packets let a new packet begin.
pub fn may_begin(budget: u32, book: &AckBook, packets: &Packets) -> bool
    ensures { result ≡ may_with budget book.now packets.now }
{
    8 * packets.size() < budget as usize && (book.unresolved() as u64) < UNRESOLVED_LIMIT
}

/// Makes room for so many bits: in the current packet where they fit, or else in a new one where
/// one may begin. `NoRoom` exactly where neither is so.
pub fn make_room(
    alloc: Global,
    budget: u32,
    book: &mut AckBook,
    packets: &mut Packets,
    bits: usize,
) -> Result<(), OfferRefusal>
    requires bits { bits < 2 ^ 32 }
    requires own { book.old.high + length (all_bytes packets.old) ≤ book.old.last_sent }
    requires stands { (v : Version) × (past : Past) × Keeps book.old v past }
    ensures fits { fits_after packets.old.current bits ≡ true
        → IsOk result × (book.new ≡ book.old) × (packets.new ≡ packets.old) }
    ensures room { OnOk result (bits ≤ entry_most → fits_after packets.new.current bits ≡ true) }
    ensures may { OnOk result (fits_after packets.old.current bits ≡ false
        → may_with budget book.old packets.old ≡ true) }
    ensures begun { OnOk result (fits_after packets.old.current bits ≡ false
        → (v : Version) (past : Past) → Keeps book.old v past
        → packets.new ≡ with_packet (next_start v past) packets.old) }
    ensures book { OnOk result (fits_after packets.old.current bits ≡ false
        → (v : Version) (past : Past) (t : ℕ) (items : List Item) → Keeps book.old v past
        → Keeps book.new v (Deed.Sent (last_sent past + 1) t items ∷ past)) }
    ensures within { OnOk result (8 * whole_bytes packets.old < budget
        → 8 * whole_bytes packets.new < budget) }
    ensures no_room { IsErrOf result OfferRefusal.NoRoom
        → (fits_after packets.old.current bits ≡ false)
        × (may_with budget book.old packets.old ≡ false) × (book.new ≡ book.old)
        × (packets.new ≡ record packets.old { full = true }) }
{
    if packets.fits(bits) {
        return Ok(());
    }
    if !may_begin(budget, book, packets) {
        packets.refuse();
        return Err(OfferRefusal::NoRoom);
    }
    match begin_packet(alloc, book, packets) {
        Ok(()) => Ok(()),
        Err(Memory) => Err(OfferRefusal::Memory),
    }
}

/// An empty packet is called for where none was begun: where version two owes an answer, or where
/// packets are open and none was sent for so many ticks.
pub fn asks_for_packet(heard: bool, silent: u8, unresolved: u32) -> bool
    ensures { result ≡ asks_with heard silent unresolved }
{
    heard || (unresolved > 0 && silent >= SILENCE)
}

/// The ticks since the last packet's, once one more tick begins.
pub fn longer_silence(silent: u8) -> u8
    ensures { result ≡ min silence_most (silent + 1) }
{
    if silent < SILENCE {
        silent + 1
    } else {
        SILENCE
    }
}

/// The ticks since the last packet's, once a tick ends that sent some or none.
pub fn silence_after(silent: u8, sends: bool) -> u8
    ensures { result ≡ (if sends then 0 else silent) }
{
    if sends { 0 } else { silent }
}

/// Begins an empty packet, where one is asked for and none was begun. A fate is free where none
/// was.
fn ask(alloc: Global, asks: bool, book: &mut AckBook, packets: &mut Packets) -> Result<(), Memory>
    requires free { is_asked asks packets.old ≡ true
        → book.old.last_sent < book.old.high + unresolved_limit }
    requires stands { (v : Version) × (past : Past) × Keeps book.old v past }
    ensures asked { OnOk result (is_asked asks packets.old ≡ true → (v : Version) (past : Past)
        → Keeps book.old v past
        → packets.new ≡ with_packet (next_start v past) packets.old) }
    ensures book { OnOk result (is_asked asks packets.old ≡ true
        → (v : Version) (past : Past) (t : ℕ) → Keeps book.old v past
        → Keeps book.new v (Deed.Sent (last_sent past + 1) t [] ∷ past)) }
    ensures kept { is_asked asks packets.old ≡ false → (book.new ≡ book.old)
        × (packets.new ≡ packets.old) }
{
    if !(asks && packets.is_empty()) {
        return Ok(());
    }
    begin_packet(alloc, book, packets)?;
    Ok(())
}

/// The packets of a tick that ends: those begun, or an empty one where one is asked for and none
/// was begun. A fate is free where none was.
pub fn end_packets(
    alloc: Global,
    book: &mut AckBook,
    packets: Packets,
    asks: bool,
) -> Result<SentList, Memory>
    requires free { is_asked asks packets ≡ true
        → book.old.last_sent < book.old.high + unresolved_limit }
    requires few { length (all_bytes packets) ≤ unresolved_limit }
    requires stands { (v : Version) × (past : Past) × Keeps book.old v past }
    ensures sent { IfOk result (λ sent. (v : Version) (past : Past) → Keeps book.old v past
        → map sent_value sent
        ≡ numbered packets.first (all_bytes (with_asked v past asks packets))) }
    ensures asked { OnOk result (is_asked asks packets ≡ true → (v : Version) (past : Past) (t : ℕ)
        → Keeps book.old v past
        → Keeps book.new v (Deed.Sent (last_sent past + 1) t [] ∷ past)) }
    ensures kept { OnOk result (is_asked asks packets ≡ false → book.new ≡ book.old) }
    ensures most { IfOk result (λ sent. sent_size sent ≤ whole_bytes packets + packet_bytes) }
{
    let mut packets = packets;
    ask(alloc, asks, book, &mut packets)?;
    let sent = packets.finish()?;
    Ok(sent)
}
