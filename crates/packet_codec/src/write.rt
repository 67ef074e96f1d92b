// Packets into bits.
ghost use Rattle.std.specs.Prelude.{◌≡◌, ◌<◌, ◌≤◌, ◌+◌, ◌-◌, ◌*◌, ◌^◌, ◌++◌, ◌∷◌, [], IsTrue, IfOk, length, map, take, Bool, List};
ghost use Rattle.protocol_model.specs.Limits.{bunch_bits_limit, packet_modulus, sequence_modulus};
ghost use Rattle.protocol_model.specs.Bits.{int_bits};
ghost use Rattle.protocol_model.specs.Packet.{start_bits, rec_bits, spelling_of, Spells, is_rec, is_head, is_bunch, bunch_bits, channel_bits, channel_limit};
ghost use Rattle.bit_io.specs.HeadOf.{head_of, IsHead};
ghost use Rattle.bit_io.specs.Lent.{slice_bits};
ghost use Rattle.bit_io.specs.Written.{Appends};
ghost use Rattle.packet_codec.specs.Values.{bunch_of, rec_of, packet_value, are_recs, recs_bits};
ghost use Rattle.protocol_laws.specs.Parts.{control_bits, standing_bits, numbered_bits, words_bits};

use crate::packet::{Bunch, Packet, Rec};
use crate::sizes::entries_bits;
use bit_io::{BitSlice, BitWriter, Blob, Head, Memory};
use protocol_model::limits::{BUNCH_BITS_LIMIT, CHANNELS_ONE, PACKET_MODULUS, SEQUENCE_MODULUS};
use protocol_model::{Part, Version};
use std::alloc::Global;

/// Room for what stands before the entries, and for what each `put` asks beyond its bits.
const START_ROOM: usize = 320;

/// The bytes that spell the packet, which has a spelling in that version of at most 1,024 bytes.
///
/// Beside the entries' bits it takes 40 bytes. `Memory` where there is no such room.
pub fn encode(alloc: Global, version: Version, p: &Packet) -> Result<Blob, Memory>
    requires spelled { Spells version (packet_value p.now)
        (spelling_of version (packet_value p.now)) }
    requires words { IsHead p.now.head }
    ensures spelling { IfOk result (λ bytes. bytes ≡ spelling_of version (packet_value p.now)) }
    ensures spells { IfOk result (λ bytes. Spells version (packet_value p.now) bytes) }
{
    let recs = p.recs.as_slice();
    let bits = entries_bits(version, recs);
    let mut w = BitWriter::with_room(alloc, START_ROOM + bits)?;
    put_start(version, &mut w, p.number, p.head);
    put_recs(version, &mut w, recs);
    w.put_bit(true);
    Ok(w.finish())
}

/// Appends what stands before the entries: the number, and in version two the head.
///
/// The number is below 16,384, the head has a spelling in that version with 0 in the words past its
/// count, and there is room for 320 bits.
pub fn put_start(version: Version, w: &mut BitWriter, number: u16, head: Head)
    requires number { number < packet_modulus }
    requires words { IsHead head }
    requires head { IsTrue (is_head version (head_of head)) }
    requires room { 320 ≤ w.old.spare }
    ensures { Appends w.old w.new (start_bits version number (head_of head)) }
{
    w.put_int(number as u32, PACKET_MODULUS);
    match version {
        Version::One => {}
        Version::Two => put_head(w, head),
    }
}

/// Appends one entry, which has a spelling in that version. There is room for it and 32 bits more.
pub fn put_rec(version: Version, w: &mut BitWriter, r: &Rec)
    requires rec { IsTrue (is_rec version (rec_of r.now)) }
    requires room { length (rec_bits version (rec_of r.now)) + 32 ≤ w.old.spare }
    ensures { Appends w.old w.new (rec_bits version (rec_of r.now)) }
{
    match version {
        Version::One => put_marked(w, r),
        Version::Two => match r {
            Rec::Ack(_) => {}
            Rec::Bunch(bunch) => put_bunch(Version::Two, w, bunch),
        },
    }
}

/// Appends the history of the packets taken.
fn put_head(w: &mut BitWriter, head: Head)
    requires words { IsHead head }
    requires head { IsTrue (is_head Version.Two (head_of head)) }
    requires room { 306 ≤ w.old.spare }
    ensures { Appends w.old w.new
        (int_bits packet_modulus head.top
        ++ int_bits 8 (length (take head.count head.words) - 1)
        ++ words_bits (take head.count head.words)) }
{
    w.put_int(head.top as u32, PACKET_MODULUS);
    w.put_int(head.count as u32 - 1, 8);
    put_words(w, &head.words[..head.count as usize]);
}

/// Appends words of history.
fn put_words(w: &mut BitWriter, words: &[u32])
    requires { 32 * length words.now ≤ w.old.spare }
    ensures { Appends w.old w.new (words_bits words.now) }
{
    for word in words {
        w.put_fixed(*word as u64, 32);
    }
}

/// Appends entries.
fn put_recs(version: Version, w: &mut BitWriter, recs: &[Rec])
    requires recs { IsTrue (are_recs version recs.now) }
    requires room { length (recs_bits version recs.now) + 32 ≤ w.old.spare }
    ensures { Appends w.old w.new (recs_bits version recs.now) }
{
    for rec in recs {
        put_rec(version, w, rec);
    }
}

/// Appends an entry of version one, with the bit that tells the two kinds apart.
fn put_marked(w: &mut BitWriter, r: &Rec)
    requires rec { IsTrue (is_rec Version.One (rec_of r.now)) }
    requires room { length (rec_bits Version.One (rec_of r.now)) + 32 ≤ w.old.spare }
    ensures { Appends w.old w.new (rec_bits Version.One (rec_of r.now)) }
{
    match r {
        Rec::Ack(number) => {
            w.put_bit(true);
            w.put_int(*number as u32, PACKET_MODULUS);
        }
        Rec::Bunch(bunch) => {
            w.put_bit(false);
            put_bunch(Version::One, w, bunch);
        }
    }
}

/// Appends a bunch.
fn put_bunch(version: Version, w: &mut BitWriter, b: &Bunch)
    requires bunch { IsTrue (is_bunch version (bunch_of b.now)) }
    requires room { length (bunch_bits version (bunch_of b.now)) + 32 ≤ w.old.spare }
    ensures { Appends w.old w.new (bunch_bits version (bunch_of b.now)) }
{
    put_control(w, b.opens, b.closes, b.sleeps, b.reliable);
    put_channel(version, w, b.channel);
    put_standing(w, b.exports, b.part);
    put_numbered(w, b.reliable, b.seq, b.part, b.kind);
    put_payload(w, b.payload);
}

/// Appends the flags before the channel.
fn put_control(w: &mut BitWriter, opens: bool, closes: bool, sleeps: bool, reliable: bool)
    requires { length (control_bits opens closes sleeps reliable) ≤ w.old.spare }
    ensures { Appends w.old w.new (control_bits opens closes sleeps reliable) }
{
    w.put_bit(opens || closes);
    if opens || closes {
        w.put_bit(opens);
        w.put_bit(closes);
    }
    if closes {
        w.put_bit(sleeps);
    }
    w.put_bit(false);
    w.put_bit(reliable);
}

/// Appends a channel's index.
fn put_channel(version: Version, w: &mut BitWriter, channel: u16)
    requires below { channel < channel_limit version }
    requires room { 40 ≤ w.old.spare }
    ensures { Appends w.old w.new (channel_bits version channel) }
{
    match version {
        Version::One => w.put_int(channel as u32, CHANNELS_ONE),
        Version::Two => w.put_packed(channel as u32),
    }
}

/// Appends the flags after the channel.
fn put_standing(w: &mut BitWriter, exports: bool, part: Part)
    requires { 3 ≤ w.old.spare }
    ensures { Appends w.old w.new (standing_bits exports part) }
{
    w.put_bit(exports);
    w.put_bit(false);
    w.put_bit(part != Part::Whole);
}

/// Appends the numbers of a reliable bunch, and the flags of a part.
fn put_numbered(w: &mut BitWriter, reliable: bool, seq: u16, part: Part, kind: u8)
    requires seq { seq < sequence_modulus }
    requires kind { kind < 8 }
    requires room { length (numbered_bits reliable seq part kind) + 32 ≤ w.old.spare }
    ensures { Appends w.old w.new (numbered_bits reliable seq part kind) }
{
    if reliable {
        w.put_int(seq as u32, SEQUENCE_MODULUS);
    }
    if part != Part::Whole {
        w.put_bit(part == Part::First || part == Part::Lone);
        w.put_bit(part == Part::Last || part == Part::Lone);
    }
    if reliable {
        w.put_int(kind as u32, 8);
    }
}

/// Appends a payload behind its length.
fn put_payload(w: &mut BitWriter, payload: BitSlice)
    requires size { length (slice_bits payload) < bunch_bits_limit }
    requires room { length (slice_bits payload) + 45 ≤ w.old.spare }
    ensures { Appends w.old w.new
        (int_bits bunch_bits_limit (length (slice_bits payload.entry))
        ++ slice_bits payload.entry) }
{
    w.put_int(payload.len() as u32, BUNCH_BITS_LIMIT);
    w.put_slice(payload);
}
