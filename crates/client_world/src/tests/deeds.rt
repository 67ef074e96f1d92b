// What a test asks of a client, one deed after another.
ghost use Rattle.client_world.specs.Played.{IsReady};

use crate::tests::drafts::{Draft, Sketch, part_of, sure};
use crate::tests::piles::opening;
use crate::tests::{FIRST, PAWN};
use crate::{Arg, CallAnswer, Classes, Client, Guid, Memory, Verdict, Version};
use class_layout::{CallVerdict, Value};
use protocol_model::{Part, Why};
use std::alloc::Global;

/// A deed, with what is to come of it.
#[derive(Clone, Copy)]
pub(crate) enum Deed<'a> {
    /// Takes the server's first packet.
    First(Verdict),
    /// Takes a datagram without bytes.
    Empty(Verdict),
    /// Takes a packet of this number that acknowledges another one.
    Acks(u64, u64, Verdict),
    /// Takes a packet of this number with one bunch.
    Hears(u64, Sketch<'a>, Verdict),
    /// Takes a packet of this number with two bunches.
    HearsTwo(u64, Sketch<'a>, Sketch<'a>, Verdict),
    /// Takes a packet of this number with one bunch, which hands over so many calls to run.
    Hands(u64, Sketch<'a>, usize),
    /// Takes packets 2 to 11 with ten parts of a payload of channel 0.
    TenParts,
    /// Takes a packet of this number with 100 bunches of a channel, from this bunch on.
    Holds(u64, u16, u16, Verdict),
    /// Takes the first packet cut after 1 byte, after 2 bytes and so on: each is malformed so.
    Cuts(&'a [(usize, Why)]),
    /// Takes packets from 2 up to this one, each with 64 opens: of the last one this is said.
    Crowds(u64, Verdict),
    /// Calls of an actor a call of this number, by 7.
    Calls(u32, u16, CallAnswer),
    /// Calls `fire` of the Pawn until a call isn't queued: so many are.
    CallsOften(u32, CallAnswer),
    /// Ticks, and sends a packet with these bytes, or none.
    Sends(Option<&'a [u8]>),
    /// Takes an empty packet and ticks, until it dies: so many ticks.
    Stalls(u64),
    /// Has so many copies, and took this number last.
    Has(usize, u64),
    /// The Pawn's copy has these x, y and hp, if there is one.
    Pawn(Option<(i32, i32, u8)>),
}

/// The first deed of which something else came, by its place.
pub(crate) fn first_wrong(
    alloc: Global,
    classes: &Classes,
    deeds: &[Deed<'_>],
) -> Result<Option<usize>, Memory> {
    let mut client = Client::new(alloc, classes, Version::One)?;
    let mut place = 0;
    'deeds: for deed in deeds {
        if !does(alloc, &mut client, deed)? {
            return Ok(Some(place));
        }
        place = place.saturating_add(1);
    }
    Ok(None)
}

/// Does the deed: what was to come of it did.
fn does(alloc: Global, client: &mut Client<'_>, deed: &Deed<'_>) -> Result<bool, Memory>
    requires { IsReady client.old }
    ensures { IsReady client.new }
{
    match deed {
        Deed::First(said) => says(client, &FIRST, *said),
        Deed::Empty(said) => says(client, &[], *said),
        Deed::Acks(number, acked, said) => hears_ack(alloc, client, *number, *acked, *said),
        Deed::Hears(number, bunch, said) => hears(alloc, client, *number, &[*bunch], *said),
        Deed::HearsTwo(number, first, last, said) => {
            hears(alloc, client, *number, &[*first, *last], *said)
        }
        Deed::Hands(number, bunch, count) => hands(alloc, client, *number, bunch, *count),
        Deed::TenParts => takes_parts(alloc, client),
        Deed::Holds(number, channel, from, said) => {
            holds(alloc, client, *number, *channel, *from, *said)
        }
        Deed::Cuts(cuts) => cut(client, cuts),
        Deed::Crowds(last, said) => crowds(alloc, client, *last, *said),
        Deed::Calls(actor, number, answer) => Ok(call(client, *actor, *number)? == *answer),
        Deed::CallsOften(count, answer) => calls_often(client, *count, *answer),
        Deed::Sends(bytes) => sends(client, *bytes),
        Deed::Stalls(ticks) => Ok(tick_often(alloc, client)? == *ticks),
        Deed::Has(copies, top) => Ok(
            client.copies().len() == *copies && client.last_taken() == *top,
        ),
        Deed::Pawn(values) => Ok(pawn(client) == *values),
    }
}

/// The client says so of the bytes.
fn says(client: &mut Client<'_>, bytes: &[u8], said: Verdict) -> Result<bool, Memory>
    requires { IsReady client.old }
    ensures { IsReady client.new }
{
    let outcome = client.take(bytes)?;
    Ok(outcome.verdict == said)
}

/// A packet with these bunches.
fn datagram(alloc: Global, number: u64, bunches: &[Sketch<'_>]) -> Result<Vec<u8>, Memory> {
    let mut draft = Draft::new(alloc, number)?;
    for bunch in bunches {
        draft.bunch(bunch)?;
    }
    draft.finish()
}

fn hears(
    alloc: Global,
    client: &mut Client<'_>,
    number: u64,
    bunches: &[Sketch<'_>],
    said: Verdict,
) -> Result<bool, Memory>
    requires { IsReady client.old }
    ensures { IsReady client.new }
{
    let bytes = datagram(alloc, number, bunches)?;
    says(client, bytes.as_slice(), said)
}

/// A packet that acknowledges another one.
fn acknowledgement(alloc: Global, number: u64, acked: u64) -> Result<Vec<u8>, Memory> {
    let mut draft = Draft::new(alloc, number)?;
    draft.ack(acked)?;
    draft.finish()
}

fn hears_ack(
    alloc: Global,
    client: &mut Client<'_>,
    number: u64,
    acked: u64,
    said: Verdict,
) -> Result<bool, Memory>
    requires { IsReady client.old }
    ensures { IsReady client.new }
{
    let bytes = acknowledgement(alloc, number, acked)?;
    says(client, bytes.as_slice(), said)
}

/// So many calls are handed over, each to be run.
fn hands(
    alloc: Global,
    client: &mut Client<'_>,
    number: u64,
    bunch: &Sketch<'_>,
    count: usize,
) -> Result<bool, Memory>
    requires { IsReady client.old }
    ensures { IsReady client.new }
{
    let bytes = datagram(alloc, number, &[*bunch])?;
    let outcome = client.take(bytes.as_slice())?;
    let mut all = true;
    for call in outcome.handed.as_slice() {
        if call.verdict != CallVerdict::Run {
            all = false;
        }
    }
    Ok(all && outcome.handed.len() == count)
}

fn takes_parts(alloc: Global, client: &mut Client<'_>) -> Result<bool, Memory>
    requires { IsReady client.old }
    ensures { IsReady client.new }
{
    let mut all = true;
    'parts: for i in 1..11 {
        let part = if i == 1 { Part::First } else { Part::Middle };
        let number = u64::from(i) + 1;
        let bunch = part_of(0, i, part, 7000);
        if !hears(alloc, client, number, &[bunch], Verdict::Taken { number })? {
            all = false;
        }
    }
    Ok(all)
}

/// A packet with 100 bunches of a channel, from this one on.
fn hundred(alloc: Global, number: u64, channel: u16, from: u16) -> Result<Vec<u8>, Memory> {
    let mut draft = Draft::new(alloc, number)?;
    for i in 0..100 {
        draft.bunch(&sure(channel, from.wrapping_add(i), &[]))?;
    }
    draft.finish()
}

fn holds(
    alloc: Global,
    client: &mut Client<'_>,
    number: u64,
    channel: u16,
    from: u16,
    said: Verdict,
) -> Result<bool, Memory>
    requires { IsReady client.old }
    ensures { IsReady client.new }
{
    let bytes = hundred(alloc, number, channel, from)?;
    says(client, bytes.as_slice(), said)
}

/// What is said of the first packet, cut after each number of bytes.
fn cut(client: &mut Client<'_>, cuts: &[(usize, Why)]) -> Result<bool, Memory>
    requires { IsReady client.old }
    ensures { IsReady client.new }
{
    'cuts: for i in 0..cuts.len() {
        let (at, why) = cuts[i];
        let bytes = FIRST.get(..i + 1).unwrap_or(&[]);
        if !says(client, bytes, Verdict::Malformed { at, why })? {
            return Ok(false);
        }
    }
    Ok(true)
}

/// Each packet opens Pawns, and is taken but for the last one.
fn crowds(alloc: Global, client: &mut Client<'_>, last: u64, said: Verdict) -> Result<bool, Memory>
    requires { IsReady client.old }
    ensures { IsReady client.new }
{
    'packets: for number in 2..last {
        let bytes = opening(alloc, number)?;
        if !says(client, bytes.as_slice(), Verdict::Taken { number })? {
            return Ok(false);
        }
    }
    let bytes = opening(alloc, last)?;
    says(client, bytes.as_slice(), said)
}

/// The answer to a call of an actor, by 7.
fn call(client: &mut Client<'_>, actor: u32, number: u16) -> Result<CallAnswer, Memory>
    requires { IsReady client.old }
    ensures { IsReady client.new }
{
    client.call(Guid(actor), number, &[Arg::Scalar(Value::I32(7))])
}

fn calls_often(client: &mut Client<'_>, count: u32, last: CallAnswer) -> Result<bool, Memory>
    requires { IsReady client.old }
    ensures { IsReady client.new }
{
    'calls: for done in 0..300 {
        let answer = call(client, PAWN, 1)?;
        if answer != CallAnswer::Queued {
            return Ok(done == count && answer == last);
        }
    }
    Ok(false)
}

fn sends(client: &mut Client<'_>, wanted: Option<&[u8]>) -> Result<bool, Memory>
    requires { IsReady client.old }
    ensures { IsReady client.new }
{
    let ticked = client.tick()?;
    let sent = ticked.sent.as_slice();
    match wanted {
        Some(bytes) => Ok(sent.len() == 1 && sent[0].bytes.as_slice() == bytes),
        None => Ok(sent.is_empty() && !ticked.stalled),
    }
}

/// Whether the client dies in a tick.
fn dies(client: &mut Client<'_>) -> Result<bool, Memory>
    requires { IsReady client.old }
    ensures { IsReady client.new }
{
    let ticked = client.tick()?;
    Ok(ticked.stalled)
}

/// In how many ticks the client dies, each with an empty packet before it; 0 if not in 4,199.
fn tick_often(alloc: Global, client: &mut Client<'_>) -> Result<u64, Memory>
    requires { IsReady client.old }
    ensures { IsReady client.new }
{
    'ticks: for count in 1..4200 {
        let number = count + 1;
        if !hears(alloc, client, number, &[], Verdict::Taken { number })? {
            return Ok(0);
        }
        if dies(client)? {
            return Ok(count);
        }
    }
    Ok(0)
}

/// The values 1, 2 and 4 of the Pawn's copy.
fn pawn(client: &Client<'_>) -> Option<(i32, i32, u8)> {
    let copy = client.copies().of_actor(Guid(PAWN))?;
    let x = copy.values.get(0)?;
    let y = copy.values.get(1)?;
    let hp = copy.values.get(3)?;
    match (x.value, y.value, hp.value) {
        (Value::I32(x), Value::I32(y), Value::U8(hp)) => Some((x, y, hp)),
        _ => None,
    }
}
