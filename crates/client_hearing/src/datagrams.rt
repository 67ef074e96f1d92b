// Datagrams: taken apart, heard, and answered.
ghost use Rattle.std.specs.Prelude.{◌≡◌, [], map, max, option_map, false, IfOk, OnOk};
ghost use Rattle.protocol_model.specs.Packet.{Packet};
ghost use Rattle.protocol_model.specs.declared.Version.{Version};
ghost use Rattle.connection_model.specs.Feed.{Past, has_ended};
ghost use Rattle.connection_model.specs.Fates.{top_of};
ghost use Rattle.connection_model.specs.Verdict.{verdict_of, after_got, verdict_after as verdict_on};
ghost use Rattle.handovers.specs.Handovers.{handover_of};
ghost use Rattle.link_end.specs.Answers.{cause_value};
ghost use Rattle.actor_copies.specs.Stands.{Stands as StandCopies};
ghost use Rattle.client_hearing.specs.Keeping.{end_as};
ghost use Rattle.client_hearing.specs.Hearing.{Lives, Arrives, IsTakenIn, after_arrival, handovers_in, handovers_of, verdict_from, EndsBy};

use crate::halt::Halt;
use crate::packets::hear_entries;
use actor_copies::CopyList;
use bit_io::Memory;
use channel_table::ChannelTable;
use class_layout::{Classes, HandedList};
use handovers::Outcome;
use link_end::{Arrival, BadAck, LinkEnd, TakeRefusal};
use netguid_map::Names;
use protocol_model::{Cause, Verdict};
use std::alloc::Global;

/// What came of a datagram, and the greatest packet number taken by now.
#[derive(Debug, Drop)]
pub struct Heard {
    pub outcome: Outcome,
    pub top: u64,
}

/// Takes a datagram that came to an end that is alive. After a verdict `Closed` the copies alone
/// stand, and after `Memory` nothing does.
pub fn take(
    alloc: Global,
    classes: &Classes,
    link: &mut LinkEnd,
    table: &mut ChannelTable,
    names: &mut Names,
    copies: &mut CopyList,
    bytes: &[u8],
) -> Result<Heard, Memory>
    requires { (version : Version) × (past : Past)
        × Lives classes.now version link.old table.old names.old copies.old past }
    ensures verdict { IfOk result (λ h. (version : Version) (past : Past)
        → Lives classes.now version link.old table.old names.old copies.old past
        → h.outcome.verdict ≡ verdict_of (end_as classes.now version) past bytes.now) }
    ensures handed { IfOk result (λ h. (version : Version) (past : Past)
        → Lives classes.now version link.old table.old names.old copies.old past
        → map (handover_of classes.now) h.outcome.handed
        ≡ handovers_in (end_as classes.now version) past bytes.now) }
    ensures top { IfOk result (λ h. (version : Version) (past : Past)
        → Lives classes.now version link.old table.old names.old copies.old past
        → h.top ≡ top_of (after_got (end_as classes.now version) past bytes.now)) }
    ensures copied { OnOk result ((version : Version) (past : Past)
        → Lives classes.now version link.old table.old names.old copies.old past
        → StandCopies classes.now copies.new
        (after_got (end_as classes.now version) past bytes.now)) }
    ensures lives { OnOk result ((version : Version) (past : Past)
        → Lives classes.now version link.old table.old names.old copies.old past
        → has_ended (after_got (end_as classes.now version) past bytes.now) ≡ false
        → Lives classes.now version link.new table.new names.new copies.new
        (after_got (end_as classes.now version) past bytes.now)) }
    ensures count { table.new.made.count ≡ table.old.made.count }
{
    let arrival = match link.take(bytes) {
        Ok(arrival) => arrival,
        Err(TakeRefusal::Malformed { at, why }) => {
            return Ok(unheard(alloc, Verdict::Malformed { at, why }, link.top()));
        }
        Err(TakeRefusal::Old { number, last }) => {
            return Ok(unheard(alloc, Verdict::Old { number, last }, link.top()));
        }
        Err(TakeRefusal::Memory) => return Err(Memory),
    };
    let heard = hear_arrival(alloc, classes, table, names, copies, &arrival)?;
    Ok(heard)
}

/// Hears a packet that arrived.
fn hear_arrival(
    alloc: Global,
    classes: &Classes,
    table: &mut ChannelTable,
    names: &mut Names,
    copies: &mut CopyList,
    arrival: &Arrival<'_>,
) -> Result<Heard, Memory>
    requires { (version : Version) × (past : Past) × (p : Packet)
        × Arrives classes.now version table.old names.old copies.old past p arrival.now }
    ensures verdict { IfOk result (λ h. (version : Version) (past : Past) (p : Packet)
        → Arrives classes.now version table.old names.old copies.old past p arrival.now
        → h.outcome.verdict
        ≡ verdict_on (after_arrival classes.now version past p) arrival.now.number) }
    ensures handed { IfOk result (λ h. (version : Version) (past : Past) (p : Packet)
        → Arrives classes.now version table.old names.old copies.old past p arrival.now
        → map (handover_of classes.now) h.outcome.handed
        ≡ handovers_of classes.now version past p) }
    ensures top { IfOk result (λ h. h.top ≡ arrival.now.number) }
    ensures greatest { OnOk result ((version : Version) (past : Past) (p : Packet)
        → Arrives classes.now version table.old names.old copies.old past p arrival.now
        → top_of (after_arrival classes.now version past p)
        ≡ max arrival.now.number (top_of past)) }
    ensures copied { OnOk result ((version : Version) (past : Past) (p : Packet)
        → Arrives classes.now version table.old names.old copies.old past p arrival.now
        → StandCopies classes.now copies.new (after_arrival classes.now version past p)) }
    ensures taken { OnOk result ((version : Version) (past : Past) (p : Packet)
        → Arrives classes.now version table.old names.old copies.old past p arrival.now
        → has_ended (after_arrival classes.now version past p) ≡ false
        → IsTakenIn classes.now version table.new names.new copies.new past p arrival.now) }
    ensures count { table.new.made.count ≡ table.old.made.count }
{
    let mut calls = Vec::new(alloc);
    let entries = arrival.entries.as_slice();
    let heard = hear_entries(alloc, classes, table, names, copies, entries, &mut calls);
    let ended = ended_by(heard, arrival.bad)?;
    Ok(Heard {
        outcome: Outcome {
            handed: HandedList::from_vec(calls),
            verdict: verdict(ended, arrival.number),
        },
        top: arrival.number,
    })
}

/// The cause by which a packet ended the end, if it did, once its entries were heard.
fn ended_by(heard: Result<(), Halt>, bad: Option<BadAck>) -> Result<Option<Cause>, Memory>
    ensures { IfOk result (λ ended. EndsBy heard (option_map cause_value bad) ended) }
{
    match heard {
        Ok(()) => Ok(cause_of(bad)),
        Err(Halt::Broken(cause)) => Ok(Some(cause)),
        Err(Halt::Memory) => Err(Memory),
    }
}

/// A datagram that was refused before any of it was heard.
fn unheard(alloc: Global, verdict: Verdict, top: u64) -> Heard
    ensures handed { result.outcome.handed ≡ [] }
    ensures verdict { result.outcome.verdict ≡ verdict }
    ensures top { result.top ≡ top }
{
    Heard {
        outcome: Outcome {
            handed: HandedList::new(alloc),
            verdict,
        },
        top,
    }
}

/// The cause that a bad acknowledgement gives, where there is one.
fn cause_of(bad: Option<BadAck>) -> Option<Cause>
    ensures { result ≡ option_map cause_value bad }
{
    let bad = bad?;
    Some(Cause::BadAck {
        acked: bad.acked,
        sent: bad.sent,
    })
}

/// The verdict on a packet that ended the end by this cause, or didn't end it.
fn verdict(ended: Option<Cause>, number: u64) -> Verdict
    ensures { result ≡ verdict_from ended number }
{
    match ended {
        None => Verdict::Taken { number },
        Some(cause) => Verdict::Closed(cause),
    }
}
