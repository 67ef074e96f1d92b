// A datagram of a player.
ghost use Rattle.std.specs.Prelude.{◌≡◌, ℕ, true, false, Some, None, option_map, IfOk, OnOk};
ghost use Rattle.protocol_model.specs.World.{Edits};
ghost use Rattle.protocol_model.specs.Search.{or_else};
ghost use Rattle.connection_model.specs.Feed.{End, Past, has_ended};
ghost use Rattle.connection_model.specs.Fates.{top_of};
ghost use Rattle.connection_model.specs.Handed.{handed_by};
ghost use Rattle.connection_model.specs.Verdict.{verdict_of, after_got};
ghost use Rattle.link_end.specs.Answers.{cause_value};
ghost use Rattle.shadow_changes.specs.Samples.{Samples};
ghost use Rattle.sender_steps.specs.Stands.{Stands};
ghost use Rattle.server_hearing.specs.Payloads.{handed_values, calls_of};
ghost use Rattle.server_hearing.specs.Datagrams.{MayHear, IsRefused, heard_as};

use crate::entries::hear_entries;
use actor_sender::ActorSender;
use bit_io::Memory;
use channel_table::{Cause, ChannelTable};
use class_layout::HandedList;
use handovers::Outcome;
use link_end::{BadAck, LinkEnd, TakeRefusal};
use net_core::Player;
use protocol_model::Verdict;
use std::alloc::Global;
use world_table::World;

/// What came of a datagram.
#[derive(Debug, Drop)]
pub struct Heard {
    pub outcome: Outcome,
    /// The number of the packet, where it closed the end: the greatest one taken.
    pub closed: Option<u64>,
}

/// Takes a datagram at the end of a player that is alive. After `Memory` the end is of no more use.
pub fn take(
    alloc: Global,
    world: &World<'_>,
    player: Player,
    link: &mut LinkEnd,
    table: &mut ChannelTable,
    sender: &mut ActorSender,
    bytes: &[u8],
) -> Result<Heard, Memory>
    requires { (end : End) × (edits : Edits) × (past : Past) × (samples : Samples)
        × MayHear world.now sender.old link.old table.old end edits past samples }
    ensures verdict { IfOk result (λ h. (end : End) (edits : Edits) (past : Past)
        (samples : Samples)
        → MayHear world.now sender.old link.old table.old end edits past samples
        → h.outcome.verdict ≡ verdict_of end past bytes.now) }
    ensures handed { IfOk result (λ h. (end : End) (edits : Edits) (past : Past) (samples : Samples)
        → MayHear world.now sender.old link.old table.old end edits past samples
        → handed_values world.now.layout h.outcome.handed
        ≡ calls_of edits player (handed_by end past bytes.now)) }
    ensures stands { IfOk result (λ h. (end : End) (edits : Edits) (past : Past) (samples : Samples)
        → MayHear world.now sender.old link.old table.old end edits past samples → h.closed ≡ None
        → Stands sender.new link.new table.new end (after_got end past bytes.now) samples) }
    ensures alive { IfOk result (λ h. (end : End) (edits : Edits) (past : Past) (samples : Samples)
        → MayHear world.now sender.old link.old table.old end edits past samples → h.closed ≡ None
        → has_ended (after_got end past bytes.now) ≡ false) }
    ensures closed { IfOk result (λ h. (end : End) (edits : Edits) (past : Past) (samples : Samples)
        (top : ℕ) → MayHear world.now sender.old link.old table.old end edits past samples
        → h.closed ≡ Some top → has_ended (after_got end past bytes.now) ≡ true) }
    ensures top { IfOk result (λ h. (end : End) (edits : Edits) (past : Past) (samples : Samples)
        (top : ℕ) → MayHear world.now sender.old link.old table.old end edits past samples
        → h.closed ≡ Some top → top ≡ top_of (after_got end past bytes.now)) }
    ensures count { OnOk result (table.new.made.count ≡ table.old.made.count) }
{
    let arrival = match link.take(bytes) {
        Ok(arrival) => arrival,
        Err(refusal) => return refused(alloc, refusal),
    };
    let mut handed = HandedList::new(alloc);
    let entries = arrival.entries.as_slice();
    let broken = hear_entries(alloc, world, player, table, sender, entries, &mut handed)?;
    Ok(packet_heard(arrival.number, handed, cause_in(broken, arrival.bad)))
}

/// A datagram that isn't taken.
fn refused(alloc: Global, refusal: TakeRefusal) -> Result<Heard, Memory>
    ensures { IsRefused refusal result }
{
    let verdict = match refusal {
        TakeRefusal::Malformed { at, why } => Verdict::Malformed { at, why },
        TakeRefusal::Old { number, last } => Verdict::Old { number, last },
        TakeRefusal::Memory => return Err(Memory),
    };
    let handed = HandedList::new(alloc);
    Ok(Heard {
        outcome: Outcome { handed, verdict },
        closed: None,
    })
}

/// A packet that is taken; where a rule was broken it closes the end.
fn packet_heard(number: u64, handed: HandedList, cause: Option<Cause>) -> Heard
    ensures { result ≡ heard_as number handed cause }
{
    match cause {
        Some(cause) => Heard {
            outcome: Outcome {
                handed,
                verdict: Verdict::Closed(cause),
            },
            closed: Some(number),
        },
        None => Heard {
            outcome: Outcome {
                handed,
                verdict: Verdict::Taken { number },
            },
            closed: None,
        },
    }
}

/// The rule that an entry breaks, or else the bad acknowledgement.
fn cause_in(broken: Option<Cause>, bad: Option<BadAck>) -> Option<Cause>
    ensures { result ≡ or_else broken (option_map cause_value bad) }
{
    if broken.is_some() {
        return broken;
    }
    let bad = bad?;
    Some(Cause::BadAck {
        acked: bad.acked,
        sent: bad.sent,
    })
}
