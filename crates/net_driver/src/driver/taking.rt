// Datagrams that come from players.
ghost use Rattle.std.specs.Prelude.{◌≡◌, ◌≢◌, ◌⊎◌, ℕ, [], map, true, Some, None, IfOk, OnOk, OnErr, IsErr};
ghost use Rattle.protocol_model.specs.World.{Edits};
ghost use Rattle.protocol_model.specs.declared.Verdict.{Verdict as VerdictSpec};
ghost use Rattle.connection_model.specs.Feed.{End, Event, Past};
ghost use Rattle.class_layout.specs.Tables.{table_in};
ghost use Rattle.handovers.specs.Handovers.{handover_of};
ghost use Rattle.shadow_changes.specs.Samples.{Samples};
ghost use Rattle.net_driver.specs.Served.{Served, Seat, seat_of, has_joined, with_seat, heard, lost_now};
ghost use Rattle.net_driver.specs.Serves.{Serves, IsSpent};
ghost use Rattle.net_driver.specs.Ends.{end_at};
ghost use Rattle.net_driver.specs.Chairs.{dead_for};
ghost use Rattle.server_end.specs.Hearing.{MayHearEnd, IsHeard};
ghost use Rattle.net_driver.specs.Hearing.{verdict_for, handovers_for};
ghost use Rattle.server_end.specs.declared.server_end.ServerEnd.{ServerEnd as EndSpec};

use super::Driver;
use crate::chair::key_of;
use bit_io::Memory;
use class_layout::HandedList;
use handovers::Outcome;
use net_core::Player;
use protocol_model::Verdict;
use server_end::ServerEnd;
use server_hearing::Heard;
use slab::Slab;
use std::alloc::Global;
use world_table::World;

impl<'a> Driver<'a> {
    /// Takes a datagram of a player who joined: what the player's end says of it, and the calls that
    /// it hands over, each with what is to be done with it by the world as it is now. Where it
    /// breaks a rule it closes that end. After `Memory` that end is dead, and all else is as it was.
    pub fn take(&mut self, player: Player, bytes: &[u8]) -> Result<Outcome, Memory>
        requires { IsSpent self.old ⊎ ((s : Served) × Serves self.old s
            × (has_joined s player ≡ true)) }
        ensures serves { OnOk result ((s : Served) → Serves self.old s
            → Serves self.new (with_seat (heard (Event.Got bytes.now)) player s)) }
        ensures verdict { IfOk result (λ o. (s : Served) (seat : Seat) → Serves self.old s
            → seat_of s player ≡ Some seat
            → o.verdict ≡ verdict_for (table_in self.old.layout) seat bytes.now) }
        ensures handed { IfOk result (λ o. (s : Served) (seat : Seat) → Serves self.old s
            → seat_of s player ≡ Some seat → map (handover_of self.old.layout) o.handed
            ≡ handovers_for (table_in self.old.layout) s.edits seat bytes.now) }
        ensures memory { OnErr result ((s : Served) → Serves self.old s
            → Serves self.new (with_seat lost_now player s)) }
        ensures after { IsSpent self.old → IsErr result }
        ensures stays { IsSpent self.old → IsSpent self.new }
        ensures layout { self.new.layout ≡ self.old.layout }
        ensures greatest { self.new.greatest ≡ self.old.greatest }
    {
        if self.spent {
            return Err(Memory);
        }
        let Some(key) = key_of(self.chairs.as_slice(), player) else {
            return Ok(unheard(self.alloc));
        };
        match take_at(&mut self.ends, key, self.alloc, &self.world, bytes) {
            Ok(heard) => {
                let Heard { outcome, closed } = heard;
                self.close(player, key, closed);
                Ok(outcome)
            }
            Err(_) => {
                self.die(player, Some(key), 0);
                Err(Memory)
            }
        }
    }

    /// A player's end, which is under this key, is dead where a datagram closed it, and took this
    /// greatest number.
    fn close(&mut self, player: Player, key: usize, closed: Option<u64>)
        ensures alive { closed ≡ None → self.new ≡ self.old }
        ensures ends { (k : ℕ) → k ≢ key → end_at self.new.ends k ≡ end_at self.old.ends k }
        ensures chairs { (top : ℕ) → closed ≡ Some top
            → self.new.chairs ≡ map (dead_for player top) self.old.chairs }
        ensures rest { self.new
            ≡ record self.old { ends = self.new.ends; chairs = self.new.chairs } }
    {
        if let Some(top) = closed {
            self.die(player, Some(key), top);
        }
    }
}

/// What a dead end makes of a datagram.
fn unheard(alloc: Global) -> Outcome
    ensures handed { result.handed ≡ [] }
    ensures verdict { result.verdict ≡ VerdictSpec.Dead }
{
    Outcome {
        handed: HandedList::new(alloc),
        verdict: Verdict::Dead,
    }
}

/// Takes a datagram at the end under a key.
fn take_at(
    ends: &mut Slab<ServerEnd>,
    key: usize,
    alloc: Global,
    world: &World<'_>,
    bytes: &[u8],
) -> Result<Heard, Memory>
    requires { (e : EndSpec) × (end : End) × (edits : Edits) × (past : Past) × (samples : Samples)
        × (end_at ends.old.slots key ≡ Some e) × MayHearEnd world.now e end edits past samples }
    ensures heard { IfOk result (λ h. (e : EndSpec) (end : End) (edits : Edits) (past : Past)
        (samples : Samples) → end_at ends.old.slots key ≡ Some e
        → MayHearEnd world.now e end edits past samples
        → (later : EndSpec) × (end_at ends.new.slots key ≡ Some later)
        × IsHeard world.now.layout edits end past samples bytes.now e later h) }
    ensures others { (k : ℕ) → k ≢ key → end_at ends.new.slots k ≡ end_at ends.old.slots k }
{
    match ends.get_mut(key) {
        Some(end) => end.take(alloc, world, bytes),
        None => Err(Memory),
    }
}
