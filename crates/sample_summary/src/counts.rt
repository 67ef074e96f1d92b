// What is counted of events, one after another.
ghost use Rattle.std.specs.Prelude.{◌≡◌, ◌+◌, ◌∷◌, ◌++◌, [], ℕ, List, OnOk, IfOk};
ghost use Rattle.std.specs.List.{cons_option};
ghost use Rattle.std.specs.Option.{option_copied};
ghost use Rattle.protocol_model.specs.Side.{AtServer, AtClient};
ghost use Rattle.protocol_model.specs.Value.{Table};
ghost use Rattle.script_model.specs.Reports.{Report};
ghost use Rattle.script_lines.specs.ReportOf.{answer_of, report_of};
ghost use Rattle.sample_summary.specs.Sampled.{is_refusal, is_refused, packet_by, tells_refusal};
ghost use Rattle.sample_summary.specs.Tallied.{AreCounted, IsTraffic};

use net_core::{Blob, Memory};
use protocol_model::Verdict;
use script_lines::{Delivery, Event};

/// Packets, and the sum of their bytes.
#[derive(Clone, Copy)]
pub(crate) struct Traffic {
    pub packets: u64,
    pub bytes: u64,
}

/// The packets of either side, and the refusals.
#[derive(Clone, Copy)]
pub(crate) struct Counts {
    pub down: Traffic,
    pub up: Traffic,
    pub refused: u64,
}

impl Traffic {
    fn none() -> Traffic
        ensures { IsTraffic result [] }
    {
        Traffic {
            packets: 0,
            bytes: 0,
        }
    }

    // One more packet, if there is one.
    fn add(&mut self, packet: Option<&Blob>) -> Result<(), Memory>
        ensures { OnOk result ((packets : List (List ℕ)) → IsTraffic self.old packets
            → IsTraffic self.new (packets ++ cons_option (option_copied packet.entry) [])) }
    {
        match packet {
            Some(packet) => self.add_packet(packet.as_slice()),
            None => Ok(()),
        }
    }

    fn add_packet(&mut self, packet: &[u8]) -> Result<(), Memory>
        ensures { OnOk result ((packets : List (List ℕ)) → IsTraffic self.old packets
            → IsTraffic self.new (packets ++ packet.now ∷ [])) }
    {
        self.packets = sum(self.packets, 1)?;
        self.bytes = sum(self.bytes, packet.len() as u64)?;
        Ok(())
    }
}

impl Counts {
    /// Before the first event.
    pub(crate) fn none() -> Counts
        ensures { AreCounted result [] }
    {
        Counts {
            down: Traffic::none(),
            up: Traffic::none(),
            refused: 0,
        }
    }

    /// One more event. After `Memory`, which also comes where a count would pass 2^64 - 1, it may be
    /// counted in part.
    pub(crate) fn add(&mut self, event: &Event) -> Result<(), Memory>
        ensures { OnOk result ((table : Table) (told : List Report) → AreCounted self.old told
            → AreCounted self.new (told ++ report_of table event.now ∷ [])) }
    {
        self.down.add(packet_down(event))?;
        self.up.add(packet_up(event))?;
        self.refused = sum(self.refused, tells_refusal(event) as u64)?;
        Ok(())
    }
}

// The sum, below 2^64.
fn sum(count: u64, more: u64) -> Result<u64, Memory>
    ensures { IfOk result (λ sum. sum ≡ count + more) }
{
    match count.checked_add(more) {
        Some(sum) => Ok(sum),
        None => Err(Memory),
    }
}

/// The packet that the server sent.
fn packet_down(event: &Event) -> Option<&Blob>
    ensures { (table : Table) → option_copied result
        ≡ packet_by AtServer (report_of table event.now) }
{
    match event {
        Event::Sent { bytes, .. } => Some(bytes),
        _ => None,
    }
}

/// The packet that a client sent.
fn packet_up(event: &Event) -> Option<&Blob>
    ensures { (table : Table) → option_copied result
        ≡ packet_by AtClient (report_of table event.now) }
{
    match event {
        Event::ClientSent { bytes, .. } => Some(bytes),
        _ => None,
    }
}

/// A verdict other than taken, or a stall.
fn tells_refusal(event: &Event) -> bool
    ensures { (table : Table) → result ≡ tells_refusal (report_of table event.now) }
{
    match event {
        Event::Down { answer, .. } | Event::Up { answer, .. } => is_refused(*answer),
        Event::Forged { verdict, .. } | Event::ClientForged { verdict, .. } => is_refusal(*verdict),
        Event::Stalled { .. } | Event::ClientStalled { .. } => true,
        _ => false,
    }
}

/// The answer is another than taken.
fn is_refused(answer: Delivery) -> bool
    ensures { result ≡ is_refused (answer_of answer) }
{
    match answer {
        Delivery::Says(verdict) => is_refusal(verdict),
        _ => true,
    }
}

/// The verdict is another than taken.
fn is_refusal(verdict: Verdict) -> bool
    ensures { result ≡ is_refusal verdict }
{
    !matches!(verdict, Verdict::Taken { .. })
}
