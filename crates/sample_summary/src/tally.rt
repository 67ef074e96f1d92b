// The counts of a replay's events with the digest of their text.
ghost use Rattle.std.specs.Prelude.{◌≡◌, ◌∷◌, ◌++◌, [], List, OnOk, IfOk, string_bytes};
ghost use Rattle.protocol_model.specs.Value.{Table};
ghost use Rattle.script_model.specs.Reports.{Report};
ghost use Rattle.replication_model.specs.Story.{Story};
ghost use Rattle.class_layout.specs.Tables.{table_in};
ghost use Rattle.script_lines.specs.ReportOf.{report_of};
ghost use Rattle.replay_core.specs.Settled.{settled_count};
ghost use Rattle.sample_summary.specs.Sampled.{summary_of};
ghost use Rattle.sample_summary.specs.Tallied.{Tallies, summary_lines};

use crate::counts::{Counts, Traffic};
use class_layout::Classes;
use event_text::{bytes_text, print};
use net_core::{Blob, Memory};
use script_lines::Event;
use sha1::Sha1;
use std::alloc::Global;
use std::fmt::Write;

/// What was counted so far, and the digest of the transcript so far.
#[derive(Drop)]
pub(crate) struct Tally {
    pub counts: Counts,
    pub transcript: Sha1,
}

impl Tally {
    /// Before the first event.
    pub(crate) fn new() -> Tally
        ensures { Tallies result [] }
    {
        Tally {
            counts: Counts::none(),
            transcript: Sha1::new(),
        }
    }

    /// One more event. After `Memory` it may be counted in part.
    pub(crate) fn add(
        &mut self,
        alloc: Global,
        classes: &Classes,
        event: &Event,
    ) -> Result<(), Memory>
        ensures { OnOk result ((told : List Report) → Tallies self.old told
            → Tallies self.new (told ++ report_of (table_in classes.now) event.now ∷ [])) }
    {
        let mut text = Blob::new(alloc);
        print(alloc, &mut text, classes, event)?;
        self.counts.add(event)?;
        self.transcript.update(text.as_slice());
        Ok(())
    }

    /// The summary of a replay of so many ticks, at whose end so many pairs are settled.
    pub(crate) fn summary(self, alloc: Global, ticks: u32, settled: u32) -> Result<String, Memory>
        ensures { IfOk result (λ text. (table : Table) (story : Story) (told : List Report)
            → Tallies self told → settled ≡ settled_count table story
            → string_bytes text ≡ summary_of ticks table (story, told)) }
    {
        let Tally { counts, transcript } = self;
        let digest = bytes_text(alloc, &transcript.finalize())?;
        let text = summary_text(alloc, ticks, &counts, settled, &digest)?;
        Ok(text)
    }
}

// The lines of a summary.
fn summary_text(
    alloc: Global,
    ticks: u32,
    counts: &Counts,
    settled: u32,
    digest: &str,
) -> Result<String, Memory>
    ensures { IfOk result (λ text. string_bytes text
        ≡ summary_lines ticks counts.now settled digest.now) }
{
    let Counts { down, up, refused } = *counts;
    let Traffic { packets, bytes } = down;
    let mut text = format!(in alloc; "ticks {ticks}\ndown {packets} {bytes}\n")?;
    let Traffic { packets, bytes } = up;
    write!(
        text,
        "up {packets} {bytes}\nrefused {refused}\nsettled {settled}\n"
    )?;
    write!(text, "transcript {digest}\n")?;
    Ok(text)
}
