// The packets of a file of hex lines.
ghost use Rattle.std.specs.Prelude.{◌≡◌, IfOk};
ghost use Rattle.unet.specs.Outcome.{outcome_of_packets};
ghost use Rattle.unet.specs.Said.{said_of};

use crate::said::Said;
use crate::status::{ALL_DONE, BAD_PACKETS};
use net_core::Memory;
use packet_text::{ShowRefusal, refused_text, show};
use protocol_model::Version;
use std::alloc::Global;

/// What is said of a file of hex lines.
pub fn show_packets(alloc: Global, version: Version, file: &[u8]) -> Result<Said, Memory>
    ensures { IfOk result (λ said. said_of said ≡ outcome_of_packets version file.now) }
{
    match show(alloc, version, file) {
        Ok(text) => Ok(Said {
            status: ALL_DONE,
            text,
        }),
        Err(ShowRefusal::BadLine { line, fault }) => Ok(Said {
            status: BAD_PACKETS,
            text: refused_text(alloc, line, fault)?,
        }),
        Err(ShowRefusal::Memory) => Err(Memory),
    }
}
