// Files of hex lines.
ghost use Rattle.std.specs.Prelude.{◌≡◌, ℕ, Some, Err, IfOk, IfErr, OnOk, string_bytes};
ghost use Rattle.program_model.specs.Shown as model;
ghost use Rattle.program_model.specs.Shown.{packet_in, packet_read, packets_of};
ghost use Rattle.packet_text.specs.Faults.{Explains, Shows, IsShown};

use crate::packets::put_packet;
use crate::refused::{LineFault, ShowRefusal};
use packet_codec::{DecodeRefusal, decode};
use protocol_model::Version;
use script_spelling::{first_piece, hex_bytes};
use std::alloc::Global;

/// The packets of a file in words. Lines end with a newline, which the last may lack; each has the
/// bytes of one datagram in hex digits of either case, an empty line an empty datagram. `BadLine`
/// comes exactly where a line spells no packet of the version.
pub fn show(alloc: Global, version: Version, file: &[u8]) -> Result<String, ShowRefusal>
    ensures shown { IfOk result (λ text. IsShown version file.now (string_bytes text)) }
    ensures refused { IfErr result (λ refusal. (line : ℕ) (fault : model.LineFault)
        → Explains refusal line fault → packets_of version file.now ≡ Err (line, fault)) }
{
    let mut text = String::new(alloc);
    let mut rest = file;
    let mut number = 1;
    while !rest.is_empty() {
        let (line, later) = first_piece(rest, 10);
        if let Err(refusal) = put_line(alloc, version, line, number, &mut text) {
            return Err(refusal);
        }
        rest = match later {
            Some(bytes) => bytes,
            None => &rest[..0],
        };
        number += 1;
    }
    Ok(text)
}

// The packet of the line of this number, after the text.
fn put_line(
    alloc: Global,
    version: Version,
    line: &[u8],
    number: usize,
    text: &mut String,
) -> Result<(), ShowRefusal>
    ensures shown { OnOk result (Shows (packet_in version line.now) version
        (string_bytes text.old) (string_bytes text.new)) }
    ensures refused { IfErr result (λ refusal. (n : ℕ) (fault : model.LineFault)
        → Explains refusal n fault → (n ≡ number) × (packet_in version line.now ≡ Err fault)) }
{
    let Some(bytes) = hex_bytes(alloc, line)? else {
        return Err(ShowRefusal::BadLine {
            line: number,
            fault: LineFault::NotHex,
        });
    };
    put_datagram(alloc, version, bytes.as_slice(), number, text)
}

// The packet of a line's bytes, after the text.
fn put_datagram(
    alloc: Global,
    version: Version,
    bytes: &[u8],
    number: usize,
    text: &mut String,
) -> Result<(), ShowRefusal>
    ensures shown { OnOk result (Shows (packet_read version (Some bytes.now)) version
        (string_bytes text.old) (string_bytes text.new)) }
    ensures refused { IfErr result (λ refusal. (n : ℕ) (fault : model.LineFault)
        → Explains refusal n fault
        → (n ≡ number) × (packet_read version (Some bytes.now) ≡ Err fault)) }
{
    match decode(alloc, version, bytes) {
        Ok(packet) => {
            put_packet(alloc, version, &packet, text)?;
            Ok(())
        }
        Err(DecodeRefusal::Malformed { at, why }) => Err(ShowRefusal::BadLine {
            line: number,
            fault: LineFault::NoPacket { at, why },
        }),
        Err(DecodeRefusal::Memory) => Err(ShowRefusal::Memory),
    }
}
