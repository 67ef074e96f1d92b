// Exported segments of paths.
ghost use Rattle.std.specs.Prelude.{◌≡◌, ◌==◌, ◌&&◌, ◌%◌, nat_le};
ghost use Rattle.std.specs.List.{list_all};
ghost use Rattle.protocol_model.specs.Limits.{name_bytes};
ghost use Rattle.protocol_model.specs.Reading.{int_at};
ghost use Rattle.connection_model.specs.Names.{is_letter as is_letter_code, is_name_char as is_char_code, is_segment_name as is_name_text};
ghost use Rattle.connection_model.specs.PayloadReading.{number_at, field, octets_at, segment_at};
ghost use Rattle.payload_reading.specs.Reads.{Follows, itself};
ghost use Rattle.payload_reading.specs.Values.{segment_value};

use crate::fields::{int, number, octets};
use crate::stop::Stop;
use bit_io::{BitReader, Blob};
use class_layout::Guid;
use protocol_model::limits::NAME_BYTES;
use std::alloc::Global;

/// A segment as an open exports it: its outer is 0 for the outermost.
#[derive(Debug, Drop)]
pub struct ReadSegment {
    pub guid: Guid,
    pub outer: Guid,
    pub name: Blob,
}

/// A segment: an odd guid of at least 3, its outer's guid, and a name of 1 to 31 characters, of
/// which the first is a letter and each other a letter, a digit or an underscore.
pub fn read_segment(alloc: Global, reader: &mut BitReader<'_>) -> Result<ReadSegment, Stop>
    ensures { Follows segment_value segment_at reader.old reader.new result }
{
    let guid = segment_guid(reader)?;
    let outer = number(reader)?;
    let count = name_length(reader)?;
    let name = name(alloc, reader, count)?;
    Ok(ReadSegment {
        guid: Guid(guid),
        outer: Guid(outer),
        name,
    })
}

/// The guid of a segment.
fn segment_guid(reader: &mut BitReader<'_>) -> Result<u32, Stop>
    ensures { Follows itself (field number_at (λ g. g % 2 == 1 && nat_le 3 g))
        reader.old reader.new result }
{
    let left = reader.left();
    let g = number(reader)?;
    if g % 2 != 1 || g < 3 {
        return Err(Stop::Broken { left, cause: None });
    }
    Ok(g)
}

/// The length of a name.
fn name_length(reader: &mut BitReader<'_>) -> Result<u32, Stop>
    ensures { Follows itself (field (int_at 64) (λ n. nat_le 1 n && nat_le n name_bytes))
        reader.old reader.new result }
{
    let left = reader.left();
    let n = int(reader, 64)?;
    if n < 1 || n as usize > NAME_BYTES {
        return Err(Stop::Broken { left, cause: None });
    }
    Ok(n)
}

/// A name of so many characters.
fn name(alloc: Global, reader: &mut BitReader<'_>, count: u32) -> Result<Blob, Stop>
    ensures { Follows itself (field (octets_at count) is_name_text) reader.old reader.new result }
{
    let left = reader.left();
    let bytes = octets(alloc, reader, count)?;
    if !is_segment_name(bytes.as_slice()) {
        return Err(Stop::Broken { left, cause: None });
    }
    Ok(bytes)
}

/// The characters are letters, digits and underscores, and the first is a letter.
#[tactic(auto, using(crate::proofs::Names::begins))]
fn is_segment_name(bytes: &[u8]) -> bool
    ensures { result ≡ is_name_text bytes.now }
{
    match bytes.first() {
        Some(first) => is_letter(*first) && are_name_chars(bytes),
        None => false,
    }
}

/// The bytes are letters, digits and underscores.
fn are_name_chars(bytes: &[u8]) -> bool
    ensures { result ≡ list_all is_char_code bytes.now }
{
    bytes.iter().all(|c| is_name_char(*c))
}

/// An ASCII letter.
fn is_letter(c: u8) -> bool
    ensures { result ≡ is_letter_code c }
{
    (c >= 65 && c <= 90) || (c >= 97 && c <= 122)
}

/// An ASCII letter or digit, or an underscore.
fn is_name_char(c: u8) -> bool
    ensures { result ≡ is_char_code c }
{
    is_letter(c) || (c >= 48 && c <= 57) || c == 95
}
