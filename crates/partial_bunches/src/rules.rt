// Which bunch may be joined to the parts before it.
ghost use Rattle.std.specs.Prelude.{◌≡◌, ◌<◌, ◌≤◌, ℕ, List, length, None, true, false};
ghost use Rattle.protocol_model.specs.Limits.{part_bits, part_limit};
ghost use Rattle.protocol_model.specs.Packet.{Bunch as BunchSpec};
ghost use Rattle.connection_model.specs.Windows.{part_fault as fault_of};
ghost use Rattle.bit_io.specs.Lent.{slice_bits};
ghost use Rattle.partial_bunches.specs.Joins.{ends_with};
ghost use Rattle.packet_codec.specs.Values.{bunch_of};

use packet_codec::Bunch;
use protocol_model::limits::{PART_BITS, PART_LIMIT};
use protocol_model::{Part, PartWhy};

/// The first rule of parts that a bunch breaks, where `kept` parts are kept.
pub fn part_fault(b: &Bunch, kept: usize) -> Option<PartWhy>
    ensures first { (parts : List BunchSpec) → length parts ≡ kept
        → result ≡ fault_of parts (bunch_of b.now) b.now.part }
    ensures most { result ≡ None → length (slice_bits b.now.payload) ≤ part_bits }
    ensures full { result ≡ None → ends_with b.now.part ≡ false
        → length (slice_bits b.now.payload) ≡ part_bits }
    ensures more { result ≡ None → ends_with b.now.part ≡ false → kept < part_limit }
    ensures last { result ≡ None → b.now.reliable ≡ true → kept < part_limit }
{
    let bits = b.payload.len();
    if bits > PART_BITS {
        return Some(PartWhy::Oversize);
    }
    match b.part {
        Part::Lone => Some(PartWhy::Lone),
        Part::Whole if b.reliable && kept > 0 => Some(PartWhy::Inside),
        Part::Whole => None,
        _ if b.closes => Some(PartWhy::Flags),
        Part::First if kept > 0 => Some(PartWhy::Restart),
        Part::First if bits != PART_BITS => Some(PartWhy::FewBits),
        Part::First => None,
        _ if kept == 0 => Some(PartWhy::NoFirst),
        _ if b.opens => Some(PartWhy::Opens),
        Part::Middle if bits != PART_BITS => Some(PartWhy::FewBits),
        Part::Last if bits == 0 => Some(PartWhy::FewBits),
        _ if kept >= PART_LIMIT => Some(PartWhy::TooMany),
        _ => None,
    }
}

/// A payload ends with this part.
pub fn ends_payload(part: Part) -> bool
    ensures { result ≡ ends_with part }
{
    match part {
        Part::Whole | Part::Last | Part::Lone => true,
        Part::First | Part::Middle => false,
    }
}
