// Fields of payloads: guids and bytes.
ghost use Rattle.std.specs.Prelude.{◌≤◌, ◌+◌, ◌*◌, length};
ghost use Rattle.protocol_model.specs.Bits.{packed_bits};
ghost use Rattle.protocol_model.specs.Payload.{octets_bits};
ghost use Rattle.bit_io.specs.Written.{Appends};

use bit_io::BitWriter;
use net_core::Guid;

/// Appends a guid.
pub(crate) fn put_guid(w: &mut BitWriter, guid: Guid)
    requires { 40 ≤ w.old.spare }
    ensures { Appends w.old w.new (packed_bits guid) }
{
    w.put_packed(guid.0);
}

/// Appends bytes.
pub(crate) fn put_octets(w: &mut BitWriter, bytes: &[u8])
    requires { 8 * length bytes.now ≤ w.old.spare }
    ensures bits { Appends w.old w.new (octets_bits bytes.now) }
    ensures room { w.old.spare ≤ w.new.spare + 8 * length bytes.now }
{
    for byte in bytes {
        w.put_fixed(u64::from(*byte), 8);
    }
}
