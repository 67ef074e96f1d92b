// Payloads that end an actor at a client.
ghost use Rattle.std.specs.Prelude.{◌≡◌, ℕ, Bool, IfOk};
ghost use Rattle.protocol_model.specs.Payload.{Closes, Gone, message_bits};

use crate::fields::put_guid;
use bit_io::{BitWriter, Bits, Memory};
use net_core::Guid;
use std::alloc::Global;

/// The payload of a Gone, which tells that an actor that sleeps was destroyed.
pub fn gone_payload(alloc: Global, actor: Guid) -> Result<Bits, Memory>
    ensures { IfOk result (λ bits. bits ≡ message_bits (Gone actor)) }
{
    let mut w = BitWriter::with_room(alloc, 80)?;
    w.put_packed(1);
    put_guid(&mut w, actor);
    Ok(w.into_bits())
}

/// The payload of a close, of whatever actor: no bits.
pub fn close_payload(alloc: Global) -> Result<Bits, Memory>
    ensures { IfOk result (λ bits. (actor : ℕ) (sleeps : Bool)
        → bits ≡ message_bits (Closes actor sleeps)) }
{
    Ok(BitWriter::with_room(alloc, 0)?.into_bits())
}
