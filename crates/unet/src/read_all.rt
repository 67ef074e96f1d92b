// Reading to the end.
ghost use Rattle.std.specs.Prelude.{◌≡◌, ◌≢◌, ◌≤◌, length, Err, IfOk, IfSome};
ghost use Rattle.protocol_model.specs.Limits.{script_bytes};

use net_core::{Blob, ReadRefusal};
use protocol_model::limits::SCRIPT_BYTES;
use std::alloc::Global;
use std::io::{ErrorKind, Read};

/// All the bytes that the reader has left. `Failed` comes where a read fails, and where there are
/// more than `SCRIPT_BYTES`; one that was interrupted is tried again.
pub fn read_all<R: Read + Drop>(alloc: Global, reader: R) -> Result<Blob, ReadRefusal>
    ensures whole { IfOk result (λ bytes. IfSome (R.remaining reader) (λ all. bytes ≡ all)) }
    ensures most { IfOk result (λ bytes. length bytes ≤ script_bytes) }
    ensures found { result ≢ Err ReadRefusal.Missing }
{
    let mut bytes = Vec::new(alloc);
    let mut reader = reader.take(SCRIPT_BYTES as u64 + 1);
    match reader.read_to_end(&mut bytes) {
        Ok(_) if bytes.len() > SCRIPT_BYTES => Err(ReadRefusal::Failed),
        Ok(_) => Ok(Blob::from_vec(bytes)),
        Err(error) if error.kind() == ErrorKind::OutOfMemory => Err(ReadRefusal::Memory),
        Err(_) => Err(ReadRefusal::Failed),
    }
}
