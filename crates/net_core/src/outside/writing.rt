// Writing a whole text to a sink.
ghost use Rattle.std.specs.Prelude.{OnOk, OnErr};
ghost use Rattle.std.specs.Io.KnownBytes.{Appends};
ghost use Rattle.net_core.specs.Counts.{WriteCause, WriteShortage};
ghost use Rattle.net_core.specs.Taken.{AppendsPrefix};

use super::sink::{Sink, WriteRefusal};

/// Hands all the bytes to the sink, in as many writes as it takes. At a refusal the sink has taken a
/// prefix of them, without the last. No bytes are no write.
pub fn write_all<S: Sink>(out: &mut S, bytes: &[u8]) -> Result<(), WriteRefusal>
    ensures ok { OnOk result (Appends (S.taken out.old) (S.taken out.new) bytes.now) }
    ensures err { OnErr result (AppendsPrefix (S.taken out.old) (S.taken out.new) bytes.now) }
    ensures cause { WriteCause (S.faults out.old) (S.faults out.new) result }
    ensures shortage { WriteShortage (S.shortages out.old) (S.shortages out.new) result }
{
    let mut done = 0;
    while done < bytes.len() {
        done += out.write(&bytes[done..])?;
    }
    Ok(())
}
