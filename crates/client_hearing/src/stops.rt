// What stops the reading of a payload closes the end.
ghost use Rattle.std.specs.Prelude.{◌≡◌};
ghost use Rattle.client_hearing.specs.Hearing.{halt_of};

use crate::halt::Halt;
use payload_reading::Stop;
use protocol_model::Cause;

/// Why no more is heard once the reading of a payload stopped, which had so many bits: a rule with a
/// cause of its own, or a bad payload at the bit of the field that broke one, or at its end where
/// bits are missing.
pub(crate) fn halt(stop: Stop, channel: u16, total: usize) -> Halt
    ensures { result ≡ halt_of channel total stop }
{
    match stop {
        Stop::Memory => Halt::Memory,
        Stop::Short => Halt::Broken(Cause::BadPayload { channel, at: total }),
        Stop::Broken {
            cause: Some(cause),
            ..
        } => Halt::Broken(cause),
        Stop::Broken { left, cause: None } => Halt::Broken(Cause::BadPayload {
            channel,
            at: total.saturating_sub(left),
        }),
    }
}
