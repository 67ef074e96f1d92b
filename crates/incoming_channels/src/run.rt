// Bunches that are handed on one after another.
ghost use Rattle.std.specs.Prelude.{◌≡◌, ◌∷◌, ℕ, List, true, IfOk};
ghost use Rattle.protocol_model.specs.Packet.{Bunch as BunchSpec};
ghost use Rattle.connection_model.specs.Windows.{Received};
ghost use Rattle.packet_codec.specs.Values.{bunch_of};
ghost use Rattle.reliable_window.specs.In.{HandsOver};
ghost use Rattle.incoming_channels.specs.Keeps.{is_server};
ghost use Rattle.incoming_channels.specs.Steps.{Course, Goes, GoesOn, Ends, AreReceivedOn, run_left};

use crate::held_bunch::HeldBunch;
use crate::message::MessageList;
use crate::parts::{Parts, Step};
use bit_io::Memory;
use packet_codec::Bunch;
use protocol_model::Cause;
use reliable_window::InWindow;

/// Takes the next bunch of a run, and puts the payload that it ends behind the others.
pub(crate) fn take_one(
    parts: &mut Parts,
    server: bool,
    b: &Bunch,
    whole: &mut MessageList,
) -> Result<Option<Cause>, Memory>
    ensures { IfOk result (λ broken. (c : Course) (rest : List BunchSpec)
        → server ≡ is_server c.side → b.now.channel ≡ c.channel → b.now.reliable ≡ true
        → Goes c (bunch_of b.now ∷ rest) parts.old whole.old
        → GoesOn c rest parts.new whole.new broken) }
{
    match parts.take(server, b)? {
        Step::Broken(cause) => Ok(Some(cause)),
        Step::More => Ok(None),
        Step::Whole(message) => {
            whole.push(message)?;
            Ok(None)
        }
    }
}

/// Takes the bunches that are held from the next number on, up to the first that breaks a rule.
pub(crate) fn take_held(
    window: &mut InWindow<HeldBunch>,
    parts: &mut Parts,
    server: bool,
    whole: &mut MessageList,
) -> Result<Option<Cause>, Memory>
    ensures { IfOk result (λ broken. (c : Course) (got : List Received)
        → server ≡ is_server c.side → AreReceivedOn c.channel got → HandsOver window.old got
        → Goes c (run_left got window.old.next) parts.old whole.old
        → Ends c got window.new parts.new whole.new broken) }
{
    while let Some(bunch) = window.ready() {
        if let Some(cause) = take_one(parts, server, &bunch.lend(), whole)? {
            return Ok(Some(cause));
        }
    }
    Ok(None)
}

/// Takes the next bunch of a run and those that are held behind it, up to the first that breaks a
/// rule.
pub(crate) fn take_run(
    window: &mut InWindow<HeldBunch>,
    parts: &mut Parts,
    server: bool,
    b: &Bunch,
    whole: &mut MessageList,
) -> Result<Option<Cause>, Memory>
    ensures { IfOk result (λ broken. (c : Course) (got : List Received)
        → server ≡ is_server c.side → b.now.channel ≡ c.channel → b.now.reliable ≡ true
        → AreReceivedOn c.channel got → HandsOver window.old got
        → Goes c (bunch_of b.now ∷ run_left got window.old.next) parts.old whole.old
        → Ends c got window.new parts.new whole.new broken) }
{
    if let Some(cause) = take_one(parts, server, b, whole)? {
        return Ok(Some(cause));
    }
    let broken = take_held(window, parts, server, whole)?;
    Ok(broken)
}
