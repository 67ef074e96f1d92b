// Acts, done outside one after another.
ghost use Rattle.std.specs.Prelude.{◌≡◌, ◌∷◌, [], map, OnOk, OnErr};
ghost use Rattle.live_acts.specs.Acts.{act_of};
ghost use Rattle.live_acts.specs.Performed.{UsesOpen, UseOpen, nothing_heard, Passes, PassesPart};
ghost use Rattle.live_acts.specs.Stopped.{StopCause};

use crate::act::{Act, ActList};
use bit_io::Memory;
use live_links::{Link, LinkRefusal};
use net_core::{Sink, WriteRefusal, write_all};
use thiserror::Error;

/// Why a live end stopped before its turns were done.
#[derive(Clone, Copy, Debug, PartialEq, Eq, Error)]
pub enum Stop {
    /// The link failed, and its count of faults rose by one.
    #[error("the network failed")]
    Link,
    /// The sink failed, and its count of faults rose by one.
    #[error("the output could not be written")]
    Sink,
    /// There was no memory.
    #[error("there was no memory")]
    Memory,
}

impl From<LinkRefusal> for Stop {
    ghost use Rattle.std.specs.Prelude.{◌≡◌};
    ghost use Rattle.live_acts.specs.Refused.{link_stop};

    ghost from_gives = { λ why e. e ≡ link_stop why };

    fn from(why: LinkRefusal) -> Stop {
        match why {
            LinkRefusal::Failed => Stop::Link,
            LinkRefusal::Memory => Stop::Memory,
        }
    }
}

impl From<WriteRefusal> for Stop {
    ghost use Rattle.std.specs.Prelude.{◌≡◌};
    ghost use Rattle.live_acts.specs.Refused.{sink_stop};

    ghost from_gives = { λ why e. e ≡ sink_stop why };

    fn from(why: WriteRefusal) -> Stop {
        match why {
            WriteRefusal::Failed => Stop::Sink,
            WriteRefusal::Memory => Stop::Memory,
        }
    }
}

impl From<Memory> for Stop {
    ghost use Rattle.std.specs.Prelude.{◌≡◌};
    ghost use Rattle.live_acts.specs.declared.performing.Stop.TheVariants as stop;

    ghost from_gives = { λ _ e. e ≡ stop.Memory };

    fn from(_memory: Memory) -> Stop {
        Stop::Memory
    }
}

/// Does the acts in order: each datagram is handed to the link and each text to the sink, whole,
/// before the next. At a refusal a front of them was done.
pub fn perform<L: Link, S: Sink>(link: &mut L, out: &mut S, acts: ActList) -> Result<(), Stop>
    requires { UseOpen (L.count link.old) (map act_of acts) }
    ensures ok { OnOk result (Passes nothing_heard (map act_of acts)
        (L.told link.old) (S.taken out.old) (L.told link.new) (S.taken out.new)) }
    ensures err { OnErr result (PassesPart nothing_heard (map act_of acts)
        (L.told link.old) (S.taken out.old) (L.told link.new) (S.taken out.new)) }
    ensures count { L.count link.new ≡ L.count link.old }
    ensures cause { StopCause (L.faults link.old) (L.faults link.new)
        (S.faults out.old) (S.faults out.new) result }
{
    for act in acts.into_vec() {
        perform_one(link, out, act)?;
    }
    Ok(())
}

/// Does one act.
fn perform_one<L: Link, S: Sink>(link: &mut L, out: &mut S, act: Act) -> Result<(), Stop>
    requires { UsesOpen (L.count link.old) (act_of act) }
    ensures ok { OnOk result (Passes nothing_heard (act_of act ∷ [])
        (L.told link.old) (S.taken out.old) (L.told link.new) (S.taken out.new)) }
    ensures err { OnErr result (PassesPart nothing_heard (act_of act ∷ [])
        (L.told link.old) (S.taken out.old) (L.told link.new) (S.taken out.new)) }
    ensures count { L.count link.new ≡ L.count link.old }
    ensures cause { StopCause (L.faults link.old) (L.faults link.new)
        (S.faults out.old) (S.faults out.new) result }
{
    match act {
        Act::Sends { end, to, bytes } => link.send(end, to, bytes.as_slice())?,
        Act::Writes { text } => write_all(out, text.as_slice())?,
    }
    Ok(())
}
