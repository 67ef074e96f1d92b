// Calls that were received.
use crate::args::ArgList;
use net_core::{Guid, Items};
use protocol_model::CallVerdict;

/// A call that was received, for the caller to carry out by its verdict.
#[derive(Debug, Drop)]
pub struct Handed {
    pub actor: Guid,
    /// The class by which the call was read, a place in the table counted from 0.
    pub class: u16,
    /// The call's number in that class, counted from 1.
    pub call: u16,
    pub verdict: CallVerdict,
    pub args: ArgList,
}

/// A list of calls that were received.
pub type HandedList = Items<Handed>;
