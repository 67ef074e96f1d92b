// Copies of actors, and opens that make them.
use class_layout::PairList;
use net_core::Guid;

/// A copy of an actor: its class is a place in the table, its channel is there while it is open,
/// and each of its class's handles has a value, ascending from 1.
#[derive(Debug, Drop)]
pub struct ActorCopy {
    pub actor: Guid,
    pub class: u16,
    pub channel: Option<u16>,
    pub values: PairList,
}

/// An open as it was read: the actor, the place of its class in the table, and the values that it
/// brings.
#[derive(Debug, Drop)]
pub struct ReadOpen {
    pub actor: Guid,
    pub class: u16,
    pub values: PairList,
}
