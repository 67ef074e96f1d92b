// What a server's connection keeps of one actor, after the channel and the replication state that
// Unreal keeps for each actor of a connection: the channel, when the actor was shown and served,
// and which handles are due, in place of all that the connection ever did.
//
// Each call says what one deed makes of the record:
//
//     tick begins         shows                     idle ticks, first sight, owner
//     open made           opens                     Opening; each handle carried by the open
//     values compared     handles.compares          a handle is marked where it is due
//     update packed       carries                   its handles carried by the packet, no mark
//     packet arrived      moves                     lost handles are marked; Opened, None or Asleep
//     close or Gone made  closes, goes              Closing, None
//
// A sender that updates an actor which is open, and hears of the packet later:
//
//     let changes = shadows.since(actor, record.handles.compared())?;
//     record.handles.compares(tick, class, owns, &values, &changes)?;
//     due.extend(values.iter().filter(|pair| record.handles.is_marked(pair.prop)));
//     if !due.is_empty() {
//         record.carries(tick, packet, &due);
//     }
//     record.moves(from, to, channels.span(index) == 0);
//
// It stands on `class_layout` for classes and values, on `rep_conditions` for what an update may
// hold, on `shadow_changes` for the changes that it is told, and on `sender_laws`. It promises that
// a record stands for all that the end did, whatever that was (`KeepsActor`), and for each call
// that it then stands for one deed more; after a comparison the marked handles are those that are
// due. Memory is taken with an actor's first open, or where a handle comes that is above all
// before. It knows no other actor, no bunch of a channel and no bit of a packet, and never decides
// what is sent: its caller does, and tells it.
#![tactic(auto)]

mod actor;
mod handle;
mod life;
mod service;
mod state;
mod table;
#[cfg(test)]
mod tests;
mod values;

pub use actor::ActorRecord;
pub use handle::{HandleRecord, is_updatable};
pub use life::Life;
pub use service::Service;
pub use state::ActorState;
pub use table::HandleTable;
