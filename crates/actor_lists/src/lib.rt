// Lists of actors that are kept from one tick to the next and shared with those who look at them.
//
//     Pieces    one list, in pieces of at most 64 actors, each shared by `Rc`
//     Shelves   a list for each key
//     Lists     lists that were handed out, put together: `actors` asks them in order, each once
//
// A change makes one new piece, so a list that was handed out stays as it was, and handing one out
// copies no actor:
//
//     shelves.add(cell, actor)?;
//     shelves.share(cell, &mut lists)?;
//     for actor in lists.actors()?.iter() { .. }
//
// It stands on `net_core` for names. It promises how often each actor stands in each list after each
// call, that sharing appends exactly the list, and that `actors` gives those of all lists, ascending.
// Whose lists they are, and why an actor is in one, it doesn't know.
#![tactic(auto)]

mod arranged;
mod lists;
mod pieces;
mod shelves;
#[cfg(test)]
mod tests;

pub use lists::Lists;
pub use net_core::{Guid, GuidList, Memory};
pub use pieces::Pieces;
pub use shelves::Shelves;
