// Names of classes over the network, after Unreal's package map.
//
// A class is named by the NetGUID of the last segment of its path. The first opens of a connection
// bring the segments of that path which the client doesn't know yet, each as a guid, the guid of
// its outer and a name; from then on the guid alone is enough.
//
//     server  Paths   needed(Pawn) = 3, 5     known([3, 5])     needed(Flag) = 7
//                           |                                        |
//     client  Names   learn(3, 0, "Game"), learn(5, 3, "Pawn")  learn(7, 3, "Flag")
//
//                     class_of(7) = Flag    7 Flag --outer--> 3 Game --outer--> 0
//
// The server puts what is needed into an open, and is told later that it arrived; the client learns
// it before it reads the open's class:
//
//     let exports = paths.needed(&classes, class)?;      // of an open that is made
//     paths.known(&exports)?;                            // of an open that arrived
//
//     names.learn(guid, outer, name)?;                   // for each export
//     let class = names.class_of(&classes, guid)?;
//
// It stands on `connection_model` for what is learnt and which class a guid names, and on
// `class_layout` for classes and their paths. It promises that what is needed is what the client
// wasn't said to know, that a name is learnt exactly where no rule stands against it, and that a
// class is found by its names alone, whatever guids the client's own table has for them. It knows
// no packet and no channel, and reads no bits.
#![tactic(auto)]

mod chain;
mod names;
mod paths;
#[cfg(test)]
mod tests;

pub use class_layout::{Classes, Guid, GuidList};
pub use names::{NameRefusal, Names};
pub use paths::Paths;
