// Windows of reliable items: those that were made and may be sent again, and those that were received
// and wait for one before them, after Unreal's reliable buffers of a channel.
//
// Items are numbered one after another. A packet carries some, and is later told to have arrived or
// to be lost; what a lost packet carried last is due again. A window of items received hands them
// over in the order of their numbers, each once.
//
//     sender    push -> 7 8 9 10     due ->  carried  -> lost     -> due again
//                                                     -> arrived  -> leaves with all before it
//     receiver  offer 8 -> Held      offer 7 -> Ready(7), ready -> 8
//
// A channel that sends what is due, and hears of packets later:
//
//     let number = window.push(bunch);
//     while let Some(n) = window.due(from) {
//         if let Some(bunch) = window.get(n) { write(bunch); }
//         window.carried(n, packet);
//         from = n + 1;
//     }
//     window.lost(packet);                       // `number` is due again
//
// It stands on `protocol_model` for the number that a sequence stands for and for the limits, on
// `bit_io` for the same by code, and on `circular_buffer` for the items kept. It promises that what is
// due, and what is handed over, is what the whole list of items says, though it keeps 256 items, and
// that no call of `OutWindow` after `new` takes memory. It knows neither bunches nor packets but by
// number.
#![tactic(auto)]

mod held;
mod incoming;
mod marks;
mod offered;
mod outgoing;
mod place;
mod settle;
mod slot;
#[cfg(test)]
mod tests;

pub use bit_io::Memory;
pub use incoming::InWindow;
pub use offered::Offered;
pub use outgoing::OutWindow;
pub use place::Place;
