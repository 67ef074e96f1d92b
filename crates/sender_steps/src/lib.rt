// What a server's connection keeps of its actors, step by step: each step is a function over plain
// parts, as records by actor, lists of what is under way, and the channels.
//
//     fates move     tell_updates, drop_known, hear_all    updates, opens and closes under way
//     tick begins    learn, show_all, tidy                 known segments, who is shown, what pends
//     actors end     close_all                             closes, dormant closes and Gones
//     asked          is_settled                            whether anything is left to send
//
// A sender calls them one after another:
//
//     learn(&mut opens, &mut known, &table);
//     show_all(alloc, &mut records, sight.as_slice(), tick)?;
//     tidy(&records, &mut pending, &mut live);
//     close_all(alloc, &mut records, &mut pending, &live, &sight, tick, &mut table, classes)?;
//
// It stands on `sender_records` for what is kept of one actor, on `channel_table` for the channels
// that actors hold and for what has arrived on them, on `payload_writing` for what a close and a
// Gone say, and on `sender_laws`. It promises of each step that what was right of a list of deeds
// (`Keeps` and its parts) is right of the list with the step's deeds. It has no state of its own, and
// offers nothing to a packet: calls, opens and updates are those of `sender_turns`.
#![tactic(auto)]

mod closes;
mod closing;
mod heard;
mod moved;
mod sent;
mod settled;
mod sight;
mod taking;
mod tidying;

pub use closes::close_all;
pub use closing::{Close, close_of, make_close};
pub use heard::hear_all;
pub use moved::{drop_known, tell_updates};
pub use sent::{OpenSent, UpdateSent};
pub use settled::{is_clear, is_settled};
pub use sight::{Seen, Sight};
pub use taking::{learn, show_all};
pub use tidying::tidy;
