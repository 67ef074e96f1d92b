// The transcript of a script's lines, handed to a sink line by line.
//
//     lines --> replay_core: what each does --events--> event_text --text--> sink
//
// A program that has read a script replays it:
//
//     let lines = read_script(alloc, script, &classes, false)?;
//     play(alloc, &classes, lines.as_slice(), &mut out)?;
//
// It stands on `replay_core` for what lines do, on `event_text` for the text of what they tell, and on
// `net_core` for sinks. It promises that the sink takes exactly the transcript of the lines
// (`transcript`), or a prefix of it where the sink fails or there is no memory. The text of each line
// is handed over before the next is done, so nothing grows with the lines but what the replay keeps.
// It reads no script; that its lines may follow one another is a law (`lines_of_scripts_may_follow`).
#![tactic(auto)]

mod playing;
#[cfg(test)]
mod tests;

pub use class_layout::Classes;
pub use net_core::{Memory, Sink, WriteRefusal};
pub use playing::play;
pub use script_lines::Line;
