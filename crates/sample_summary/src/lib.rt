// The summary of a sample's replay: its packets both ways, its refusals, how much is settled at its
// end, and the digest of its transcript.
//
//     lines --> replay_core: what each does --events--> tally: packets, bytes, refusals, SHA-1
//                    '-- settled pairs at the end ---------.      |
//                                                          '--> summary
//
// A caller writes the script of a sample, reads it and sums it up:
//
//     let script = sample_script(alloc, 600)?;
//     let lines = read_script(alloc, script.as_bytes(), &classes, false)?;
//     let text = summary(alloc, &classes, 600, lines.as_slice())?;
//
// It stands on `replay_core` for what lines do, on `event_text` for the text of what they tell, and on
// `sha1` for the digest. It promises that the text is exactly the summary of the story of the lines
// (`summary_of`). The transcript is never kept: the text of an event is digested before the next, so
// nothing grows with the lines but what the replay keeps. It reads no script and writes nothing.
#![tactic(auto)]

mod counts;
mod replaying;
mod tally;
#[cfg(test)]
mod tests;

pub use class_layout::Classes;
pub use net_core::Memory;
pub use replaying::summary;
pub use script_lines::Line;
