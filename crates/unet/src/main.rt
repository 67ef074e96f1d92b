// `unet`: replays a script of world edits, ticks and deliveries over a class table, and writes its
// transcript; checks class tables; and shows packets.
//
// `main` opens the outside; what the program does is `start`, whose contract ties its exit status and
// its text to the definitions. It stands on `program_model` for what words ask for, on
// `script_reading` for scripts, on `replay_core` for what their lines do and on `event_text` for what
// they tell, on `table_text` for tables in words and on `packet_text` for packets.
//
//     main -- words_of --> start --> run --> do_command -- files.read --> answer --> play, check, show
//               words     exit status       the files' bytes            status     text
#![tactic(auto)]

mod answer;
mod check;
mod command;
mod host;
mod read_all;
mod replay;
mod run;
mod said;
mod sample;
mod show;
mod start;
mod status;
mod table;
#[cfg(test)]
mod tests;
mod words;

use host::{HostFiles, HostSink};
use start::{start, words_of};
use std::process::ExitCode;
use std::{env, io};

fn main(rt: HostRuntime) -> ExitCode {
    let words = words_of(rt.alloc(), env::args(&rt));
    let mut files = HostFiles::new(rt.alloc(), &rt);
    let mut out = HostSink::new(io::writer(&rt));
    start(rt.alloc(), words, &mut files, &mut out)
}
