// The script of a sample: eight players and 200 actors of the built-in table, which are set, moved
// and put to sleep for some ticks while every tenth packet is lost, and then 40 ticks without loss.
//
//     join 1 20000 .. join 8 20000
//     spawn Purse -1243 1980           and own 1 1, for the first 80 actors
//     set 153 ammo 12                  20 of these a tick, and now and then view, dormant, wake
//     tick, and for each player: downnew 1 10, ctick 1, upnew 1 10
//
// A caller writes the script of 600 ticks, and replays it as any other:
//
//     let script = sample_script(alloc, 600)?;
//     let lines = read_script(alloc, script.as_bytes(), &classes, false)?;
//
// The numbers are those of PCG's XSH RR 64/32 generator, `Pcg32::new(ticks, 1)`, each by its remainder.
// It stands on `rand_pcg` for the generator. It promises that the script is exactly the one that the
// definitions draw. It reads and replays nothing.
#![tactic(auto)]

mod drawing;
mod lines;
mod sample;
#[cfg(test)]
mod tests;

pub use net_core::Memory;
pub use sample::sample_script;
