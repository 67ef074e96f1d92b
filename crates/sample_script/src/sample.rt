// The whole script.
ghost use Rattle.std.specs.Prelude.{◌≡◌, ◌≤◌, IfOk, OnOk, map, string_bytes};
ghost use Rattle.std.specs.List.{flat_map, range_with_len};
ghost use Rattle.sample_script.specs.SampleScript.{in_turn, players, join_line, spawn_lines, set_lines, view_line, actor_line, exchange_lines, exchange_line, text_if, tick_lines, sample_lines, sample_script};
ghost use Rattle.sample_script.specs.Writes.{Writes, Appends};

use crate::drawing::Sample;
use net_core::Memory;
use std::alloc::Global;

fn joins(sample: &mut Sample) -> Result<(), Memory>
    ensures { OnOk result (Appends (flat_map join_line players) sample.old sample.new) }
{
    for player in 1..9u32 {
        sample.join_line(player)?;
    }
    Ok(())
}

fn spawns(sample: &mut Sample) -> Result<(), Memory>
    ensures { OnOk result (Writes (in_turn (map spawn_lines (range_with_len 1 200)))
        sample.old sample.new) }
{
    for actor in 1..201u32 {
        sample.spawn_lines(actor)?;
    }
    Ok(())
}

fn sets(sample: &mut Sample) -> Result<(), Memory>
    ensures { OnOk result (Writes (in_turn (map (λ n. set_lines) (range_with_len 0 20)))
        sample.old sample.new) }
{
    for _turn in 0..20u32 {
        sample.set_lines()?;
    }
    Ok(())
}

fn views(sample: &mut Sample) -> Result<(), Memory>
    ensures { OnOk result (Writes (in_turn (map view_line players)) sample.old sample.new) }
{
    for player in 1..9u32 {
        sample.view_line(player)?;
    }
    Ok(())
}

fn views_if(sample: &mut Sample, due: bool) -> Result<(), Memory>
    ensures { OnOk result (Writes (text_if due (in_turn (map view_line players)))
        sample.old sample.new) }
{
    if due {
        views(sample)?;
    }
    Ok(())
}

fn actor_line_if(sample: &mut Sample, due: bool, word: &str) -> Result<(), Memory>
    ensures { OnOk result (Writes (text_if due (actor_line word.now)) sample.old sample.new) }
{
    if due {
        sample.actor_line(word)?;
    }
    Ok(())
}

fn exchanges(sample: &mut Sample, every: u32) -> Result<(), Memory>
    ensures { OnOk result (Appends (flat_map (exchange_line every) players)
        sample.old sample.new) }
{
    for player in 1..9u32 {
        sample.exchange_line(player, every)?;
    }
    Ok(())
}

// A tick, and each player's packets.
fn exchange_lines(sample: &mut Sample, every: u32) -> Result<(), Memory>
    ensures { OnOk result (Appends (exchange_lines every) sample.old sample.new) }
{
    sample.tick_line()?;
    exchanges(sample, every)?;
    Ok(())
}

// A tick with the edits before it, counted from 1.
fn tick_lines(sample: &mut Sample, number: u64) -> Result<(), Memory>
    ensures { OnOk result (Writes (tick_lines number) sample.old sample.new) }
{
    sets(sample)?;
    views_if(sample, number % 10 == 0)?;
    actor_line_if(sample, number % 50 == 0, "dormant")?;
    actor_line_if(sample, number % 50 == 25, "wake")?;
    exchange_lines(sample, 10)?;
    Ok(())
}

fn ticks(sample: &mut Sample, count: u64) -> Result<(), Memory>
    ensures { OnOk result (Writes (in_turn (map tick_lines (range_with_len 1 count)))
        sample.old sample.new) }
{
    for before in 0..count {
        tick_lines(sample, before + 1)?;
    }
    Ok(())
}

// Ticks in which nothing is lost.
fn last_ticks(sample: &mut Sample) -> Result<(), Memory>
    ensures { OnOk result (Appends (flat_map (λ i. exchange_lines 0) (range_with_len 0 40))
        sample.old sample.new) }
{
    for _tick in 0..40u32 {
        exchange_lines(sample, 0)?;
    }
    Ok(())
}

// All lines.
fn lines(sample: &mut Sample, count: u64) -> Result<(), Memory>
    ensures { OnOk result (Writes (sample_lines count) sample.old sample.new) }
{
    joins(sample)?;
    spawns(sample)?;
    ticks(sample, count)?;
    last_ticks(sample)?;
    Ok(())
}

/// The script of a sample of so many ticks, which 40 without loss follow.
pub fn sample_script(alloc: Global, ticks: u64) -> Result<String, Memory>
    ensures { IfOk result (λ text. string_bytes text ≡ sample_script ticks) }
{
    let mut sample = Sample::new(alloc, ticks);
    lines(&mut sample, ticks)?;
    let Sample { text, numbers: _ } = sample;
    Ok(text)
}
