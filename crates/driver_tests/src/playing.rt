// A server that is driven by a table of deeds.
ghost use Rattle.std.specs.Prelude.{◌≡◌, ◌⊎◌, ℕ, ◌+◌, ◌*◌, ◌<◌, ◌≤◌, ◌^◌, length, true, OnOk};
ghost use Rattle.protocol_model.specs.Limits.{budget_limit, connection_limit};
ghost use Rattle.net_driver.specs.Served.{Served, has_joined};
ghost use Rattle.net_driver.specs.Serves.{Serves, IsSpent};
ghost use Rattle.driver_tests.specs.Playing.{IsPlaying};

use bit_io::Memory;
use class_layout::Classes;
use net_core::{Guid, Handle, Player, Steps};
use net_driver::{Driver, JoinRefusal, PlayerTick, TickList};
use protocol_model::{Verdict, Version};
use std::alloc::Global;
use std::marker::Brand;
use std::sync::ledger::{Blank, Ledger};
use value_codec::Value;
use world_table::Edit;

/// What is done with a server, and what is to come of it.
#[derive(Clone, Copy)]
pub(crate) enum Deed<'a> {
    /// An actor of the first class is spawned at a place.
    Spawn(i32, i32),
    /// So many actors of the first class are spawned at (0, 0).
    Spawns(u16),
    /// The actor with this guid has a new value under a handle.
    Set(u32, u16, Value),
    /// The actor has this player as its owner.
    Own(u32, u16),
    /// The player looks from a place.
    View(u16, i32, i32),
    /// The actor falls asleep.
    Dormant(u32),
    /// The sleeping actor's changes are to be sent.
    Flush(u32),
    /// The actor is gone.
    Destroy(u32),
    /// The switch of a value under a handle is on or off.
    Switch(u32, u16, bool),
    /// A tick sends these packets, each in hex with its player.
    Ticks(&'a [(u16, &'a str)]),
    /// So many ticks send nothing.
    Quiet(u16),
    /// A tick sends packets of so many bytes, each with its player.
    Sends(&'a [(u16, usize)]),
    /// A player's client sent this datagram, in hex, which is taken.
    Takes(u16, &'a str),
    /// Whether an actor is settled for a player.
    Settles(u16, u32, bool),
}

/// Plays the deeds on a new server of these classes, which players from 1 on joined: the place of the
/// first deed of which something else came.
pub(crate) fn first_other(
    alloc: Global,
    classes: &Classes,
    players: u16,
    budget: u32,
    deeds: &[Deed<'_>],
) -> Result<Option<usize>, Memory>
    requires least { 1 ≤ budget }
    requires most { budget ≤ budget_limit }
    requires players { players ≤ connection_limit }
{
    let mut driver = Driver::new(alloc, classes)?;
    if !all_join(&mut driver, players, budget) {
        return Err(Memory);
    }
    play(alloc, &mut driver, deeds)
}

/// Players from 1 on join.
fn all_join(driver: &mut Driver<'_>, players: u16, budget: u32) -> bool
    requires least { 1 ≤ budget }
    requires most { budget ≤ budget_limit }
    requires players { players ≤ connection_limit }
    requires playing { IsPlaying driver.old 0 }
    ensures { IsPlaying driver.new 0 }
{
    let mut all = true;
    for before in 0..players {
        if driver
            .join(Player(before + 1), budget, Version::One)
            .is_err()
        {
            all = false;
        }
    }
    all
}

/// The place of the first deed of which something else came.
fn play(alloc: Global, driver: &mut Driver<'_>, deeds: &[Deed<'_>]) -> Result<Option<usize>, Memory>
    requires { IsPlaying driver.old 0 }
{
    let mut edits = 0;
    for place in 0..deeds.len() {
        if edits > 100_000_000 || !goes_so(alloc, driver, edits, &deeds[place])? {
            return Ok(Some(place));
        }
        edits += 65536;
    }
    Ok(None)
}

/// What is to come of a deed comes of it, at a server that took so many edits.
fn goes_so(
    alloc: Global,
    driver: &mut Driver<'_>,
    edits: usize,
    deed: &Deed<'_>,
) -> Result<bool, Memory>
    requires few { edits ≤ 100000000 }
    requires playing { IsPlaying driver.old edits }
    ensures { OnOk result (IsPlaying driver.new (edits + 65536)) }
{
    match *deed {
        Deed::Spawns(count) => Ok(spawns(driver, edits, count)),
        Deed::Ticks(wanted) => ticks(alloc, driver, edits, wanted),
        Deed::Quiet(count) => are_quiet(alloc, driver, edits, count),
        Deed::Sends(sizes) => sends(driver, edits, sizes),
        Deed::Takes(player, text) => takes(alloc, driver, edits, player, text),
        Deed::Settles(player, actor, wanted) => {
            settles(driver, edits, player, Guid(actor), wanted)
        }
        edit => Ok(takes_edit(driver, edits, edit)),
    }
}

/// The edit of a deed that has one.
fn edit_in(deed: Deed<'_>) -> Option<Edit> {
    match deed {
        Deed::Spawn(x, y) => Some(Edit::Spawn { class: 0, x, y }),
        Deed::Set(actor, prop, value) => Some(Edit::Set {
            actor: Guid(actor),
            prop: Handle(prop),
            value,
        }),
        Deed::Own(actor, player) => Some(Edit::Own {
            actor: Guid(actor),
            player: Some(Player(player)),
        }),
        Deed::View(player, x, y) => Some(Edit::View {
            player: Player(player),
            x,
            y,
        }),
        Deed::Dormant(actor) => Some(Edit::Dormant { actor: Guid(actor) }),
        Deed::Flush(actor) => Some(Edit::Flush { actor: Guid(actor) }),
        Deed::Destroy(actor) => Some(Edit::Destroy { actor: Guid(actor) }),
        Deed::Switch(actor, prop, on) => Some(Edit::Switch {
            actor: Guid(actor),
            prop: Handle(prop),
            on,
        }),
        _ => None,
    }
}

/// The deed's edit is taken by a server that took so many.
fn takes_edit(driver: &mut Driver<'_>, edits: usize, deed: Deed<'_>) -> bool
    requires few { edits < 2 ^ 60 }
    requires playing { IsPlaying driver.old edits }
    ensures { IsPlaying driver.new (edits + 1) }
{
    match edit_in(deed) {
        Some(edit) => driver.edit(edit).is_ok(),
        None => false,
    }
}

/// So many Pawns are spawned.
fn spawns(driver: &mut Driver<'_>, edits: usize, count: u16) -> bool
    requires few { edits < 2 ^ 59 }
    requires playing { IsPlaying driver.old edits }
    ensures { IsPlaying driver.new (edits + 65536) }
{
    let mut all = true;
    for before in 0..usize::from(count) {
        if !takes_edit(driver, edits + before, Deed::Spawn(0, 0)) {
            all = false;
        }
    }
    all
}

/// A tick sends these packets.
fn ticks(
    alloc: Global,
    driver: &mut Driver<'_>,
    edits: usize,
    wanted: &[(u16, &str)],
) -> Result<bool, Memory>
    requires playing { IsPlaying driver.old edits }
    ensures { OnOk result (IsPlaying driver.new edits) }
{
    let told = tick::<Brand>(driver, Blank::new(1))?;
    let mut at = 0;
    for ticked in told.as_slice() {
        match behind_sent(alloc, ticked, wanted, at)? {
            Some(next) => at = next,
            None => return Ok(false),
        }
    }
    Ok(at == wanted.len())
}

/// So many ticks send nothing.
fn are_quiet(
    alloc: Global,
    driver: &mut Driver<'_>,
    edits: usize,
    count: u16,
) -> Result<bool, Memory>
    requires playing { IsPlaying driver.old edits }
    ensures { OnOk result (IsPlaying driver.new edits) }
{
    for _ in 0..count {
        if !ticks(alloc, driver, edits, &[])? {
            return Ok(false);
        }
    }
    Ok(true)
}

/// All connections tick, with a counter of this tick's own.
fn tick<L: Ledger>(driver: &mut Driver<'_>, blank: Blank) -> Result<TickList, Memory>
    requires name { blank.name ≡ L.name }
    requires parts { blank.parts ≡ L.parts }
    requires some { 0 < L.parts }
    requires playing { (edits : ℕ) × IsPlaying driver.old edits }
    ensures { OnOk result ((edits : ℕ) → IsPlaying driver.old edits
        → IsPlaying driver.new edits) }
{
    let mut steps = Steps::<L>::new(blank);
    let told = driver.tick(&mut steps)?;
    Ok(told)
}

/// The place behind a player's packets among those that are wanted, where they are these.
fn behind_sent(
    alloc: Global,
    ticked: &PlayerTick,
    wanted: &[(u16, &str)],
    from: usize,
) -> Result<Option<usize>, Memory> {
    let mut at = from;
    for sent in ticked.sent.as_slice() {
        let Some(packet) = wanted.get(at) else {
            return Ok(None);
        };
        let bytes = hex_bytes(alloc, packet.1)?;
        if packet.0 != ticked.player.0 || bytes.as_slice() != sent.bytes.as_slice() {
            return Ok(None);
        }
        at += 1;
    }
    Ok(Some(at))
}

/// A tick sends packets of so many bytes.
fn sends(driver: &mut Driver<'_>, edits: usize, sizes: &[(u16, usize)]) -> Result<bool, Memory>
    requires playing { IsPlaying driver.old edits }
    ensures { OnOk result (IsPlaying driver.new edits) }
{
    let told = tick::<Brand>(driver, Blank::new(1))?;
    let mut at = 0;
    for ticked in told.as_slice() {
        match behind_sized(ticked, sizes, at) {
            Some(next) => at = next,
            None => return Ok(false),
        }
    }
    Ok(at == sizes.len())
}

/// The place behind a player's packets among these sizes, where they have them.
fn behind_sized(ticked: &PlayerTick, sizes: &[(u16, usize)], from: usize) -> Option<usize> {
    let mut at = from;
    for sent in ticked.sent.as_slice() {
        let size = sizes.get(at)?;
        if size.0 != ticked.player.0 || size.1 != sent.bytes.len() {
            return None;
        }
        at += 1;
    }
    Some(at)
}

/// The player joined, as the refusal of another join tells.
fn has_joined(driver: &mut Driver<'_>, edits: usize, player: u16) -> bool
    requires playing { IsPlaying driver.old edits }
    ensures playing { IsPlaying driver.new edits }
    ensures joined { result ≡ true → IsSpent driver.new ⊎ ((s : Served) × Serves driver.new s
        × (has_joined s player ≡ true) × (length s.edits ≤ edits)) }
{
    if player == 0 || player > 1000 {
        return false;
    }
    match driver.join(Player(player), 1, Version::One) {
        Err(JoinRefusal::Joined) => true,
        Ok(()) | Err(JoinRefusal::ServerFull | JoinRefusal::Memory) => false,
    }
}

/// The player's datagram is taken.
fn takes(
    alloc: Global,
    driver: &mut Driver<'_>,
    edits: usize,
    player: u16,
    text: &str,
) -> Result<bool, Memory>
    requires playing { IsPlaying driver.old edits }
    ensures { OnOk result (IsPlaying driver.new edits) }
{
    if !has_joined(driver, edits, player) {
        return Ok(false);
    }
    let bytes = hex_bytes(alloc, text)?;
    let outcome = driver.take(Player(player), bytes.as_slice())?;
    Ok(matches!(outcome.verdict, Verdict::Taken { .. }))
}

/// Whether the actor is settled for the player is as wanted.
fn settles(
    driver: &mut Driver<'_>,
    edits: usize,
    player: u16,
    actor: Guid,
    wanted: bool,
) -> Result<bool, Memory>
    requires playing { IsPlaying driver.old edits }
    ensures { OnOk result (IsPlaying driver.new edits) }
{
    if !has_joined(driver, edits, player) {
        return Ok(false);
    }
    let settled = driver.settled(Player(player), actor)?;
    Ok(settled == wanted)
}

fn hex_bytes(alloc: Global, text: &str) -> Result<Vec<u8>, Memory> {
    match hex::decode(alloc, text) {
        Ok(bytes) => Ok(bytes),
        Err(_) => Err(Memory),
    }
}
