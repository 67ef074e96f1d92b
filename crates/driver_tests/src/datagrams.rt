// What no clause says of datagrams: that whatever comes is answered with ample memory, that an end
// which closed nothing goes on, and that another player's end never notices. Each datagram is tried
// at a server of its own. The real ones are those of clients whose Pawn was opened and who called.
ghost use Rattle.std.specs.Prelude.{◌≡◌, ◌⊎◌, ◌<◌, length, IfOk, OnOk};
ghost use Rattle.driver_tests.specs.Trials.{HasTwo};

use net_driver::{Classes, Driver, JoinRefusal, Player, Verdict, Version};
use std::alloc::Global;
use std::test::Fail;

/// The empty packet of number 1, in version one.
const HONEST: [u8; 2] = [0x01, 0x40];

/// A client's packet in version one: an acknowledgement and a call.
const REAL: [u8; 16] = [
    0x01, 0xc0, 0x00, 0x00, 0x03, 0x00, 0x04, 0xa0, 0x18, 0x90, 0x40, 0xe0, 0x00, 0x00, 0x00, 0x20,
];

/// A client's packet in version two: a history and a call.
const OTHERS: [u8; 20] = [
    0x01, 0x40, 0x00, 0x80, 0x00, 0x00, 0x00, 0x00, 0x0a, 0x20, 0x00, 0xc5, 0x80, 0x04, 0x02, 0x07,
    0x00, 0x00, 0x00, 0x01,
];

/// A server that players 1 and 2 joined.
fn two_joined<'a>(alloc: Global, classes: &'a Classes) -> Result<Driver<'a>, JoinRefusal>
    ensures { IfOk result (λ d. HasTwo d) }
{
    let Ok(mut driver) = Driver::new(alloc, classes) else {
        return Err(JoinRefusal::Memory);
    };
    driver.join(Player(1), 100_000, Version::One)?;
    driver.join(Player(2), 100_000, Version::One)?;
    Ok(driver)
}

/// What the end of player 1 or 2 says of a datagram.
fn said(driver: &mut Driver<'_>, player: Player, bytes: &[u8]) -> Result<Verdict, JoinRefusal>
    requires two { HasTwo driver.old }
    requires player { (player ≡ 1) ⊎ (player ≡ 2) }
    ensures { OnOk result (HasTwo driver.new) }
{
    match driver.take(player, bytes) {
        Ok(outcome) => Ok(outcome.verdict),
        Err(_) => Err(JoinRefusal::Memory),
    }
}

/// What is said of an honest datagram next fits what was said first.
fn fits(first: Verdict, next: Verdict) -> bool {
    match first {
        Verdict::Malformed { .. } | Verdict::Old { .. } => next == Verdict::Taken { number: 1 },
        Verdict::Taken { .. } => matches!(next, Verdict::Old { .. }),
        Verdict::Closed(_) => next == Verdict::Dead,
        Verdict::Dead => false,
    }
}

/// The datagram comes from player 1: that end answers it and goes on, or is dead if a rule was
/// broken; and player 2's takes its own.
fn weathers(driver: &mut Driver<'_>, bytes: &[u8]) -> Result<bool, JoinRefusal>
    requires { HasTwo driver.old }
{
    let first = said(driver, Player(1), bytes)?;
    let next = said(driver, Player(1), &HONEST)?;
    let other = said(driver, Player(2), &HONEST)?;
    Ok(fits(first, next) && other == Verdict::Taken { number: 1 })
}

/// A new server weathers the datagram.
fn is_weathered(alloc: Global, classes: &Classes, bytes: &[u8]) -> Result<bool, JoinRefusal> {
    let mut driver = two_joined(alloc, classes)?;
    weathers(&mut driver, bytes)
}

/// The same of the datagram with one bit flipped.
fn is_weathered_flipped(
    alloc: Global,
    classes: &Classes,
    real: &[u8],
    at: usize,
    bit: u8,
) -> Result<bool, JoinRefusal> {
    let Ok(mut bytes) = real.to_vec(alloc) else {
        return Err(JoinRefusal::Memory);
    };
    if at < bytes.len() && bit < 8 {
        bytes[at] ^= 1 << bit;
    }
    is_weathered(alloc, classes, bytes.as_slice())
}

/// Each bit of a byte.
fn are_weathered_flipped(
    alloc: Global,
    classes: &Classes,
    real: &[u8],
    at: usize,
) -> Result<bool, JoinRefusal> {
    for bit in 0..8 {
        if !is_weathered_flipped(alloc, classes, real, at, bit)? {
            return Ok(false);
        }
    }
    Ok(true)
}

/// Each bit, each cut, and the whole.
fn all_weathered(alloc: Global, classes: &Classes, real: &[u8]) -> Result<bool, JoinRefusal> {
    for at in 0..real.len() {
        if !are_weathered_flipped(alloc, classes, real, at)? {
            return Ok(false);
        }
        if !is_weathered(alloc, classes, &real[..at])? {
            return Ok(false);
        }
    }
    is_weathered(alloc, classes, real)
}

/// The next number of a generator of numbers, after Lehmer.
fn stirred(seed: u64) -> u64 {
    seed.wrapping_mul(6_364_136_223_846_793_005)
        .wrapping_add(1_442_695_040_888_963_407)
}

/// Up to 64 bytes by a seed.
fn random_bytes(alloc: Global, seed: u64) -> Result<Vec<u8>, JoinRefusal> {
    let mut bytes = Vec::new(alloc);
    let mut state = stirred(seed);
    for _ in 0..(state >> 58) {
        state = stirred(state);
        if bytes.push((state >> 56) as u8).is_err() {
            return Err(JoinRefusal::Memory);
        }
    }
    Ok(bytes)
}

/// Random bytes, so many times.
fn random_weathered(alloc: Global, classes: &Classes, times: u64) -> Result<bool, JoinRefusal> {
    for seed in 0..times {
        let bytes = random_bytes(alloc, seed)?;
        if !is_weathered(alloc, classes, bytes.as_slice())? {
            return Ok(false);
        }
    }
    Ok(true)
}

#[test]
fn flipped_and_cut_datagrams_are_weathered(rt: HostRuntime) -> Result<(), Fail> {
    let classes = Classes::builtin(rt.alloc())?;
    assert!(rt; all_weathered(rt.alloc(), &classes, &REAL)?);
    Ok(())
}

#[test]
fn packets_of_another_connection_are_weathered(rt: HostRuntime) -> Result<(), Fail> {
    let classes = Classes::builtin(rt.alloc())?;
    assert!(rt; all_weathered(rt.alloc(), &classes, &OTHERS)?);
    Ok(())
}

#[test]
fn random_bytes_are_weathered(rt: HostRuntime) -> Result<(), Fail> {
    let classes = Classes::builtin(rt.alloc())?;
    assert!(rt; random_weathered(rt.alloc(), &classes, 500)?);
    Ok(())
}
