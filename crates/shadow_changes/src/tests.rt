// That changes are those that were meant, and that merged lists answer as all samples would.
use crate::{Change, Guid, Handle, Memory, Shadows, Value};
use std::alloc::Global;
use std::process::Abort;
use std::test::Fail;

/// The lists of actor 2, of which x, y and hp had these values at ticks 1, 2 and so on.
fn filled(alloc: Global, rows: &[(i32, i32, u8)]) -> Result<Shadows, Memory> {
    let mut shadows = Shadows::new(alloc);
    for i in 0..rows.len() {
        let (x, y, hp) = rows[i];
        let values = [Value::I32(x), Value::I32(y), Value::U8(hp)];
        shadows.sample(Guid(2), i as u64 + 1, &values)?;
    }
    Ok(shadows)
}

/// Asks for the changes of actor 2 above each tick, and compares handles and ticks.
fn compare(
    rt: &impl Abort,
    shadows: &Shadows,
    rows: &[(u64, &[(u16, u64)])],
) -> Result<(), Memory> {
    for (tick, wanted) in rows {
        let changes = shadows.since(Guid(2), *tick)?;
        assert_eq!(rt; changes.len(), wanted.len());
        for (change, (prop, at)) in changes.iter().zip(wanted.iter()) {
            let told = Change {
                prop: Handle(*prop),
                tick: *at,
            };
            assert_eq!(rt; *change, told);
        }
    }
    Ok(())
}

#[test]
fn each_change_is_listed_once_with_its_newest_tick(rt: HostRuntime) -> Result<(), Fail> {
    let rows = [(1, -2, 100), (1, -2, 100), (3, -2, 100), (4, -2, 99)];
    let shadows = filled(rt.alloc(), &rows)?;
    compare(
        &rt,
        &shadows,
        &[
            (0, &[(1, 4), (2, 1), (4, 4)]),
            (1, &[(1, 4), (4, 4)]),
            (3, &[(1, 4), (4, 4)]),
            (4, &[]),
            (9, &[]),
        ],
    )?;
    Ok(())
}

#[test]
fn a_value_that_goes_back_is_noted_again(rt: HostRuntime) -> Result<(), Fail> {
    let shadows = filled(rt.alloc(), &[(0, 0, 1), (0, 0, 2), (0, 0, 1), (0, 0, 1)])?;
    compare(
        &rt,
        &shadows,
        &[
            (0, &[(1, 1), (2, 1), (4, 3)]),
            (1, &[(4, 3)]),
            (2, &[(4, 3)]),
            (3, &[]),
        ],
    )?;
    Ok(())
}

#[test]
fn merged_lists_answer_before_at_and_after_their_ticks(rt: HostRuntime) -> Result<(), Fail> {
    // x changes at each of 66 ticks, y at 2 and 3, hp at the first alone: ticks 1 to 3 are merged.
    let mut rows = Vec::new(rt.alloc());
    for tick in 1..67i32 {
        rows.push((tick, tick.min(3), 7))?;
    }
    let shadows = filled(rt.alloc(), &rows)?;
    compare(
        &rt,
        &shadows,
        &[
            (0, &[(1, 66), (2, 3), (4, 1)]),
            (1, &[(1, 66), (2, 3)]),
            (2, &[(1, 66), (2, 3)]),
            (3, &[(1, 66)]),
            (65, &[(1, 66)]),
            (66, &[]),
        ],
    )?;
    Ok(())
}

#[test]
fn an_actor_that_was_never_sampled_has_no_changes(rt: HostRuntime) -> Result<(), Fail> {
    let shadows = filled(rt.alloc(), &[(5, 6, 7)])?;
    assert!(rt; shadows.since(Guid(1), 0)?.is_empty());
    assert!(rt; shadows.since(Guid(4), 0)?.is_empty());
    assert_eq!(rt; shadows.since(Guid(2), 0)?.len(), 3);
    Ok(())
}
