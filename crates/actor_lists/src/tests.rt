// Lists that were handed out, and the order of their actors.
use super::*;
use std::alloc::Global;
use std::test::Fail;

/// What is done to the lists of keys 1 and 2.
#[derive(Clone, Copy)]
enum Deed {
    Add(u8, u32),
    Take(u8, u32),
}

fn play(lists: &mut Shelves<u8>, deeds: &[Deed]) -> Result<(), Memory> {
    for deed in deeds {
        match deed {
            Deed::Add(key, actor) => lists.add(*key, Guid(*actor))?,
            Deed::Take(key, actor) => lists.take(*key, Guid(*actor))?,
        }
    }
    Ok(())
}

/// The lists of keys 1 and 2 together, and then the deeds, after which the lists handed out before
/// still have these actors.
fn stay(
    alloc: Global,
    shelves: &mut Shelves<u8>,
    deeds: &[Deed],
    want: &[Guid],
) -> Result<bool, Memory> {
    let mut lists = Lists::new(alloc);
    shelves.share(1, &mut lists)?;
    shelves.share(2, &mut lists)?;
    play(shelves, deeds)?;
    let actors = lists.actors()?;
    Ok(actors.as_slice() == want)
}

#[test]
fn lists_come_ascending_and_each_actor_once(rt: HostRuntime) -> Result<(), Fail> {
    let mut shelves = Shelves::new(rt.alloc());
    let first = [
        Deed::Add(1, 8),
        Deed::Add(2, 4),
        Deed::Add(1, 2),
        Deed::Add(2, 8),
        Deed::Add(3, 6),
    ];
    play(&mut shelves, first.as_slice())?;
    let all = [Guid(2), Guid(4), Guid(8)];
    let then = [Deed::Take(1, 8), Deed::Take(1, 8), Deed::Add(2, 10)];
    assert!(rt; stay(rt.alloc(), &mut shelves, then.as_slice(), all.as_slice())?);
    let rest = [Guid(2), Guid(4), Guid(8), Guid(10)];
    let last = [Deed::Take(1, 2)];
    assert!(rt; stay(rt.alloc(), &mut shelves, last.as_slice(), rest.as_slice())?);
    let left = [Guid(4), Guid(8), Guid(10)];
    assert!(rt; stay(rt.alloc(), &mut shelves, &[], left.as_slice())?);
    Ok(())
}
