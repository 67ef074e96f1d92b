// What no clause says of a sender: what its answers mean at the first ticks, and that calls succeed
// with ample memory.
use crate::{ActorSender, ActorState, PairList, Seen, Sight};
use channel_table::ChannelTable;
use class_layout::Classes;
use net_core::Guid;
use std::test::Fail;

/// What a player sees of actor 2, if it is there.
#[derive(Clone, Copy)]
struct Shown {
    there: bool,
    owns: bool,
}

/// The sight that shows it so.
fn sight_of(rt: HostRuntime, shown: &Shown) -> Result<Sight, Fail> {
    let mut sight = Sight::new(rt.alloc());
    if shown.there {
        sight.push(Seen {
            actor: Guid(2),
            class: 0,
            owns: shown.owns,
            relevant: true,
            destroyed: false,
            dormant: true,
            flush: 0,
            values: PairList::new(rt.alloc()),
        })?;
    }
    Ok(sight)
}

#[test]
fn an_actor_is_owned_as_the_last_sight_shows_it(rt: HostRuntime) -> Result<(), Fail> {
    let sights = [
        Shown {
            there: true,
            owns: true,
        },
        Shown {
            there: true,
            owns: false,
        },
        Shown {
            there: true,
            owns: true,
        },
        Shown {
            there: false,
            owns: false,
        },
    ];
    let table = ChannelTable::new(rt.alloc(), true)?;
    let mut sender = ActorSender::new(rt.alloc());
    for shown in &sights {
        let sight = sight_of(rt, shown)?;
        sender.take_in(&sight, &table)?;
        assert!(rt; sender.shows_owned(Guid(2)) == shown.owns);
        assert!(rt; !sender.shows_owned(Guid(4)));
    }
    Ok(())
}

#[test]
fn an_actor_that_was_shown_isnt_opened_yet(rt: HostRuntime) -> Result<(), Fail> {
    let classes = Classes::builtin(rt.alloc())?;
    let table = ChannelTable::new(rt.alloc(), true)?;
    let mut sender = ActorSender::new(rt.alloc());
    let shown = Shown {
        there: true,
        owns: true,
    };
    let sight = sight_of(rt, &shown)?;
    sender.take_in(&sight, &table)?;
    assert!(rt; sender.state(Guid(2)) == ActorState::None);
    assert!(rt; !sender.was_opened(Guid(2)));
    assert!(rt; !sender.quiet(Guid(2), true, 0));
    for seen in sight.as_slice() {
        assert!(rt; !sender.settled(seen, &table, &classes));
    }
    Ok(())
}
