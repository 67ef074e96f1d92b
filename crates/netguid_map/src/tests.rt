// That names are learnt and refused as was meant, and that a class is found by what was learnt.
use crate::{Classes, Guid, GuidList, NameRefusal, Names, Paths};
use net_core::Items;
use std::alloc::Global;
use std::test::Fail;

/// The guids of `/Game`, `/Game/Pawn` and `/Game/Flag` in the built-in table.
const GAME: Guid = Guid(3);

const PAWN: Guid = Guid(5);

const FLAG: Guid = Guid(7);

/// A class under eight names, the most that a path may have, and one under the last of them alone.
const DEEP: &str =
    "{\"classes\":[{\"name\":\"Deep\",\"path\":\"/A/B/C/D/E/F/G/H\",\"parent\":null,\"relevancy\":\"always\",\"cull\":0,\"priority\":1,\"properties\":[],\"calls\":[]},{\"name\":\"Flat\",\"path\":\"/H\",\"parent\":null,\"relevancy\":\"always\",\"cull\":0,\"priority\":1,\"properties\":[],\"calls\":[]}]}";

fn list(alloc: Global, guids: &[Guid]) -> Result<GuidList, Fail> {
    Ok(Items::from_vec(guids.to_vec(alloc)?))
}

#[test]
fn segments_are_needed_until_they_are_known(rt: HostRuntime) -> Result<(), Fail> {
    let classes = Classes::builtin(rt.alloc())?;
    let mut paths = Paths::new(rt.alloc());
    let first = paths.needed(&classes, 0)?;
    assert!(rt; first.as_slice() == [GAME, PAWN].as_slice());
    paths.known(&list(rt.alloc(), &[GAME, PAWN])?)?;
    assert!(rt; paths.needed(&classes, 0)?.is_empty());
    let second = paths.needed(&classes, 1)?;
    assert!(rt; second.as_slice() == [FLAG].as_slice());
    Ok(())
}

#[test]
fn each_refusal_comes_in_its_order(rt: HostRuntime) {
    let mut names = Names::new(rt.alloc());
    for (g, outer, name, answer) in [
        (5, 3, "Pawn", Err(NameRefusal::Unknown { guid: GAME })),
        (3, 0, "Game", Ok(())),
        (5, 3, "Pawn", Ok(())),
        (5, 3, "Pawn", Ok(())),
        (5, 3, "Pawm", Err(NameRefusal::Clash { guid: PAWN })),
        (5, 5, "Pawn", Err(NameRefusal::Clash { guid: PAWN })),
        (5, 0, "Pawn", Err(NameRefusal::Clash { guid: PAWN })),
        // The outer is looked at before the guid.
        (5, 9, "Pawm", Err(NameRefusal::Unknown { guid: Guid(9) })),
        (7, 7, "Flag", Err(NameRefusal::Unknown { guid: FLAG })),
        (7, 3, "Flag", Ok(())),
        (0, 7, "", Ok(())),
    ] {
        assert!(rt;
            names.learn(Guid(g), Guid(outer), name.as_bytes()) == answer,
            "{g} {outer}"
        );
    }
}

#[test]
fn a_class_is_named_by_its_names_alone(rt: HostRuntime) -> Result<(), Fail> {
    let classes = Classes::builtin(rt.alloc())?;
    let mut names = Names::new(rt.alloc());
    // The guids are the server's own: its table may number the paths otherwise.
    for (g, outer, name) in [
        (101, 0, "Game"),
        (5, 101, "Flag"),
        (7, 101, "Pawn"),
        (9, 0, "Flag"),
    ] {
        assert!(rt; names.learn(Guid(g), Guid(outer), name.as_bytes()) == Ok(()));
    }
    for (g, class) in [
        (7, Some(0)),
        (5, Some(1)),
        (101, None),
        (9, None),
        (3, None),
        (0, None),
    ] {
        assert!(rt; names.class_of(&classes, Guid(g)).ok() == class, "{g}");
    }
    // A name that is no text is a name, and no class has it.
    assert!(rt; names.learn(Guid(11), Guid(101), &[0xff]) == Ok(()));
    let refusal = NameRefusal::Unknown { guid: Guid(11) };
    assert!(rt; names.class_of(&classes, Guid(11)) == Err(refusal));
    Ok(())
}

#[test]
fn a_path_of_eight_names_is_found(rt: HostRuntime) -> Result<(), Fail> {
    let Ok(classes) = Classes::read(rt.alloc(), DEEP.as_bytes()) else {
        assert!(rt; false, "the table is refused");
        return Ok(());
    };
    let mut names = Names::new(rt.alloc());
    let mut outer = 0;
    for (g, name) in [
        (3, "A"),
        (5, "B"),
        (7, "C"),
        (9, "D"),
        (11, "E"),
        (13, "F"),
        (15, "G"),
    ] {
        assert!(rt; names.learn(Guid(g), Guid(outer), name.as_bytes()) == Ok(()));
        assert!(rt; names.class_of(&classes, Guid(g)).is_err(), "{g}");
        outer = g;
    }
    assert!(rt; names.learn(Guid(17), Guid(15), b"H") == Ok(()));
    assert!(rt; names.class_of(&classes, Guid(17)) == Ok(0));
    assert!(rt; names.learn(Guid(19), Guid(0), b"H") == Ok(()));
    assert!(rt; names.class_of(&classes, Guid(19)) == Ok(1));
    // Eight more names over the same last ones are no path of the table.
    assert!(rt; names.learn(Guid(21), Guid(17), b"H") == Ok(()));
    assert!(rt; names.class_of(&classes, Guid(21)).is_err());
    Ok(())
}

#[test]
fn names_are_full_at_65536(rt: HostRuntime) {
    let mut names = Names::new(rt.alloc());
    for i in 0..65_536u32 {
        assert!(rt; names.learn(Guid(i + 1), Guid(i), b"Name") == Ok(()));
    }
    assert!(rt; names.learn(Guid(65_537), Guid(1), b"Name") == Err(NameRefusal::NamesFull));
    // What is known is still learnt again or refused by the rules before.
    assert!(rt; names.learn(Guid(9), Guid(8), b"Name") == Ok(()));
    let clash = NameRefusal::Clash { guid: Guid(9) };
    assert!(rt; names.learn(Guid(9), Guid(7), b"Name") == Err(clash));
    let unknown = NameRefusal::Unknown { guid: Guid(70_000) };
    assert!(rt; names.learn(Guid(65_537), Guid(70_000), b"Name") == Err(unknown));
}

// With `rt try --test --fail-alloc N` this is where a name that was half learnt would show.
#[test]
fn a_name_that_finds_no_memory_leaves_the_others(rt: HostRuntime) {
    let mut names = Names::new(rt.alloc());
    for i in 1..40u32 {
        let answer = names.learn(Guid(i), Guid(i - 1), b"Name");
        if answer == Err(NameRefusal::Memory) {
            for k in 1..i {
                assert!(rt;
                    names.learn(Guid(k), Guid(k - 1), b"Name") == Ok(()),
                    "{k} of {i}"
                );
            }
            let unknown = NameRefusal::Unknown { guid: Guid(i) };
            assert!(rt;
                names.learn(Guid(1000), Guid(i), b"Name") == Err(unknown),
                "{i}"
            );
            assert!(rt; names.learn(Guid(i), Guid(i - 1), b"Name") == Ok(()), "{i}");
        } else {
            assert!(rt; answer == Ok(()), "{i}");
        }
    }
}
