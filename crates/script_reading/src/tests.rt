// Worked examples.
use super::*;
use script_lines::{Edit, Guid, Handle, Player, Value, Version};
use std::alloc::Global;
use std::test::Fail;

// The first bad line and the reason against it; `None` where the script is read.
fn refused(alloc: Global, script: &[u8], live: bool) -> Result<Option<(usize, LineWhy)>, Memory> {
    let classes = Classes::builtin(alloc)?;
    match read_script(alloc, script, &classes, live) {
        Ok(_) => Ok(None),
        Err(ScriptRefusal::BadLine { line, why }) => Ok(Some((line, why))),
        Err(ScriptRefusal::Memory) => Err(Memory),
    }
}

#[test]
fn each_reason_has_its_line(rt: HostRuntime) -> Result<(), Fail> {
    let cases = [
        ("", None),
        ("\n# a remark\n\ntick\n", None),
        ("tick \n", Some((1, LineWhy::Shape))),
        ("tick\nmirror 1", Some((2, LineWhy::Shape))),
        ("join 1 8000\nforge 1 0", Some((2, LineWhy::Shape))),
        ("tick\n\n# \u{e9}", Some((3, LineWhy::NotText))),
        ("join 0 1", Some((1, LineWhy::Range))),
        ("join 1 1000001", Some((1, LineWhy::Range))),
        ("spawn Nothing 0 2147483648", Some((1, LineWhy::Range))),
        ("own 1 1001", Some((1, LineWhy::Range))),
        ("team 1 65", Some((1, LineWhy::Range))),
        ("down 1 99999999999999999999", Some((1, LineWhy::Range))),
        ("downnew 1 1001", Some((1, LineWhy::Range))),
        ("join 1 1\ndump 2", Some((2, LineWhy::NoPlayer))),
        ("settled 1 1", Some((1, LineWhy::NoPlayer))),
        ("join 1 1\njoin2 1 1", Some((2, LineWhy::Taken))),
        ("spawn pawn 0 0", Some((1, LineWhy::NoClass))),
        ("own 1 0", Some((1, LineWhy::NoActor))),
        ("dormant 99999999999999999999", Some((1, LineWhy::NoActor))),
        (
            "spawn Pawn 0 0\ndestroy 1\nset 1 hp 1",
            Some((3, LineWhy::NoActor)),
        ),
        ("spawn Pawn 0 0\nset 1 role 1", Some((2, LineWhy::NoName))),
        ("spawn Pawn 0 0\nswitch 1 hp 1", Some((2, LineWhy::NoName))),
        ("spawn Pawn 0 0\nmulti 1 boom", Some((2, LineWhy::NoName))),
        ("spawn Pawn 0 0\nmulti 1 hurt 1", Some((2, LineWhy::Kind))),
        (
            "join 1 1\nspawn Pawn 0 0\ncall 1 1 fire 1",
            Some((3, LineWhy::Kind)),
        ),
        ("spawn Pawn 0 0\nset 1 hp 256", Some((2, LineWhy::Value))),
        ("spawn Pawn 0 0\nset 1 hp 01", Some((2, LineWhy::Value))),
        ("spawn Pawn 0 0\nmulti 1 boom ", Some((2, LineWhy::Value))),
        (
            "join 1 1\nspawn Pawn 0 0\nccall 1 1 blob 0",
            Some((3, LineWhy::Value)),
        ),
    ];
    for (script, wanted) in cases {
        let told = refused(rt.alloc(), script.as_bytes(), false)?;
        assert_eq!(rt; told, wanted, "{script}");
    }
    Ok(())
}

#[test]
fn each_range_has_its_first_and_last_value(rt: HostRuntime) -> Result<(), Fail> {
    let within = concat!(
        "join 1 1\njoin2 1000 1000000\n",
        "spawn Pawn -2147483648 2147483647\nspawn Flag 0 0\nspawn Purse 0 0\n",
        "view 1000 -2147483648 2147483647\nteam 1 0\nteam 1000 64\n",
        "give 1 0\ngive 1 64\nown 1 0\nown 1 1000\n",
        "down 1 1\nup 1000 1000000\ndownnew 1 0\nupnew 1000 1000\nsettled 1 3\n",
        "set 1 x -2147483648\nset 1 y 2147483647\nset 1 hp 0\nset 1 hp 255\n",
        "set 1 ammo 4294967295\nset 1 team 3\nset 1 aim -2147483648\n",
        "set 2 holder 4294967295\nset 2 score 4294967295\n",
        "set 3 gold -9223372036854775808\nset 3 gold 9223372036854775807\n",
    );
    let cases = [
        (within, None),
        ("join 1001 1", Some((1, LineWhy::Range))),
        ("join 1 0", Some((1, LineWhy::Range))),
        ("spawn Pawn -2147483649 0", Some((1, LineWhy::Range))),
        ("down 1 0", Some((1, LineWhy::Range))),
        ("up 1 1000001", Some((1, LineWhy::Range))),
        ("spawn Pawn 0 0\nset 1 hp -1", Some((2, LineWhy::Value))),
        (
            "spawn Pawn 0 0\nset 1 ammo 4294967296",
            Some((2, LineWhy::Value)),
        ),
        ("spawn Pawn 0 0\nset 1 team 4", Some((2, LineWhy::Value))),
        (
            "spawn Pawn 0 0\nset 1 x 2147483648",
            Some((2, LineWhy::Value)),
        ),
        (
            "spawn Flag 0 0\nset 1 score 4294967296",
            Some((2, LineWhy::Value)),
        ),
        (
            "spawn Purse 0 0\nset 1 gold 9223372036854775808",
            Some((2, LineWhy::Value)),
        ),
    ];
    for (script, wanted) in cases {
        let told = refused(rt.alloc(), script.as_bytes(), false)?;
        assert_eq!(rt; told, wanted, "{script}");
    }
    Ok(())
}

#[test]
fn live_scripts_have_edits_ticks_and_calls(rt: HostRuntime) -> Result<(), Fail> {
    let cases = [
        (
            "spawn Pawn 0 0\ntick\ncall 9 1 hurt 1\nmulti 1 boom 2",
            None,
        ),
        ("join 1 1", Some((1, LineWhy::Place))),
        ("tick\nctick 0", Some((2, LineWhy::Place))),
        ("ccall 1 1 fire 1", Some((1, LineWhy::Place))),
    ];
    for (script, wanted) in cases {
        let told = refused(rt.alloc(), script.as_bytes(), true)?;
        assert_eq!(rt; told, wanted, "{script}");
    }
    Ok(())
}

#[test]
fn a_line_has_at_most_16384_bytes(rt: HostRuntime) -> Result<(), Fail> {
    let mut script = vec![in rt.alloc(); b'#'; 16_384]?;
    assert_eq!(rt; refused(rt.alloc(), script.as_slice(), false)?, None);
    script.push(b'#')?;
    assert_eq!(rt;
        refused(rt.alloc(), script.as_slice(), false)?,
        Some((1, LineWhy::TooLong))
    );
    Ok(())
}

#[test]
fn the_65th_join_and_the_8193rd_spawn_are_too_many(rt: HostRuntime) -> Result<(), Fail> {
    let alloc = rt.alloc();
    let mut script = String::new(alloc);
    for player in 1..66u32 {
        let line = format!(in alloc; "join {player} 1\n")?;
        script.push_str(line.as_str())?;
    }
    assert_eq!(rt;
        refused(alloc, script.as_bytes(), false)?,
        Some((65, LineWhy::Full))
    );
    let mut spawns = String::new(alloc);
    for _actor in 0..8193 {
        spawns.push_str("spawn Flag 0 0\n")?;
    }
    assert_eq!(rt;
        refused(alloc, spawns.as_bytes(), false)?,
        Some((8193, LineWhy::Full))
    );
    Ok(())
}

#[test]
fn names_are_read(rt: HostRuntime) -> Result<(), Fail> {
    let alloc = rt.alloc();
    let classes = Classes::builtin(alloc)?;
    let script = b"join2 7 8000\nspawn Flag 10 -3\nset 1 score 5\nset 1 y -9\n";
    let lines = read_script(alloc, script, &classes, false);
    let Ok(lines) = lines else {
        return Ok(assert!(rt; false));
    };
    let edits = [
        Edit::Spawn {
            class: 1,
            x: 10,
            y: -3,
        },
        Edit::Set {
            actor: Guid(2),
            prop: Handle(5),
            value: Value::Packed(5),
        },
        Edit::Set {
            actor: Guid(2),
            prop: Handle(2),
            value: Value::I32(-9),
        },
    ];
    assert_eq!(rt; lines.len(), 4);
    let joins = match lines.get(0) {
        Some(
            Line::Join {
                player,
                budget,
                version,
            },
        ) => *player == Player(7) && *budget == 8000 && *version == Version::Two,
        _ => false,
    };
    assert!(rt; joins);
    for place in 0..3 {
        let same = match lines.get(place + 1) {
            Some(Line::Edit(edit)) => *edit == edits[place],
            _ => false,
        };
        assert!(rt; same, "{place}");
    }
    Ok(())
}
