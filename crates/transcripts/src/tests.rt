// What no clause says: that real ends meet with ample memory, and that the definitions mean what was
// meant, in scripts whose transcripts another program of the rules wrote.
use super::*;
use net_core::MemSink;
use replay_core::laws::lines_of_scripts_may_follow;
use script_reading::read_script;
use std::alloc::Global;
use std::test::Fail;

/// A script with its transcript.
#[derive(Clone, Copy)]
struct Row {
    script: &'static str,
    text: &'static str,
}

/// A server's first packet, and what it gives the client.
const FIRST: Row = Row {
    script: "join 1 8000
spawn Pawn 10 -3
set 1 hp 75
tick
down 1 1
dump 1
",
    text: "joined 1
actor 1
sent 1 1 0180190024009d04020300e228acad4cc180800abb732350105000000020e8ffffff3780b0c480030000000040
down 1 1 taken
copies 1 1
copy 1 1 Pawn open x=10 y=-3 role=0 hp=75 ammo=0 team=0 aim=0
",
};

/// A value that goes to 1, to 2, whose packet is lost, and back to 1.
const LOST: Row = Row {
    script: "join 1 8000
spawn Pawn 0 0
tick
down 1 1
ctick 1
up 1 1
set 1 hp 1
tick
down 1 2
ctick 1
up 1 2
set 1 hp 2
tick
down 1 3
ctick 1
set 1 x 5
tick
down 1 4
ctick 1
up 1 4
set 1 hp 1
tick
down 1 5
settled 1 1
ctick 1
up 1 5
settled 1 1
dump 1
",
    text: "joined 1
actor 1
sent 1 1 0180190024009d04020300e228acad4cc180800abb73235010000000002000000000308040c680030000000040
down 1 1 taken
csent 1 1 01c00020
up 1 1 taken
sent 1 2 02c000000200640008010001
down 1 2 taken
csent 1 2 02400120
up 1 2 taken
sent 1 3 034001000200640008020001
down 1 3 taken
csent 1 3 03c00120
sent 1 4 040004008801040a0000000002
down 1 4 taken
csent 1 4 04400220
up 1 4 taken
sent 1 5 054002000200640008010001
down 1 5 taken
settled 1 1 no
csent 1 5 05c00220
up 1 5 taken
settled 1 1 yes
copies 1 1
copy 1 1 Pawn open x=5 y=0 role=0 hp=1 ammo=0 team=0 aim=0
",
};

/// A Pawn that passes from one player to another: each has what is its owner's.
const OWNERS: Row = Row {
    script: "join 1 8000
join 2 8000
spawn Pawn 0 0
own 1 1
tick
down 1 1
ctick 1
up 1 1
down 2 1
ctick 2
up 2 1
set 1 ammo 9
tick
own 1 2
tick
down 1 3
down 2 3
dump 1
dump 2
",
    text: "joined 1
joined 2
actor 1
sent 1 1 0180190024009d04020300e228acad4cc180800abb73235010000000002000000000308840a600000000c00040
sent 2 1 0180190024009d04020300e228acad4cc180800abb73235010000000002000000000308040c680030000000040
down 1 1 taken
csent 1 1 01c00020
up 1 1 taken
down 2 1 taken
csent 2 1 01c00020
up 2 1 taken
sent 1 2 02c000000200c4000a090000000001
sent 2 2 02c00020
sent 1 3 03000400d0010c38000000000004
sent 2 3 03000400d0010c2a240000000004
down 1 3 taken
down 2 3 taken
copies 1 1
copy 1 1 Pawn open x=0 y=0 role=0 hp=100 ammo=0 team=0 aim=0
copies 2 1
copy 2 1 Pawn open x=0 y=0 role=1 hp=100 ammo=9 team=0 aim=0
",
};

/// A Pawn that falls asleep, changes there, wakes, falls asleep again and is gone.
const SLEEPS: Row = Row {
    script: "join 1 8000
spawn Pawn 0 0
tick
down 1 1
ctick 1
up 1 1
dormant 1
tick
set 1 hp 5
tick
down 1 2
ctick 1
up 1 2
set 1 hp 6
tick
dump 1
flush 1
tick
down 1 4
dump 1
ctick 1
up 1 3
tick
down 1 5
ctick 1
up 1 4
destroy 1
tick
down 1 6
dump 1
",
    text: "joined 1
actor 1
sent 1 1 0180190024009d04020300e228acad4cc180800abb73235010000000002000000000308040c680030000000040
down 1 1 taken
csent 1 1 01c00020
up 1 1 taken
sent 1 2 02c000401b0040000180
down 1 2 taken
csent 1 2 02400120
up 1 2 taken
sent 1 3 03400120
copies 1 1
copy 1 1 Pawn asleep x=0 y=0 role=0 hp=100 ammo=0 team=0 aim=0
sent 1 4 048019006000cd020205010000000002000000000308060c38000000000004
down 1 4 taken
copies 1 1
copy 1 1 Pawn open x=0 y=0 role=0 hp=6 ammo=0 team=0 aim=0
csent 1 3 03400220
up 1 3 taken
sent 1 5 05c001401b0080000180
down 1 5 taken
csent 1 4 04c00220
up 1 4 taken
sent 1 6 064002000100041008204010
down 1 6 taken
copies 1 0
",
};

/// Both versions: calls each way, lost, late, forged and absent packets.
const CALLS: Row = Row {
    script: "join 1 100000
join2 2 100000
spawn Pawn 0 0
own 1 1
tick
downnew 1 0
downnew 2 0
ctick 1
ctick 2
upnew 1 0
upnew 2 0
multi 1 boom 9
call 1 1 hurt 7
call 2 1 hurt 7
tick
downnew 1 2
downnew 2 0
ccall 1 1 fire 5
ccall 2 1 fire 5
ctick 1
upnew 1 0
down 1 2
down 1 1
up 2 9
forge 2 00
cforge 1 -
settled 1 1
settled 2 1
dump 2
",
    text: "joined 1
joined 2
actor 1
sent 1 1 0180190024009d04020300e228acad4cc180800abb73235010000000002000000000308840a600000000c00040
sent 2 1 01000000000000802990007412080c0088a3b0b6320503022aecce8d4041000000008000000000c0000219030e000000000001
down 1 1 taken
down 2 1 taken
csent 1 1 01c00020
csent 2 1 0140008000000080
up 1 1 taken
up 2 1 taken
call 1 queued
call 2 queued
call 1 queued
call 2 notowner
sent 1 2 02c00000030008a00c9080e0000200648004061201
sent 2 2 024000800000000008200324309008
chanded 2 1 boom run 9
down 2 2 taken
ccall 1 queued
ccall 2 notowner
csent 1 2 0200060008403120814001000040
handed 1 1 fire run 5
up 1 2 taken
chanded 1 1 hurt run 7
chanded 1 1 boom run 9
down 1 2 taken
down 1 1 old
up 2 9 absent
forge 2 malformed 0 NoEnd
cforge 1 malformed 0 Empty
settled 1 1 no
settled 2 1 yes
copies 2 1
copy 2 1 Pawn open x=0 y=0 role=0 hp=100 ammo=0 team=0 aim=0
",
};

/// The row's script has the row's transcript, with the built-in classes.
fn is_told(alloc: Global, row: Row) -> Result<bool, WriteRefusal> {
    let classes = Classes::builtin(alloc)?;
    let Ok(lines) = read_script(alloc, row.script.as_bytes(), &classes, false) else {
        return Ok(false);
    };
    lines_of_scripts_may_follow();
    let mut out = MemSink::new(alloc, Vec::new(alloc));
    play(alloc, &classes, lines.as_slice(), &mut out)?;
    Ok(out.as_slice() == row.text.as_bytes())
}

#[test]
fn scripts_have_their_transcripts(rt: HostRuntime) -> Result<(), Fail> {
    for row in [FIRST, LOST, OWNERS, SLEEPS, CALLS] {
        assert!(rt; is_told(rt.alloc(), row)?);
    }
    Ok(())
}
