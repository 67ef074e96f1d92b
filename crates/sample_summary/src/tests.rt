// What no clause says: that real ends meet with ample memory, and that the definitions mean what was
// meant, in scripts whose summaries another program of the rules wrote.
use super::*;
use replay_core::laws::lines_of_scripts_may_follow;
use script_reading::read_script;
use std::alloc::Global;
use std::test::Fail;

/// A script with its summary, as of 7 ticks.
#[derive(Clone, Copy)]
struct Row {
    script: &'static str,
    text: &'static str,
}

/// Nothing happens.
const NOTHING: Row = Row {
    script: "",
    text: "ticks 7
down 0 0
up 0 0
refused 0
settled 0
transcript da39a3ee5e6b4b0d3255bfef95601890afd80709
",
};

/// Two actors are sent to two players, of whom one acknowledges them. A packet that was never sent and
/// one that is no packet are refused.
const MEETING: Row = Row {
    script: "join 1 8000
join 2 8000
spawn Pawn 0 0
spawn Flag 9000 9000
tick
down 1 1
ctick 1
up 1 1
ctick 2
up 1 7
forge 2 00
",
    text: "ticks 7
down 2 168
up 1 4
refused 2
settled 2
transcript bfc21e3691996248c4fc99237b4be6290a6e5d81
",
};

/// The row's script has the row's summary, with the built-in classes.
fn is_summed_up(alloc: Global, row: Row) -> Result<bool, Memory> {
    let classes = Classes::builtin(alloc)?;
    let Ok(lines) = read_script(alloc, row.script.as_bytes(), &classes, false) else {
        return Ok(false);
    };
    lines_of_scripts_may_follow();
    let text = summary(alloc, &classes, 7, lines.as_slice())?;
    Ok(text.as_str() == row.text)
}

#[test]
fn scripts_have_their_summaries(rt: HostRuntime) -> Result<(), Fail> {
    for row in [NOTHING, MEETING] {
        assert!(rt; is_summed_up(rt.alloc(), row)?);
    }
    Ok(())
}
