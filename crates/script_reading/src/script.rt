// Whole scripts.
ghost use Rattle.std.specs.Prelude.{◌≡◌, ◌≤◌, ◌+◌, ◌∷◌, ◌++◌, [], ℕ, List, Ok, Err, Result, IsTrue, true, length, map, nat_lt, option_map, option_to_list, IfOk, IfErr, IfSome, OnOk};
ghost use Rattle.std.specs.List.{list_all};
ghost use Rattle.protocol_model.specs.Limits.{script_bytes};
ghost use Rattle.protocol_model.specs.declared.LineWhy.{LineWhy as Why};
ghost use Rattle.class_layout.specs.Tables.{table_in};
ghost use Rattle.script_model.specs.Lines as story;
ghost use Rattle.script_model.specs.Script.{pieces};
ghost use Rattle.script_model.specs.ScriptRules as rules;
ghost use Rattle.script_model.specs.ScriptRules.{Reads, BadLine};
ghost use Rattle.script_lines.specs.LineOf.{line_of};
ghost use Rattle.script_lines.specs.ToldRight.{are_told_right};
ghost use Rattle.script_reading.specs.Kept.{Kept, nothing, kept_after, kept_some};
ghost use Rattle.script_reading.specs.Judging.{spelled_line, read_by, lines_by, some_line};
ghost use Rattle.script_reading.specs.Gives.{table_of, kept_of};
ghost use Rattle.script_reading.specs.Prepended.{prepended};
ghost use Rattle.script_reading.specs.Tells.{Tells, refused};
ghost use Rattle.script_reading.specs.ToldBy.{is_told_by, Told};

use crate::reader::Reader;
use crate::refusal::{ScriptRefusal, Stop};
use class_layout::Classes;
use protocol_model::LineWhy;
use protocol_model::limits::{LINE_BYTES, SCRIPT_BYTES};
use script_lines::{Line, LineList};
use script_spelling::{first_piece, spelled_of};
use std::alloc::Global;

fn is_ascii(text: &[u8]) -> bool
    ensures { result ≡ list_all (λ c. nat_lt c 128) text.now }
{
    text.iter().all(|&byte| byte < 128)
}

// An empty line or a comment.
fn does_nothing(text: &[u8]) -> bool
    ensures { result ≡ rules.does_nothing text.now }
{
    match text.first() {
        None => true,
        Some(first) => *first == 35,
    }
}

fn some_line(line: Result<Line, Stop>) -> Result<Option<Line>, Stop>
    ensures exact { (told : Result story.Line Why) → Tells line_of told line
        → Tells (option_map line_of) (some_line told) result }
    ensures told { (kept : Kept) → IfOk line (λ line. IsTrue (is_told_by kept line))
        → IfOk result (λ line. IfSome line (λ line. IsTrue (is_told_by kept line))) }
{
    match line {
        Ok(line) => Ok(Some(line)),
        Err(Stop::Why(why)) => Err(Stop::Why(why)),
        Err(Stop::Memory) => Err(Stop::Memory),
    }
}

fn read_spelled(reader: &Reader<'_>, text: &[u8]) -> Result<Option<Line>, Stop>
    ensures exact { Tells (option_map line_of)
        (spelled_line (table_of reader.now) reader.now.live (kept_of reader.now) text.now)
        result }
    ensures told { IfOk result (λ line. IfSome line (λ line.
        IsTrue (is_told_by (kept_of reader.now) line))) }
{
    match spelled_of(text) {
        Some(spelled) => {
            let line = reader.judge(&spelled);
            some_line(line)
        }
        None => Err(Stop::Why(LineWhy::Shape)),
    }
}

// A line's reading: nothing for an empty line or a comment.
fn read_line(reader: &Reader<'_>, text: &[u8]) -> Result<Option<Line>, Stop>
    ensures exact { Tells (option_map line_of)
        (read_by (table_of reader.now) reader.now.live (kept_of reader.now) text.now) result }
    ensures told { IfOk result (λ line. IfSome line (λ line.
        IsTrue (is_told_by (kept_of reader.now) line))) }
{
    if text.len() > LINE_BYTES {
        return Err(Stop::Why(LineWhy::TooLong));
    }
    if !is_ascii(text) {
        return Err(Stop::Why(LineWhy::NotText));
    }
    if does_nothing(text) {
        return Ok(None);
    }
    read_spelled(reader, text)
}

fn keep_line(reader: &mut Reader<'_>, lines: &mut LineList, line: Line) -> Result<(), ScriptRefusal>
    ensures lines { OnOk result (lines.new ≡ lines.old ++ line ∷ []) }
    ensures kept { OnOk result (kept_of reader.new
        ≡ kept_after (table_of reader.old) (kept_of reader.old) (line_of line)) }
    ensures err { IfErr result (λ refusal. refusal ≡ ScriptRefusal.Memory) }
    ensures table { table_of reader.new ≡ table_of reader.old }
    ensures live { reader.new.live ≡ reader.old.live }
{
    if reader.keep(&line).is_err() {
        return Err(ScriptRefusal::Memory);
    }
    if lines.push(line).is_err() {
        return Err(ScriptRefusal::Memory);
    }
    Ok(())
}

fn keep_some(
    reader: &mut Reader<'_>,
    lines: &mut LineList,
    line: Option<Line>,
) -> Result<(), ScriptRefusal>
    ensures lines { OnOk result (lines.new ≡ lines.old ++ option_to_list line) }
    ensures kept { OnOk result (kept_of reader.new
        ≡ kept_some (table_of reader.old) (kept_of reader.old) (option_map line_of line)) }
    ensures err { IfErr result (λ refusal. refusal ≡ ScriptRefusal.Memory) }
    ensures table { table_of reader.new ≡ table_of reader.old }
    ensures live { reader.new.live ≡ reader.old.live }
{
    match line {
        Some(line) => keep_line(reader, lines, line),
        None => Ok(()),
    }
}

fn refused(stop: Stop, number: usize) -> ScriptRefusal
    ensures { result ≡ refused number stop }
{
    match stop {
        Stop::Why(why) => ScriptRefusal::BadLine { line: number, why },
        Stop::Memory => ScriptRefusal::Memory,
    }
}

fn take_line(
    reader: &mut Reader<'_>,
    lines: &mut LineList,
    text: &[u8],
    number: usize,
) -> Result<(), ScriptRefusal>
    ensures ok { OnOk result ((texts : List story.Text) → prepended (map line_of lines.old)
        (lines_by (table_of reader.old) reader.old.live (kept_of reader.old) number
        (text.now ∷ texts))
        ≡ prepended (map line_of lines.new)
        (lines_by (table_of reader.old) reader.old.live (kept_of reader.new) (number + 1)
        texts)) }
    ensures bad { IfErr result (λ refusal. (n : ℕ) (why : Why) →
        refusal ≡ ScriptRefusal.BadLine n why → (texts : List story.Text) →
        prepended (map line_of lines.old) (lines_by (table_of reader.old) reader.old.live
        (kept_of reader.old) number (text.now ∷ texts)) ≡ Err (n, why)) }
    ensures told { OnOk result (Told (table_of reader.old) (kept_of reader.old) lines.old
        → Told (table_of reader.old) (kept_of reader.new) lines.new) }
    ensures table { table_of reader.new ≡ table_of reader.old }
    ensures live { reader.new.live ≡ reader.old.live }
{
    match read_line(reader, text) {
        Ok(line) => keep_some(reader, lines, line),
        Err(stop) => Err(refused(stop, number)),
    }
}

fn read_lines(
    alloc: Global,
    bytes: &[u8],
    classes: &Classes,
    live: bool,
) -> Result<LineList, ScriptRefusal>
    requires { length bytes.now ≤ script_bytes }
    ensures ok { IfOk result (λ lines. lines_by (table_in classes.now) live nothing 1
        (pieces 10 bytes.now) ≡ Ok (map line_of lines)) }
    ensures refused { IfErr result (λ refusal. (line : ℕ) (why : Why) →
        refusal ≡ ScriptRefusal.BadLine line why →
        lines_by (table_in classes.now) live nothing 1 (pieces 10 bytes.now)
        ≡ Err (line, why)) }
    ensures told { IfOk result (λ lines. are_told_right (table_in classes.now) [] lines ≡ true) }
{
    let mut lines = LineList::new(alloc);
    let mut reader = Reader::new(alloc, classes, live);
    let mut number = 1;
    let mut rest = Some(bytes);
    while let Some(text) = rest {
        let (line, later) = first_piece(text, 10);
        match take_line(&mut reader, &mut lines, line, number) {
            Ok(()) => (),
            Err(refusal) => return Err(refusal),
        }
        rest = later;
        number += 1;
    }
    Ok(lines)
}

/// The lines of a script, without its empty lines and comments.
///
/// Names are those of the class table; a live script has edits, ticks and the server's calls alone.
/// `BadLine` comes exactly where the rules of scripts refuse one: it names the first such line,
/// counted from 1, and the first reason against it. `Memory` comes where there is none. The lines'
/// values and arguments have the tags of their kinds, and no owner is player 0.
pub fn read_script(
    alloc: Global,
    bytes: &[u8],
    classes: &Classes,
    live: bool,
) -> Result<LineList, ScriptRefusal>
    ensures ok { IfOk result (λ lines. Reads (table_in classes.now) live bytes.now
        (map line_of lines)) }
    ensures refused { IfErr result (λ refusal. (line : ℕ) (why : Why) →
        refusal ≡ ScriptRefusal.BadLine line why →
        BadLine (table_in classes.now) live bytes.now line why) }
    ensures told { IfOk result (λ lines. are_told_right (table_in classes.now) [] lines ≡ true) }
{
    if bytes.len() > SCRIPT_BYTES {
        return Err(ScriptRefusal::BadLine {
            line: 1,
            why: LineWhy::TooLong,
        });
    }
    read_lines(alloc, bytes, classes, live)
}
