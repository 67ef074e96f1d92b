// The lines that a script reads may be replayed.
ghost use Rattle.std.specs.Prelude.{◌≡◌, ◌<◌, ◌^◌, ℕ, List, [], map, length, true, false};
ghost use Rattle.script_model.specs.ScriptRules.{Reads};
ghost use Rattle.replication_model.specs.Story.{first_story};
ghost use Rattle.class_layout.specs.Tables.{Layout, table_in};
ghost use Rattle.script_lines.specs.declared.line.Line.{Line};
ghost use Rattle.script_lines.specs.LineOf.{line_of};
ghost use Rattle.script_lines.specs.ToldRight.{are_told_right};
ghost use Rattle.replay_core.specs.May.{MayAll};

/// Each line that a script reads, fewer than 2^61, may follow those before it, if edits and
/// arguments have the tags of their kinds.
pub fn lines_of_scripts_may_follow()
    ensures { (layout : Layout) (script : List ℕ) (lines : List Line)
        → Reads (table_in layout) false script (map line_of lines)
        → are_told_right (table_in layout) [] lines ≡ true → length lines < 2 ^ 61
        → MayAll layout first_story lines }
{}
