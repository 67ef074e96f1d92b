// Lines that a script reads, each after those before it.
ghost use Rattle.std.specs.Prelude.{ℕ, List, false};
ghost use Rattle.protocol_model.specs.Value.{Table};
ghost use Rattle.script_model.specs.Lines.{Line};
ghost use Rattle.script_model.specs.ScriptRules.{Reads};
ghost use Rattle.replication_model.specs.Story.{first_story};
ghost use Rattle.following_laws.specs.Following.{FollowAll};

/// Each line that a script reads may follow those before it.
pub fn script_lines_follow()
    ensures { (table : Table) (script : List ℕ) (lines : List Line)
        → Reads table false script lines → FollowAll table first_story lines }
{}
