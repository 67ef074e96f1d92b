// The summary of a class table.
ghost use Rattle.std.specs.Prelude.{◌≡◌, ◌++◌, List, ℕ, IfOk, OnOk, string_bytes};
ghost use Rattle.std.specs.List.{flat_map};
ghost use Rattle.sha1.specs.Sha1.{sha1};
ghost use Rattle.class_layout.specs.Tables.{class_of, table_in, Layout};
ghost use Rattle.class_layout.specs.declared.class.Segment.{Segment};
ghost use Rattle.program_model.specs.Checked.{check_text, class_line};

use class_layout::{Class, Classes};
use event_text::bytes_text;
use net_core::Memory;
use std::alloc::Global;
use std::fmt::Write;

/// The handles that each class has before those of its own properties: x, y and the role.
const BUILT_IN_HANDLES: u128 = 3;

/// A line for the class, after the text.
fn put_class(text: &mut String, class: &Class) -> Result<(), Memory>
    ensures { OnOk result ((segments : List Segment) → string_bytes text.new
        ≡ string_bytes text.old ++ class_line (class_of segments class.now)) }
{
    let name = class.name.as_str();
    let handles = BUILT_IN_HANDLES + class.props.len() as u128;
    let calls = class.calls.len();
    writeln!(text, "class {name} handles {handles} calls {calls}")?;
    Ok(())
}

/// A line for each class, after the text.
fn put_classes(text: &mut String, classes: &Classes) -> Result<(), Memory>
    ensures { OnOk result (string_bytes text.new
        ≡ string_bytes text.old ++ flat_map class_line (table_in classes.now)) }
{
    for place in 0..classes.count() {
        if let Some(class) = classes.class(place) {
            put_class(text, class)?;
        }
    }
    Ok(())
}

/// The summary of a table: how many classes it has, a line for each with how many handles and
/// calls it has, the inherited ones included, and the SHA-1 of its file.
pub fn check_text(alloc: Global, classes: &Classes) -> Result<String, Memory>
    ensures { IfOk result (λ text. (file : List ℕ) → classes.now.digest ≡ sha1 file
        → string_bytes text ≡ check_text file (table_in classes.now)) }
{
    let count = classes.count();
    let mut text = format!(in alloc; "classes {count}\n")?;
    put_classes(&mut text, classes)?;
    let digest = bytes_text(alloc, &classes.digest())?;
    writeln!(text, "digest {digest}")?;
    Ok(text)
}
