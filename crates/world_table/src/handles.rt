// The properties of a table's classes by handle.
ghost use Rattle.std.specs.Prelude.{◌≡◌, option_map};
ghost use Rattle.std.specs.Option.{option_copied};
ghost use Rattle.protocol_model.specs.Value as Model;
ghost use Rattle.protocol_model.specs.World.{class_at, has_switch};
ghost use Rattle.class_layout.specs.Tables.{table_in};
ghost use Rattle.world_table.specs.Answers.{settable_at};
ghost use Rattle.world_table.specs.Kept.{own_at};

use class_layout::{Classes, Prop};
use net_core::Handle;
use protocol_model::{Cond, Kind};

/// The property of a class behind x, y and role.
fn own_prop<'a>(classes: &'a Classes, class: u16, prop: Handle) -> Option<&'a Prop>
    ensures { option_copied result ≡ own_at classes.now class prop }
{
    let index = usize::from(prop.0.checked_sub(4)?);
    classes.class(class)?.props.get(index)
}

/// The kind of a property that can be set: x, y or one of the class's own. A class that the table
/// hasn't has none of its own.
#[tactic(auto, using(crate::proofs::Props::kind_is))]
pub(crate) fn settable_kind(classes: &Classes, class: u16, prop: Handle) -> Option<Kind>
    ensures { result ≡ option_map (λ (p : Model.Prop). p.kind)
        (settable_at (class_at (table_in classes.now) class) prop) }
{
    if prop.0 == 1 || prop.0 == 2 {
        return Some(Kind::I32);
    }
    let found = own_prop(classes, class, prop)?;
    Some(found.kind)
}

/// The property is a custom one of the class.
#[tactic(auto, using(crate::proofs::Props::switch_is))]
pub(crate) fn is_custom(classes: &Classes, class: u16, prop: Handle) -> bool
    ensures { result ≡ has_switch (class_at (table_in classes.now) class) prop }
{
    match own_prop(classes, class, prop) {
        Some(found) => found.cond == Cond::Custom,
        None => false,
    }
}
