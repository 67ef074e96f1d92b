// Names of classes, properties and calls; one that isn't there has none.
ghost use Rattle.std.specs.Prelude.{◌≡◌};
ghost use Rattle.std.specs.Option.{option_copied};
ghost use Rattle.event_text.specs.Found.{own_at, called_at, class_name, own_name, called_name};

use class_layout::{Call, Class, Handle, Prop};

/// The class's name.
pub(crate) fn class_name<'a>(class: Option<&'a Class>) -> &'a str
    ensures { result.now ≡ class_name class.entry }
{
    match class {
        Some(class) => class.name.as_str(),
        None => "",
    }
}

// The property of a class behind x, y and role.
fn own_prop<'a>(class: Option<&'a Class>, handle: Handle) -> Option<&'a Prop>
    ensures { option_copied result ≡ own_at class.entry handle }
{
    let index = usize::from(handle.0.checked_sub(4)?);
    class?.props.get(index)
}

/// The name of the handle.
pub(crate) fn handle_name<'a>(class: Option<&'a Class>, handle: Handle) -> &'a str
    ensures { result.now ≡ own_name class.entry handle }
{
    match handle.0 {
        1 => "x",
        2 => "y",
        3 => "role",
        _ => match own_prop(class, handle) {
            Some(prop) => prop.name.as_str(),
            None => "",
        },
    }
}

// The call of a number, counted from 1.
fn call_at<'a>(class: Option<&'a Class>, number: u16) -> Option<&'a Call>
    ensures { option_copied result ≡ called_at class.entry number }
{
    let index = usize::from(number.checked_sub(1)?);
    class?.calls.get(index)
}

/// The name of the call.
pub(crate) fn call_name<'a>(class: Option<&'a Class>, number: u16) -> &'a str
    ensures { result.now ≡ called_name (called_at class.entry number) }
{
    match call_at(class, number) {
        Some(call) => call.name.as_str(),
        None => "",
    }
}
