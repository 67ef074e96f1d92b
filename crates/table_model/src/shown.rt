// Places of a table, as a message shows them.
use crate::Place;
use std::fmt;

impl fmt::Display for Place {
    fn fmt<W: fmt::Write>(&self, f: &mut fmt::Formatter<W>) -> fmt::Result {
        match self {
            Place::Table => f.write_str("table"),
            Place::Class { class } => write!(f, "class {class}"),
            Place::Property { class, property } => write!(f, "class {class} property {property}"),
            Place::Call { class, call } => write!(f, "class {class} call {call}"),
        }
    }
}
