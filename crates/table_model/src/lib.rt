// The definitions of a class table's file: which JSON values are class tables, which classes each
// one has, and why any other is refused.
//
// It has definitions and laws above them, and no code but how a place is shown. It stands on
// `protocol_model` for what a class is, on `script_model` for how numbers are spelled in decimal,
// and on `serde_json`'s own meaning of the bytes for what is JSON.
//
//     {"classes":[{"name":"Pawn", .., "properties":[{..}], "calls":[{..}]}]}
//      table       class 1            class 1 property 1   class 1 call 1
#![tactic(auto)]

pub mod laws;
mod shown;

/// Where in a class table a rule is broken. Classes, and each class's own properties and calls,
/// are counted from 1.
#[derive(Clone, Copy, Debug, PartialEq, Eq)]
pub enum Place {
    Table,
    Class { class: u32 },
    Property { class: u32, property: u32 },
    Call { class: u32, call: u32 },
}

/// The rule of a class table that is broken.
#[derive(Clone, Copy, Debug, PartialEq, Eq)]
pub enum TableWhy {
    /// The file has over 1,000,000 bytes.
    TooLong,
    /// The file is no JSON.
    Json,
    /// An object hasn't exactly its keys, or a value is of the wrong kind.
    Shape,
    /// A number or a count is out of range.
    Range,
    /// A name or a path is misspelt.
    Name,
    /// A name or a path is there already.
    Twice,
    /// There is no earlier class of that name.
    Parent,
    /// There is no such type, condition, kind of call or relevancy.
    BadType,
    /// The class has too many handles or calls, or there are too many segments.
    TooMany,
    /// A call's arguments may take too many bits.
    TooBig,
}
