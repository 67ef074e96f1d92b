// Classes and their paths.
use class_members::{CallList, PropList};
use net_core::{Guid, GuidList, Items, Text};
use protocol_model::Reach;

/// A class of a table.
///
/// Its properties and calls hold the inherited ones first, so that handle h, from 4 on, is the
/// `(h - 3)`-th property, and call n, from 1 on, the n-th call. Its path lists the guids of its
/// segments, outermost first. Its parent is a place in the table, counted from 0.
#[derive(Debug, Drop)]
pub struct Class {
    pub name: Text,
    pub path: GuidList,
    pub parent: Option<u16>,
    pub reach: Reach,
    pub priority: u8,
    pub props: PropList,
    pub calls: CallList,
}

/// A list of classes.
pub type ClassList = Items<Class>;

/// One step of a path: a name under the guid of its outer, which is 0 for the outermost.
#[derive(Debug, Drop)]
pub struct Segment {
    pub outer: Guid,
    pub name: Text,
}

/// A list of segments.
pub type SegmentList = Items<Segment>;
