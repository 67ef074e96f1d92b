// Properties by their handles, with values.
use crate::value::Value;
use net_core::{Handle, Items};

/// A property by its handle, with a value.
#[derive(Clone, Copy, Debug, PartialEq, Eq)]
pub struct Pair {
    pub prop: Handle,
    pub value: Value,
}

/// A list of values by handle.
pub type PairList = Items<Pair>;
