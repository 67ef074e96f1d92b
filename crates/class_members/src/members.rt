// Properties and calls.
ghost use Rattle.std.specs.Prelude.{◌≡◌, IfOk};

use net_core::{Items, Memory, Text};
use protocol_model::{Cond, Kind, Way};
use std::alloc::Global;
use value_codec::Value;

/// A property of a class: its initial value is one of its kind.
#[derive(Debug, Drop)]
pub struct Prop {
    pub name: Text,
    pub kind: Kind,
    pub cond: Cond,
    pub init: Value,
}

/// A list of properties.
pub type PropList = Items<Prop>;

/// A list of kinds.
pub type KindList = Items<Kind>;

/// A remote procedure call of a class.
#[derive(Debug, Drop)]
pub struct Call {
    pub name: Text,
    pub way: Way,
    pub reliable: bool,
    pub args: KindList,
}

/// A list of calls.
pub type CallList = Items<Call>;

impl Prop {
    /// A copy.
    pub fn copied(&self, alloc: Global) -> Result<Prop, Memory>
        ensures { IfOk result (λ p. p ≡ self.now) }
    {
        Ok(Prop {
            name: self.name.copied(alloc)?,
            kind: self.kind,
            cond: self.cond,
            init: self.init,
        })
    }
}

impl Call {
    /// A copy.
    pub fn copied(&self, alloc: Global) -> Result<Call, Memory>
        ensures { IfOk result (λ c. c ≡ self.now) }
    {
        Ok(Call {
            name: self.name.copied(alloc)?,
            way: self.way,
            reliable: self.reliable,
            args: self.args.copied(alloc)?,
        })
    }
}

/// Copies of properties.
pub fn copied_props(alloc: Global, props: &PropList) -> Result<PropList, Memory>
    ensures { IfOk result (λ ps. ps ≡ props.now) }
{
    let mut copies = PropList::new(alloc);
    for prop in props.as_slice() {
        copies.push(prop.copied(alloc)?)?;
    }
    Ok(copies)
}

/// Copies of calls.
pub fn copied_calls(alloc: Global, calls: &CallList) -> Result<CallList, Memory>
    ensures { IfOk result (λ cs. cs ≡ calls.now) }
{
    let mut copies = CallList::new(alloc);
    for call in calls.as_slice() {
        copies.push(call.copied(alloc)?)?;
    }
    Ok(copies)
}
