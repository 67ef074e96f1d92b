// One handle of an actor that is open.
ghost use Rattle.std.specs.Prelude.{◌≡◌, ◌≤◌, ◌<◌, ◌+◌, ◌==◌, ◌||◌, ◌&&◌, if◌then◌else◌, not, ℕ, List, true, false, unwrap_or, option_map, slice_get};
ghost use Rattle.std.specs.Ordering.{int_eq};
ghost use Rattle.protocol_model.specs.Value as Model;
ghost use Rattle.class_layout.specs.Tables.{class_of};
ghost use Rattle.class_layout.specs.declared.class.Segment.{Segment as SegmentSpec};
ghost use Rattle.value_codec.specs.Values.{whole_of};
ghost use Rattle.sender_records.specs.Handles.{no_handle, is_due_handle, handle_opened, handle_carried, handle_changed, handle_compared, handle_moved, is_moved, is_updatable_in};

use class_layout::{Class, Value};
use net_core::Handle;
use rep_conditions::{Cond, updatable as may_update};

/// The last bunch of the present opening that held a handle, and what is known of it.
#[derive(Clone, Copy, Debug)]
pub struct HandleRecord {
    /// The open or an update held it.
    pub carried: bool,
    /// The packet of that update, 0 for the open.
    pub packet: u64,
    /// The value that it had there.
    pub value: i64,
    /// That packet is lost.
    pub lost: bool,
    /// That packet has arrived.
    pub arrived: bool,
    /// The tick of the last comparison at which it was updatable, 0 where there is none.
    pub updatable_at: u64,
    /// It is to be compared, or was due when it was compared last.
    pub marked: bool,
}

impl HandleRecord {
    /// No bunch held it.
    pub(crate) fn new() -> HandleRecord
        ensures { result ≡ no_handle }
    {
        HandleRecord {
            carried: false,
            packet: 0,
            value: 0,
            lost: false,
            arrived: false,
            updatable_at: 0,
            marked: false,
        }
    }

    /// It is due with this value: no bunch held it, its packet is lost, or the value is another.
    pub(crate) fn is_due(&self, value: Value) -> bool
        ensures { result ≡ is_due_handle self.now (whole_of value) }
    {
        !self.carried || self.lost || self.value != whole(value)
    }

    /// It was carried with this value, and that has arrived; `opened` says whether the open has.
    pub(crate) fn has_arrived(&self, opened: bool, value: Value) -> bool
        ensures { result ≡ (self.now.carried
            && ((if self.now.packet == 0 then opened else self.now.arrived)
            && int_eq self.now.value (whole_of value))) }
    {
        let arrived = if self.packet == 0 {
            opened
        } else {
            self.arrived
        };
        self.carried && arrived && self.value == whole(value)
    }

    /// As the open of this tick carries it.
    pub(crate) fn opened(tick: u64, updatable: bool, value: Value) -> HandleRecord
        ensures { result ≡ handle_opened tick updatable no_handle (whole_of value) }
    {
        HandleRecord {
            carried: true,
            packet: 0,
            value: whole(value),
            lost: false,
            arrived: false,
            updatable_at: if updatable { tick } else { 0 },
            marked: false,
        }
    }

    /// An update in this packet carries it.
    pub(crate) fn carries(&mut self, packet: u64, value: Value)
        ensures { self.new ≡ handle_carried packet self.old (whole_of value) }
    {
        self.carried = true;
        self.packet = packet;
        self.value = whole(value);
        self.lost = false;
        self.arrived = false;
        self.marked = false;
    }

    /// It is compared in this tick, where it is updatable; `last` is the tick of the last
    /// comparison.
    pub(crate) fn compares(
        &mut self,
        last: u64,
        tick: u64,
        updatable: bool,
        role: bool,
        value: Value,
    )
        ensures { self.new ≡ handle_compared last tick updatable role self.old (whole_of value) }
    {
        if updatable {
            let candidate = self.marked || self.updatable_at != last || role;
            self.marked = candidate && self.is_due(value);
            self.updatable_at = tick;
        }
    }

    /// Packet `to` arrived, and those above `from` and below it are lost.
    pub(crate) fn moves(&mut self, from: u64, to: u64)
        ensures { self.new ≡ handle_moved from to self.old }
    {
        if self.packet > from && self.packet <= to {
            let arrived = self.packet == to;
            self.arrived = arrived;
            self.lost = !arrived;
            self.marked = self.marked || !arrived;
        }
    }
}

/// A value as a whole number.
pub(crate) fn whole(value: Value) -> i64
    ensures { result ≡ whole_of value }
{
    match value {
        Value::Bool(b) => b as i64,
        Value::U8(n) => n as i64,
        Value::I32(z) => z as i64,
        Value::U32(n) => n as i64,
        Value::I64(z) => z,
        Value::Enum(n) => n as i64,
        Value::Packed(n) => n as i64,
        Value::Guid(n) => n as i64,
    }
}

/// An update to this connection may hold the handle of an actor of this class, which is visible.
pub fn is_updatable(class: &Class, owns: bool, prop: Handle) -> bool
    ensures { (segments : List SegmentSpec) → result
        ≡ is_updatable_in (class_of segments class.now) owns prop }
{
    match prop.0 {
        0 => false,
        1 | 2 | 3 => may_update(Cond::Always, owns, true),
        h => match class.props.get(h as usize - 4) {
            Some(p) => may_update(p.cond, owns, true),
            None => false,
        },
    }
}
