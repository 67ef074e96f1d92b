// An item that may be sent again.
ghost use Rattle.std.specs.Prelude.{◌≡◌, Some, if◌then◌else◌};
ghost use Rattle.reliable_window.specs.Out.{slot_due, slot_arrived, told_by};

/// An item, the packet that carried it last, and whether that packet arrived, if it is known.
#[derive(Drop)]
pub struct Slot<T> {
    pub item: T,
    pub carrier: Option<u64>,
    pub fate: Option<bool>,
}

impl<T> Slot<T> {
    /// It was never carried, or its packet is lost.
    pub fn is_due(&self) -> bool
        ensures { result ≡ slot_due self.now }
    {
        self.carrier.is_none() || self.fate == Some(false)
    }

    /// Its packet arrived.
    pub fn has_arrived(&self) -> bool
        ensures { result ≡ slot_arrived self.now }
    {
        self.carrier.is_some() && self.fate == Some(true)
    }

    /// Whether its packet arrived, where the move to a packet tells that and it wasn't known
    /// before.
    pub fn told_by(&self, to: u64) -> Option<bool>
        ensures { result ≡ told_by to self.now }
    {
        match (self.carrier, self.fate) {
            (Some(packet), None) if packet <= to => Some(packet == to),
            _ => None,
        }
    }
}
