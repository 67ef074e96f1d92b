// What a payload does to its channel.
ghost use Rattle.std.specs.Prelude.{◌≡◌};
ghost use Rattle.outgoing_channels.specs.Made.{opens_of, exports_of, closes_of, sleeps_of};

/// What a payload does to its channel.
#[derive(Clone, Copy, Debug, PartialEq, Eq)]
pub enum Mark {
    /// It neither begins nor ends.
    Plain,
    /// The channel begins, maybe with names that the payload introduces.
    Opens { exports: bool },
    /// The channel ends, maybe with the actor put to sleep.
    Closes { sleeps: bool },
}

impl Mark {
    /// The channel begins.
    pub(crate) fn opens(&self) -> bool
        ensures { result ≡ opens_of self.now }
    {
        matches!(self, Mark::Opens { .. })
    }

    /// The payload introduces names.
    pub(crate) fn exports(&self) -> bool
        ensures { result ≡ exports_of self.now }
    {
        match self {
            Mark::Opens { exports } => *exports,
            _ => false,
        }
    }

    /// The channel ends.
    pub(crate) fn closes(&self) -> bool
        ensures { result ≡ closes_of self.now }
    {
        matches!(self, Mark::Closes { .. })
    }

    /// The actor is put to sleep.
    pub(crate) fn sleeps(&self) -> bool
        ensures { result ≡ sleeps_of self.now }
    {
        match self {
            Mark::Closes { sleeps } => *sleeps,
            _ => false,
        }
    }
}
