// What the first bunch of a payload says of its channel.
ghost use Rattle.std.specs.Prelude.{◌≡◌};
ghost use Rattle.packet_codec.specs.Values.{bunch_of};
ghost use Rattle.incoming_channels.specs.Keeps.{flags_of};

use packet_codec::Bunch;

/// What the first bunch of a payload says of its channel.
#[derive(Clone, Copy)]
pub(crate) struct Flags {
    pub opens: bool,
    pub closes: bool,
    pub sleeps: bool,
    pub exports: bool,
}

impl Flags {
    /// Those of a bunch.
    pub fn of(b: &Bunch) -> Flags
        ensures { result ≡ flags_of (bunch_of b.now) }
    {
        Flags {
            opens: b.opens,
            closes: b.closes,
            sleeps: b.sleeps,
            exports: b.exports,
        }
    }
}
