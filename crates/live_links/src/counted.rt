// Calls that are counted, some of which are to fail.
ghost use Rattle.std.specs.Prelude.{◌≡◌, ◌+◌, nat_eq};
ghost use Rattle.std.specs.List.{list_any};
ghost use Rattle.net_core.specs.Failing.{next_fails, after_call};

use std::marker::Model;

/// How many calls were made and how many failed. Those of given numbers are to fail: the first call
/// is number 1.
#[derive(Debug, Drop)]
pub(crate) struct Calls {
    failing: Vec<u64>,
    made: u64,
    faults: u64,
}

impl Model for Calls {
    ghost use Rattle.net_core.specs.Failing.{Calls as CallsSeen};

    ghost Value = { CallsSeen };

    ghost view = { λ c. record { made = c.made; faults = c.faults; failing = c.failing.items } };
}

impl Calls {
    /// No calls yet; those of these numbers are to fail.
    pub(crate) fn new(failing: Vec<u64>) -> Calls
        ensures { result ≡ record { made = 0; faults = 0; failing = failing.items } }
    {
        Calls {
            failing,
            made: 0,
            faults: 0,
        }
    }

    /// Counts a call, and tells whether it is one that is to fail.
    pub(crate) fn fails(&mut self) -> bool
        ensures answer { result ≡ next_fails self.old }
        ensures counted { self.new ≡ after_call self.old }
    {
        let fails = is_to_fail(self.made, &self.failing);
        self.made = self.made.saturating_add(1);
        if fails {
            self.faults = self.faults.saturating_add(1);
        }
        fails
    }
}

/// The call after `made` calls is one that is to fail.
fn is_to_fail(made: u64, failing: &[u64]) -> bool
    ensures { result ≡ list_any (λ n. nat_eq n (made + 1)) failing.now }
{
    match made.checked_add(1) {
        Some(number) => failing.contains(&number),
        None => false,
    }
}
