// A text that is written as its numbers are drawn.
ghost use Rattle.std.specs.Prelude.{◌≡◌, ◌≤◌, ◌<◌, [], string_bytes};
ghost use Rattle.rand_pcg.specs.Lcg.{started, increment_of};
ghost use Rattle.rand_pcg.specs.Pcg.{multiplier_64};
ghost use Rattle.sample_script.specs.SampleScript.{draw, place, actor};

use rand_core::utils::NextWord;
use rand_pcg::Pcg32;
use std::alloc::Global;

/// The text so far, and the generator of the numbers to come.
#[derive(Drop)]
pub(crate) struct Sample {
    pub text: String,
    pub numbers: Pcg32,
}

impl Sample {
    /// Before the first line.
    pub(crate) fn new(alloc: Global, ticks: u64) -> Sample
        ensures text { string_bytes result.text ≡ [] }
        ensures numbers { result.numbers ≡ started 64 multiplier_64 ticks (increment_of 64 1) }
    {
        Sample {
            text: String::new(alloc),
            numbers: Pcg32::new(ticks, 1),
        }
    }

    /// The next number's remainder.
    pub(crate) fn draw(&mut self, k: u32) -> u32
        requires { 1 ≤ k }
        ensures drawn { result ≡ (draw k self.old.numbers).0 }
        ensures below { result < k }
        ensures numbers { self.new.numbers ≡ (draw k self.old.numbers).1 }
        ensures text { self.new.text ≡ self.old.text }
    {
        self.numbers.next_word() % k
    }

    /// A coordinate from -2,000 to 2,000.
    pub(crate) fn place(&mut self) -> i32
        ensures drawn { result ≡ (place self.old.numbers).0 }
        ensures numbers { self.new.numbers ≡ (place self.old.numbers).1 }
        ensures text { self.new.text ≡ self.old.text }
    {
        let n = self.draw(4001);
        n as i32 - 2000
    }

    /// An actor from 1 to 200.
    pub(crate) fn actor(&mut self) -> u32
        ensures drawn { result ≡ (actor self.old.numbers).0 }
        ensures numbers { self.new.numbers ≡ (actor self.old.numbers).1 }
        ensures text { self.new.text ≡ self.old.text }
    {
        self.draw(200) + 1
    }
}
