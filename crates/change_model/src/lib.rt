// The definitions of change lists: the samples of an actor's values, tick by tick, and which
// handles differed from the sample before since a given tick. One list serves all connections: each
// asks for what changed since it was last served, in place of comparing all values.
//
//     tick     1    2    3    4
//     value    1    2    1    1      newest first: (4, [1]) ∷ (3, [1]) ∷ (2, [2]) ∷ (1, [1]) ∷ []
//     noted    x    x    x    -      due for who was served last in tick 2 or before
//
// It has definitions, laws about them and no code. It stands on `protocol_model` alone. It promises
// that a first sample notes each value, that a sample with the same values notes nothing, that a
// value that goes back is noted again, and that changes ascend by handle. It does not say when an
// actor is sampled, nor which values a connection may see.
//
// A value that keeps the last sample and a tick for each value cites it so:
//
//     pub fn since(&self, tick: u64) -> Vec<Change>
//         ensures { (samples : List Sample)
//             → Keeps self.now samples → result ≡ changes_since samples tick }
#![tactic(auto)]

ghost use Rattle.std.specs.Prelude.{◌≡◌, ◌∷◌, [], ◌<◌, ℕ, ℤ, List, Some, map, true, false};
ghost use Rattle.std.specs.List.Sorted.{IsStrictlyIncreasing};
ghost use Rattle.change_model.specs.Changes.{
  Change,
  Sample,
  sampled_value,
  is_noted,
  noted_tick,
  changes_since,
};

/// Nothing changed of an actor that was never sampled, and each value of a first sample is noted.
pub fn first_samples_note_all()
    ensures none { (tick : ℕ) → changes_since [] tick ≡ [] }
    ensures first { (sample : Sample) (i : ℕ) → is_noted sample [] i ≡ true }
{}

/// A sample with the same values notes nothing: of each value the tick noted stays the same.
#[tactic(auto, using(crate::proofs::Noting::same_keeps_tick, crate::proofs::Noting::same_changes))]
pub fn same_values_note_nothing()
    ensures noted { (now before : Sample) (samples : List Sample) (i : ℕ)
        → sampled_value now i ≡ sampled_value before i
        → is_noted now (before ∷ samples) i ≡ false }
    ensures tick { (now before : Sample) (samples : List Sample) (tick i : ℕ)
        → sampled_value now i ≡ sampled_value before i
        → noted_tick (now ∷ before ∷ samples) tick i ≡ noted_tick (before ∷ samples) tick i }
    ensures changes { (at tick : ℕ) (before : Sample) (samples : List Sample)
        → changes_since (record { tick = at; values = before.values } ∷ before ∷ samples) tick
        ≡ changes_since (before ∷ samples) tick }
{}

/// A value that differs from the sample before is noted at the tick of its sample, also where an
/// earlier sample had it.
pub fn other_values_are_noted()
    ensures { (now : Sample) (samples : List Sample) (tick i : ℕ)
        → is_noted now samples i ≡ true
        → tick < now.tick
        → noted_tick (now ∷ samples) tick i ≡ Some now.tick }
{}

/// The changes ascend by handle: each handle is below the next.
#[tactic(auto, using(crate::proofs::Ascending::changes_ascend))]
pub fn changes_ascend_by_handle()
    ensures { (samples : List Sample) (tick : ℕ)
        → IsStrictlyIncreasing (map (λ (c : Change). c.handle) (changes_since samples tick)) }
{}
