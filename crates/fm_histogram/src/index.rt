//! The bucket of a value.
ghost use Rattle.std.specs.Prelude.{◌≡◌, ℕ, ℤ, ◌≤◌, ◌<◌, length, int_lt, nat_lt, slice_index_or};
ghost use Rattle.fm_histogram.specs.Histogram.{index_among};

use crate::steps::Steps;
use fm_raw::Fixed;
use fm_raw::bucket::{Probe, find_bucket};
use std::sync::ledger::{Blank, Ledger};

// Whether a bound is at least the value. Each call is one comparison of the two, and one step.
#[derive(Drop)]
struct BoundsProbe<'a, L: Ledger> {
    bounds: &'a [Fixed],
    value: Fixed,
    steps: Steps<L>,
    ghost within: { index_among value bounds.now ≤ length bounds.now },
    ghost rising: { (i : ℕ) (d : ℤ) → i < length bounds.now
        → int_lt (slice_index_or bounds.now i d) value ≡ nat_lt i (index_among value bounds.now) },
}

impl<'a, L: Ledger> Probe for BoundsProbe<'a, L> {
    ghost first = { λ p. index_among p.value p.bounds.now };

    ghost asked = { λ p. p.steps };

    fn reaches(&mut self, i: usize) -> bool {
        self.steps.tick();
        match self.bounds.get(i) {
            Some(bound) => *bound >= self.value,
            None => true,
        }
    }
}

/// The index of the value's bucket, given the rising bounds of all buckets but the last.
pub(crate) fn index_of<L: Ledger>(bounds: &[Fixed], value: Fixed, blank: Blank) -> usize
    requires name { blank.name ≡ L.name }
    requires parts { blank.parts ≡ L.parts }
    requires some { 0 < blank.parts }
    requires within { index_among value bounds.now ≤ length bounds.now }
    requires rising { (i : ℕ) (d : ℤ) → i < length bounds.now
        → int_lt (slice_index_or bounds.now i d) value ≡ nat_lt i (index_among value bounds.now) }
    ensures { result ≡ index_among value bounds.now }
{
    let mut probe = BoundsProbe {
        bounds,
        value,
        steps: Steps::<L>::new(blank),
    };
    find_bucket(bounds.len(), &mut probe)
}
