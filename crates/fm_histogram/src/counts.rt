//! Counts of values by bounds, for both kinds of histograms.
ghost use Rattle.std.specs.Prelude.{◌≡◌, ℕ, ℤ, true, ◌+◌, ◌^◌, ◌<◌, ◌≤◌, ◌↔◌, List, [], ◌∷◌, ◌++◌, None, Err, IfOk, IfErr, OnOk, OnErr, length, ◌⊎◌, ◌≢◌, IsTrue, slice_index_or, slice_set};
ghost use Rattle.fm_raw.specs.declared.error.MetricError.TheVariants.{Memory, CountFull, UnequalBounds};
ghost use Rattle.fm_raw.specs.declared.bucket.bound.Bucket.{Bucket as OneBucket};
ghost use Rattle.fm_raw.specs.Bounds.{default_bounds};
ghost use Rattle.fm_histogram.specs.Histogram.{IsCounts, rises, upper_bounds, merged, merged_buckets, index};
ghost use Rattle.fm_histogram.specs.inside.Counting.{one_more};

use crate::index::index_of;
use fm_raw::bucket::{Bound, Bucket, default_buckets};
use fm_raw::{Fixed, MetricError};
use std::alloc::Global;
use std::marker::{Brand, Model};
use std::sync::ledger::Blank;

/// Counts of values by bounds, how many values there are, and their sum in millionths.
#[derive(Clone)]
pub struct Counts {
    // The bounds of all buckets but the last, side by side: a search is fastest there.
    bounds: Vec<Fixed>,
    buckets: Vec<Bucket>,
    count: u64,
    sum: i128,
}

impl Drop for Counts {
    fn drop(self) {
        let Counts {
            bounds: _,
            buckets: _,
            count: _,
            sum: _,
        } = self;
    }
}

impl Model for Counts {
    ghost use Rattle.fm_histogram.specs.Histogram.{Histogram};
    ghost use Rattle.fm_histogram.specs.inside.Counting.{IsOfSome};

    ghost Value = { Histogram };

    ghost view = { λ s. record { buckets = s.buckets.items; count = s.count; sum = s.sum } };

    ghost invariant = { λ s.
        IsOfSome s.bounds.items
        (record { buckets = s.buckets.items; count = s.count; sum = s.sum }) };
}

impl Counts {
    // Counts of no values. The bounds rise.
    pub(crate) fn new(alloc: Global, rising: Vec<Fixed>) -> Result<Counts, MetricError>
        requires { rises None rising.items ≡ true }
        ensures bounds { IfOk result (IsCounts rising.items []) }
        ensures only_memory { IfErr result (λ e. e ≡ Memory) }
    {
        let mut buckets = Vec::with_capacity(alloc, rising.len() + 1)?;
        for bound in &rising {
            buckets.push_reserved(Bucket::new(Bound::Finite(*bound), 0));
        }
        buckets.push_reserved(Bucket::new(Bound::Inf, 0));
        Ok(Counts {
            bounds: rising,
            buckets,
            count: 0,
            sum: 0,
        })
    }

    // Counts of no values, by the bounds that suit most durations.
    pub(crate) fn with_default_bounds(alloc: Global) -> Result<Counts, MetricError>
        ensures bounds { IfOk result (IsCounts default_bounds []) }
        ensures only_memory { IfErr result (λ e. e ≡ Memory) }
    {
        Counts::new(alloc, default_buckets().to_vec(alloc)?)
    }

    pub(crate) fn buckets(&self) -> &[Bucket]
        ensures { result.now ≡ self.now.buckets }
    {
        self.buckets.as_slice()
    }

    pub(crate) fn count(&self) -> u64
        ensures { result ≡ self.now.count }
    {
        self.count
    }

    pub(crate) fn sum(&self) -> i128
        ensures { result ≡ self.now.sum }
    {
        self.sum
    }

    // The index of the bucket in which a value lies.
    pub(crate) fn index_of(&self, value: Fixed) -> usize
        ensures { result ≡ index value self.now.buckets }
    {
        index_of::<Brand>(self.bounds.as_slice(), value, Blank::new(1))
    }

    // Counts one value more.
    pub(crate) fn add(&mut self, value: Fixed) -> Result<(), MetricError>
        ensures counted { OnOk result
            ((bounds xs : List ℤ)
            → IsCounts bounds xs self.old → IsCounts bounds (xs ++ value ∷ []) self.new) }
        ensures full { (result ≡ Err CountFull) ↔ (self.old.count + 1 ≡ 2 ^ 64) }
        ensures only_full { IfErr result (λ e. e ≡ CountFull) }
        ensures count { OnOk result (self.new.count ≡ self.old.count + 1) }
        ensures few { OnOk result (self.new.count < 2 ^ 64) }
        ensures kept { OnErr result (self.new ≡ self.old) }
    {
        let Some(count) = self.count.checked_add(1) else {
            return Err(MetricError::CountFull);
        };
        let index = self.index_of(value);
        count_at(self.buckets.as_mut_slice(), index);
        self.count = count;
        self.sum += i128::from(value.millionths());
        Ok(())
    }

    // Adds what the other counts, if it has the same bounds.
    pub(crate) fn merge(&mut self, other: &Counts) -> Result<(), MetricError>
        ensures merged { OnOk result (self.new ≡ merged self.old other.now) }
        ensures same { OnOk result
            (upper_bounds self.old.buckets ≡ upper_bounds other.now.buckets) }
        ensures few { OnOk result (self.new.count < 2 ^ 64) }
        ensures unequal { (result ≡ Err UnequalBounds)
            ↔ (upper_bounds self.old.buckets ≢ upper_bounds other.now.buckets) }
        ensures full { (result ≡ Err CountFull)
            ↔ ((upper_bounds self.old.buckets ≡ upper_bounds other.now.buckets)
            × (2 ^ 64 ≤ self.old.count + other.now.count)) }
        ensures only { IfErr result (λ e. (e ≡ UnequalBounds) ⊎ (e ≡ CountFull)) }
        ensures kept { OnErr result (self.new ≡ self.old) }
    {
        if !same_bounds(self.buckets.as_slice(), other.buckets.as_slice()) {
            return Err(MetricError::UnequalBounds);
        }
        let Some(count) = self.count.checked_add(other.count) else {
            return Err(MetricError::CountFull);
        };
        add_counts(self.buckets.as_mut_slice(), other.buckets.as_slice());
        self.count = count;
        self.sum += other.sum;
        Ok(())
    }
}

// Counts one value more in the bucket at the index.
fn count_at(buckets: &mut [Bucket], index: usize)
    requires inside { index < length buckets.old }
    requires small { (d : OneBucket) → (slice_index_or buckets.old index d).count + 1 < 2 ^ 64 }
    ensures { (d : OneBucket)
        → buckets.new ≡ slice_set buckets.old index
        (one_more (slice_index_or buckets.old index d)) }
{
    if buckets[index].inc().is_err() {
        unreachable!()
    }
}

fn same_bounds(left: &[Bucket], right: &[Bucket]) -> bool
    ensures { IsTrue result ↔ (upper_bounds left.now ≡ upper_bounds right.now) }
{
    if left.len() != right.len() {
        return false;
    }
    for i in 0..left.len() {
        if left[i].upper_bound() != right[i].upper_bound() {
            return false;
        }
    }
    true
}

// Adds the other's count in each bucket.
fn add_counts(buckets: &mut [Bucket], other: &[Bucket])
    requires len { length buckets.old ≡ length other.now }
    requires fits { (i : ℕ) (d e : OneBucket) → i < length other.now
        → (slice_index_or buckets.old i d).count + (slice_index_or other.now i e).count < 2 ^ 64 }
    ensures { buckets.new ≡ merged_buckets buckets.old other.now }
{
    for i in 0..other.len() {
        let bucket = &mut buckets[i];
        *bucket = Bucket::new(bucket.upper_bound(), bucket.count() + other[i].count());
    }
}
