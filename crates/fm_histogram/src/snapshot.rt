//! Snapshots of histograms, and of gauge histograms.
ghost use Rattle.std.specs.Prelude.{◌≡◌, ℤ, ◌+◌, ◌^◌, ◌<◌, ◌≤◌, ◌↔◌, List, [], ◌∷◌, ◌++◌, true, false, Err, IfOk, IfErr, OnOk, OnErr, ◌⊎◌, ◌≢◌, if◌then◌else◌};
ghost use Rattle.std.specs.Option.{option_map};
ghost use Rattle.std.specs.Iterator.{IsFinite, Drains};
ghost use Rattle.fm_raw.specs.declared.error.MetricError.TheVariants.{Memory, CountFull, UnequalBounds};
ghost use Rattle.fm_raw.specs.Bounds.{default_bounds};
ghost use Rattle.fm_encoder.specs.Points.{millis, values_in};
ghost use Rattle.fm_encoder.specs.Emits.{EmitsPoints};
ghost use Rattle.fm_histogram.specs.Histogram.{IsHistogram, CountsTaken, IsBoundsOf, takes, upper_bounds, merged, index};
ghost use Rattle.fm_labels.specs.Refusals.{NoFault};

use crate::counts::Counts;
use crate::rising::rising_bounds;
use crate::sign::{NotNegative, Sign, Signed};
use fm_encoder::PointEncoder;
use fm_raw::bucket::Bucket;
use fm_raw::{EncodeError, Fixed, FixedSum, MetricError};
use std::alloc::{AllocError, Global};
use std::marker::{Model, PhantomData};
use std::time::Duration;

/// How many observed values lie in each bucket, how many there are, and their sum. The sign says whether negative values
/// and bounds are taken. Cloning takes memory.
pub struct SnapshotOf<S: Sign> {
    counts: Counts,
    sign: PhantomData<S>,
}

impl<S: Sign> Drop for SnapshotOf<S> {
    fn drop(self) {
        let SnapshotOf { counts: _, sign: _ } = self;
    }
}

/// How many observed values lie in each bucket, how many there are, and their sum.
/// Negative values are not taken. Cloning takes memory.
///
/// <!-- cut: crates/calling/src/histograms.rt -->
/// ```rust
/// pub fn merged(
///     mut all: HistogramSnapshot,
///     mine: &HistogramSnapshot,
/// ) -> Result<HistogramSnapshot, MetricError> {
///     all.merge(mine)?;
///     Ok(all)
/// }
/// ```
pub type HistogramSnapshot = SnapshotOf<NotNegative>;

/// How many observed values lie in each bucket, how many there are, and their sum.
/// Negative values and bounds are taken too. Cloning takes memory.
///
/// <!-- cut: tests/scripts/src/metrics/histograms.rt.in -->
/// ```rust
/// pub fn show_gauge_histogram<H: Wait + Drop>(
///     histogram: &GaugeHistogram<H>,
///     alloc: Global,
/// ) -> Result<String, Stop> {
///     histogram.with_snapshot(|taken| counts(alloc, taken.buckets(), taken.gcount(), taken.gsum()))
/// }
/// ```
pub type GaugeHistogramSnapshot = SnapshotOf<Signed>;

impl<S: Sign> Model for SnapshotOf<S> {
    ghost use Rattle.fm_histogram.specs.Histogram.{Histogram, CountsTaken, takes};

    ghost Value = { Histogram };

    ghost view = { λ s. s.counts };

    ghost invariant = { λ s. CountsTaken (takes S.NEGATIVE) s.counts };
}

impl<S: Sign> SnapshotOf<S> {
    /// A snapshot of no values. Its bounds are the given ones, each once and in order, and `Inf`. A histogram ignores negative
    /// bounds; a gauge histogram takes all. Fails with `Memory` if memory runs out.
    pub fn new<I: Iterator<Item = Fixed> + Drop>(
        alloc: Global,
        bounds: I,
    ) -> Result<SnapshotOf<S>, MetricError>
        requires can { I.can_next bounds }
        requires ends { IsFinite (I.remaining bounds) }
        ensures bounds { IfOk result (λ s. (given : List ℤ)
            × Drains I.next_gives bounds given
            × ((taken : List ℤ)
            × IsBoundsOf (takes S.NEGATIVE) given taken
            × IsHistogram (takes S.NEGATIVE) taken [] s)) }
        ensures only_memory { IfErr result (λ e. e ≡ Memory) }
    {
        let rising = rising_bounds(alloc, bounds, S::NEGATIVE)?;
        let counts = Counts::new(alloc, rising)?;
        Ok(SnapshotOf {
            counts,
            sign: PhantomData,
        })
    }

    // A snapshot of no values with the bounds that suit most durations.
    pub(crate) fn with_default_bounds(alloc: Global) -> Result<SnapshotOf<S>, MetricError>
        ensures bounds { IfOk result (IsHistogram (takes S.NEGATIVE) default_bounds []) }
        ensures only_memory { IfErr result (λ e. e ≡ Memory) }
    {
        let counts = Counts::with_default_bounds(alloc)?;
        Ok(SnapshotOf {
            counts,
            sign: PhantomData,
        })
    }

    /// The buckets, by rising bounds. The last one has the bound `Inf`.
    pub fn buckets(&self) -> &[Bucket]
        ensures { result.now ≡ self.now.buckets }
    {
        self.counts.buckets()
    }

    // Each snapshot counts some values, which are all taken.
    pub(crate) fn counts_taken(&self)
        ensures { CountsTaken (takes S.NEGATIVE) self.now }
    {
        let _ = &self.counts;
    }

    // The index of the bucket in which a value lies.
    pub(crate) fn index_of(&self, value: Fixed) -> usize
        ensures { result ≡ index value self.now.buckets }
    {
        self.counts.index_of(value)
    }

    // Emits the snapshot's point with this time of creation.
    pub(crate) fn encode_created(
        &self,
        created: Option<Duration>,
        points: &mut PointEncoder,
    ) -> Result<(), EncodeError>
        ensures { EmitsPoints
            (λ ps. ps ≡ S.point self.now (option_map millis created) ∷ [])
            NoFault points.old points.new result }
    {
        S::encode(&self.counts, created, points)
    }

    /// Counts a value in the first bucket whose bound is not below it. In a histogram a negative value changes nothing, which is no
    /// error. For a value that is taken it fails with `CountFull` if the count is the greatest `u64`, and then changes nothing.
    pub fn observe(&mut self, value: Fixed) -> Result<(), MetricError>
        // On success the value is counted with those before it.
        ensures counted { OnOk result
            ((bounds xs : List ℤ) → IsHistogram (takes S.NEGATIVE) bounds xs self.old
            → IsHistogram (takes S.NEGATIVE) bounds (xs ++ value ∷ []) self.new) }
        // It fails with `CountFull` alone: where the count is the greatest `u64`, and the value is taken.
        ensures full { (result ≡ Err CountFull)
            ↔ ((self.old.count + 1 ≡ 2 ^ 64) × (takes S.NEGATIVE value ≡ true)) }
        ensures only_full { IfErr result (λ e. e ≡ CountFull) }
        // A value that is taken adds one to the count. Another one changes nothing, nor does an error.
        ensures count { OnOk result
            (self.new.count ≡ self.old.count + (if takes S.NEGATIVE value then 1 else 0)) }
        ensures ignored { takes S.NEGATIVE value ≡ false → self.new ≡ self.old }
        ensures kept { OnErr result (self.new ≡ self.old) }
    {
        if !S::NEGATIVE && value < Fixed::ZERO {
            return Ok(());
        }
        self.counts.add(value)
    }

    /// Adds what the other counts. Fails with `UnequalBounds` if the bounds differ, and else with `CountFull` if the sum of both
    /// counts exceeds the greatest `u64`; then it changes nothing. It takes no memory.
    pub fn merge(&mut self, other: &SnapshotOf<S>) -> Result<(), MetricError>
        // On success the values of both are counted.
        ensures merged { OnOk result (self.new ≡ merged self.old other.now) }
        ensures histogram { OnOk result
            ((bounds xs ys : List ℤ) → IsHistogram (takes S.NEGATIVE) bounds xs self.old
            → IsHistogram (takes S.NEGATIVE) bounds ys other.now
            → IsHistogram (takes S.NEGATIVE) bounds (xs ++ ys) self.new) }
        // It fails where the bounds differ, else where the count would pass 2^64 - 1, and nowhere else.
        ensures unequal { (result ≡ Err UnequalBounds)
            ↔ (upper_bounds self.old.buckets ≢ upper_bounds other.now.buckets) }
        ensures full { (result ≡ Err CountFull)
            ↔ ((upper_bounds self.old.buckets ≡ upper_bounds other.now.buckets)
            × (2 ^ 64 ≤ self.old.count + other.now.count)) }
        ensures only { IfErr result (λ e. (e ≡ UnequalBounds) ⊎ (e ≡ CountFull)) }
        // At an error nothing changes.
        ensures kept { OnErr result (self.new ≡ self.old) }
    {
        self.counts.merge(&other.counts)
    }
}

impl HistogramSnapshot {
    /// How many values were counted: as many as the buckets have together. They are fewer than 2^64, so an encoder doesn't
    /// refuse the snapshot as `BucketOverflow`.
    pub fn count(&self) -> u64
        ensures count { result ≡ self.now.count }
        ensures all { values_in self.now.buckets ≡ self.now.count }
        ensures few { self.now.count < 2 ^ 64 }
    {
        self.counts.count()
    }

    /// The sum of the values that were counted, in millionths.
    pub fn sum(&self) -> FixedSum
        ensures { result ≡ self.now.sum }
    {
        FixedSum::from_millionths(self.counts.sum())
    }
}

impl GaugeHistogramSnapshot {
    /// How many values there are: as many as the buckets have together. They are fewer than 2^64, so an encoder doesn't
    /// refuse the snapshot as `BucketOverflow`.
    pub fn gcount(&self) -> u64
        ensures count { result ≡ self.now.count }
        ensures all { values_in self.now.buckets ≡ self.now.count }
        ensures few { self.now.count < 2 ^ 64 }
    {
        self.counts.count()
    }

    /// The sum of the values, in millionths.
    pub fn gsum(&self) -> FixedSum
        ensures { result ≡ self.now.sum }
    {
        FixedSum::from_millionths(self.counts.sum())
    }
}

impl<S: Sign> Clone for SnapshotOf<S> {
    ghost is_clone = { λ s t. t ≡ s };

    fn clone(&self) -> Result<SnapshotOf<S>, AllocError> {
        let counts = self.counts.clone()?;
        Ok(SnapshotOf {
            counts,
            sign: PhantomData,
        })
    }
}
