//! Histograms and gauge histograms that threads share under a lock.
ghost use Rattle.std.specs.Prelude.{◌≡◌, [], ◌∷◌, true, Some, None, IfOk, IfErr};
ghost use Rattle.std.specs.Option.{option_map};
ghost use Rattle.std.specs.Iterator.{IsFinite};
ghost use Rattle.std.specs.Arc.{arc_value};
ghost use Rattle.std.specs.Fn.{FnOnceTakesAt, FnOnceReturnsAt};
ghost use Rattle.fm_raw.specs.declared.error.MetricError.TheVariants.{Memory, CountFull};
ghost use Rattle.fm_encoder.specs.Points.{millis};
ghost use Rattle.fm_histogram.specs.Histogram.{Histogram as Counted, CountsTaken, IsHistogram, takes, is_taken, takes_all};
ghost use Rattle.fm_raw.specs.Bounds.{default_bounds};
ghost use Rattle.fm_histogram.specs.Shown.{alone};
ghost use Rattle.fm_histogram.specs.Shared.{histogram_created};
ghost use Rattle.fm_histogram.specs.Observing.{ObservesLocked, seconds_of};

use crate::sign::{NotNegative, Sign, Signed};
use crate::snapshot::{GaugeHistogramSnapshot, HistogramSnapshot, SnapshotOf};
use fm_encoder::{EncodeMetric, EncodePoint, MetricEncoder, PointEncoder};
use fm_raw::{EncodeError, Fixed, MetricError, MetricType, TryDefault, TypedMetric};
use std::alloc::{AllocError, Global};
use std::fmt::{self, Debug, Formatter};
use std::sync::{Arc, Mutex, Wait};
use std::time::Duration;

// What the clones of a histogram share.
#[derive(Drop)]
struct Locked<S: Sign> {
    snapshot: Mutex<SnapshotOf<S>>,
    created: Option<Duration>,
}

/// How many observed values lie in each bucket, how many there are, and their sum, which its clones share under a lock.
/// The sign says whether negative values and bounds are taken.
///
/// A call that observes, reads or encodes waits while another thread has the lock. Making one, cloning and encoding take
/// memory.
pub struct HistogramOf<S: Sign, H: Wait> {
    locked: Arc<Locked<S>, Global>,
    wait: H,
}

impl<S: Sign, H: Wait + Drop> Drop for HistogramOf<S, H> {
    fn drop(self) {
        let HistogramOf { locked: _, wait: _ } = self;
    }
}

/// How many observed values lie in each bucket, how many there are, and their sum, which its clones share under a lock.
/// Negative values are not taken.
///
/// A call that observes, reads or encodes waits while another thread has the lock. Making one, cloning and encoding take
/// memory.
///
/// <!-- cut: crates/calling/src/histograms.rt -->
/// ```rust
/// let bounds = [
///     Fixed::from_millionths(10_000),
///     Fixed::from_millionths(100_000),
///     Fixed::from_millionths(1_000_000),
/// ];
/// let durations = Histogram::new(wait, alloc, bounds.into_iter())?;
/// durations.observe(Fixed::from_millionths(250_000))?;
/// ```
pub type Histogram<H> = HistogramOf<NotNegative, H>;

/// How many current values lie in each bucket, how many there are, and their sum, which its clones share under a lock.
/// Negative values and bounds are taken too.
///
/// A call that observes, reads or encodes waits while another thread has the lock. Making one, cloning and encoding take
/// memory.
///
/// <!-- cut: tests/scripts/src/metrics/histograms.rt.in -->
/// ```rust
/// pub fn make_gauge_histogram<H: Wait + Drop>(
///     wait: H,
///     alloc: Global,
///     bounds: &Vec<Fixed>,
/// ) -> Result<GaugeHistogram<H>, MetricError> {
///     let bounds = bounds.clone()?.into_iter();
///     GaugeHistogram::new(wait, alloc, bounds)
/// }
/// ```
pub type GaugeHistogram<H> = HistogramOf<Signed, H>;

// A duration in seconds. One that is too long is as long as a number can say.
fn seconds_of(duration: Duration) -> Fixed
    ensures { result ≡ seconds_of duration }
{
    match Fixed::from_duration(duration) {
        Some(seconds) => seconds,
        None => Fixed::from_millionths(i64::MAX),
    }
}

impl<S: Sign, H: Wait + Drop> HistogramOf<S, H> {
    fn from_snapshot(
        wait: H,
        alloc: Global,
        snapshot: SnapshotOf<S>,
        created: Option<Duration>,
    ) -> Result<HistogramOf<S, H>, MetricError>
        ensures created { IfOk result (λ h. histogram_created h ≡ created) }
        ensures only_memory { IfErr result (λ e. e ≡ Memory) }
    {
        let snapshot = Mutex::new(snapshot);
        let locked = Arc::new(alloc, Locked { snapshot, created })?;
        Ok(HistogramOf { locked, wait })
    }

    /// A histogram of no values, without a time of creation. Its bounds are the given ones, each once and in order, and `Inf`. A
    /// histogram ignores negative bounds; a gauge histogram takes all. Fails with `Memory` if memory runs out.
    pub fn new<I: Iterator<Item = Fixed> + Drop>(
        wait: H,
        alloc: Global,
        bounds: I,
    ) -> Result<HistogramOf<S, H>, MetricError>
        requires can { I.can_next bounds }
        requires ends { IsFinite (I.remaining bounds) }
        ensures created { IfOk result (λ h. histogram_created h ≡ None) }
        ensures only_memory { IfErr result (λ e. e ≡ Memory) }
    {
        HistogramOf::from_snapshot(wait, alloc, SnapshotOf::new(alloc, bounds)?, None)
    }
}

impl<S: Sign, H: Wait> HistogramOf<S, H> {
    /// Counts a value in the first bucket whose bound is not below it. In a histogram a negative value changes nothing, which is no
    /// error. For a value that is taken it fails with `CountFull` if the count is the greatest `u64`, and then changes nothing.
    pub fn observe(&self, value: Fixed) -> Result<(), MetricError>
        ensures observes { ObservesLocked (takes S.NEGATIVE) value result }
        ensures refused { IfErr result (λ e. (e ≡ CountFull) × (takes S.NEGATIVE value ≡ true)) }
    {
        let mut guard = self.locked.snapshot.lock(&self.wait);
        let snapshot: &mut SnapshotOf<S> = &mut guard;
        snapshot.counts_taken();
        snapshot.observe(value)
    }
}

impl<H: Wait + Drop> Histogram<H> {
    /// Like `new`, created at this time since the Unix epoch, which is written in whole milliseconds.
    pub fn with_created<I: Iterator<Item = Fixed> + Drop>(
        wait: H,
        alloc: Global,
        bounds: I,
        created: Duration,
    ) -> Result<Histogram<H>, MetricError>
        requires can { I.can_next bounds }
        requires ends { IsFinite (I.remaining bounds) }
        ensures created { IfOk result (λ h. histogram_created h ≡ Some created) }
        ensures only_memory { IfErr result (λ e. e ≡ Memory) }
    {
        let snapshot = SnapshotOf::new(alloc, bounds)?;
        HistogramOf::from_snapshot(wait, alloc, snapshot, Some(created))
    }
}

impl<H: Wait> Histogram<H> {
    /// Counts a duration in seconds, with its whole microseconds. One that is longer than 292,000 years counts as that. It fails with
    /// `CountFull` as `observe` does.
    pub fn observe_duration(&self, duration: Duration) -> Result<(), MetricError>
        ensures observes { ObservesLocked is_taken (seconds_of duration) result }
        ensures refused { IfErr result (λ e. e ≡ CountFull) }
    {
        self.observe(seconds_of(duration))
    }

    /// Calls `f` with what was counted so far, under the lock, and returns its result. The snapshot has fewer than 2^64 values,
    /// and no value or bound of it is negative. The lock is a `Mutex`, with which `observe` is fastest: the calls of one
    /// histogram run one after another. `f` must not use the same histogram: it would wait for ever.
    pub fn with_snapshot<R, F: FnOnce(&HistogramSnapshot) -> R>(&self, f: F) -> R
        requires { (snapshot : _) → CountsTaken is_taken snapshot → FnOnceTakesAt F.FnOnce f snapshot }
        ensures { (snapshot : _) × CountsTaken is_taken snapshot × FnOnceReturnsAt F.FnOnce f snapshot result }
    {
        let guard = self.locked.snapshot.lock(&self.wait);
        let snapshot: &HistogramSnapshot = &guard;
        snapshot.counts_taken();
        f(snapshot)
    }

    /// When the histogram was created, since the Unix epoch, if it is known.
    pub fn created(&self) -> Option<Duration>
        ensures { result ≡ histogram_created self.now }
    {
        self.locked.created
    }
}

impl<H: Wait> GaugeHistogram<H> {
    /// Calls `f` with what was counted so far, as a histogram does: fewer than 2^64 values, which may be negative.
    pub fn with_snapshot<R, F: FnOnce(&GaugeHistogramSnapshot) -> R>(&self, f: F) -> R
        requires { (snapshot : _) → CountsTaken takes_all snapshot → FnOnceTakesAt F.FnOnce f snapshot }
        ensures { (snapshot : _) × CountsTaken takes_all snapshot × FnOnceReturnsAt F.FnOnce f snapshot result }
    {
        let guard = self.locked.snapshot.lock(&self.wait);
        let snapshot: &GaugeHistogramSnapshot = &guard;
        snapshot.counts_taken();
        f(snapshot)
    }
}

/// The histogram of no values with the default bounds, without a time of creation.
impl<S: Sign, H: Wait + Drop> TryDefault<H> for HistogramOf<S, H> {
    ghost is_default = { λ h. histogram_created h ≡ None };

    fn try_default(wait: H, alloc: Global) -> Result<HistogramOf<S, H>, MetricError> {
        let snapshot = SnapshotOf::with_default_bounds(alloc)?;
        HistogramOf::from_snapshot(wait, alloc, snapshot, None)
    }
}

/// The snapshot of no values with the default bounds.
impl<S: Sign, H: Wait + Drop> TryDefault<H> for SnapshotOf<S> {
    ghost is_default = { IsHistogram (takes S.NEGATIVE) default_bounds [] };

    fn try_default(_wait: H, alloc: Global) -> Result<SnapshotOf<S>, MetricError> {
        SnapshotOf::with_default_bounds(alloc)
    }
}

/// Another handle of the same histogram. Cloning takes memory, and fails if memory runs out.
impl<S: Sign, H: Wait + Clone> Clone for HistogramOf<S, H> {
    ghost is_clone = { λ h k. arc_value k.locked ≡ arc_value h.locked };

    fn clone(&self) -> Result<HistogramOf<S, H>, AllocError> {
        let locked = self.locked.clone()?;
        let wait = self.wait.clone()?;
        Ok(HistogramOf { locked, wait })
    }
}

/// Shows the time of creation, but not the counts, since the lock protects them.
impl<H: Wait> Debug for Histogram<H> {
    fn fmt<W: fmt::Write>(&self, f: &mut Formatter<W>) -> fmt::Result {
        f.debug_struct("Histogram")
            .field("created", &self.created())
            .finish_non_exhaustive()
    }
}

/// Shows the name of the type only, since the lock protects the counts.
impl<H: Wait> Debug for GaugeHistogram<H> {
    fn fmt<W: fmt::Write>(&self, f: &mut Formatter<W>) -> fmt::Result {
        f.debug_struct("GaugeHistogram").finish_non_exhaustive()
    }
}

impl<S: Sign, H: Wait> TypedMetric for HistogramOf<S, H> {
    ghost TYPE = { S.TYPE };

    const TYPE: MetricType = S::TYPE;
}

/// What was counted so far: the histogram of some values that are all taken, with bounds that are taken.
impl<S: Sign, H: Wait> EncodePoint for HistogramOf<S, H> {
    ghost points = { λ h ps. (s : Counted)
        × CountsTaken (takes S.NEGATIVE) s
        × (ps ≡ S.point s (option_map millis (histogram_created h)) ∷ []) };

    fn encode(&self, points: &mut PointEncoder) -> Result<(), EncodeError> {
        let guard = self.locked.snapshot.lock(&self.wait);
        let snapshot: &SnapshotOf<S> = &guard;
        snapshot.counts_taken();
        snapshot.encode_created(self.locked.created, points)
    }
}

impl<S: Sign + Send + Sync, H: Wait + Send + Sync + Drop> EncodeMetric for HistogramOf<S, H> {
    ghost types = { λ _ t. t ≡ S.TYPE };

    ghost offers = { λ h _ ms. (s : Counted)
        × CountsTaken (takes S.NEGATIVE) s
        × (ms ≡ alone (S.point s (option_map millis (histogram_created h))) ∷ []) };

    fn encode(&self, encoder: &mut MetricEncoder) -> Result<(), EncodeError> {
        encoder.encode(&(), self)
    }

    fn metric_type(&self) -> MetricType {
        S::TYPE
    }

    fn timestamp(&self) -> Option<Duration> {
        None
    }
}
