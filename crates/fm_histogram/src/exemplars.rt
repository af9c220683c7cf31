//! Histograms that keep the last exemplar of each bucket.
ghost use Rattle.std.specs.Prelude.{◌≡◌, true, List, [], ◌∷◌, length, map, Some, None, IfOk, IfErr};
ghost use Rattle.std.specs.Option.{option_map};
ghost use Rattle.std.specs.List.{AllByRecursion};
ghost use Rattle.std.specs.Iterator.{IsFinite};
ghost use Rattle.std.specs.Arc.{arc_value};
ghost use Rattle.fm_grammar.specs.declared.MetricType.TheVariants.{Histogram as HistogramType};
ghost use Rattle.fm_raw.specs.declared.error.MetricError.TheVariants.{Memory, CountFull};
ghost use Rattle.fm_encoder.specs.Points.{BucketsValid, ExemplarValid, EmittedExemplar, HistogramPoint, millis};
ghost use Rattle.fm_histogram.specs.Histogram.{Histogram as Counted, CountsTaken, is_taken};
ghost use Rattle.fm_histogram.specs.Shown.{alone};
ghost use Rattle.fm_histogram.specs.Shared.{exemplar_histogram_created};
ghost use Rattle.fm_histogram.specs.Observing.{Locked};
ghost use Rattle.fm_histogram.specs.Exemplars.{ExemplarsFit, SlotsFit, LiesAt, ObservesAlone, ObservesWith};
ghost use Rattle.fm_histogram.specs.inside.Slots.{emitted};

use crate::snapshot::HistogramSnapshot;
use fm_encoder::{
    EncodeMetric, EncodePoint, ExemplarLabels, LabeledExemplar, MetricEncoder, PointEncoder,
};
use fm_raw::{EncodeError, Fixed, MetricError, MetricType, TryDefault, TypedMetric};
use std::alloc::{AllocError, Global};
use std::fmt::{self, Debug, Formatter};
use std::marker::Model;
use std::sync::{Arc, Mutex, Wait};
use std::time::Duration;

// What was counted, and the last exemplar of each bucket.
#[derive(Drop)]
struct Seen {
    alloc: Global,
    snapshot: HistogramSnapshot,
    last: Vec<Option<LabeledExemplar<ExemplarLabels>>>,
}

impl Model for Seen {
    ghost use Rattle.fm_histogram.specs.Exemplars.{WithExemplars, ExemplarsFit};

    ghost Value = { WithExemplars };

    ghost view = { λ s. record { counted = s.snapshot; last = s.last.items } };

    ghost invariant = { λ s. ExemplarsFit (record { counted = s.snapshot; last = s.last.items }) };
}

impl Seen {
    // Nothing was counted.
    fn of_none(alloc: Global, snapshot: HistogramSnapshot) -> Result<Seen, MetricError>
        ensures { IfErr result (λ e. e ≡ Memory) }
    {
        snapshot.counts_taken();
        let count = snapshot.buckets().len();
        let mut last = Vec::with_capacity(alloc, count)?;
        for index in 0..count {
            last.push(None)?;
        }
        Ok(Seen {
            alloc,
            snapshot,
            last,
        })
    }

    // Counts a value. The exemplars stay.
    fn observe(&mut self, value: Fixed) -> Result<(), MetricError>
        ensures observes { ObservesAlone value self.old self.new result }
        ensures fit { ExemplarsFit self.old }
    {
        let counted = self.snapshot.observe(value);
        self.snapshot.counts_taken();
        counted
    }

    // Counts a value, and keeps the exemplar in the slot of its bucket.
    fn observe_with(&mut self, exemplar: LabeledExemplar<ExemplarLabels>) -> Result<(), MetricError>
        ensures observes { ObservesWith exemplar self.old self.new result }
        ensures fit { ExemplarsFit self.old }
    {
        let index = self.snapshot.index_of(exemplar.value);
        let counted = self.snapshot.observe(exemplar.value);
        self.snapshot.counts_taken();
        counted?;
        if exemplar.value < Fixed::ZERO {
            return Ok(());
        }
        self.last[index] = Some(exemplar);
        Ok(())
    }

    // The exemplar of a bucket, if it has one. It is valid, and lies in the bucket.
    fn slot(&self, index: usize) -> Option<&LabeledExemplar<ExemplarLabels>>
        ensures valid { ExemplarValid (emitted result) }
        ensures fits { (e : EmittedExemplar) → emitted result ≡ e ∷ []
            → LiesAt self.now.counted.buckets index e.value }
    {
        let exemplar = self.last.get(index)?.as_ref()?;
        exemplar.labels.are_taken();
        Some(exemplar)
    }

    // The same for each bucket.
    fn slots(&self) -> Result<Vec<Option<&LabeledExemplar<ExemplarLabels>>>, AllocError>
        ensures valid { IfOk result
            (λ slots. (length slots.items ≡ length self.now.counted.buckets)
            × AllByRecursion ExemplarValid (map emitted slots.items)) }
        ensures fit { IfOk result
            (λ slots. SlotsFit self.now.counted.buckets (map emitted slots.items)) }
    {
        let count = self.snapshot.buckets().len();
        let mut slots = Vec::with_capacity(self.alloc, count)?;
        for i in 0..count {
            slots.push(self.slot(i))?;
        }
        Ok(slots)
    }

    // What was counted.
    fn snapshot(&self) -> &HistogramSnapshot
        ensures { result.now ≡ self.now.counted }
    {
        &self.snapshot
    }
}

// What the clones of a histogram share.
#[derive(Drop)]
struct Shared {
    seen: Mutex<Seen>,
    created: Option<Duration>,
}

/// A histogram that keeps the last exemplar of each bucket, and is written with them. Its clones share all of it under a lock.
/// Negative values are not taken.
///
/// A call that observes or encodes waits while another thread has the lock. Making one, cloning and encoding take memory.
///
/// <!-- cut: tests/unit/src/fastmetrics_own_types.rt.in -->
/// ```rust
/// type Own = OneOf<ExemplarCounter<HostRuntime>, OneOf<ExemplarHistogram<HostRuntime>, Unknown<i64>>>;
/// // ..
/// let mut root = Root::<_, Own>::built(Registry::builder(), rt)?;
/// // ..
/// let _lengths: ExemplarHistogram<HostRuntime> = root.own("lengths", "H")?;
/// ```
pub struct ExemplarHistogram<H: Wait> {
    shared: Arc<Shared, Global>,
    wait: H,
}

impl<H: Wait + Drop> Drop for ExemplarHistogram<H> {
    fn drop(self) {
        let ExemplarHistogram { shared: _, wait: _ } = self;
    }
}

impl<H: Wait + Drop> ExemplarHistogram<H> {
    // A histogram of what this snapshot counts, without exemplars.
    fn from_snapshot(
        wait: H,
        alloc: Global,
        snapshot: HistogramSnapshot,
        created: Option<Duration>,
    ) -> Result<ExemplarHistogram<H>, MetricError>
        ensures created { IfOk result (λ h. exemplar_histogram_created h ≡ created) }
        ensures only_memory { IfErr result (λ e. e ≡ Memory) }
    {
        let seen = Mutex::new(Seen::of_none(alloc, snapshot)?);
        let shared = Arc::new(alloc, Shared { seen, created })?;
        Ok(ExemplarHistogram { shared, wait })
    }

    /// A histogram of no values, without a time of creation. Its bounds are those that `Histogram::new` has of the given ones. Fails
    /// with `Memory` if memory runs out.
    pub fn new<I: Iterator<Item = Fixed> + Drop>(
        wait: H,
        alloc: Global,
        bounds: I,
    ) -> Result<ExemplarHistogram<H>, MetricError>
        requires can { I.can_next bounds }
        requires ends { IsFinite (I.remaining bounds) }
        ensures created { IfOk result (λ h. exemplar_histogram_created h ≡ None) }
        ensures only_memory { IfErr result (λ e. e ≡ Memory) }
    {
        let snapshot = HistogramSnapshot::new(alloc, bounds)?;
        ExemplarHistogram::from_snapshot(wait, alloc, snapshot, None)
    }

    /// Like `new`, created at this time since the Unix epoch, which is written in whole milliseconds.
    pub fn with_created<I: Iterator<Item = Fixed> + Drop>(
        wait: H,
        alloc: Global,
        bounds: I,
        created: Duration,
    ) -> Result<ExemplarHistogram<H>, MetricError>
        requires can { I.can_next bounds }
        requires ends { IsFinite (I.remaining bounds) }
        ensures created { IfOk result (λ h. exemplar_histogram_created h ≡ Some created) }
        ensures only_memory { IfErr result (λ e. e ≡ Memory) }
    {
        let snapshot = HistogramSnapshot::new(alloc, bounds)?;
        ExemplarHistogram::from_snapshot(wait, alloc, snapshot, Some(created))
    }
}

impl<H: Wait> ExemplarHistogram<H> {
    /// Counts a value without an exemplar, as `Histogram::observe` does.
    pub fn observe(&self, value: Fixed) -> Result<(), MetricError>
        ensures observes { Locked ExemplarsFit (ObservesAlone value) result }
        ensures refused { IfErr result (λ e. (e ≡ CountFull) × (is_taken value ≡ true)) }
    {
        self.shared.seen.lock(&self.wait).observe(value)
    }

    /// Counts the exemplar's value, as `observe` does, and then keeps the exemplar in place of the last one of the bucket in which
    /// the value lies. Where `observe` changes nothing, this changes nothing.
    pub fn observe_with(&self, exemplar: LabeledExemplar<ExemplarLabels>) -> Result<(), MetricError>
        ensures observes { Locked ExemplarsFit (ObservesWith exemplar) result }
        ensures refused { IfErr result (λ e. (e ≡ CountFull) × (is_taken exemplar.value ≡ true)) }
    {
        self.shared.seen.lock(&self.wait).observe_with(exemplar)
    }

    /// When the histogram was created, since the Unix epoch, if it is known.
    pub fn created(&self) -> Option<Duration>
        ensures { result ≡ exemplar_histogram_created self.now }
    {
        self.shared.created
    }
}

/// The histogram of no values with the default bounds, without a time of creation.
impl<H: Wait + Drop> TryDefault<H> for ExemplarHistogram<H> {
    ghost is_default = { λ h. exemplar_histogram_created h ≡ None };

    fn try_default(wait: H, alloc: Global) -> Result<ExemplarHistogram<H>, MetricError> {
        let snapshot = HistogramSnapshot::with_default_bounds(alloc)?;
        ExemplarHistogram::from_snapshot(wait, alloc, snapshot, None)
    }
}

/// Another handle of the same histogram. Cloning takes memory, and fails if memory runs out.
impl<H: Wait + Clone> Clone for ExemplarHistogram<H> {
    ghost is_clone = { λ h k. arc_value k.shared ≡ arc_value h.shared };

    fn clone(&self) -> Result<ExemplarHistogram<H>, AllocError> {
        let shared = self.shared.clone()?;
        let wait = self.wait.clone()?;
        Ok(ExemplarHistogram { shared, wait })
    }
}

/// Shows the time of creation, but not the counts, since the lock protects them.
impl<H: Wait> Debug for ExemplarHistogram<H> {
    fn fmt<W: fmt::Write>(&self, f: &mut Formatter<W>) -> fmt::Result {
        f.debug_struct("ExemplarHistogram")
            .field("created", &self.created())
            .finish_non_exhaustive()
    }
}

impl<H: Wait> TypedMetric for ExemplarHistogram<H> {
    ghost TYPE = { HistogramType };

    const TYPE: MetricType = MetricType::Histogram;
}

/// What was counted so far, as a `Histogram` emits it, with valid exemplars, each of which lies in its bucket.
impl<H: Wait> EncodePoint for ExemplarHistogram<H> {
    ghost points = { λ h ps. (s : Counted)
        × (slots : List (List EmittedExemplar))
        × CountsTaken is_taken s
        × BucketsValid s.buckets slots
        × SlotsFit s.buckets slots
        × (ps ≡ HistogramPoint s.buckets slots s.count s.sum
        (option_map millis (exemplar_histogram_created h)) ∷ []) };

    fn encode(&self, points: &mut PointEncoder) -> Result<(), EncodeError> {
        let seen = self.shared.seen.lock(&self.wait);
        let slots = seen.slots()?;
        let snapshot = seen.snapshot();
        snapshot.counts_taken();
        points.encode_histogram(
            snapshot.buckets(),
            slots.as_slice(),
            snapshot.count(),
            snapshot.sum(),
            self.shared.created,
        )
    }
}

impl<H: Wait + Send + Sync + Drop> EncodeMetric for ExemplarHistogram<H> {
    ghost types = { λ _ t. t ≡ HistogramType };

    ghost offers = { λ h _ ms. (s : Counted)
        × (slots : List (List EmittedExemplar))
        × CountsTaken is_taken s
        × BucketsValid s.buckets slots
        × SlotsFit s.buckets slots
        × (ms ≡ alone (HistogramPoint s.buckets slots s.count s.sum
        (option_map millis (exemplar_histogram_created h))) ∷ []) };

    fn encode(&self, encoder: &mut MetricEncoder) -> Result<(), EncodeError> {
        encoder.encode(&(), self)
    }

    fn metric_type(&self) -> MetricType {
        MetricType::Histogram
    }

    fn timestamp(&self) -> Option<Duration> {
        None
    }
}
