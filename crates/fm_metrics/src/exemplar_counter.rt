//! Counters that keep their last exemplar.
ghost use Rattle.std.specs.Prelude.{◌≡◌, List, [], ◌∷◌, Some, None, IfOk, IfErr};
ghost use Rattle.std.specs.Option.{option_map, option_map_or};
ghost use Rattle.std.specs.Arc.{arc_value};
ghost use Rattle.fm_grammar.specs.declared.MetricType.TheVariants.{Counter as CounterType};
ghost use Rattle.fm_raw.specs.declared.error.MetricError.TheVariants.{Memory, NegativeIncrement};
ghost use Rattle.fm_encoder.specs.Points.{CounterPoint, ExemplarValid, EmittedExemplar, millis};
ghost use Rattle.fm_metrics.specs.NumberOrder.{IsLess};
ghost use Rattle.fm_metrics.specs.Counters.{counter_created};

use crate::counter::{Count, Counter};
use fm_encoder::{
    EncodeCounterValue, EncodeExemplar, EncodeMetric, EncodePoint, ExemplarLabels, LabeledExemplar,
    MetricEncoder, PointEncoder,
};
use fm_raw::{Atomic, CounterValue, EncodeError, MetricError, MetricType, TryDefault, TypedMetric};
use std::alloc::{AllocError, Global};
use std::fmt::{self, Debug, Formatter};
use std::sync::{Arc, Mutex, Wait};
use std::time::Duration;

/// A counter that keeps the last exemplar which was passed to it, and is written with it. Its clones share both.
///
/// The total is that of [`Counter`]. The exemplar is under a lock: passing one and encoding wait while another thread has it. Making
/// one and cloning it take memory.
///
/// <!-- cut: tests/unit/src/fastmetrics_own_types.rt.in -->
/// ```rust
/// let mut root = Root::<_, ExemplarCounter<_>>::built(Registry::builder(), rt)?;
/// let routes: ExemplarCounter<HostRuntime> = root.own("routes", "H")?;
/// // ..
/// routes.counter().inc();
/// ```
pub struct ExemplarCounter<H: Wait, N: CounterValue = u64> {
    counter: Counter<N>,
    last: Arc<Mutex<Option<LabeledExemplar<ExemplarLabels>>>, Global>,
    wait: H,
}

impl<H: Wait + Drop, N: CounterValue> Drop for ExemplarCounter<H, N> {
    fn drop(self) {
        let ExemplarCounter {
            counter: _,
            last: _,
            wait: _,
        } = self;
    }
}

impl<H: Wait + Drop, N: CounterValue> ExemplarCounter<H, N> {
    /// Like `Counter::with_created`, without an exemplar.
    pub fn with_created(
        wait: H,
        alloc: Global,
        created: Duration,
    ) -> Result<ExemplarCounter<H, N>, MetricError>
        ensures created { IfOk result (λ c. counter_created c.counter ≡ Some created) }
        ensures memory { IfErr result (λ e. e ≡ Memory) }
    {
        let counter = Counter::with_created(alloc, created)?;
        let last = Arc::new(alloc, Mutex::new(None))?;
        Ok(ExemplarCounter {
            counter,
            last,
            wait,
        })
    }
}

impl<H: Wait, N: CounterValue> ExemplarCounter<H, N> {
    /// The counter, for what is counted without an exemplar.
    pub fn counter(&self) -> &Counter<N>
        ensures { result.now ≡ self.now.counter }
    {
        &self.counter
    }

    /// Adds `v` and returns the total before, and then keeps this exemplar in place of the last one. Fails with `NegativeIncrement`
    /// if `v` is negative, and then changes nothing.
    pub fn inc_by_with(
        &self,
        v: N,
        exemplar: LabeledExemplar<ExemplarLabels>,
    ) -> Result<N, MetricError>
        ensures taken { IfOk result
            (λ before. N.in_range before × ¬ (IsLess N.partial_cmp v N.ZERO)) }
        ensures refused { IfErr result
            (λ e. (e ≡ NegativeIncrement) × IsLess N.partial_cmp v N.ZERO) }
    {
        let before = self.counter.inc_by(v)?;
        *self.last.lock(&self.wait) = Some(exemplar);
        Ok(before)
    }
}

/// A counter with the total 0, no time of creation and no exemplar.
impl<H: Wait + Drop, N: CounterValue> TryDefault<H> for ExemplarCounter<H, N> {
    ghost is_default = { λ c. counter_created c.counter ≡ None };

    fn try_default(wait: H, alloc: Global) -> Result<ExemplarCounter<H, N>, MetricError> {
        let total = N::Atomic::default();
        let created = None;
        let count = Arc::new(alloc, Count { total, created })?;
        let last = Arc::new(alloc, Mutex::new(None))?;
        Ok(ExemplarCounter {
            counter: Counter { count },
            last,
            wait,
        })
    }
}

/// Another handle of the same counter. Cloning takes memory, and fails if memory runs out.
impl<H: Wait + Clone, N: CounterValue> Clone for ExemplarCounter<H, N> {
    ghost is_clone = { λ c d.
        (arc_value d.counter.count ≡ arc_value c.counter.count)
        × (arc_value d.last ≡ arc_value c.last) };

    fn clone(&self) -> Result<ExemplarCounter<H, N>, AllocError> {
        let counter = self.counter.clone()?;
        let last = self.last.clone()?;
        let wait = self.wait.clone()?;
        Ok(ExemplarCounter {
            counter,
            last,
            wait,
        })
    }
}

/// Shows the counter, but not the exemplar, since the lock protects it.
impl<H: Wait, N: CounterValue> Debug for ExemplarCounter<H, N> {
    fn fmt<W: fmt::Write>(&self, f: &mut Formatter<W>) -> fmt::Result {
        f.debug_struct("ExemplarCounter")
            .field("counter", &self.counter)
            .finish_non_exhaustive()
    }
}

impl<H: Wait, N: CounterValue> TypedMetric for ExemplarCounter<H, N> {
    ghost TYPE = { CounterType };

    const TYPE: MetricType = MetricType::Counter;
}

// The exemplar that was kept last, which is valid.
fn lent(last: &Option<LabeledExemplar<ExemplarLabels>>) -> Option<&LabeledExemplar<ExemplarLabels>>
    ensures { ExemplarValid (option_map_or
        (λ e. ⟦<LabeledExemplar<ExemplarLabels> as EncodeExemplar>⟧.exemplars e.now) result []) }
{
    let exemplar = last.as_ref()?;
    exemplar.labels.are_taken();
    Some(exemplar)
}

/// The total, and the exemplar that was kept last, which is valid. What it was passed with is counted in the total.
impl<H: Wait, N: CounterValue + EncodeCounterValue> EncodePoint for ExemplarCounter<H, N> {
    ghost points = { λ c ps. (total : N)
        × (exemplars : List EmittedExemplar)
        × N.in_range total
        × ExemplarValid exemplars
        × (ps ≡ CounterPoint (N.numbers total) exemplars
        (option_map millis (counter_created c.counter)) ∷ []) };

    ghost may_fault = { λ _. (total : N) × N.in_range total × N.may_fault total };

    fn encode(&self, points: &mut PointEncoder) -> Result<(), EncodeError> {
        let last = self.last.lock(&self.wait);
        let total = self.counter.count.total.get();
        let created = self.counter.count.created;
        points.encode_counter(&total, lent(&last), created)
    }
}

impl<H: Wait + Send + Sync + Drop, N: CounterValue + EncodeCounterValue> EncodeMetric
    for ExemplarCounter<H, N> {
    ghost types = { λ _ t. t ≡ CounterType };

    ghost offers = { λ c _ ms. (total : N)
        × (exemplars : List EmittedExemplar)
        × N.in_range total
        × ExemplarValid exemplars
        × (ms ≡ record {
          labels = [];
          point = CounterPoint (N.numbers total) exemplars
              (option_map millis (counter_created c.counter));
        } ∷ []) };

    ghost may_fault = { λ _. (total : N) × N.in_range total × N.may_fault total };

    fn encode(&self, encoder: &mut MetricEncoder) -> Result<(), EncodeError> {
        encoder.encode(&(), self)
    }

    fn metric_type(&self) -> MetricType {
        MetricType::Counter
    }

    fn timestamp(&self) -> Option<Duration> {
        None
    }
}
