//! Counters: those that threads share, and those that keep the total they were made with.
ghost use Rattle.std.specs.Prelude.{◌≡◌, [], ◌∷◌, Some, None, IfOk, IfErr, MatchResult};
ghost use Rattle.std.specs.Option.{option_map};
ghost use Rattle.std.specs.Arc.{arc_value};
ghost use Rattle.fm_grammar.specs.declared.MetricType.TheVariants.{Counter as CounterType};
ghost use Rattle.fm_raw.specs.declared.error.MetricError.TheVariants.{Memory, NegativeIncrement, LessThanBefore};
ghost use Rattle.fm_encoder.specs.Points.{CounterPoint, millis};
ghost use Rattle.fm_metrics.specs.Constants.{constant_total, constant_created};
ghost use Rattle.fm_metrics.specs.NumberOrder.{IsLess};
ghost use Rattle.fm_metrics.specs.Counters.{counter_created, counter_total};

use fm_encoder::{EncodeCounterValue, EncodeMetric, EncodePoint, MetricEncoder, PointEncoder};
use fm_raw::{
    Atomic, CounterValue, EncodeError, MetricError, MetricType, Number, TryDefault, TypedMetric,
};
use std::alloc::{AllocError, Global};
use std::fmt::{self, Debug, Formatter};
use std::sync::{Arc, Wait};
use std::time::Duration;

// What the clones of a counter share.
#[derive(Drop)]
pub(crate) struct Count<N: CounterValue> {
    pub(crate) total: N::Atomic,
    pub(crate) created: Option<Duration>,
}

/// A total that only grows, except that it wraps at its type's greatest value. Its clones share it.
///
/// `N` is `u32`, `u64`, `usize` or `Fixed`. Each change is one atomic step. No call waits, and only making a counter
/// and cloning it take memory.
///
/// <!-- cut: crates/calling/src/counters.rt -->
/// ```rust
/// let messages = Counter::<u64>::with_created(alloc, now)?;
/// messages.inc();
/// messages.inc_by(2)?;
/// ```
pub struct Counter<N: CounterValue = u64> {
    pub(crate) count: Arc<Count<N>, Global>,
}

impl<N: CounterValue> Drop for Counter<N> {
    fn drop(self) {
        let Counter { count: _ } = self;
    }
}

impl<N: CounterValue> Counter<N> {
    /// A counter with the total 0, created at this time since the Unix epoch. It is written in whole milliseconds.
    /// Fails with `Memory` if memory runs out.
    pub fn with_created(alloc: Global, created: Duration) -> Result<Counter<N>, MetricError>
        ensures created { IfOk result (λ c. counter_created c ≡ Some created) }
        ensures memory { IfErr result (λ e. e ≡ Memory) }
    {
        let total = N::Atomic::default();
        let created = Some(created);
        let count = Arc::new(alloc, Count { total, created })?;
        Ok(Counter { count })
    }

    /// Adds one and returns the total before.
    pub fn inc(&self) -> N
        ensures { N.in_range result }
    {
        self.count.total.inc()
    }

    /// Adds `v` and returns the total before. Fails with `NegativeIncrement` if `v` is negative, and then changes
    /// nothing.
    pub fn inc_by(&self, v: N) -> Result<N, MetricError>
        ensures taken { IfOk result
            (λ before. N.in_range before × ¬ (IsLess N.partial_cmp v N.ZERO)) }
        ensures refused { IfErr result
            (λ e. (e ≡ NegativeIncrement) × IsLess N.partial_cmp v N.ZERO) }
    {
        if v < N::ZERO {
            return Err(MetricError::NegativeIncrement);
        }
        Ok(self.count.total.inc_by(v))
    }

    /// Sets the total to `v` in one atomic step. Fails with `LessThanBefore` if the total is greater, and then keeps
    /// it.
    pub fn set(&self, v: N) -> Result<(), MetricError>
        ensures raised { (before : N) × N.in_range before
            × N.Atomic.Atomic.raises (counter_total self.now) v before
            × MatchResult result
            (λ _. ¬ (IsLess N.partial_cmp v before))
            (λ e. (e ≡ LessThanBefore) × IsLess N.partial_cmp v before) }
    {
        let before = self.count.total.raise(v);
        if v < before {
            return Err(MetricError::LessThanBefore);
        }
        Ok(())
    }

    /// The total at this moment.
    pub fn total(&self) -> N
        ensures { N.in_range result }
    {
        self.count.total.get()
    }

    /// When the counter was created, since the Unix epoch, if it is known.
    pub fn created(&self) -> Option<Duration>
        ensures { result ≡ counter_created self.now }
    {
        self.count.created
    }
}

/// A counter with the total 0 and no time of creation.
impl<N: CounterValue, H: Wait + Drop> TryDefault<H> for Counter<N> {
    ghost is_default = { λ c. counter_created c ≡ None };

    fn try_default(_wait: H, alloc: Global) -> Result<Counter<N>, MetricError> {
        let total = N::Atomic::default();
        let created = None;
        let count = Arc::new(alloc, Count { total, created })?;
        Ok(Counter { count })
    }
}

/// Another handle of the same counter. Cloning takes memory, and fails if memory runs out.
impl<N: CounterValue> Clone for Counter<N> {
    ghost is_clone = { λ c d. arc_value d.count ≡ arc_value c.count };

    fn clone(&self) -> Result<Counter<N>, AllocError> {
        let count = self.count.clone()?;
        Ok(Counter { count })
    }
}

/// Shows the current total and the time of creation.
impl<N: CounterValue> Debug for Counter<N> {
    fn fmt<W: fmt::Write>(&self, f: &mut Formatter<W>) -> fmt::Result {
        let total = self.count.total.get();
        f.debug_struct("Counter")
            .field("total", &total)
            .field("created", &self.count.created)
            .finish()
    }
}

impl<N: CounterValue> TypedMetric for Counter<N> {
    ghost TYPE = { CounterType };

    const TYPE: MetricType = MetricType::Counter;
}

impl<N: CounterValue + EncodeCounterValue> EncodePoint for Counter<N> {
    ghost points = { λ c ps. (total : N)
        × N.in_range total
        × (ps ≡ CounterPoint (N.numbers total) [] (option_map millis (counter_created c)) ∷ []) };

    ghost may_fault = { λ _. (total : N) × N.in_range total × N.may_fault total };

    fn encode(&self, points: &mut PointEncoder) -> Result<(), EncodeError> {
        let total = self.count.total.get();
        points.encode_counter(&total, None::<&()>, self.count.created)
    }
}

impl<N: CounterValue + EncodeCounterValue> EncodeMetric for Counter<N> {
    ghost types = { λ _ t. t ≡ CounterType };

    ghost offers = { λ c _ ms. (total : N) × N.in_range total × (ms ≡ record {
      labels = [];
      point = CounterPoint (N.numbers total) [] (option_map millis (counter_created c));
    } ∷ []) };

    ghost may_fault = { λ _. (total : N) × N.in_range total × N.may_fault total };

    fn encode(&self, encoder: &mut MetricEncoder) -> Result<(), EncodeError> {
        encoder.encode(&(), self)
    }

    fn metric_type(&self) -> MetricType {
        MetricType::Counter
    }

    fn timestamp(&self) -> Option<Duration> {
        None
    }
}

/// A counter that keeps the total it was made with, for a total that is counted elsewhere.
///
/// `N` is `u32`, `u64`, `usize` or `Fixed`.
///
/// <!-- cut: crates/expose_io/src/tally.rt -->
/// ```rust
/// pub fn jobs<R: Threads + Wait + Sync>(rt: &R, alloc: Global) -> Result<Box<ConstCounter>, Fault> {
///     let total = counted_jobs::<Brand, R>(rt, alloc, Blank::new(3))?;
///     Ok(Box::new(alloc, ConstCounter::new(total))?)
/// }
/// ```
#[derive(Clone, Debug, Drop)]
pub struct ConstCounter<N = u64> {
    total: N,
    created: Option<Duration>,
}

impl<N> ConstCounter<N> {
    /// A counter with this total and no time of creation.
    pub fn new(total: N) -> ConstCounter<N>
        ensures total { constant_total result ≡ total }
        ensures created { constant_created result ≡ None }
    {
        ConstCounter {
            total,
            created: None,
        }
    }

    /// A counter with this total, created at this time since the Unix epoch. It is written in whole milliseconds.
    pub fn with_created(total: N, created: Duration) -> ConstCounter<N>
        ensures total { constant_total result ≡ total }
        ensures created { constant_created result ≡ Some created }
    {
        ConstCounter {
            total,
            created: Some(created),
        }
    }

    /// When the counter was created, since the Unix epoch, if it is known.
    pub fn created(&self) -> Option<Duration>
        ensures { result ≡ constant_created self.now }
    {
        self.created
    }
}

impl<N: Copy> ConstCounter<N> {
    /// The counter's total.
    pub fn total(&self) -> N
        ensures { result ≡ constant_total self.now }
    {
        self.total
    }
}

/// A counter with the total 0 and no time of creation.
impl<N: Number> Default for ConstCounter<N> {
    ghost is_default = { λ c. (constant_total c ≡ N.ZERO) × (constant_created c ≡ None) };

    fn default() -> ConstCounter<N> {
        ConstCounter::new(N::ZERO)
    }
}

impl<N> TypedMetric for ConstCounter<N> {
    ghost TYPE = { CounterType };

    const TYPE: MetricType = MetricType::Counter;
}

impl<N: EncodeCounterValue> EncodePoint for ConstCounter<N> {
    ghost points = { λ c ps. ps
        ≡ CounterPoint (N.numbers c.total) [] (option_map millis c.created) ∷ [] };

    ghost may_fault = { λ c. N.may_fault c.total };

    fn encode(&self, points: &mut PointEncoder) -> Result<(), EncodeError> {
        points.encode_counter(&self.total, None::<&()>, self.created)
    }
}

impl<N: EncodeCounterValue + Send + Sync + Drop> EncodeMetric for ConstCounter<N> {
    ghost types = { λ _ t. t ≡ CounterType };

    ghost offers = { λ c _ ms. ms ≡ record {
      labels = [];
      point = CounterPoint (N.numbers c.total) [] (option_map millis c.created);
    } ∷ [] };

    ghost may_fault = { λ c. N.may_fault c.total };

    fn encode(&self, encoder: &mut MetricEncoder) -> Result<(), EncodeError> {
        encoder.encode(&(), self)
    }

    fn metric_type(&self) -> MetricType {
        MetricType::Counter
    }

    fn timestamp(&self) -> Option<Duration> {
        None
    }
}
