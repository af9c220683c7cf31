//! Gauges and counters that ask a source for their number each time they are written.
//!
//! <!-- cut: crates/calling/src/own.rt -->
//! ```rust
//! use fastmetrics::metrics::source::{NumberSource, SourceGauge};
//! // ..
//! root.add_own("queue", "Jobs that wait", SourceGauge::new(queue.clone()?))?;
//! ```
ghost use Rattle.std.specs.Prelude.{◌≡◌, [], ◌∷◌, None, ⊤};
ghost use Rattle.std.specs.Arc.{arc_value};
ghost use Rattle.fm_grammar.specs.declared.MetricType.TheVariants.{Gauge, Counter};
ghost use Rattle.fm_encoder.specs.Points.{GaugePoint, CounterPoint};

use fm_encoder::{
    EncodeCounterValue, EncodeGaugeValue, EncodeMetric, EncodePoint, MetricEncoder, PointEncoder,
};
use fm_raw::{EncodeError, MetricType, TypedMetric};
use std::alloc::Global;
use std::marker::PhantomData;
use std::sync::Arc;
use std::sync::atomic::Ordering::SeqCst;
use std::sync::atomic::{AtomicI32, AtomicI64, AtomicIsize, AtomicU32, AtomicU64, AtomicUsize};
use std::time::Duration;

/// Tells a number when it is asked, such as the length of a queue.
///
/// <!-- cut: crates/calling/src/own.rt -->
/// ```rust
/// impl NumberSource<i64> for Queue {
///     fn read(&self) -> i64 {
///         self.waiting.load(SeqCst)
///     }
/// }
/// ```
pub trait NumberSource<N> {
    /// Holds of each number that the source may tell. If nothing is said, it may tell any.
    ghost tells: { Self → N → Type 0 } = { λ _ _. ⊤ };

    /// The number at this moment.
    fn read(&self) -> N
        ensures { tells self.now result };
}

/// A source that is shared tells what the source does.
impl<N, R: NumberSource<N>> NumberSource<N> for Arc<R, Global> {
    ghost tells = { λ r. R.tells (arc_value r) };

    fn read(&self) -> N {
        (**self).read()
    }
}

/// An atomic tells its number.
impl NumberSource<i32> for AtomicI32 {
    fn read(&self) -> i32 {
        self.load(SeqCst)
    }
}

/// An atomic tells its number.
impl NumberSource<i64> for AtomicI64 {
    fn read(&self) -> i64 {
        self.load(SeqCst)
    }
}

/// An atomic tells its number.
impl NumberSource<isize> for AtomicIsize {
    fn read(&self) -> isize {
        self.load(SeqCst)
    }
}

/// An atomic tells its number.
impl NumberSource<u32> for AtomicU32 {
    fn read(&self) -> u32 {
        self.load(SeqCst)
    }
}

/// An atomic tells its number.
impl NumberSource<u64> for AtomicU64 {
    fn read(&self) -> u64 {
        self.load(SeqCst)
    }
}

/// An atomic tells its number.
impl NumberSource<usize> for AtomicUsize {
    fn read(&self) -> usize {
        self.load(SeqCst)
    }
}

/// A gauge whose value is what a source tells each time the gauge is written.
///
/// The source is asked once for each document, and tells an `i32`, `i64`, `isize`, `u32`, `u64` or `Fixed`. Whoever writes the
/// document waits for it. No call takes memory but the source's own.
///
/// <!-- cut: crates/calling/src/process.rt -->
/// ```rust
/// pub fn queue_length(
///     length: &Arc<AtomicI64, Global>,
/// ) -> Result<SourceGauge<i64, Arc<AtomicI64, Global>>, AllocError> {
///     Ok(SourceGauge::new(length.clone()?))
/// }
/// ```
#[derive(Drop)]
pub struct SourceGauge<N, R> {
    source: R,
    value: PhantomData<N>,
}

impl<N, R: NumberSource<N>> SourceGauge<N, R> {
    /// A gauge that asks this source.
    pub fn new(source: R) -> SourceGauge<N, R>
        ensures { result.source ≡ source }
    {
        SourceGauge {
            source,
            value: PhantomData,
        }
    }
}

impl<N, R: NumberSource<N>> TypedMetric for SourceGauge<N, R> {
    ghost TYPE = { Gauge };

    const TYPE: MetricType = MetricType::Gauge;
}

impl<N: EncodeGaugeValue + Drop, R: NumberSource<N>> EncodePoint for SourceGauge<N, R> {
    ghost points = { λ g ps.
        (value : N) × R.tells g.source value × (ps ≡ GaugePoint (N.numbers value) ∷ []) };

    ghost may_fault = { λ g. (value : N) × R.tells g.source value × N.may_fault value };

    fn encode(&self, points: &mut PointEncoder) -> Result<(), EncodeError> {
        let value = self.source.read();
        points.encode_gauge(&value)
    }
}

impl<N: EncodeGaugeValue + Send + Sync + Drop, R: NumberSource<N> + Send + Sync + Drop> EncodeMetric
    for SourceGauge<N, R> {
    ghost types = { λ _ t. t ≡ Gauge };

    ghost offers = { λ g _ ms. (value : N)
        × R.tells g.source value
        × (ms ≡ record { labels = []; point = GaugePoint (N.numbers value) } ∷ []) };

    ghost may_fault = { λ g. (value : N) × R.tells g.source value × N.may_fault value };

    fn encode(&self, encoder: &mut MetricEncoder) -> Result<(), EncodeError> {
        encoder.encode(&(), self)
    }

    fn metric_type(&self) -> MetricType {
        MetricType::Gauge
    }

    fn timestamp(&self) -> Option<Duration> {
        None
    }
}

/// A counter whose total is what a source tells each time the counter is written, such as the requests that another library
/// counts. It has no time of creation.
///
/// The source is asked as that of a `SourceGauge` is, and tells a `u32`, `u64`, `usize` or `Fixed`. The source itself has to
/// see to it that the total is not negative and never falls: nothing tests it.
///
/// <!-- cut: tests/unit/src/fm_metrics_sources.rt.in -->
/// ```rust
/// let hits = Arc::new(alloc, AtomicU64::new(3))?;
/// let registry = registry_of(alloc, "hits", SourceCounter::new(hits.clone()?))?;
/// // ..
/// hits.store(41, SeqCst);
/// ```
#[derive(Drop)]
pub struct SourceCounter<N, R> {
    source: R,
    total: PhantomData<N>,
}

impl<N, R: NumberSource<N>> SourceCounter<N, R> {
    /// A counter that asks this source.
    pub fn new(source: R) -> SourceCounter<N, R>
        ensures { result.source ≡ source }
    {
        SourceCounter {
            source,
            total: PhantomData,
        }
    }
}

impl<N, R: NumberSource<N>> TypedMetric for SourceCounter<N, R> {
    ghost TYPE = { Counter };

    const TYPE: MetricType = MetricType::Counter;
}

impl<N: EncodeCounterValue + Drop, R: NumberSource<N>> EncodePoint for SourceCounter<N, R> {
    ghost points = { λ c ps.
        (total : N) × R.tells c.source total × (ps ≡ CounterPoint (N.numbers total) [] None ∷ []) };

    ghost may_fault = { λ c. (total : N) × R.tells c.source total × N.may_fault total };

    fn encode(&self, points: &mut PointEncoder) -> Result<(), EncodeError> {
        let total = self.source.read();
        points.encode_counter(&total, None::<&()>, None)
    }
}

impl<
    N: EncodeCounterValue + Send + Sync + Drop,
    R: NumberSource<N> + Send + Sync + Drop,
> EncodeMetric for SourceCounter<N, R> {
    ghost types = { λ _ t. t ≡ Counter };

    ghost offers = { λ c _ ms. (total : N)
        × R.tells c.source total
        × (ms ≡ record { labels = []; point = CounterPoint (N.numbers total) [] None } ∷ []) };

    ghost may_fault = { λ c. (total : N) × R.tells c.source total × N.may_fault total };

    fn encode(&self, encoder: &mut MetricEncoder) -> Result<(), EncodeError> {
        encoder.encode(&(), self)
    }

    fn metric_type(&self) -> MetricType {
        MetricType::Counter
    }

    fn timestamp(&self) -> Option<Duration> {
        None
    }
}
