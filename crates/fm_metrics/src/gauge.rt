//! Gauges: those that threads share, and those that keep the value they were made with.
ghost use Rattle.std.specs.Prelude.{◌≡◌, [], ◌∷◌, IfErr};
ghost use Rattle.std.specs.Arc.{arc_value};
ghost use Rattle.fm_grammar.specs.declared.MetricType.TheVariants.{Gauge as GaugeType};
ghost use Rattle.fm_raw.specs.declared.error.MetricError.TheVariants.{Memory};
ghost use Rattle.fm_encoder.specs.Points.{GaugePoint};
ghost use Rattle.fm_metrics.specs.Constants.{constant_value};
ghost use Rattle.fm_metrics.specs.Gauges.{gauge_value, guarded_value};

use fm_encoder::{EncodeGaugeValue, EncodeMetric, EncodePoint, MetricEncoder, PointEncoder};
use fm_raw::{
    Atomic, EncodeError, GaugeValue, MetricError, MetricType, Number, TryDefault, TypedMetric,
};
use std::alloc::{AllocError, Global};
use std::fmt::{self, Debug, Formatter};
use std::sync::{Arc, Wait};
use std::time::Duration;

/// A value that rises and falls. Its clones share it.
///
/// `N` is `i32`, `i64`, `isize`, `u32`, `u64` or `Fixed`. Each change is one atomic step, and wraps at the ends of the
/// type. No call waits, and only making a gauge and cloning it take memory.
///
/// <!-- cut: crates/calling/src/gauges.rt -->
/// ```rust
/// pub fn serve_one(open: &Gauge) {
///     open.inc();
///     open.dec();
/// }
/// // ..
/// pub fn temperature(alloc: Global) -> Result<Gauge<Fixed>, MetricError> {
///     Gauge::new(alloc, Fixed::from_millionths(21_500_000))
/// }
/// ```
pub struct Gauge<N: GaugeValue = i64> {
    value: Arc<N::Atomic, Global>,
}

impl<N: GaugeValue> Drop for Gauge<N> {
    fn drop(self) {
        let Gauge { value: _ } = self;
    }
}

impl<N: GaugeValue> Gauge<N> {
    /// A gauge with this value. Fails with `Memory` if memory runs out.
    pub fn new(alloc: Global, value: N) -> Result<Gauge<N>, MetricError>
        ensures { IfErr result (λ e. e ≡ Memory) }
    {
        let word = N::Atomic::default();
        word.set(value);
        let value = Arc::new(alloc, word)?;
        Ok(Gauge { value })
    }

    /// Adds one and returns the value before.
    pub fn inc(&self) -> N
        ensures { N.in_range result }
    {
        self.value.inc()
    }

    /// Adds `v` and returns the value before.
    pub fn inc_by(&self, v: N) -> N
        ensures { N.in_range result }
    {
        self.value.inc_by(v)
    }

    /// Subtracts one and returns the value before.
    pub fn dec(&self) -> N
        ensures { N.in_range result }
    {
        self.value.dec()
    }

    /// Subtracts `v` and returns the value before.
    pub fn dec_by(&self, v: N) -> N
        ensures { N.in_range result }
    {
        self.value.dec_by(v)
    }

    /// Sets the value to `v`.
    pub fn set(&self, v: N) {
        self.value.set(v);
    }

    /// The value at this moment.
    pub fn get(&self) -> N
        ensures { N.in_range result }
    {
        self.value.get()
    }

    /// Adds one, and subtracts one again when what it returns is dropped.
    pub fn track_in_progress(&self) -> InProgress<'_, N>
        ensures { guarded_value result ≡ gauge_value self.now }
    {
        let _before = self.value.inc();
        InProgress { value: &self.value }
    }

    /// Adds one, calls `f`, subtracts one again, and returns what `f` returned. It takes no memory and doesn't wait, but for what
    /// `f` does.
    pub fn during<R, F: FnOnce() -> R>(&self, f: F) -> R
        requires { F.IsAlwaysCallable f }
        ensures { F.post f result }
    {
        let _in_progress = self.track_in_progress();
        f()
    }
}

/// Something that is in progress, for which a gauge was raised by one. The gauge is lowered by one when this is dropped: at every
/// way out of a scope, an early return by `?` too. To lower it sooner, `drop` this.
///
/// Each is one atomic step, which wraps at the ends of the type, takes no memory and doesn't wait.
///
/// <!-- cut: crates/server/src/main.rt -->
/// ```rust
/// let http = &server.http;
/// let _in_flight = http.in_flight.track_in_progress();
/// http.requests.with(&["GET"], |count| count.inc())?;
/// ```
#[must_use = "the gauge is lowered as soon as this is dropped"]
pub struct InProgress<'a, N: GaugeValue = i64> {
    value: &'a N::Atomic,
}

impl<N: GaugeValue> Drop for InProgress<'_, N> {
    fn drop(self) {
        let InProgress { value } = self;
        let _before = value.dec();
    }
}

/// A gauge with the value 0.
impl<N: GaugeValue, H: Wait + Drop> TryDefault<H> for Gauge<N> {
    fn try_default(_wait: H, alloc: Global) -> Result<Gauge<N>, MetricError> {
        let value = Arc::new(alloc, N::Atomic::default())?;
        Ok(Gauge { value })
    }
}

/// Another handle of the same gauge. Cloning takes memory, and fails if memory runs out.
impl<N: GaugeValue> Clone for Gauge<N> {
    ghost is_clone = { λ g h. arc_value h.value ≡ arc_value g.value };

    fn clone(&self) -> Result<Gauge<N>, AllocError> {
        let value = self.value.clone()?;
        Ok(Gauge { value })
    }
}

/// Shows the current value.
impl<N: GaugeValue> Debug for Gauge<N> {
    fn fmt<W: fmt::Write>(&self, f: &mut Formatter<W>) -> fmt::Result {
        let value = self.value.get();
        f.debug_struct("Gauge").field("value", &value).finish()
    }
}

impl<N: GaugeValue> TypedMetric for Gauge<N> {
    ghost TYPE = { GaugeType };

    const TYPE: MetricType = MetricType::Gauge;
}

impl<N: GaugeValue + EncodeGaugeValue> EncodePoint for Gauge<N> {
    ghost points = { λ _ ps.
        (value : N) × N.in_range value × (ps ≡ GaugePoint (N.numbers value) ∷ []) };

    ghost may_fault = { λ _. (value : N) × N.in_range value × N.may_fault value };

    fn encode(&self, points: &mut PointEncoder) -> Result<(), EncodeError> {
        let value = self.value.get();
        points.encode_gauge(&value)
    }
}

impl<N: GaugeValue + EncodeGaugeValue> EncodeMetric for Gauge<N> {
    ghost types = { λ _ t. t ≡ GaugeType };

    ghost offers = { λ _ _ ms. (value : N)
        × N.in_range value
        × (ms ≡ record { labels = []; point = GaugePoint (N.numbers value) } ∷ []) };

    ghost may_fault = { λ _. (value : N) × N.in_range value × N.may_fault value };

    fn encode(&self, encoder: &mut MetricEncoder) -> Result<(), EncodeError> {
        encoder.encode(&(), self)
    }

    fn metric_type(&self) -> MetricType {
        MetricType::Gauge
    }

    fn timestamp(&self) -> Option<Duration> {
        None
    }
}

/// A gauge that keeps the value it was made with, for a value that is measured elsewhere.
///
/// `N` is `i32`, `i64`, `isize`, `u32`, `u64` or `Fixed`.
///
/// <!-- cut: crates/calling/src/roots.rt -->
/// ```rust
/// root.register(
///     "version",
///     "Version of the protocol",
///     None,
///     ConstGauge::new(3_i64),
/// )?;
/// ```
#[derive(Clone, Debug, Drop)]
pub struct ConstGauge<N = i64> {
    value: N,
}

impl<N> ConstGauge<N> {
    /// A gauge with this value.
    pub fn new(value: N) -> ConstGauge<N>
        ensures { constant_value result ≡ value }
    {
        ConstGauge { value }
    }
}

impl<N: Copy> ConstGauge<N> {
    /// The gauge's value.
    pub fn get(&self) -> N
        ensures { result ≡ constant_value self.now }
    {
        self.value
    }
}

/// A gauge with the value 0.
impl<N: Number> Default for ConstGauge<N> {
    ghost is_default = { λ g. constant_value g ≡ N.ZERO };

    fn default() -> ConstGauge<N> {
        ConstGauge::new(N::ZERO)
    }
}

impl<N> TypedMetric for ConstGauge<N> {
    ghost TYPE = { GaugeType };

    const TYPE: MetricType = MetricType::Gauge;
}

impl<N: EncodeGaugeValue> EncodePoint for ConstGauge<N> {
    ghost points = { λ g ps. ps ≡ GaugePoint (N.numbers g.value) ∷ [] };

    ghost may_fault = { λ g. N.may_fault g.value };

    fn encode(&self, points: &mut PointEncoder) -> Result<(), EncodeError> {
        points.encode_gauge(&self.value)
    }
}

impl<N: EncodeGaugeValue + Send + Sync + Drop> EncodeMetric for ConstGauge<N> {
    ghost types = { λ _ t. t ≡ GaugeType };

    ghost offers = { λ g _ ms. ms
        ≡ record { labels = []; point = GaugePoint (N.numbers g.value) } ∷ [] };

    ghost may_fault = { λ g. N.may_fault g.value };

    fn encode(&self, encoder: &mut MetricEncoder) -> Result<(), EncodeError> {
        encoder.encode(&(), self)
    }

    fn metric_type(&self) -> MetricType {
        MetricType::Gauge
    }

    fn timestamp(&self) -> Option<Duration> {
        None
    }
}
