//! A metric of any of the library's usual kinds, or of a kind of the program's own.
ghost use Rattle.std.specs.Prelude.{◌≡◌};
ghost use Rattle.fastmetrics.specs.declared.registry.kinds.scalar.Scalar.TheVariants.{Counter, FixedCounter, Gauge, FixedGauge};
ghost use Rattle.fastmetrics.specs.declared.registry.kinds.named_family.NamedFamily.TheVariants.{Counters, FixedCounters, Gauges, FixedGauges, Histograms, GaugeHistograms};
ghost use Rattle.fastmetrics.specs.declared.registry.kinds.constant.Constant.TheVariants as constant;
ghost use Rattle.fastmetrics.specs.declared.registry.kinds.Metric.TheVariants.{Scalar, Histogram, GaugeHistogram, Family, States, Constant, Own};

mod constant;
mod named_family;
mod own;
mod scalar;

use crate::registry::maker::Waiter;
pub use constant::Constant;
use fm_encoder::{EncodeMetric, MetricEncoder};
use fm_histogram::{GaugeHistogram, GaugeHistogramSnapshot, Histogram, HistogramSnapshot};
use fm_metrics::NamedStates;
use fm_metrics::counter::{ConstCounter, Counter};
use fm_metrics::gauge::{ConstGauge, Gauge};
use fm_metrics::info::Info;
use fm_metrics::unknown::Unknown;
use fm_raw::{EncodeError, Fixed, MetricType};
pub use named_family::{
    CounterVec, FixedCounterVec, FixedGaugeVec, GaugeHistogramVec, GaugeVec, HistogramVec,
    NamedFamily, VecOf,
};
pub use own::{Here, Holds, In, Itself, NoOwn, OneOf};
pub use scalar::Scalar;
use std::sync::Wait;
use std::time::Duration;

/// A metric of one of the library's usual kinds, or of the type `X`, which is the program's own. A program
/// that has none leaves `X` out.
///
/// It declares and offers what the metric in it does.
///
/// <!-- cut: tests/scripts/src/world.rt.in -->
/// ```rust
/// let metric = Metric::Own(own);
/// match unit_of(self.alloc, line.word(5)) {
///     Ok(unit) => Ok(
///         self.root
///             .register(line.word(3), line.word(4), unit, metric)?,
///     ),
///     Err(stop) => Err(stop),
/// }
/// ```
pub enum Metric<H: Wait, X = NoOwn> {
    /// A counter or a gauge.
    Scalar(Scalar),
    /// A histogram.
    Histogram(Histogram<H>),
    /// A gauge histogram.
    GaugeHistogram(GaugeHistogram<H>),
    /// A family by label names.
    Family(NamedFamily<H>),
    /// A state set by its names.
    States(NamedStates),
    /// A metric that never changes.
    Constant(Constant),
    /// A metric of the program's own.
    Own(X),
}

impl<H: Wait + Drop, X: Drop> Drop for Metric<H, X> {
    fn drop(self) {
        match self {
            Metric::Scalar(_) => (),
            Metric::Histogram(_) => (),
            Metric::GaugeHistogram(_) => (),
            Metric::Family(_) => (),
            Metric::States(_) => (),
            Metric::Constant(_) => (),
            Metric::Own(_) => (),
        }
    }
}

impl<H: Waiter, X: EncodeMetric> EncodeMetric for Metric<H, X> {
    ghost types = { λ m t. elim m [
      | Scalar x ↦ ⟦<Scalar as EncodeMetric>⟧.types x t
      | Histogram x ↦ ⟦<Histogram<H> as EncodeMetric>⟧.types x t
      | GaugeHistogram x ↦ ⟦<GaugeHistogram<H> as EncodeMetric>⟧.types x t
      | Family x ↦ ⟦<NamedFamily<H> as EncodeMetric>⟧.types x t
      | States x ↦ ⟦<NamedStates as EncodeMetric>⟧.types x t
      | Constant x ↦ ⟦<Constant as EncodeMetric>⟧.types x t
      | Own x ↦ X.types x t
    ] };

    ghost may_be_empty = { λ m. elim m [
      | Scalar x ↦ ⟦<Scalar as EncodeMetric>⟧.may_be_empty x
      | Histogram x ↦ ⟦<Histogram<H> as EncodeMetric>⟧.may_be_empty x
      | GaugeHistogram x ↦ ⟦<GaugeHistogram<H> as EncodeMetric>⟧.may_be_empty x
      | Family x ↦ ⟦<NamedFamily<H> as EncodeMetric>⟧.may_be_empty x
      | States x ↦ ⟦<NamedStates as EncodeMetric>⟧.may_be_empty x
      | Constant x ↦ ⟦<Constant as EncodeMetric>⟧.may_be_empty x
      | Own x ↦ X.may_be_empty x
    ] };

    ghost stamps = { λ m s. elim m [
      | Scalar x ↦ ⟦<Scalar as EncodeMetric>⟧.stamps x s
      | Histogram x ↦ ⟦<Histogram<H> as EncodeMetric>⟧.stamps x s
      | GaugeHistogram x ↦ ⟦<GaugeHistogram<H> as EncodeMetric>⟧.stamps x s
      | Family x ↦ ⟦<NamedFamily<H> as EncodeMetric>⟧.stamps x s
      | States x ↦ ⟦<NamedStates as EncodeMetric>⟧.stamps x s
      | Constant x ↦ ⟦<Constant as EncodeMetric>⟧.stamps x s
      | Own x ↦ X.stamps x s
    ] };

    ghost offers = { λ m s ms. elim m [
      | Scalar x ↦ ⟦<Scalar as EncodeMetric>⟧.offers x s ms
      | Histogram x ↦ ⟦<Histogram<H> as EncodeMetric>⟧.offers x s ms
      | GaugeHistogram x ↦ ⟦<GaugeHistogram<H> as EncodeMetric>⟧.offers x s ms
      | Family x ↦ ⟦<NamedFamily<H> as EncodeMetric>⟧.offers x s ms
      | States x ↦ ⟦<NamedStates as EncodeMetric>⟧.offers x s ms
      | Constant x ↦ ⟦<Constant as EncodeMetric>⟧.offers x s ms
      | Own x ↦ X.offers x s ms
    ] };

    ghost may_fault = { λ m. elim m [
      | Scalar x ↦ ⟦<Scalar as EncodeMetric>⟧.may_fault x
      | Histogram x ↦ ⟦<Histogram<H> as EncodeMetric>⟧.may_fault x
      | GaugeHistogram x ↦ ⟦<GaugeHistogram<H> as EncodeMetric>⟧.may_fault x
      | Family x ↦ ⟦<NamedFamily<H> as EncodeMetric>⟧.may_fault x
      | States x ↦ ⟦<NamedStates as EncodeMetric>⟧.may_fault x
      | Constant x ↦ ⟦<Constant as EncodeMetric>⟧.may_fault x
      | Own x ↦ X.may_fault x
    ] };

    fn encode(&self, encoder: &mut MetricEncoder) -> Result<(), EncodeError> {
        match self {
            Metric::Scalar(metric) => metric.encode(encoder),
            Metric::Histogram(metric) => metric.encode(encoder),
            Metric::GaugeHistogram(metric) => metric.encode(encoder),
            Metric::Family(metric) => metric.encode(encoder),
            Metric::States(metric) => metric.encode(encoder),
            Metric::Constant(metric) => metric.encode(encoder),
            Metric::Own(metric) => metric.encode(encoder),
        }
    }

    fn metric_type(&self) -> MetricType {
        match self {
            Metric::Scalar(metric) => metric.metric_type(),
            Metric::Histogram(metric) => metric.metric_type(),
            Metric::GaugeHistogram(metric) => metric.metric_type(),
            Metric::Family(metric) => metric.metric_type(),
            Metric::States(metric) => metric.metric_type(),
            Metric::Constant(metric) => metric.metric_type(),
            Metric::Own(metric) => metric.metric_type(),
        }
    }

    fn timestamp(&self) -> Option<Duration> {
        match self {
            Metric::Scalar(metric) => metric.timestamp(),
            Metric::Histogram(metric) => metric.timestamp(),
            Metric::GaugeHistogram(metric) => metric.timestamp(),
            Metric::Family(metric) => metric.timestamp(),
            Metric::States(metric) => metric.timestamp(),
            Metric::Constant(metric) => metric.timestamp(),
            Metric::Own(metric) => metric.timestamp(),
        }
    }

    fn is_empty(&self) -> bool {
        match self {
            Metric::Scalar(metric) => metric.is_empty(),
            Metric::Histogram(metric) => metric.is_empty(),
            Metric::GaugeHistogram(metric) => metric.is_empty(),
            Metric::Family(metric) => metric.is_empty(),
            Metric::States(metric) => metric.is_empty(),
            Metric::Constant(metric) => metric.is_empty(),
            Metric::Own(metric) => metric.is_empty(),
        }
    }
}

impl<H: Wait, X> From<Counter<u64>> for Metric<H, X> {
    ghost from_gives = { λ x metric. metric ≡ Scalar (Counter x) };

    fn from(value: Counter<u64>) -> Metric<H, X> {
        Metric::Scalar(Scalar::Counter(value))
    }
}

impl<H: Wait, X> From<Counter<Fixed>> for Metric<H, X> {
    ghost from_gives = { λ x metric. metric ≡ Scalar (FixedCounter x) };

    fn from(value: Counter<Fixed>) -> Metric<H, X> {
        Metric::Scalar(Scalar::FixedCounter(value))
    }
}

impl<H: Wait, X> From<Gauge<i64>> for Metric<H, X> {
    ghost from_gives = { λ x metric. metric ≡ Scalar (Gauge x) };

    fn from(value: Gauge<i64>) -> Metric<H, X> {
        Metric::Scalar(Scalar::Gauge(value))
    }
}

impl<H: Wait, X> From<Gauge<Fixed>> for Metric<H, X> {
    ghost from_gives = { λ x metric. metric ≡ Scalar (FixedGauge x) };

    fn from(value: Gauge<Fixed>) -> Metric<H, X> {
        Metric::Scalar(Scalar::FixedGauge(value))
    }
}

impl<H: Wait, X> From<Histogram<H>> for Metric<H, X> {
    ghost from_gives = { λ x metric. metric ≡ Histogram x };

    fn from(value: Histogram<H>) -> Metric<H, X> {
        Metric::Histogram(value)
    }
}

impl<H: Wait, X> From<GaugeHistogram<H>> for Metric<H, X> {
    ghost from_gives = { λ x metric. metric ≡ GaugeHistogram x };

    fn from(value: GaugeHistogram<H>) -> Metric<H, X> {
        Metric::GaugeHistogram(value)
    }
}

impl<H: Wait, X> From<CounterVec<H>> for Metric<H, X> {
    ghost from_gives = { λ x metric. metric ≡ Family (Counters x) };

    fn from(value: CounterVec<H>) -> Metric<H, X> {
        Metric::Family(NamedFamily::Counters(value))
    }
}

impl<H: Wait, X> From<FixedCounterVec<H>> for Metric<H, X> {
    ghost from_gives = { λ x metric. metric ≡ Family (FixedCounters x) };

    fn from(value: FixedCounterVec<H>) -> Metric<H, X> {
        Metric::Family(NamedFamily::FixedCounters(value))
    }
}

impl<H: Wait, X> From<GaugeVec<H>> for Metric<H, X> {
    ghost from_gives = { λ x metric. metric ≡ Family (Gauges x) };

    fn from(value: GaugeVec<H>) -> Metric<H, X> {
        Metric::Family(NamedFamily::Gauges(value))
    }
}

impl<H: Wait, X> From<FixedGaugeVec<H>> for Metric<H, X> {
    ghost from_gives = { λ x metric. metric ≡ Family (FixedGauges x) };

    fn from(value: FixedGaugeVec<H>) -> Metric<H, X> {
        Metric::Family(NamedFamily::FixedGauges(value))
    }
}

impl<H: Wait, X> From<HistogramVec<H>> for Metric<H, X> {
    ghost from_gives = { λ x metric. metric ≡ Family (Histograms x) };

    fn from(value: HistogramVec<H>) -> Metric<H, X> {
        Metric::Family(NamedFamily::Histograms(value))
    }
}

impl<H: Wait, X> From<GaugeHistogramVec<H>> for Metric<H, X> {
    ghost from_gives = { λ x metric. metric ≡ Family (GaugeHistograms x) };

    fn from(value: GaugeHistogramVec<H>) -> Metric<H, X> {
        Metric::Family(NamedFamily::GaugeHistograms(value))
    }
}

impl<H: Wait, X> From<NamedStates> for Metric<H, X> {
    ghost from_gives = { λ x metric. metric ≡ States x };

    fn from(value: NamedStates) -> Metric<H, X> {
        Metric::States(value)
    }
}

impl<H: Wait, X> From<Info<Vec<(String, String)>>> for Metric<H, X> {
    ghost from_gives = { λ x metric. metric ≡ Constant (constant.Info x) };

    fn from(value: Info<Vec<(String, String)>>) -> Metric<H, X> {
        Metric::Constant(Constant::Info(value))
    }
}

impl<H: Wait, X> From<ConstCounter<u64>> for Metric<H, X> {
    ghost from_gives = { λ x metric. metric ≡ Constant (constant.Counter x) };

    fn from(value: ConstCounter<u64>) -> Metric<H, X> {
        Metric::Constant(Constant::Counter(value))
    }
}

impl<H: Wait, X> From<ConstCounter<Fixed>> for Metric<H, X> {
    ghost from_gives = { λ x metric. metric ≡ Constant (constant.FixedCounter x) };

    fn from(value: ConstCounter<Fixed>) -> Metric<H, X> {
        Metric::Constant(Constant::FixedCounter(value))
    }
}

impl<H: Wait, X> From<ConstGauge<i64>> for Metric<H, X> {
    ghost from_gives = { λ x metric. metric ≡ Constant (constant.Gauge x) };

    fn from(value: ConstGauge<i64>) -> Metric<H, X> {
        Metric::Constant(Constant::Gauge(value))
    }
}

impl<H: Wait, X> From<ConstGauge<Fixed>> for Metric<H, X> {
    ghost from_gives = { λ x metric. metric ≡ Constant (constant.FixedGauge x) };

    fn from(value: ConstGauge<Fixed>) -> Metric<H, X> {
        Metric::Constant(Constant::FixedGauge(value))
    }
}

impl<H: Wait, X> From<Unknown<i64>> for Metric<H, X> {
    ghost from_gives = { λ x metric. metric ≡ Constant (constant.Unknown x) };

    fn from(value: Unknown<i64>) -> Metric<H, X> {
        Metric::Constant(Constant::Unknown(value))
    }
}

impl<H: Wait, X> From<Unknown<Fixed>> for Metric<H, X> {
    ghost from_gives = { λ x metric. metric ≡ Constant (constant.FixedUnknown x) };

    fn from(value: Unknown<Fixed>) -> Metric<H, X> {
        Metric::Constant(Constant::FixedUnknown(value))
    }
}

impl<H: Wait, X> From<HistogramSnapshot> for Metric<H, X> {
    ghost from_gives = { λ x metric. metric ≡ Constant (constant.Histogram x) };

    fn from(value: HistogramSnapshot) -> Metric<H, X> {
        Metric::Constant(Constant::Histogram(value))
    }
}

impl<H: Wait, X> From<GaugeHistogramSnapshot> for Metric<H, X> {
    ghost from_gives = { λ x metric. metric ≡ Constant (constant.GaugeHistogram x) };

    fn from(value: GaugeHistogramSnapshot) -> Metric<H, X> {
        Metric::Constant(Constant::GaugeHistogram(value))
    }
}
