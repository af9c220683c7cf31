//! Counters and gauges.
ghost use Rattle.fastmetrics.specs.declared.registry.kinds.scalar.Scalar.TheVariants.{Counter, FixedCounter, Gauge, FixedGauge};

use fm_encoder::{EncodeMetric, MetricEncoder};
use fm_metrics::counter::Counter;
use fm_metrics::gauge::Gauge;
use fm_raw::{EncodeError, Fixed, MetricType};
use std::time::Duration;

/// A counter or a gauge.
///
/// It declares and offers what the metric in it does.
///
/// <!-- cut: crates/server/src/main.rt -->
/// ```rust
/// jobs: root.counter("jobs", "Jobs that were done")?,
/// busy: root.gauge("busy", "Workers that have a job")?,
/// ```
pub enum Scalar {
    /// A counter of whole numbers.
    Counter(Counter<u64>),
    /// A counter of millionths.
    FixedCounter(Counter<Fixed>),
    /// A gauge of whole numbers.
    Gauge(Gauge<i64>),
    /// A gauge of millionths.
    FixedGauge(Gauge<Fixed>),
}

impl Drop for Scalar {
    fn drop(self) {
        match self {
            Scalar::Counter(_) => (),
            Scalar::FixedCounter(_) => (),
            Scalar::Gauge(_) => (),
            Scalar::FixedGauge(_) => (),
        }
    }
}

impl EncodeMetric for Scalar {
    ghost types = { λ m t. elim m [
      | Counter x ↦ ⟦<Counter<u64> as EncodeMetric>⟧.types x t
      | FixedCounter x ↦ ⟦<Counter<Fixed> as EncodeMetric>⟧.types x t
      | Gauge x ↦ ⟦<Gauge<i64> as EncodeMetric>⟧.types x t
      | FixedGauge x ↦ ⟦<Gauge<Fixed> as EncodeMetric>⟧.types x t
    ] };

    ghost may_be_empty = { λ m. elim m [
      | Counter x ↦ ⟦<Counter<u64> as EncodeMetric>⟧.may_be_empty x
      | FixedCounter x ↦ ⟦<Counter<Fixed> as EncodeMetric>⟧.may_be_empty x
      | Gauge x ↦ ⟦<Gauge<i64> as EncodeMetric>⟧.may_be_empty x
      | FixedGauge x ↦ ⟦<Gauge<Fixed> as EncodeMetric>⟧.may_be_empty x
    ] };

    ghost stamps = { λ m s. elim m [
      | Counter x ↦ ⟦<Counter<u64> as EncodeMetric>⟧.stamps x s
      | FixedCounter x ↦ ⟦<Counter<Fixed> as EncodeMetric>⟧.stamps x s
      | Gauge x ↦ ⟦<Gauge<i64> as EncodeMetric>⟧.stamps x s
      | FixedGauge x ↦ ⟦<Gauge<Fixed> as EncodeMetric>⟧.stamps x s
    ] };

    ghost offers = { λ m s ms. elim m [
      | Counter x ↦ ⟦<Counter<u64> as EncodeMetric>⟧.offers x s ms
      | FixedCounter x ↦ ⟦<Counter<Fixed> as EncodeMetric>⟧.offers x s ms
      | Gauge x ↦ ⟦<Gauge<i64> as EncodeMetric>⟧.offers x s ms
      | FixedGauge x ↦ ⟦<Gauge<Fixed> as EncodeMetric>⟧.offers x s ms
    ] };

    ghost may_fault = { λ m. elim m [
      | Counter x ↦ ⟦<Counter<u64> as EncodeMetric>⟧.may_fault x
      | FixedCounter x ↦ ⟦<Counter<Fixed> as EncodeMetric>⟧.may_fault x
      | Gauge x ↦ ⟦<Gauge<i64> as EncodeMetric>⟧.may_fault x
      | FixedGauge x ↦ ⟦<Gauge<Fixed> as EncodeMetric>⟧.may_fault x
    ] };

    fn encode(&self, encoder: &mut MetricEncoder) -> Result<(), EncodeError> {
        match self {
            Scalar::Counter(metric) => metric.encode(encoder),
            Scalar::FixedCounter(metric) => metric.encode(encoder),
            Scalar::Gauge(metric) => metric.encode(encoder),
            Scalar::FixedGauge(metric) => metric.encode(encoder),
        }
    }

    fn metric_type(&self) -> MetricType {
        match self {
            Scalar::Counter(metric) => metric.metric_type(),
            Scalar::FixedCounter(metric) => metric.metric_type(),
            Scalar::Gauge(metric) => metric.metric_type(),
            Scalar::FixedGauge(metric) => metric.metric_type(),
        }
    }

    fn timestamp(&self) -> Option<Duration> {
        match self {
            Scalar::Counter(metric) => metric.timestamp(),
            Scalar::FixedCounter(metric) => metric.timestamp(),
            Scalar::Gauge(metric) => metric.timestamp(),
            Scalar::FixedGauge(metric) => metric.timestamp(),
        }
    }

    fn is_empty(&self) -> bool {
        match self {
            Scalar::Counter(metric) => metric.is_empty(),
            Scalar::FixedCounter(metric) => metric.is_empty(),
            Scalar::Gauge(metric) => metric.is_empty(),
            Scalar::FixedGauge(metric) => metric.is_empty(),
        }
    }
}
