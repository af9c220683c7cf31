//! Families by label names.
ghost use Rattle.fastmetrics.specs.declared.registry.kinds.named_family.NamedFamily.TheVariants.{Counters, FixedCounters, Gauges, FixedGauges, Histograms, GaugeHistograms};

use crate::registry::maker::{Maker, Waiter};
use fm_encoder::{EncodeMetric, MetricEncoder};
use fm_family::MetricVec;
use fm_histogram::{GaugeHistogram, Histogram};
use fm_metrics::counter::Counter;
use fm_metrics::gauge::Gauge;
use fm_raw::{EncodeError, Fixed, MetricType};
use std::sync::Wait;
use std::time::Duration;

/// Metrics of one kind with the same label names, which a root makes.
///
/// <!-- cut: tests/scripts/src/by_names.rt.in -->
/// ```rust
/// fn has_member<M: Drop, H: Waiter>(family: &VecOf<M, H>, values: &[&str]) -> bool {
///     // ..
///     family.retain(|member: &LabelValues, _metric: &M| {
/// ```
pub type VecOf<M, H> = MetricVec<M, Maker<H>, H>;

/// Counters of whole numbers with the same label names.
///
/// <!-- cut: crates/calling/src/families.rt -->
/// ```rust
/// pub fn count_request<H: Waiter>(
///     requests: &CounterVec<H>,
///     method: &str,
/// ) -> Result<u64, MetricError> {
///     requests.with(&[method], |count| count.inc())
/// }
/// ```
pub type CounterVec<H> = VecOf<Counter<u64>, H>;

/// Counters of millionths with the same label names.
///
/// <!-- cut: tests/unit/src/fm_family_by_label_names.rt.in -->
/// ```rust
/// let starts = root.fixed_counters_with(
///     Description::new("starts", "H")
///         .labels(&labels)
///         .created(created),
/// )?;
/// starts.with(
///     &["a"],
///     |count| count.inc_by(Fixed::from_millionths(2_500_000)),
/// )??;
/// ```
pub type FixedCounterVec<H> = VecOf<Counter<Fixed>, H>;

/// Gauges of whole numbers with the same label names.
///
/// <!-- cut: tests/unit/src/fm_family_by_label_names.rt.in -->
/// ```rust
/// let load = root.gauges("load", "H", &["host", "core"])?;
/// // ..
/// load.with(&values, |gauge| gauge.set(value))?;
/// ```
pub type GaugeVec<H> = VecOf<Gauge<i64>, H>;

/// Gauges of millionths with the same label names.
///
/// <!-- cut: tests/unit/src/fm_family_by_label_names.rt.in -->
/// ```rust
/// let busy = root.fixed_gauges("busy", "H", &[])?;
/// busy.with(&[], |gauge| gauge.set(Fixed::from_millionths(-250_000)))?;
/// ```
pub type FixedGaugeVec<H> = VecOf<Gauge<Fixed>, H>;

/// Histograms with the same label names.
///
/// <!-- cut: crates/server/src/main.rt -->
/// ```rust
/// let waits = Description::new("waits", "Waits by queue and place").labels(&["queue", "place"]);
/// // ..
/// waits: root.histograms_with(waits.bounds(&bounds()).limit(100))?,
/// // ..
/// pool.waits
///     .with(&["mail", "out"], |wait| wait.observe(waited))??;
/// ```
pub type HistogramVec<H> = VecOf<Histogram<H>, H>;

/// Gauge histograms with the same label names.
///
/// <!-- cut: tests/scripts/src/made.rt.in -->
/// ```rust
/// root.gauge_histograms(name, help, labels),
/// root.gauge_histograms_with(description)
/// ```
pub type GaugeHistogramVec<H> = VecOf<GaugeHistogram<H>, H>;

/// A family by label names.
///
/// It declares and offers what the family in it does.
///
/// <!-- cut: crates/server/src/main.rt -->
/// ```rust
/// requests: root.counters("requests", "Requests by method", &["method"])?,
/// ```
pub enum NamedFamily<H: Wait> {
    /// Counters of whole numbers.
    Counters(CounterVec<H>),
    /// Counters of millionths.
    FixedCounters(FixedCounterVec<H>),
    /// Gauges of whole numbers.
    Gauges(GaugeVec<H>),
    /// Gauges of millionths.
    FixedGauges(FixedGaugeVec<H>),
    /// Histograms.
    Histograms(HistogramVec<H>),
    /// Gauge histograms.
    GaugeHistograms(GaugeHistogramVec<H>),
}

impl<H: Wait + Drop> Drop for NamedFamily<H> {
    fn drop(self) {
        match self {
            NamedFamily::Counters(_) => (),
            NamedFamily::FixedCounters(_) => (),
            NamedFamily::Gauges(_) => (),
            NamedFamily::FixedGauges(_) => (),
            NamedFamily::Histograms(_) => (),
            NamedFamily::GaugeHistograms(_) => (),
        }
    }
}

impl<H: Waiter> EncodeMetric for NamedFamily<H> {
    ghost types = { λ m t. elim m [
      | Counters x ↦ ⟦<CounterVec<H> as EncodeMetric>⟧.types x t
      | FixedCounters x ↦ ⟦<FixedCounterVec<H> as EncodeMetric>⟧.types x t
      | Gauges x ↦ ⟦<GaugeVec<H> as EncodeMetric>⟧.types x t
      | FixedGauges x ↦ ⟦<FixedGaugeVec<H> as EncodeMetric>⟧.types x t
      | Histograms x ↦ ⟦<HistogramVec<H> as EncodeMetric>⟧.types x t
      | GaugeHistograms x ↦ ⟦<GaugeHistogramVec<H> as EncodeMetric>⟧.types x t
    ] };

    ghost may_be_empty = { λ m. elim m [
      | Counters x ↦ ⟦<CounterVec<H> as EncodeMetric>⟧.may_be_empty x
      | FixedCounters x ↦ ⟦<FixedCounterVec<H> as EncodeMetric>⟧.may_be_empty x
      | Gauges x ↦ ⟦<GaugeVec<H> as EncodeMetric>⟧.may_be_empty x
      | FixedGauges x ↦ ⟦<FixedGaugeVec<H> as EncodeMetric>⟧.may_be_empty x
      | Histograms x ↦ ⟦<HistogramVec<H> as EncodeMetric>⟧.may_be_empty x
      | GaugeHistograms x ↦ ⟦<GaugeHistogramVec<H> as EncodeMetric>⟧.may_be_empty x
    ] };

    ghost stamps = { λ m s. elim m [
      | Counters x ↦ ⟦<CounterVec<H> as EncodeMetric>⟧.stamps x s
      | FixedCounters x ↦ ⟦<FixedCounterVec<H> as EncodeMetric>⟧.stamps x s
      | Gauges x ↦ ⟦<GaugeVec<H> as EncodeMetric>⟧.stamps x s
      | FixedGauges x ↦ ⟦<FixedGaugeVec<H> as EncodeMetric>⟧.stamps x s
      | Histograms x ↦ ⟦<HistogramVec<H> as EncodeMetric>⟧.stamps x s
      | GaugeHistograms x ↦ ⟦<GaugeHistogramVec<H> as EncodeMetric>⟧.stamps x s
    ] };

    ghost offers = { λ m s ms. elim m [
      | Counters x ↦ ⟦<CounterVec<H> as EncodeMetric>⟧.offers x s ms
      | FixedCounters x ↦ ⟦<FixedCounterVec<H> as EncodeMetric>⟧.offers x s ms
      | Gauges x ↦ ⟦<GaugeVec<H> as EncodeMetric>⟧.offers x s ms
      | FixedGauges x ↦ ⟦<FixedGaugeVec<H> as EncodeMetric>⟧.offers x s ms
      | Histograms x ↦ ⟦<HistogramVec<H> as EncodeMetric>⟧.offers x s ms
      | GaugeHistograms x ↦ ⟦<GaugeHistogramVec<H> as EncodeMetric>⟧.offers x s ms
    ] };

    ghost may_fault = { λ m. elim m [
      | Counters x ↦ ⟦<CounterVec<H> as EncodeMetric>⟧.may_fault x
      | FixedCounters x ↦ ⟦<FixedCounterVec<H> as EncodeMetric>⟧.may_fault x
      | Gauges x ↦ ⟦<GaugeVec<H> as EncodeMetric>⟧.may_fault x
      | FixedGauges x ↦ ⟦<FixedGaugeVec<H> as EncodeMetric>⟧.may_fault x
      | Histograms x ↦ ⟦<HistogramVec<H> as EncodeMetric>⟧.may_fault x
      | GaugeHistograms x ↦ ⟦<GaugeHistogramVec<H> as EncodeMetric>⟧.may_fault x
    ] };

    fn encode(&self, encoder: &mut MetricEncoder) -> Result<(), EncodeError> {
        match self {
            NamedFamily::Counters(metric) => metric.encode(encoder),
            NamedFamily::FixedCounters(metric) => metric.encode(encoder),
            NamedFamily::Gauges(metric) => metric.encode(encoder),
            NamedFamily::FixedGauges(metric) => metric.encode(encoder),
            NamedFamily::Histograms(metric) => metric.encode(encoder),
            NamedFamily::GaugeHistograms(metric) => metric.encode(encoder),
        }
    }

    fn metric_type(&self) -> MetricType {
        match self {
            NamedFamily::Counters(metric) => metric.metric_type(),
            NamedFamily::FixedCounters(metric) => metric.metric_type(),
            NamedFamily::Gauges(metric) => metric.metric_type(),
            NamedFamily::FixedGauges(metric) => metric.metric_type(),
            NamedFamily::Histograms(metric) => metric.metric_type(),
            NamedFamily::GaugeHistograms(metric) => metric.metric_type(),
        }
    }

    fn timestamp(&self) -> Option<Duration> {
        match self {
            NamedFamily::Counters(metric) => metric.timestamp(),
            NamedFamily::FixedCounters(metric) => metric.timestamp(),
            NamedFamily::Gauges(metric) => metric.timestamp(),
            NamedFamily::FixedGauges(metric) => metric.timestamp(),
            NamedFamily::Histograms(metric) => metric.timestamp(),
            NamedFamily::GaugeHistograms(metric) => metric.timestamp(),
        }
    }

    fn is_empty(&self) -> bool {
        match self {
            NamedFamily::Counters(metric) => metric.is_empty(),
            NamedFamily::FixedCounters(metric) => metric.is_empty(),
            NamedFamily::Gauges(metric) => metric.is_empty(),
            NamedFamily::FixedGauges(metric) => metric.is_empty(),
            NamedFamily::Histograms(metric) => metric.is_empty(),
            NamedFamily::GaugeHistograms(metric) => metric.is_empty(),
        }
    }
}
