//! Metrics that never change.
ghost use Rattle.fastmetrics.specs.declared.registry.kinds.constant.Constant.TheVariants.{Info, Counter, FixedCounter, Gauge, FixedGauge, Unknown, FixedUnknown, Histogram, GaugeHistogram};

use fm_encoder::{EncodeMetric, MetricEncoder};
use fm_histogram::{GaugeHistogramSnapshot, HistogramSnapshot};
use fm_metrics::counter::ConstCounter;
use fm_metrics::gauge::ConstGauge;
use fm_metrics::info::Info;
use fm_metrics::unknown::Unknown;
use fm_raw::{EncodeError, Fixed, MetricType};
use std::time::Duration;

/// A metric that never changes.
///
/// It declares and offers what the metric in it does.
///
/// <!-- cut: crates/calling/src/roots.rt -->
/// ```rust
/// root.register(
///     "version",
///     "Version of the protocol",
///     None,
///     ConstGauge::new(3_i64),
/// )?;
/// ```
pub enum Constant {
    /// Facts, as pairs of a name and a text.
    Info(Info<Vec<(String, String)>>),
    /// A total of whole numbers.
    Counter(ConstCounter<u64>),
    /// A total in millionths.
    FixedCounter(ConstCounter<Fixed>),
    /// A whole number.
    Gauge(ConstGauge<i64>),
    /// A number in millionths.
    FixedGauge(ConstGauge<Fixed>),
    /// A whole number of unknown type.
    Unknown(Unknown<i64>),
    /// A number in millionths of unknown type.
    FixedUnknown(Unknown<Fixed>),
    /// What a histogram counted.
    Histogram(HistogramSnapshot),
    /// What a gauge histogram counted.
    GaugeHistogram(GaugeHistogramSnapshot),
}

impl Drop for Constant {
    fn drop(self) {
        match self {
            Constant::Info(_) => (),
            Constant::Counter(_) => (),
            Constant::FixedCounter(_) => (),
            Constant::Gauge(_) => (),
            Constant::FixedGauge(_) => (),
            Constant::Unknown(_) => (),
            Constant::FixedUnknown(_) => (),
            Constant::Histogram(_) => (),
            Constant::GaugeHistogram(_) => (),
        }
    }
}

impl EncodeMetric for Constant {
    ghost types = { λ m t. elim m [
      | Info x ↦ ⟦<Info<Vec<(String, String)>> as EncodeMetric>⟧.types x t
      | Counter x ↦ ⟦<ConstCounter<u64> as EncodeMetric>⟧.types x t
      | FixedCounter x ↦ ⟦<ConstCounter<Fixed> as EncodeMetric>⟧.types x t
      | Gauge x ↦ ⟦<ConstGauge<i64> as EncodeMetric>⟧.types x t
      | FixedGauge x ↦ ⟦<ConstGauge<Fixed> as EncodeMetric>⟧.types x t
      | Unknown x ↦ ⟦<Unknown<i64> as EncodeMetric>⟧.types x t
      | FixedUnknown x ↦ ⟦<Unknown<Fixed> as EncodeMetric>⟧.types x t
      | Histogram x ↦ ⟦<HistogramSnapshot as EncodeMetric>⟧.types x t
      | GaugeHistogram x ↦ ⟦<GaugeHistogramSnapshot as EncodeMetric>⟧.types x t
    ] };

    ghost may_be_empty = { λ m. elim m [
      | Info x ↦ ⟦<Info<Vec<(String, String)>> as EncodeMetric>⟧.may_be_empty x
      | Counter x ↦ ⟦<ConstCounter<u64> as EncodeMetric>⟧.may_be_empty x
      | FixedCounter x ↦ ⟦<ConstCounter<Fixed> as EncodeMetric>⟧.may_be_empty x
      | Gauge x ↦ ⟦<ConstGauge<i64> as EncodeMetric>⟧.may_be_empty x
      | FixedGauge x ↦ ⟦<ConstGauge<Fixed> as EncodeMetric>⟧.may_be_empty x
      | Unknown x ↦ ⟦<Unknown<i64> as EncodeMetric>⟧.may_be_empty x
      | FixedUnknown x ↦ ⟦<Unknown<Fixed> as EncodeMetric>⟧.may_be_empty x
      | Histogram x ↦ ⟦<HistogramSnapshot as EncodeMetric>⟧.may_be_empty x
      | GaugeHistogram x ↦ ⟦<GaugeHistogramSnapshot as EncodeMetric>⟧.may_be_empty x
    ] };

    ghost stamps = { λ m s. elim m [
      | Info x ↦ ⟦<Info<Vec<(String, String)>> as EncodeMetric>⟧.stamps x s
      | Counter x ↦ ⟦<ConstCounter<u64> as EncodeMetric>⟧.stamps x s
      | FixedCounter x ↦ ⟦<ConstCounter<Fixed> as EncodeMetric>⟧.stamps x s
      | Gauge x ↦ ⟦<ConstGauge<i64> as EncodeMetric>⟧.stamps x s
      | FixedGauge x ↦ ⟦<ConstGauge<Fixed> as EncodeMetric>⟧.stamps x s
      | Unknown x ↦ ⟦<Unknown<i64> as EncodeMetric>⟧.stamps x s
      | FixedUnknown x ↦ ⟦<Unknown<Fixed> as EncodeMetric>⟧.stamps x s
      | Histogram x ↦ ⟦<HistogramSnapshot as EncodeMetric>⟧.stamps x s
      | GaugeHistogram x ↦ ⟦<GaugeHistogramSnapshot as EncodeMetric>⟧.stamps x s
    ] };

    ghost offers = { λ m s ms. elim m [
      | Info x ↦ ⟦<Info<Vec<(String, String)>> as EncodeMetric>⟧.offers x s ms
      | Counter x ↦ ⟦<ConstCounter<u64> as EncodeMetric>⟧.offers x s ms
      | FixedCounter x ↦ ⟦<ConstCounter<Fixed> as EncodeMetric>⟧.offers x s ms
      | Gauge x ↦ ⟦<ConstGauge<i64> as EncodeMetric>⟧.offers x s ms
      | FixedGauge x ↦ ⟦<ConstGauge<Fixed> as EncodeMetric>⟧.offers x s ms
      | Unknown x ↦ ⟦<Unknown<i64> as EncodeMetric>⟧.offers x s ms
      | FixedUnknown x ↦ ⟦<Unknown<Fixed> as EncodeMetric>⟧.offers x s ms
      | Histogram x ↦ ⟦<HistogramSnapshot as EncodeMetric>⟧.offers x s ms
      | GaugeHistogram x ↦ ⟦<GaugeHistogramSnapshot as EncodeMetric>⟧.offers x s ms
    ] };

    ghost may_fault = { λ m. elim m [
      | Info x ↦ ⟦<Info<Vec<(String, String)>> as EncodeMetric>⟧.may_fault x
      | Counter x ↦ ⟦<ConstCounter<u64> as EncodeMetric>⟧.may_fault x
      | FixedCounter x ↦ ⟦<ConstCounter<Fixed> as EncodeMetric>⟧.may_fault x
      | Gauge x ↦ ⟦<ConstGauge<i64> as EncodeMetric>⟧.may_fault x
      | FixedGauge x ↦ ⟦<ConstGauge<Fixed> as EncodeMetric>⟧.may_fault x
      | Unknown x ↦ ⟦<Unknown<i64> as EncodeMetric>⟧.may_fault x
      | FixedUnknown x ↦ ⟦<Unknown<Fixed> as EncodeMetric>⟧.may_fault x
      | Histogram x ↦ ⟦<HistogramSnapshot as EncodeMetric>⟧.may_fault x
      | GaugeHistogram x ↦ ⟦<GaugeHistogramSnapshot as EncodeMetric>⟧.may_fault x
    ] };

    fn encode(&self, encoder: &mut MetricEncoder) -> Result<(), EncodeError> {
        match self {
            Constant::Info(metric) => metric.encode(encoder),
            Constant::Counter(metric) => metric.encode(encoder),
            Constant::FixedCounter(metric) => metric.encode(encoder),
            Constant::Gauge(metric) => metric.encode(encoder),
            Constant::FixedGauge(metric) => metric.encode(encoder),
            Constant::Unknown(metric) => metric.encode(encoder),
            Constant::FixedUnknown(metric) => metric.encode(encoder),
            Constant::Histogram(metric) => metric.encode(encoder),
            Constant::GaugeHistogram(metric) => metric.encode(encoder),
        }
    }

    fn metric_type(&self) -> MetricType {
        match self {
            Constant::Info(metric) => metric.metric_type(),
            Constant::Counter(metric) => metric.metric_type(),
            Constant::FixedCounter(metric) => metric.metric_type(),
            Constant::Gauge(metric) => metric.metric_type(),
            Constant::FixedGauge(metric) => metric.metric_type(),
            Constant::Unknown(metric) => metric.metric_type(),
            Constant::FixedUnknown(metric) => metric.metric_type(),
            Constant::Histogram(metric) => metric.metric_type(),
            Constant::GaugeHistogram(metric) => metric.metric_type(),
        }
    }

    fn timestamp(&self) -> Option<Duration> {
        match self {
            Constant::Info(metric) => metric.timestamp(),
            Constant::Counter(metric) => metric.timestamp(),
            Constant::FixedCounter(metric) => metric.timestamp(),
            Constant::Gauge(metric) => metric.timestamp(),
            Constant::FixedGauge(metric) => metric.timestamp(),
            Constant::Unknown(metric) => metric.timestamp(),
            Constant::FixedUnknown(metric) => metric.timestamp(),
            Constant::Histogram(metric) => metric.timestamp(),
            Constant::GaugeHistogram(metric) => metric.timestamp(),
        }
    }

    fn is_empty(&self) -> bool {
        match self {
            Constant::Info(metric) => metric.is_empty(),
            Constant::Counter(metric) => metric.is_empty(),
            Constant::FixedCounter(metric) => metric.is_empty(),
            Constant::Gauge(metric) => metric.is_empty(),
            Constant::FixedGauge(metric) => metric.is_empty(),
            Constant::Unknown(metric) => metric.is_empty(),
            Constant::FixedUnknown(metric) => metric.is_empty(),
            Constant::Histogram(metric) => metric.is_empty(),
            Constant::GaugeHistogram(metric) => metric.is_empty(),
        }
    }
}
