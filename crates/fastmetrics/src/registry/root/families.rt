//! Families by label names that a root makes and registers, a line each.
ghost use Rattle.std.specs.Prelude.{◌≡◌, IfOk, None, Some};
ghost use Rattle.fm_family.specs.VecNames.{vec_names};
ghost use Rattle.fm_core.specs.Named.{named_metric};
ghost use Rattle.fm_registry_rules.specs.Answer.{refusal_of};
ghost use Rattle.fm_registry_rules.specs.LabelNames.{shown_texts, IsOrMemory};
ghost use Rattle.fastmetrics.specs.Roots.{MakesNamed, names_refusal_here};
ghost use Rattle.fastmetrics.specs.Fits.{fit_refusal_here};
ghost use Rattle.fastmetrics.specs.declared.registry.kinds.named_family.NamedFamily.TheVariants.{Counters, FixedCounters, Gauges, FixedGauges, Histograms, GaugeHistograms};
ghost use Rattle.fastmetrics.specs.declared.registry.kinds.Metric.TheVariants.{Family};

use super::Root;
use crate::registry::description::Description;
use crate::registry::kinds::{
    CounterVec, FixedCounterVec, FixedGaugeVec, GaugeHistogramVec, GaugeVec, HistogramVec, Metric,
    VecOf,
};
use crate::registry::maker::{Made, Maker, Waiter};
use fm_core::registry::RegistryError;
use fm_encoder::EncodeMetric;
use fm_family::{LabelHashing, MetricVec};
use fm_histogram::{GaugeHistogram, Histogram};
use fm_metrics::counter::Counter;
use fm_metrics::gauge::Gauge;
use fm_raw::{Fixed, TypedMetric};

impl<H: Waiter, X: EncodeMetric> Root<H, X> {
    // A family of this description, if its label names fit the current registry.
    fn new_family<M: Made<H> + TypedMetric + Drop>(
        &self,
        description: &Description<'_>,
    ) -> Result<VecOf<M, H>, RegistryError>
        ensures answer { IsOrMemory (refusal_of result)
            (names_refusal_here M.TYPE (shown_texts description.now.labels.now) self.now.at) }
        ensures names { IfOk result (λ family. vec_names family
            ≡ shown_texts description.now.labels.now) }
    {
        let alloc = self.alloc;
        let maker = Maker::new(self.wait, alloc, description.bounds, description.created)?;
        let hashing = if description.fixed_hasher {
            LabelHashing::Fixed
        } else {
            self.hashing
        };
        let family = MetricVec::new(
            self.wait,
            alloc,
            description.labels,
            maker,
            hashing,
            description.limit,
        )?;
        self.test_names(family.names())?;
        Ok(family)
    }

    // What each call below does: all but the type of the members is the same, and is proved here once.
    fn make_family<M: Made<H> + TypedMetric + Drop>(
        &mut self,
        description: Description<'_>,
    ) -> Result<VecOf<M, H>, RegistryError>
    where
        Metric<H, X>: From<VecOf<M, H>>,
        ensures { MakesNamed
            (names_refusal_here M.TYPE (shown_texts description.entry.labels.now) self.old.at)
            (λ family. vec_names family ≡ shown_texts description.entry.labels.now)
            ⟦<VecOf<M, H> as Clone>⟧.is_clone
            ⟦<Metric<H, X> as From<VecOf<M, H>>>⟧.from_gives
            (fit_refusal_here self.old.at description.entry.name.now description.entry.unit)
            ⟦<Metric<H, X> as EncodeMetric>⟧.types
            (named_metric description.entry.name.now description.entry.help.now description.entry.unit) self.old.at
            self.new.at
            result }
    {
        let family = self.new_family(&description)?;
        self.keep_metric(description.name, description.help, description.unit, family)
    }

    /// Makes a family of counters of whole numbers with these label names, registers a clone of it in the current subsystem, and returns it.
    ///
    /// The first name that is no label name (`InvalidLabelName`) or that was there before (`DuplicateLabel`) is the error's, then one
    /// that the type reserves (`ReservedLabel`), then one that a constant label of the registry has (`DuplicateLabel`). Then it has the
    /// errors of `register`.
    pub fn counters(
        &mut self,
        name: &str,
        help: &str,
        labels: &[&str],
    ) -> Result<CounterVec<H>, RegistryError>
        ensures { MakesNamed
            (names_refusal_here ⟦<Counter<u64> as TypedMetric>⟧.TYPE (shown_texts labels.now) self.old.at)
            (λ family. vec_names family ≡ shown_texts labels.now)
            ⟦<CounterVec<H> as Clone>⟧.is_clone
            (λ x metric. metric ≡ Family (Counters x))
            (fit_refusal_here self.old.at name.now None)
            ⟦<Metric<H, X> as EncodeMetric>⟧.types
            (named_metric name.now help.now None) self.old.at
            self.new.at
            result }
    {
        self.make_family(Description::new(name, help).labels(labels))
    }

    /// Like `counters`, by its description.
    pub fn counters_with(
        &mut self,
        description: Description<'_>,
    ) -> Result<CounterVec<H>, RegistryError>
        ensures { MakesNamed
            (names_refusal_here ⟦<Counter<u64> as TypedMetric>⟧.TYPE (shown_texts description.entry.labels.now) self.old.at)
            (λ family. vec_names family ≡ shown_texts description.entry.labels.now)
            ⟦<CounterVec<H> as Clone>⟧.is_clone
            (λ x metric. metric ≡ Family (Counters x))
            (fit_refusal_here self.old.at description.entry.name.now description.entry.unit)
            ⟦<Metric<H, X> as EncodeMetric>⟧.types
            (named_metric description.entry.name.now description.entry.help.now description.entry.unit) self.old.at
            self.new.at
            result }
    {
        self.make_family(description)
    }

    /// Makes a family of counters of millionths with these label names, registers a clone of it in the current subsystem, and returns it.
    ///
    /// The first name that is no label name (`InvalidLabelName`) or that was there before (`DuplicateLabel`) is the error's, then one
    /// that the type reserves (`ReservedLabel`), then one that a constant label of the registry has (`DuplicateLabel`). Then it has the
    /// errors of `register`.
    pub fn fixed_counters(
        &mut self,
        name: &str,
        help: &str,
        labels: &[&str],
    ) -> Result<FixedCounterVec<H>, RegistryError>
        ensures { MakesNamed
            (names_refusal_here ⟦<Counter<Fixed> as TypedMetric>⟧.TYPE (shown_texts labels.now) self.old.at)
            (λ family. vec_names family ≡ shown_texts labels.now)
            ⟦<FixedCounterVec<H> as Clone>⟧.is_clone
            (λ x metric. metric ≡ Family (FixedCounters x))
            (fit_refusal_here self.old.at name.now None)
            ⟦<Metric<H, X> as EncodeMetric>⟧.types
            (named_metric name.now help.now None) self.old.at
            self.new.at
            result }
    {
        self.make_family(Description::new(name, help).labels(labels))
    }

    /// Like `fixed_counters`, by its description.
    pub fn fixed_counters_with(
        &mut self,
        description: Description<'_>,
    ) -> Result<FixedCounterVec<H>, RegistryError>
        ensures { MakesNamed
            (names_refusal_here ⟦<Counter<Fixed> as TypedMetric>⟧.TYPE (shown_texts description.entry.labels.now) self.old.at)
            (λ family. vec_names family ≡ shown_texts description.entry.labels.now)
            ⟦<FixedCounterVec<H> as Clone>⟧.is_clone
            (λ x metric. metric ≡ Family (FixedCounters x))
            (fit_refusal_here self.old.at description.entry.name.now description.entry.unit)
            ⟦<Metric<H, X> as EncodeMetric>⟧.types
            (named_metric description.entry.name.now description.entry.help.now description.entry.unit) self.old.at
            self.new.at
            result }
    {
        self.make_family(description)
    }

    /// Makes a family of gauges of whole numbers with these label names, registers a clone of it in the current subsystem, and returns it.
    ///
    /// The first name that is no label name (`InvalidLabelName`) or that was there before (`DuplicateLabel`) is the error's, then one
    /// that the type reserves (`ReservedLabel`), then one that a constant label of the registry has (`DuplicateLabel`). Then it has the
    /// errors of `register`.
    pub fn gauges(
        &mut self,
        name: &str,
        help: &str,
        labels: &[&str],
    ) -> Result<GaugeVec<H>, RegistryError>
        ensures { MakesNamed
            (names_refusal_here ⟦<Gauge<i64> as TypedMetric>⟧.TYPE (shown_texts labels.now) self.old.at)
            (λ family. vec_names family ≡ shown_texts labels.now)
            ⟦<GaugeVec<H> as Clone>⟧.is_clone
            (λ x metric. metric ≡ Family (Gauges x))
            (fit_refusal_here self.old.at name.now None)
            ⟦<Metric<H, X> as EncodeMetric>⟧.types
            (named_metric name.now help.now None) self.old.at
            self.new.at
            result }
    {
        self.make_family(Description::new(name, help).labels(labels))
    }

    /// Like `gauges`, by its description.
    pub fn gauges_with(
        &mut self,
        description: Description<'_>,
    ) -> Result<GaugeVec<H>, RegistryError>
        ensures { MakesNamed
            (names_refusal_here ⟦<Gauge<i64> as TypedMetric>⟧.TYPE (shown_texts description.entry.labels.now) self.old.at)
            (λ family. vec_names family ≡ shown_texts description.entry.labels.now)
            ⟦<GaugeVec<H> as Clone>⟧.is_clone
            (λ x metric. metric ≡ Family (Gauges x))
            (fit_refusal_here self.old.at description.entry.name.now description.entry.unit)
            ⟦<Metric<H, X> as EncodeMetric>⟧.types
            (named_metric description.entry.name.now description.entry.help.now description.entry.unit) self.old.at
            self.new.at
            result }
    {
        self.make_family(description)
    }

    /// Makes a family of gauges of millionths with these label names, registers a clone of it in the current subsystem, and returns it.
    ///
    /// The first name that is no label name (`InvalidLabelName`) or that was there before (`DuplicateLabel`) is the error's, then one
    /// that the type reserves (`ReservedLabel`), then one that a constant label of the registry has (`DuplicateLabel`). Then it has the
    /// errors of `register`.
    pub fn fixed_gauges(
        &mut self,
        name: &str,
        help: &str,
        labels: &[&str],
    ) -> Result<FixedGaugeVec<H>, RegistryError>
        ensures { MakesNamed
            (names_refusal_here ⟦<Gauge<Fixed> as TypedMetric>⟧.TYPE (shown_texts labels.now) self.old.at)
            (λ family. vec_names family ≡ shown_texts labels.now)
            ⟦<FixedGaugeVec<H> as Clone>⟧.is_clone
            (λ x metric. metric ≡ Family (FixedGauges x))
            (fit_refusal_here self.old.at name.now None)
            ⟦<Metric<H, X> as EncodeMetric>⟧.types
            (named_metric name.now help.now None) self.old.at
            self.new.at
            result }
    {
        self.make_family(Description::new(name, help).labels(labels))
    }

    /// Like `fixed_gauges`, by its description.
    pub fn fixed_gauges_with(
        &mut self,
        description: Description<'_>,
    ) -> Result<FixedGaugeVec<H>, RegistryError>
        ensures { MakesNamed
            (names_refusal_here ⟦<Gauge<Fixed> as TypedMetric>⟧.TYPE (shown_texts description.entry.labels.now) self.old.at)
            (λ family. vec_names family ≡ shown_texts description.entry.labels.now)
            ⟦<FixedGaugeVec<H> as Clone>⟧.is_clone
            (λ x metric. metric ≡ Family (FixedGauges x))
            (fit_refusal_here self.old.at description.entry.name.now description.entry.unit)
            ⟦<Metric<H, X> as EncodeMetric>⟧.types
            (named_metric description.entry.name.now description.entry.help.now description.entry.unit) self.old.at
            self.new.at
            result }
    {
        self.make_family(description)
    }

    /// Makes a family of histograms with these label names, registers a clone of it in the current subsystem, and returns it.
    ///
    /// The first name that is no label name (`InvalidLabelName`) or that was there before (`DuplicateLabel`) is the error's, then one
    /// that the type reserves (`ReservedLabel`), then one that a constant label of the registry has (`DuplicateLabel`). Then it has the
    /// errors of `register`.
    pub fn histograms(
        &mut self,
        name: &str,
        help: &str,
        labels: &[&str],
    ) -> Result<HistogramVec<H>, RegistryError>
        ensures { MakesNamed
            (names_refusal_here ⟦<Histogram<H> as TypedMetric>⟧.TYPE (shown_texts labels.now) self.old.at)
            (λ family. vec_names family ≡ shown_texts labels.now)
            ⟦<HistogramVec<H> as Clone>⟧.is_clone
            (λ x metric. metric ≡ Family (Histograms x))
            (fit_refusal_here self.old.at name.now None)
            ⟦<Metric<H, X> as EncodeMetric>⟧.types
            (named_metric name.now help.now None) self.old.at
            self.new.at
            result }
    {
        self.make_family(Description::new(name, help).labels(labels))
    }

    /// Like `histograms`, by its description.
    pub fn histograms_with(
        &mut self,
        description: Description<'_>,
    ) -> Result<HistogramVec<H>, RegistryError>
        ensures { MakesNamed
            (names_refusal_here ⟦<Histogram<H> as TypedMetric>⟧.TYPE (shown_texts description.entry.labels.now) self.old.at)
            (λ family. vec_names family ≡ shown_texts description.entry.labels.now)
            ⟦<HistogramVec<H> as Clone>⟧.is_clone
            (λ x metric. metric ≡ Family (Histograms x))
            (fit_refusal_here self.old.at description.entry.name.now description.entry.unit)
            ⟦<Metric<H, X> as EncodeMetric>⟧.types
            (named_metric description.entry.name.now description.entry.help.now description.entry.unit) self.old.at
            self.new.at
            result }
    {
        self.make_family(description)
    }

    /// Makes a family of gauge histograms with these label names, registers a clone of it in the current subsystem, and returns it.
    ///
    /// The first name that is no label name (`InvalidLabelName`) or that was there before (`DuplicateLabel`) is the error's, then one
    /// that the type reserves (`ReservedLabel`), then one that a constant label of the registry has (`DuplicateLabel`). Then it has the
    /// errors of `register`.
    pub fn gauge_histograms(
        &mut self,
        name: &str,
        help: &str,
        labels: &[&str],
    ) -> Result<GaugeHistogramVec<H>, RegistryError>
        ensures { MakesNamed
            (names_refusal_here ⟦<GaugeHistogram<H> as TypedMetric>⟧.TYPE (shown_texts labels.now) self.old.at)
            (λ family. vec_names family ≡ shown_texts labels.now)
            ⟦<GaugeHistogramVec<H> as Clone>⟧.is_clone
            (λ x metric. metric ≡ Family (GaugeHistograms x))
            (fit_refusal_here self.old.at name.now None)
            ⟦<Metric<H, X> as EncodeMetric>⟧.types
            (named_metric name.now help.now None) self.old.at
            self.new.at
            result }
    {
        self.make_family(Description::new(name, help).labels(labels))
    }

    /// Like `gauge_histograms`, by its description.
    pub fn gauge_histograms_with(
        &mut self,
        description: Description<'_>,
    ) -> Result<GaugeHistogramVec<H>, RegistryError>
        ensures { MakesNamed
            (names_refusal_here ⟦<GaugeHistogram<H> as TypedMetric>⟧.TYPE (shown_texts description.entry.labels.now) self.old.at)
            (λ family. vec_names family ≡ shown_texts description.entry.labels.now)
            ⟦<GaugeHistogramVec<H> as Clone>⟧.is_clone
            (λ x metric. metric ≡ Family (GaugeHistograms x))
            (fit_refusal_here self.old.at description.entry.name.now description.entry.unit)
            ⟦<Metric<H, X> as EncodeMetric>⟧.types
            (named_metric description.entry.name.now description.entry.help.now description.entry.unit) self.old.at
            self.new.at
            result }
    {
        self.make_family(description)
    }
}
