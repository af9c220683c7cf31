//! Metrics that a root makes and registers, a line each.
ghost use Rattle.std.specs.Prelude.{◌≡◌, None, Some};
ghost use Rattle.fm_core.specs.Named.{named_metric};
ghost use Rattle.fastmetrics.specs.Roots.{Makes};
ghost use Rattle.fastmetrics.specs.Fits.{fit_refusal_here};
ghost use Rattle.fastmetrics.specs.declared.registry.kinds.scalar.Scalar.TheVariants as scalar;
ghost use Rattle.fastmetrics.specs.declared.registry.kinds.Metric.TheVariants.{Scalar, Histogram, GaugeHistogram};

use super::Root;
use crate::registry::description::Description;
use crate::registry::kinds::Metric;
use crate::registry::maker::{Made, Maker, Waiter};
use fm_core::registry::RegistryError;
use fm_encoder::EncodeMetric;
use fm_histogram::{GaugeHistogram, Histogram};
use fm_metrics::counter::Counter;
use fm_metrics::gauge::Gauge;
use fm_raw::Fixed;

impl<H: Waiter, X: EncodeMetric> Root<H, X> {
    // What each call below does, proved once for all types of metrics.
    fn make<T: Made<H> + Clone + Drop>(
        &mut self,
        description: Description<'_>,
    ) -> Result<T, RegistryError>
    where
        Metric<H, X>: From<T>,
        ensures { Makes (T.is_made description.entry.created) T.is_clone
            ⟦<Metric<H, X> as From<T>>⟧.from_gives
            (fit_refusal_here self.old.at description.entry.name.now description.entry.unit)
            ⟦<Metric<H, X> as EncodeMetric>⟧.types
            (named_metric description.entry.name.now description.entry.help.now description.entry.unit) self.old.at
            self.new.at
            result }
    {
        let made = Maker::new(
            self.wait,
            self.alloc,
            description.bounds,
            description.created,
        );
        let Ok(maker) = made else {
            return Err(RegistryError::Memory);
        };
        let Ok(metric) = T::made(&maker) else {
            return Err(RegistryError::Memory);
        };
        self.keep_metric(description.name, description.help, description.unit, metric)
    }

    /// Makes a counter of whole numbers, registers a clone of it in the current subsystem, and returns it. It has the errors of `register`.
    pub fn counter(&mut self, name: &str, help: &str) -> Result<Counter<u64>, RegistryError>
        ensures { Makes (⟦<Counter<u64> as Made<H>>⟧.is_made None) ⟦<Counter<u64> as Clone>⟧.is_clone
            (λ x metric. metric ≡ Scalar (scalar.Counter x))
            (fit_refusal_here self.old.at name.now None)
            ⟦<Metric<H, X> as EncodeMetric>⟧.types
            (named_metric name.now help.now None) self.old.at
            self.new.at
            result }
    {
        self.make(Description::new(name, help))
    }

    /// Like `counter`, by its description.
    pub fn counter_with(
        &mut self,
        description: Description<'_>,
    ) -> Result<Counter<u64>, RegistryError>
        ensures { Makes (⟦<Counter<u64> as Made<H>>⟧.is_made description.entry.created) ⟦<Counter<u64> as Clone>⟧.is_clone
            (λ x metric. metric ≡ Scalar (scalar.Counter x))
            (fit_refusal_here self.old.at description.entry.name.now description.entry.unit)
            ⟦<Metric<H, X> as EncodeMetric>⟧.types
            (named_metric description.entry.name.now description.entry.help.now description.entry.unit) self.old.at
            self.new.at
            result }
    {
        self.make(description)
    }

    /// Makes a counter of millionths, registers a clone of it in the current subsystem, and returns it. It has the errors of `register`.
    pub fn fixed_counter(&mut self, name: &str, help: &str) -> Result<Counter<Fixed>, RegistryError>
        ensures { Makes (⟦<Counter<Fixed> as Made<H>>⟧.is_made None) ⟦<Counter<Fixed> as Clone>⟧.is_clone
            (λ x metric. metric ≡ Scalar (scalar.FixedCounter x))
            (fit_refusal_here self.old.at name.now None)
            ⟦<Metric<H, X> as EncodeMetric>⟧.types
            (named_metric name.now help.now None) self.old.at
            self.new.at
            result }
    {
        self.make(Description::new(name, help))
    }

    /// Like `fixed_counter`, by its description.
    pub fn fixed_counter_with(
        &mut self,
        description: Description<'_>,
    ) -> Result<Counter<Fixed>, RegistryError>
        ensures { Makes (⟦<Counter<Fixed> as Made<H>>⟧.is_made description.entry.created) ⟦<Counter<Fixed> as Clone>⟧.is_clone
            (λ x metric. metric ≡ Scalar (scalar.FixedCounter x))
            (fit_refusal_here self.old.at description.entry.name.now description.entry.unit)
            ⟦<Metric<H, X> as EncodeMetric>⟧.types
            (named_metric description.entry.name.now description.entry.help.now description.entry.unit) self.old.at
            self.new.at
            result }
    {
        self.make(description)
    }

    /// Makes a gauge of whole numbers, registers a clone of it in the current subsystem, and returns it. It has the errors of `register`.
    pub fn gauge(&mut self, name: &str, help: &str) -> Result<Gauge<i64>, RegistryError>
        ensures { Makes (⟦<Gauge<i64> as Made<H>>⟧.is_made None) ⟦<Gauge<i64> as Clone>⟧.is_clone
            (λ x metric. metric ≡ Scalar (scalar.Gauge x))
            (fit_refusal_here self.old.at name.now None)
            ⟦<Metric<H, X> as EncodeMetric>⟧.types
            (named_metric name.now help.now None) self.old.at
            self.new.at
            result }
    {
        self.make(Description::new(name, help))
    }

    /// Like `gauge`, by its description.
    pub fn gauge_with(&mut self, description: Description<'_>) -> Result<Gauge<i64>, RegistryError>
        ensures { Makes (⟦<Gauge<i64> as Made<H>>⟧.is_made description.entry.created) ⟦<Gauge<i64> as Clone>⟧.is_clone
            (λ x metric. metric ≡ Scalar (scalar.Gauge x))
            (fit_refusal_here self.old.at description.entry.name.now description.entry.unit)
            ⟦<Metric<H, X> as EncodeMetric>⟧.types
            (named_metric description.entry.name.now description.entry.help.now description.entry.unit) self.old.at
            self.new.at
            result }
    {
        self.make(description)
    }

    /// Makes a gauge of millionths, registers a clone of it in the current subsystem, and returns it. It has the errors of `register`.
    pub fn fixed_gauge(&mut self, name: &str, help: &str) -> Result<Gauge<Fixed>, RegistryError>
        ensures { Makes (⟦<Gauge<Fixed> as Made<H>>⟧.is_made None) ⟦<Gauge<Fixed> as Clone>⟧.is_clone
            (λ x metric. metric ≡ Scalar (scalar.FixedGauge x))
            (fit_refusal_here self.old.at name.now None)
            ⟦<Metric<H, X> as EncodeMetric>⟧.types
            (named_metric name.now help.now None) self.old.at
            self.new.at
            result }
    {
        self.make(Description::new(name, help))
    }

    /// Like `fixed_gauge`, by its description.
    pub fn fixed_gauge_with(
        &mut self,
        description: Description<'_>,
    ) -> Result<Gauge<Fixed>, RegistryError>
        ensures { Makes (⟦<Gauge<Fixed> as Made<H>>⟧.is_made description.entry.created) ⟦<Gauge<Fixed> as Clone>⟧.is_clone
            (λ x metric. metric ≡ Scalar (scalar.FixedGauge x))
            (fit_refusal_here self.old.at description.entry.name.now description.entry.unit)
            ⟦<Metric<H, X> as EncodeMetric>⟧.types
            (named_metric description.entry.name.now description.entry.help.now description.entry.unit) self.old.at
            self.new.at
            result }
    {
        self.make(description)
    }

    /// Makes a histogram, registers a clone of it in the current subsystem, and returns it. It has the errors of `register`.
    pub fn histogram(&mut self, name: &str, help: &str) -> Result<Histogram<H>, RegistryError>
        ensures { Makes (⟦<Histogram<H> as Made<H>>⟧.is_made None) ⟦<Histogram<H> as Clone>⟧.is_clone
            (λ x metric. metric ≡ Histogram x)
            (fit_refusal_here self.old.at name.now None)
            ⟦<Metric<H, X> as EncodeMetric>⟧.types
            (named_metric name.now help.now None) self.old.at
            self.new.at
            result }
    {
        self.make(Description::new(name, help))
    }

    /// Like `histogram`, by its description.
    pub fn histogram_with(
        &mut self,
        description: Description<'_>,
    ) -> Result<Histogram<H>, RegistryError>
        ensures { Makes (⟦<Histogram<H> as Made<H>>⟧.is_made description.entry.created) ⟦<Histogram<H> as Clone>⟧.is_clone
            (λ x metric. metric ≡ Histogram x)
            (fit_refusal_here self.old.at description.entry.name.now description.entry.unit)
            ⟦<Metric<H, X> as EncodeMetric>⟧.types
            (named_metric description.entry.name.now description.entry.help.now description.entry.unit) self.old.at
            self.new.at
            result }
    {
        self.make(description)
    }

    /// Makes a gauge histogram, registers a clone of it in the current subsystem, and returns it. It has the errors of `register`.
    pub fn gauge_histogram(
        &mut self,
        name: &str,
        help: &str,
    ) -> Result<GaugeHistogram<H>, RegistryError>
        ensures { Makes (⟦<GaugeHistogram<H> as Made<H>>⟧.is_made None) ⟦<GaugeHistogram<H> as Clone>⟧.is_clone
            (λ x metric. metric ≡ GaugeHistogram x)
            (fit_refusal_here self.old.at name.now None)
            ⟦<Metric<H, X> as EncodeMetric>⟧.types
            (named_metric name.now help.now None) self.old.at
            self.new.at
            result }
    {
        self.make(Description::new(name, help))
    }

    /// Like `gauge_histogram`, by its description.
    pub fn gauge_histogram_with(
        &mut self,
        description: Description<'_>,
    ) -> Result<GaugeHistogram<H>, RegistryError>
        ensures { Makes (⟦<GaugeHistogram<H> as Made<H>>⟧.is_made description.entry.created) ⟦<GaugeHistogram<H> as Clone>⟧.is_clone
            (λ x metric. metric ≡ GaugeHistogram x)
            (fit_refusal_here self.old.at description.entry.name.now description.entry.unit)
            ⟦<Metric<H, X> as EncodeMetric>⟧.types
            (named_metric description.entry.name.now description.entry.help.now description.entry.unit) self.old.at
            self.new.at
            result }
    {
        self.make(description)
    }
}
