//! What registers a metric in a root.
ghost use Rattle.std.specs.Prelude.{Some, IsSome, OnOk};
ghost use Rattle.fm_registry_rules.specs.Answer.{refusal_of};
ghost use Rattle.fm_registry_rules.specs.LabelNames.{IsOrMemory};
ghost use Rattle.fm_registry_rules.specs.Tree.{subtree_from};
ghost use Rattle.fm_core.specs.Named.{named_metric};
ghost use Rattle.fastmetrics.specs.Roots.{AddsOrNot, AddsKept};
ghost use Rattle.fastmetrics.specs.Fits.{fit_refusal_here};
ghost use Rattle.fastmetrics.specs.inside.FittingMetrics.{FitsUnderAt};

use super::Root;
use crate::registry::fitting::{Place, only_own_faults};
use crate::registry::kinds::Metric;
use crate::registry::maker::Waiter;
use fm_core::registry::{RegistryError, register_at};
use fm_encoder::EncodeMetric;
use fm_raw::Unit;

impl<H: Waiter, X: EncodeMetric> Root<H, X> {
    // Fails if the names of a metric's labels can't stand beside the constant labels of the current subsystem. A counter or a gauge has
    // no labels.
    fn test_fit(
        &self,
        name: &str,
        unit: &Option<Unit>,
        metric: &Metric<H, X>,
    ) -> Result<(), RegistryError>
        ensures there { OnOk result (IsSome (subtree_from (Some self.now.at.tree) self.now.at.path)) }
        ensures answer { IsOrMemory (refusal_of result) (fit_refusal_here self.now.at name.now unit.now metric.now) }
        ensures fits { OnOk result (FitsUnderAt self.now.at.tree self.now.at.path name.now unit.now metric.now) }
    {
        let Some(registry) = self.registry.at(&self.path) else {
            return Err(RegistryError::Memory);
        };
        match metric {
            Metric::Scalar(_) => Ok(()),
            _ => {
                let place = Place {
                    alloc: self.alloc,
                    namespace: registry.namespace(),
                    labels: registry.constant_labels(),
                };
                place.test(name, unit, metric)
            }
        }
    }

    // Registers a metric in the current subsystem.
    pub(super) fn add_metric(
        &mut self,
        name: &str,
        help: &str,
        unit: Option<Unit>,
        metric: Metric<H, X>,
    ) -> Result<(), RegistryError>
        ensures { AddsOrNot (fit_refusal_here self.old.at name.now unit metric)
            (⟦<Metric<H, X> as EncodeMetric>⟧.types metric)
            (named_metric name.now help.now unit metric) self.old.at self.new.at result }
    {
        only_own_faults::<H, X>();
        self.test_fit(name, &unit, &metric)?;
        let name = String::from_str(self.alloc, name)?;
        let help = String::from_str(self.alloc, help)?;
        let metric_type = metric.metric_type();
        register_at(
            &mut self.registry,
            &self.path,
            (name, help),
            metric_type,
            unit,
            metric,
        )
    }

    // Registers a clone of a metric in the current subsystem, and returns the metric.
    pub(super) fn keep_metric<T: Into<Metric<H, X>> + Clone + Drop>(
        &mut self,
        name: &str,
        help: &str,
        unit: Option<Unit>,
        metric: T,
    ) -> Result<T, RegistryError>
        ensures { AddsKept metric T.is_clone T.converts (fit_refusal_here self.old.at name.now unit)
            ⟦<Metric<H, X> as EncodeMetric>⟧.types
            (named_metric name.now help.now unit) self.old.at self.new.at result }
    {
        let Ok(clone) = metric.clone() else {
            return Err(RegistryError::Memory);
        };
        match self.add_metric(name, help, unit, clone.into()) {
            Ok(()) => Ok(metric),
            Err(error) => Err(error),
        }
    }

    /// Registers a metric in the current subsystem, with or without a unit. At an error the metric is dropped, and the root
    /// stays as it was.
    ///
    /// It fails with `Memory` if there is none for the call, and then for a label of the metric: with `DuplicateLabel` if a
    /// constant label has its name, or if two facts of an info have the same name; with `InvalidLabelName` if a fact's name is
    /// no label name. Histograms and gauge histograms have a label `le`, and a state set has one with its printed name. Labels
    /// of the program's own metrics are tested at a scrape only. Then it has the errors of `Registry::register_metric`, in the
    /// same order.
    pub fn register<T: Into<Metric<H, X>>>(
        &mut self,
        name: &str,
        help: &str,
        unit: Option<Unit>,
        metric: T,
    ) -> Result<(), RegistryError>
        ensures { (converted : _) × T.converts metric converted
            × AddsOrNot (fit_refusal_here self.old.at name.now unit converted)
            (⟦<Metric<H, X> as EncodeMetric>⟧.types converted)
            (named_metric name.now help.now unit converted) self.old.at
            self.new.at result }
    {
        self.add_metric(name, help, unit, metric.into())
    }
}
