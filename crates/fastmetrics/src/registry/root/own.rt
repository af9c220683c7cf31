//! Metrics of the program's own, which a root registers.
ghost use Rattle.std.specs.Prelude.{◌≡◌, None};
ghost use Rattle.fm_core.specs.Named.{named_metric};
ghost use Rattle.fastmetrics.specs.declared.registry.kinds.Metric.TheVariants.{Own};
ghost use Rattle.fastmetrics.specs.Roots.{AddsOrNot, Makes};
ghost use Rattle.fastmetrics.specs.Fits.{fit_refusal_here};

use super::Root;
use crate::registry::description::Description;
use crate::registry::kinds::{Holds, Metric};
use crate::registry::maker::Waiter;
use fm_core::registry::RegistryError;
use fm_encoder::EncodeMetric;
use fm_raw::TryDefault;

impl<H: Waiter, X: EncodeMetric> Root<H, X> {
    /// Registers a metric of the program's own in the current subsystem. It has the errors of `register`.
    pub fn add_own<T, I>(&mut self, name: &str, help: &str, metric: T) -> Result<(), RegistryError>
    where
        X: Holds<T, I>,
        ensures { (held : X) × X.holds metric held
            × AddsOrNot (fit_refusal_here self.old.at name.now None (Own held)) (⟦<Metric<H, X> as EncodeMetric>⟧.types (Own held))
            (named_metric name.now help.now None (Own held)) self.old.at
            self.new.at result }
    {
        self.add_metric(name, help, None, Metric::Own(X::hold(metric)))
    }

    /// Like `add_own`, by its description, which has a name, a help and perhaps a unit.
    pub fn add_own_with<T, I>(
        &mut self,
        description: Description<'_>,
        metric: T,
    ) -> Result<(), RegistryError>
    where
        X: Holds<T, I>,
        ensures { (held : X) × X.holds metric held
            × AddsOrNot (fit_refusal_here self.old.at description.entry.name.now description.entry.unit (Own held)) (⟦<Metric<H, X> as EncodeMetric>⟧.types (Own held))
            (named_metric description.entry.name.now description.entry.help.now description.entry.unit (Own held)) self.old.at
            self.new.at result }
    {
        self.add_metric(
            description.name,
            description.help,
            description.unit,
            Metric::Own(X::hold(metric)),
        )
    }

    /// Makes a metric of the program's own by `try_default`, registers a clone of it in the current subsystem, and returns it. It has
    /// the errors of `register`, and fails with `Memory` if the metric can't be made.
    pub fn own<T: TryDefault<H> + Clone + Drop, I>(
        &mut self,
        name: &str,
        help: &str,
    ) -> Result<T, RegistryError>
    where
        X: Holds<T, I>,
        ensures { Makes T.is_default T.is_clone
            (λ x own. (held : X) × X.holds x held × (own ≡ Own held))
            (fit_refusal_here self.old.at name.now None)
            ⟦<Metric<H, X> as EncodeMetric>⟧.types
            (named_metric name.now help.now None) self.old.at
            self.new.at
            result }
    {
        let Ok(metric) = T::try_default(self.wait(), self.alloc()) else {
            return Err(RegistryError::Memory);
        };
        let Ok(clone) = metric.clone() else {
            return Err(RegistryError::Memory);
        };
        match self.add_own(name, help, clone) {
            Ok(()) => Ok(metric),
            Err(error) => Err(error),
        }
    }
}
