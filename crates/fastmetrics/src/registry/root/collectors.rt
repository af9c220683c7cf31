//! Collectors, which give several families at each scrape.
ghost use Rattle.std.specs.Prelude.{◌≡◌, IfOk};
ghost use Rattle.std.specs.Option.{option_map};
ghost use Rattle.fm_raw.specs.Units.{seen_unit};
ghost use Rattle.fm_registry_rules.specs.Answer.{refusal_of};
ghost use Rattle.fm_registry_rules.specs.LabelNames.{shown_texts, IsOrMemory};
ghost use Rattle.fastmetrics.specs.Roots.{names_refusal_here};
ghost use Rattle.fastmetrics.specs.Collectors.{AddsFamily, AddsFamilies};

use super::Root;
use crate::registry::description::Description;
use crate::registry::kinds::{Holds, Metric};
use crate::registry::maker::Waiter;
use fm_core::registry::RegistryError;
use fm_encoder::EncodeMetric;
use fm_family::{Collected, LabelHashing};
use fm_raw::{TypedMetric, Unit};
use std::alloc::AllocError;

// A copy of a unit, or of none.
fn same_unit(unit: &Option<Unit>) -> Result<Option<Unit>, AllocError>
    ensures { IfOk result (λ copy. option_map seen_unit copy ≡ option_map seen_unit unit.now) }
{
    unit.clone()
}

impl<H: Waiter, X: EncodeMetric> Root<H, X> {
    // The family of this description, at this place among those of a collector, if its label names fit the current registry.
    fn new_collected<M: TypedMetric, C: Drop>(
        &self,
        description: &Description<'_>,
        collector: C,
        place: usize,
    ) -> Result<Collected<M, C>, RegistryError>
        ensures answer { IsOrMemory (refusal_of result)
            (names_refusal_here M.TYPE (shown_texts description.now.labels.now) self.now.at) }
        ensures names { IfOk result (λ family. family.names ≡ shown_texts description.now.labels.now) }
        ensures collector { IfOk result (λ family. (family.collector ≡ collector) × (family.family ≡ place)) }
    {
        let hashing = if description.fixed_hasher {
            LabelHashing::Fixed
        } else {
            self.hashing
        };
        let alloc = self.alloc;
        let family = Collected::new(alloc, description.labels, hashing, collector, place)?;
        self.test_names(family.names())?;
        Ok(family)
    }

    // Registers the family of this description, which is at this place among those of its collector.
    fn add_family<M: TypedMetric, C: Clone + Drop, I>(
        &mut self,
        description: &Description<'_>,
        collector: &C,
        place: usize,
    ) -> Result<(), RegistryError>
    where
        X: Holds<Collected<M, C>, I>,
        ensures { AddsFamily C.is_clone X.holds M.TYPE ⟦<Metric<H, X> as EncodeMetric>⟧.types
            collector.now place description.now self.old.at self.new.at result }
    {
        let Ok(clone) = collector.clone() else {
            return Err(RegistryError::Memory);
        };
        let unit = same_unit(&description.unit)?;
        let family = self.new_collected(description, clone, place)?;
        let metric = Metric::Own(X::hold(family));
        self.add_metric(description.name, description.help, unit, metric)
    }

    /// Registers families of the type `M` in the current subsystem, in this order: at each scrape the collector gives the members of
    /// each of them anew. A description has its name, its help, and perhaps a unit and label names.
    ///
    /// It has the errors of `counters`, and fails with `Memory` if the collector can't be cloned. Families before the first that is
    /// refused stay registered.
    pub fn collector<M: TypedMetric, C: Clone + Drop, I>(
        &mut self,
        families: &[Description<'_>],
        collector: C,
    ) -> Result<(), RegistryError>
    where
        X: Holds<Collected<M, C>, I>,
        ensures { AddsFamilies C.is_clone X.holds M.TYPE ⟦<Metric<H, X> as EncodeMetric>⟧.types
            collector 0 families.now self.old.at self.new.at result }
    {
        for (place, description) in families.iter().enumerate() {
            self.add_family(description, &collector, place)?;
        }
        Ok(())
    }
}
