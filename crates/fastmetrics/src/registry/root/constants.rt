//! Metrics that are there already, or that never change, in a line each.
ghost use Rattle.std.specs.Prelude.{◌≡◌, ◌⊎◌, ℕ, List, Err, None, map, String, Vec};
ghost use Rattle.std.specs.List.{AllByRecursion};
ghost use Rattle.fm_grammar.specs.LabelPairs.{labels_of, shown_label};
ghost use Rattle.fm_registry_rules.specs.declared.error.RegistryError.TheVariants.{Memory};
ghost use Rattle.fm_core.specs.Named.{named_metric};
ghost use Rattle.std.specs.declared.alloc.Global.{Global};
ghost use Rattle.fm_metrics.specs.declared.info.Info.{Info};
ghost use Rattle.fm_metrics.specs.Constants.{label_set_of};
ghost use Rattle.fastmetrics.specs.declared.registry.kinds.constant.Constant.TheVariants as constant;
ghost use Rattle.fastmetrics.specs.declared.registry.kinds.Metric.TheVariants.{Constant};
ghost use Rattle.fm_registry_rules.specs.Tree.{Shows};
ghost use Rattle.fm_registry_rules.specs.Listing.{order};
ghost use Rattle.fastmetrics.specs.ConstantPages.{IsConstant, constants_page};
ghost use Rattle.fastmetrics.specs.Roots.{AddsOrNot, AddsKept};
ghost use Rattle.fastmetrics.specs.Fits.{fit_refusal_here};

use super::{Root, Shown};
use crate::registry::kinds::Metric;
use crate::registry::maker::Waiter;
use fm_core::registry::RegistryError;
use fm_encoder::EncodeMetric;
use fm_metrics::info::Info;
use fm_text::owned_labels;

impl<H: Waiter, X: EncodeMetric> Root<H, X> {
    /// Registers a clone of a metric in the current subsystem, and returns the metric. It has the errors of `register`, and fails with
    /// `Memory` if it can't be cloned.
    pub fn keep<T: Into<Metric<H, X>> + Clone + Drop>(
        &mut self,
        name: &str,
        help: &str,
        metric: T,
    ) -> Result<T, RegistryError>
        ensures { AddsKept metric T.is_clone T.converts (fit_refusal_here self.old.at name.now None) ⟦<Metric<H, X> as EncodeMetric>⟧.types
            (named_metric name.now help.now None) self.old.at self.new.at result }
    {
        self.keep_metric(name, help, None, metric)
    }

    /// Registers facts in the current subsystem, each a name and a text. It has the errors of `register`.
    pub fn info(
        &mut self,
        name: &str,
        help: &str,
        facts: &[(&str, &str)],
    ) -> Result<(), RegistryError>
        ensures { ((result ≡ Err Memory) × (self.new.at ≡ self.old.at))
            ⊎ ((info : Info (Vec (String Global × String Global) Global))
            × (labels_of (label_set_of info).items ≡ map shown_label facts.now)
            × AddsOrNot (fit_refusal_here self.old.at name.now None (Constant (constant.Info info)))
            (⟦<Metric<H, X> as EncodeMetric>⟧.types (Constant (constant.Info info)))
            (named_metric name.now help.now None (Constant (constant.Info info))) self.old.at
            self.new.at result) }
    {
        let facts = owned_labels(self.alloc(), facts)?;
        self.add_metric(name, help, None, Metric::from(Info::new(facts)))
    }

    /// A law, which does nothing: where each metric of a root is a constant, what was registered says which text its document is.
    pub fn shows_its_constants(&self)
        ensures { (b : _) (text : List ℕ) → Shows self.now.at.tree b
            → ⟦<Root<H, X> as Shown>⟧.is_document self.now text
            → AllByRecursion IsConstant (order b)
            → text ≡ constants_page (order b) }
    {
        let _root = self;
    }
}
