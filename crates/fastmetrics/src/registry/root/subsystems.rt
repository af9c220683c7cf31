//! The subsystem in which a root registers.
ghost use Rattle.std.specs.Prelude.{◌≡◌, ◌⊎◌, Err, OnOk, IfErr, length, take, map};
ghost use Rattle.fm_grammar.specs.LabelPairs.{labels_of, shown_label};
ghost use Rattle.fm_registry_rules.specs.declared.error.RegistryError.TheVariants.{Memory};
ghost use Rattle.fm_registry_rules.specs.Answer.{refusal_of};
ghost use Rattle.fm_registry_rules.specs.LabelNames.{IsOrMemory};
ghost use Rattle.fm_core.specs.Calls.{seen_path};
ghost use Rattle.fastmetrics.specs.Roots.{Enters, constants_refusal, labels_here};

use super::Root;
use crate::registry::calls::{asking, path_below};
use crate::registry::fitting::test_constants;
use crate::registry::maker::Waiter;
use fm_core::registry::RegistryError;
use fm_encoder::EncodeMetric;
use fm_registry_rules::label_names::LabelNames;
use std::mem;

impl<H: Waiter, X> Root<H, X> {
    // The constant labels of the current subsystem.
    pub(super) fn constant_labels(&self) -> &[(String, String)]
        ensures { labels_of result.now ≡ labels_here self.now.at }
    {
        match self.registry.at(&self.path) {
            Some(registry) => registry.constant_labels(),
            None => &[],
        }
    }

    // Fails with `DuplicateLabel` if a constant label of the current subsystem has one of the names, or with `Memory`.
    pub(super) fn test_names(&self, names: &LabelNames) -> Result<(), RegistryError>
        ensures { IsOrMemory (refusal_of result) (constants_refusal (labels_here self.now.at) names.now) }
    {
        test_constants(self.alloc, self.constant_labels(), names)
    }

    /// Goes back to the root itself, or to the namespace if one was begun. It takes no memory.
    pub fn leave(&mut self)
        ensures { self.new ≡ record self.old {
          at = record self.old.at { path = take self.old.base self.old.at.path };
        } }
    {
        self.path.truncate(self.base);
    }

    // Goes to the root itself, above each namespace, and returns the path on which it was.
    pub(crate) fn go_to_top(&mut self) -> Vec<String>
        ensures path { seen_path result.items ≡ self.old.at.path }
        ensures top { self.new.at.tree ≡ self.old.at.tree }
    {
        mem::replace(&mut self.path, Vec::new(self.alloc))
    }

    // Goes on at this path.
    pub(crate) fn go_to(&mut self, path: Vec<String>)
        ensures path { self.new.at.path ≡ seen_path path.items }
        ensures tree { self.new.at.tree ≡ self.old.at.tree }
    {
        self.path = path;
    }
}

impl<H: Waiter, X: EncodeMetric> Root<H, X> {
    /// Begins a namespace below the current subsystem: from now on the names of metrics begin with it and an underscore, their samples
    /// have these labels, and `leave` goes back to it. What is registered already stays as it is.
    ///
    /// Fails as `enter` does, and then the root stays as it was.
    pub fn namespace(&mut self, name: &str, labels: &[(&str, &str)]) -> Result<(), RegistryError>
        ensures enters { ((result ≡ Err Memory) × (self.new.at ≡ self.old.at))
            ⊎ Enters name.now (map shown_label labels.now) self.old.at self.new.at result }
        ensures base { OnOk result (self.new.base ≡ length self.new.at.path) }
        ensures kept { IfErr result (λ _. self.new ≡ self.old) }
    {
        self.enter(name, labels)?;
        self.base = self.path.len();
        Ok(())
    }

    /// Goes on in the subsystem with this name below the current one. If it isn't there, it is made, with these labels besides those
    /// of the registries above it. From now on metrics are registered there.
    ///
    /// Fails as a subsystem builder does, or with `Memory`; then the root stays as it was.
    pub fn enter(&mut self, name: &str, labels: &[(&str, &str)]) -> Result<(), RegistryError>
        ensures enters { ((result ≡ Err Memory) × (self.new.at ≡ self.old.at))
            ⊎ Enters name.now (map shown_label labels.now) self.old.at self.new.at result }
        ensures rest { self.new ≡ record self.old { at = self.new.at } }
    {
        let call = asking(self.alloc, &self.path, name, labels)?;
        let below = path_below(self.alloc, &self.path, name)?;
        self.registry.run_call(call)?;
        self.path = below;
        Ok(())
    }
}
