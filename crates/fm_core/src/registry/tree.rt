//! Registries: what they contain, and how contracts see it.

mod builder;
mod register;
mod registry_call;
mod subsystem_builder;
mod subsystems;

use crate::registry::listed::ListedMetric;
use crate::registry::listing::metric_in;
pub use builder::RegistryBuilder;
use fm_encoder::EncodeMetric;
use fm_registry_rules::RegistryError;
use fm_registry_rules::constant_labels::labels_of_option;
use fm_registry_rules::names::Tailed;
use indexmap::IndexMap;
pub use register::register_at;
pub use registry_call::RegistryCall;
use std::alloc::{AllocError, Global};
use std::fmt::{self, Debug, Formatter};
use std::marker::Model;
pub use subsystem_builder::RegistrySubsystemBuilder;

// A registry without what is below it.
struct Facts<M> {
    namespace: Option<String>,
    const_labels: Option<Vec<(String, String)>>,
    depth: usize,
    metrics: Option<IndexMap<Tailed, M>>,
}

// By hand, since each function that has a registry of its own would list all parts of a derived one.
impl<M: Drop> Drop for Facts<M> {
    fn drop(self) {
        let Facts {
            namespace: _,
            const_labels: _,
            depth: _,
            metrics: _,
        } = self;
    }
}

/// A registry of metrics, with its subsystems. Contracts see it as a `Tree`.
///
/// An empty registry takes no memory.
///
/// <!-- cut: crates/calling/src/pool.rt -->
/// ```rust
/// let mut registry = Registry::default();
/// let counter = Box::new(alloc, ConstCounter::new(received.total))?;
/// add(
///     alloc,
///     &mut registry,
///     "received_bytes",
///     "Bytes that were received",
///     counter,
/// )?;
/// encode(alloc, out, &registry)?;
/// ```
#[derive(Drop)]
#[cycle(tree)]
pub struct Registry<M = Box<dyn EncodeMetric>> {
    facts: Facts<M>,
    pub(crate) subsystems: Option<Vec<Subsystem<M>>>,
}

/// A registry with its name, as its parent keeps it.
///
/// <!-- cut: crates/calling/src/registries.rt -->
/// ```rust
/// registry
///     .subsystem(below)?
///     .register_with_unit(name, help, Unit::Seconds, metric)
/// ```
#[derive(Drop)]
#[cycle(tree)]
pub struct Subsystem<M = Box<dyn EncodeMetric>> {
    name: String,
    pub(crate) registry: Registry<M>,
}

impl<M> Model for Registry<M> {
    ghost use Rattle.fm_registry_rules.specs.Tree.{Tree};
    ghost use Rattle.fm_registry_rules.specs.inside.TreeCode.{tree_code};

    ghost Value = { Tree M };

    ghost coded = { tree_code M.code };

    ghost use Rattle.fm_core.specs.inside.TreeView.{tree_of};
    ghost use Rattle.fm_registry_rules.specs.inside.Forests.{tree_size};

    ghost view = { tree_of };

    ghost size = { tree_size };

    ghost use Rattle.fm_core.specs.inside.Falls.{deep_le-tree_size};

    ghost size_decreases = { deep_le-tree_size };
}

/// A root with no namespace, no labels and no metrics. It allocates nothing.
impl<M> Default for Registry<M> {
    ghost use Rattle.std.specs.Prelude.{None, []};
    ghost use Rattle.fm_core.specs.HasHistory.{IsNewRoot};

    ghost is_default = { λ t. IsNewRoot None [] t };

    fn default() -> Registry<M> {
        Registry {
            facts: Facts {
                namespace: None,
                const_labels: None,
                depth: 0,
                metrics: None,
            },
            subsystems: None,
        }
    }
}

/// Shows the namespace and the constant labels, but not the metrics and the subsystems.
impl<M> Debug for Registry<M> {
    fn fmt<W: fmt::Write>(&self, f: &mut Formatter<W>) -> fmt::Result {
        f.debug_struct("Registry")
            .field("namespace", &self.namespace())
            .field("constant_labels", &self.constant_labels())
            .finish_non_exhaustive()
    }
}

impl<M> Registry<M> {
    ghost use Rattle.std.specs.Prelude.{◌≡◌, ◌++◌, [], length, slice_get, OnOk, IfOk, IfErr};
    ghost use Rattle.std.specs.Option.{option_map};
    ghost use Rattle.fm_grammar.specs.LabelPairs.{labels_of};
    ghost use Rattle.fm_registry_rules.specs.History.{namespace_at, labels_at};
    ghost use Rattle.fm_registry_rules.specs.Tree.{Shows};
    ghost use Rattle.fm_registry_rules.specs.Listing.{own_metrics, listed_tree, order};
    ghost use Rattle.fm_registry_rules.specs.declared.error.RegistryError.{RegistryError};
    ghost use Rattle.fm_core.specs.HasHistory.{HasHistory};
    ghost use Rattle.fm_core.specs.Seen.{seen_listed, listed_in};

    /// The prefix of the names of this registry's metrics: the root's namespace and the names of the subsystems down to
    /// this one, joined by underscores.
    pub fn namespace(&self) -> Option<&str>
        ensures tree { option_map (λ namespace. namespace.now) result ≡ self.now.facts.namespace }
        ensures history { (b : _) → Shows self.now b
            → option_map (λ namespace. namespace.now) result ≡ namespace_at b [] }
    {
        match &self.facts.namespace {
            Some(namespace) => Some(namespace.as_str()),
            None => None,
        }
    }

    /// The labels that each sample of this registry's metrics carries, including those of the registries above.
    pub fn constant_labels(&self) -> &[(String, String)]
        ensures tree { labels_of result.now ≡ self.now.facts.labels }
        ensures history { (b : _) → Shows self.now b → labels_of result.now ≡ labels_at b [] }
    {
        labels_of_option(&self.facts.const_labels)
    }

    /// How many metrics are registered in this registry, without those of its subsystems.
    pub fn metric_count(&self) -> usize
        ensures { result ≡ length (own_metrics self.now.facts) }
    {
        match &self.facts.metrics {
            Some(metrics) => metrics.len(),
            None => 0,
        }
    }

    /// The metric at an index in this registry's order of registration, or `None` if fewer are registered in it.
    pub fn metric_at(&self, index: usize) -> Option<ListedMetric<'_, M>>
        ensures { option_map seen_listed result ≡ slice_get (own_metrics self.now.facts) index }
    {
        match &self.facts.metrics {
            Some(metrics) => metric_in(self.namespace(), self.constant_labels(), metrics, index),
            None => None,
        }
    }

    // Adds this registry, and then each subsystem, depth first.
    fn list_into<'a>(&'a self, list: &mut Vec<&'a Registry<M>>) -> Result<(), AllocError>
        ensures { OnOk result
            (listed_in list.new.items ≡ listed_in list.old.items ++ listed_tree self.now) }
    {
        list.push(self)?;
        if let Some(subsystems) = &self.subsystems {
            for subsystem in subsystems {
                subsystem.registry.list_into(list)?;
            }
        }
        Ok(())
    }

    /// This registry and all below it, in the order of the exposition: a registry comes before its subsystems, and these in order
    /// of creation, each with what is below it. The metrics of each (`metric_at`), one registry after the other, are all metrics. For
    /// collectors. It allocates the list only. Fails with `Memory` if memory runs out.
    pub fn listing(&self, alloc: Global) -> Result<Vec<&Registry<M>>, RegistryError>
        ensures tree { IfOk result (λ list. listed_in list.items ≡ listed_tree self.now) }
        ensures history { IfOk result
            (λ list. HasHistory self.now → (b : _) → Shows self.now b
            → listed_in list.items ≡ order b) }
        ensures memory { IfErr result (λ e. e ≡ RegistryError.Memory) }
    {
        let mut list = Vec::new(alloc);
        self.list_into(&mut list)?;
        Ok(list)
    }
}
