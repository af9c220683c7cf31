//! The builder of a root.
ghost use Rattle.std.specs.Prelude.{◌≡◌, Some, None, IfOk, IsTrue, []};
ghost use Rattle.std.specs.Option.{option_map};
ghost use Rattle.std.specs.String.{string_bytes};
ghost use Rattle.fm_grammar.specs.LabelPairs.{labels_of};
ghost use Rattle.fm_registry_rules.specs.Answer.{refusal_of, namespace_refusal, root_labels_refusal};
ghost use Rattle.fm_registry_rules.specs.Lists.{seen_labels};
ghost use Rattle.fm_registry_rules.specs.inside.RootLabels.{takes_namespace, takes_labels};
ghost use Rattle.fm_core.specs.HasHistory.{IsNewRoot};

use super::{Facts, Registry};
use fm_raw::is_snake_case;
use fm_registry_rules::RegistryError;
use fm_registry_rules::constant_labels::tested_root_labels;

/// Sets up a root. The namespace and the labels are both optional.
///
/// <!-- cut: crates/calling/src/registries.rt -->
/// ```rust
/// let namespace = String::from_str(alloc, "myapp")?;
/// let labels = one_label(alloc, "env", "prod")?;
/// Registry::builder()
///     .with_namespace(namespace)?
///     .with_const_labels(labels)
/// ```
pub struct RegistryBuilder {
    namespace: Option<String>,
    const_labels: Option<Vec<(String, String)>>,
    pub ghost namespace_taken: { IsTrue (takes_namespace (option_map string_bytes namespace)) },
    pub ghost labels_taken: { IsTrue (takes_labels (seen_labels const_labels)) },
}

impl Drop for RegistryBuilder {
    fn drop(self) {
        let RegistryBuilder {
            namespace: _,
            const_labels: _,
        } = self;
    }
}

/// A builder with no namespace and no labels.
impl Default for RegistryBuilder {
    ghost is_default = { λ b.
        (option_map string_bytes b.namespace ≡ None) × (seen_labels b.const_labels ≡ []) };

    fn default() -> RegistryBuilder {
        RegistryBuilder {
            namespace: None,
            const_labels: None,
        }
    }
}

impl Registry {
    /// Returns a builder with no namespace and no labels. It allocates nothing.
    pub fn builder() -> RegistryBuilder
        ensures namespace { option_map string_bytes result.namespace ≡ None }
        ensures labels { seen_labels result.const_labels ≡ [] }
    {
        RegistryBuilder::default()
    }
}

impl RegistryBuilder {
    /// Sets the namespace, and replaces an earlier one. Fails with `InvalidNamespace` if it is not in snake case.
    pub fn with_namespace(self, namespace: String) -> Result<RegistryBuilder, RegistryError>
        ensures namespace { IfOk result
            (λ b. option_map string_bytes b.namespace ≡ Some (string_bytes namespace)) }
        ensures labels { IfOk result
            (λ b. seen_labels b.const_labels ≡ seen_labels self.const_labels) }
        ensures answer { refusal_of result ≡ namespace_refusal (string_bytes namespace) }
    {
        if !is_snake_case(namespace.as_str()) {
            return Err(RegistryError::InvalidNamespace { namespace });
        }
        let RegistryBuilder {
            namespace: _,
            const_labels,
        } = self;
        Ok(RegistryBuilder {
            namespace: Some(namespace),
            const_labels,
        })
    }

    /// Sets the constant labels, and replaces those of an earlier call.
    ///
    /// Fails at the first label whose name is not a valid label name (`InvalidLabelName`) or is that of an earlier
    /// label (`DuplicateLabel`).
    pub fn with_const_labels(
        self,
        labels: Vec<(String, String)>,
    ) -> Result<RegistryBuilder, RegistryError>
        ensures namespace { IfOk result
            (λ b. option_map string_bytes b.namespace ≡ option_map string_bytes self.namespace) }
        ensures labels { IfOk result (λ b. seen_labels b.const_labels ≡ labels_of labels.items) }
        ensures answer { refusal_of result ≡ root_labels_refusal (labels_of labels.items) }
    {
        let labels = tested_root_labels(labels)?;
        let RegistryBuilder {
            namespace,
            const_labels: _,
        } = self;
        Ok(RegistryBuilder {
            namespace,
            const_labels: Some(labels),
        })
    }

    /// Returns the root, which is empty. It allocates nothing, and never fails: the result is always `Ok`.
    pub fn build(self) -> Result<Registry, RegistryError>
        ensures root { IfOk result
            (λ t. IsNewRoot (option_map string_bytes self.namespace)
            (seen_labels self.const_labels) t) }
        ensures answer { refusal_of result ≡ None }
    {
        Ok(self.build_root())
    }

    /// Returns the root as a registry of metrics of any one type. It allocates nothing.
    pub fn build_root<M>(self) -> Registry<M>
        ensures { IsNewRoot (option_map string_bytes self.namespace)
            (seen_labels self.const_labels) result }
    {
        let RegistryBuilder {
            namespace,
            const_labels,
        } = self;
        let facts = Facts {
            namespace,
            const_labels,
            depth: 0,
            metrics: None,
        };
        Registry {
            facts,
            subsystems: None,
        }
    }
}
