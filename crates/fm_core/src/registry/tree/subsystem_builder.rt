//! The builder of a subsystem.
ghost use Rattle.std.specs.Prelude.{◌≡◌, true, IfOk, []};
ghost use Rattle.std.specs.Borrow.{sem};
ghost use Rattle.std.specs.String.{string_bytes};
ghost use Rattle.fm_grammar.specs.LabelPairs.{labels_of};
ghost use Rattle.fm_registry_rules.specs.Answer.{refusal_of, name_or_depth_refusal, asking_refusal, subsystem_refusal, first_bad_label, after, IsReturned};
ghost use Rattle.fm_registry_rules.specs.History.{Subsystem as AskSubsystem};
ghost use Rattle.fm_registry_rules.specs.Texts.{has_text};
ghost use Rattle.fm_registry_rules.specs.Tree.{Reads, names_in};
ghost use Rattle.fm_registry_rules.specs.Steps.{with_subsystem};
ghost use Rattle.fm_registry_rules.specs.Loan.{LoanReads};
ghost use Rattle.fm_core.specs.Building.{rests_if_refused, builder_rests, lends_built};
ghost use Rattle.fm_core.specs.HasHistory.{HasHistory};

use super::subsystems::DEPTH_LIMIT;
use super::{Registry, Subsystem};
use fm_encoder::EncodeMetric;
use fm_raw::is_snake_case;
use fm_registry_rules::RegistryError;
use fm_registry_rules::constant_labels::tested_labels;

/// Sets up a subsystem of a registry. It borrows the registry until the subsystem is built.
///
/// <!-- cut: tests/scripts/src/boxes.rt.in -->
/// ```rust
/// self.registry
///     .subsystem_builder(name)?
///     .with_const_labels(first)?
///     .with_const_labels(labels)?
///     .build()?;
/// ```
#[derive(Drop)]
pub struct RegistrySubsystemBuilder<'a, M = Box<dyn EncodeMetric>> {
    registry: &'a mut Registry<M>,
    name: String,
    labels: Vec<(String, String)>,
}

// A builder with tested labels.
fn begin<'a, M: Drop>(
    registry: &'a mut Registry<M>,
    name: String,
    labels: Vec<(String, String)>,
) -> Result<RegistrySubsystemBuilder<'a, M>, RegistryError>
    ensures* unchanged_at_err { sem 𝓛 (rests_if_refused M.row registry.entry result) }
    ensures same_registry { IfOk result (λ b. b.registry.ghost_name ≡ registry.entry.ghost_name) }
    ensures registry { IfOk result (λ b. b.registry.now ≡ registry.old) }
    ensures name { IfOk result (λ b. b.name ≡ name) }
    ensures labels { IfOk result (λ b. b.labels ≡ labels) }
    ensures answer { refusal_of result ≡ first_bad_label (labels_of labels.items) }
{
    let labels = tested_labels(labels)?;
    Ok(RegistrySubsystemBuilder {
        registry,
        name,
        labels,
    })
}

impl<M: Drop> Registry<M> {
    /// Begins a subsystem with this name and no labels besides the registry's.
    ///
    /// Errors, in this order: the name is not in snake case (`InvalidSubsystemName`); the subsystem would be 65
    /// registries below the root (`TooDeep`). At an error the registry stays as it was. It allocates nothing.
    pub fn subsystem_builder(
        &mut self,
        name: String,
    ) -> Result<RegistrySubsystemBuilder<'_, M>, RegistryError>
        // At an error the registry stays as it was.
        ensures* unchanged_at_err { sem 𝓛 (rests_if_refused M.row self.entry result) }
        // The builder borrows this registry, and has the name, and no labels.
        ensures same_registry { IfOk result (λ b. b.registry.ghost_name ≡ self.entry.ghost_name) }
        ensures registry { IfOk result (λ b. b.registry.now ≡ self.old) }
        ensures name { IfOk result (λ b. b.name ≡ name) }
        ensures labels { IfOk result (λ b. b.labels.items ≡ []) }
        // It fails for a name that is not in snake case, and where the subsystem would be too deep.
        ensures answer { refusal_of result
            ≡ name_or_depth_refusal self.old.facts.depth (string_bytes name) }
    {
        if !is_snake_case(name.as_str()) {
            return Err(RegistryError::InvalidSubsystemName { name });
        }
        if self.facts.depth >= DEPTH_LIMIT {
            return Err(RegistryError::TooDeep { name });
        }
        let alloc = *name.allocator();
        Ok(RegistrySubsystemBuilder {
            registry: self,
            name,
            labels: Vec::new(alloc),
        })
    }
}

impl<'a, M: Drop> RegistrySubsystemBuilder<'a, M> {
    /// Sets the subsystem's labels, and replaces those of an earlier call.
    ///
    /// Fails with `InvalidLabelName` and the first name that is not a valid label name; then the registry stays as it
    /// was.
    pub fn with_const_labels(
        self,
        labels: Vec<(String, String)>,
    ) -> Result<RegistrySubsystemBuilder<'a, M>, RegistryError>
        // At an error the registry stays as it was.
        ensures* unchanged_at_err { sem 𝓛 (builder_rests M.row self.entry result) }
        // The builder keeps its registry and its name, and has these labels.
        ensures same_registry { IfOk result
            (λ b. b.registry.ghost_name ≡ self.entry.registry.ghost_name) }
        ensures registry { IfOk result (λ b. b.registry.now ≡ self.entry.registry.now) }
        ensures name { IfOk result (λ b. b.name ≡ self.entry.name) }
        ensures labels { IfOk result (λ b. b.labels ≡ labels) }
        // It fails with the first name that is not a valid label name.
        ensures answer { refusal_of result ≡ first_bad_label (labels_of labels.items) }
    {
        let RegistrySubsystemBuilder { registry, name, .. } = self;
        begin(registry, name, labels)
    }

    /// Returns the subsystem with this name. If it does not exist, it is created: its labels are the registry's with
    /// the builder's set over them, and its namespace is the registry's and the name, joined by an underscore.
    ///
    /// An existing subsystem keeps its labels, and returning it allocates nothing. A new one fails with `NameTaken` as
    /// `subsystem` does, or with `Memory`. At an error the registry stays as it was.
    pub fn build(self) -> Result<&'a mut Subsystem<M>, RegistryError>
        // What is done to the subsystem becomes part of the registry. At an error the registry stays as it was.
        ensures* writes_back { sem 𝓛 (lends_built M.row self.entry result) }
        // The error is the one that the registry gives for this name and these labels, or `Memory`.
        ensures answer { IsReturned (refusal_of result)
            (subsystem_refusal self.entry.registry.now.facts.depth
            self.entry.registry.now.facts.metrics
            (names_in self.entry.registry.now.children) (string_bytes self.entry.name)
            (labels_of self.entry.labels.items)) }
        // Returning an existing one allocates nothing.
        ensures there { has_text (names_in self.entry.registry.now.children)
            (string_bytes self.entry.name) ≡ true
            → refusal_of result
            ≡ asking_refusal self.entry.registry.now.facts.depth (string_bytes self.entry.name)
            (labels_of self.entry.labels.items) }
        // The subsystem has the name, and reads each history of the registry with this call after it.
        ensures name { IfOk result (λ s. string_bytes s.now.name ≡ string_bytes self.entry.name) }
        ensures reads { IfOk result (λ s. (b : _) → Reads self.entry.registry.now b
            → LoanReads
            (with_subsystem self.entry.registry.now
            (string_bytes self.entry.name)
            (labels_of self.entry.labels.items))
            (string_bytes self.entry.name) s.now.registry
            (after b
            (AskSubsystem [] (string_bytes self.entry.name) (labels_of self.entry.labels.items)))) }
        ensures sound { IfOk result
            (λ s. HasHistory self.entry.registry.now → HasHistory s.now.registry) }
    {
        let RegistrySubsystemBuilder {
            registry,
            name,
            labels,
        } = self;
        registry.labelled_subsystem(name, labels)
    }
}
