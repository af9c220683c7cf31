//! Subsystems: where they are, which names they may have, and how they are created and borrowed.
ghost use Rattle.std.specs.Prelude.{◌≡◌, ◌<◌, ◌+◌, ◌++◌, ◌∷◌, ◌||◌, true, [], Some, None, IsSome, OnOk, OnErr, IfOk, length, map};
ghost use Rattle.std.specs.Borrow.{sem};
ghost use Rattle.std.specs.List.{position_from, list_any};
ghost use Rattle.std.specs.Option.{option_copied};
ghost use Rattle.std.specs.Str.{bytes_eq};
ghost use Rattle.std.specs.String.{string_bytes};
ghost use Rattle.fm_grammar.specs.LabelPairs.{labels_of};
ghost use Rattle.fm_registry_rules.specs.Answer.{refusal_of, new_name_refusal, child_refusal, asking_refusal, subsystem_refusal, after, IsReturned};
ghost use Rattle.fm_registry_rules.specs.History.{Subsystem as AskSubsystem};
ghost use Rattle.fm_registry_rules.specs.Taken.{is_below as below_test, is_child_taken, tails_of};
ghost use Rattle.fm_registry_rules.specs.Texts.{has_text};
ghost use Rattle.fm_registry_rules.specs.Tree.{Reads, names_in, find_child, subtree_from};
ghost use Rattle.fm_registry_rules.specs.Steps.{with_subsystem};
ghost use Rattle.fm_registry_rules.specs.inside.Forests.{nth_in, nth_name, index_in, new_tree};
ghost use Rattle.fm_registry_rules.specs.Loan.{LoanReads};
ghost use Rattle.fm_core.specs.inside.TreeView.{forest_of};
ghost use Rattle.fm_registry_rules.specs.Lists.{items_of};
ghost use Rattle.fm_core.specs.Lends.{lends_registry, lends_subsystem};
ghost use Rattle.fm_core.specs.inside.LendsParts.{lends_subsystems, lends_nth, lends_child};
ghost use Rattle.fm_core.specs.HasHistory.{HasHistory};

use super::{Facts, Registry, Subsystem};
use fm_raw::is_snake_case;
use fm_registry_rules::RegistryError;
use fm_registry_rules::constant_labels::{merged_labels, tested_labels};
use fm_registry_rules::lists::{element_mut, push_to};
use fm_registry_rules::names::is_below;
use fm_registry_rules::namespace::subsystem_namespace;
use std::alloc::{AllocError, Global};
use std::ops::{Deref, DerefMut};

// The greatest depth of a registry, where the root has the depth 0.
pub(super) const DEPTH_LIMIT: usize = 64;

// The index of the subsystem with this name.
fn position_of<M>(subsystems: &[Subsystem<M>], name: &str) -> Option<usize>
    ensures { result
        ≡ position_from (λ s. bytes_eq (string_bytes s.name) name.now) 0 subsystems.now }
{
    subsystems.iter().position(|s| s.name.as_str() == name)
}

// Adds a subsystem at the end and returns its index.
fn push_subsystem<M>(
    subsystems: &mut Option<Vec<Subsystem<M>>>,
    subsystem: Subsystem<M>,
) -> Result<usize, RegistryError>
where
    M: Drop,
    ensures answer { IsReturned (refusal_of result) None }
    ensures index { IfOk result (λ index. index ≡ length (items_of subsystems.old)) }
    ensures ok { OnOk result (items_of subsystems.new ≡ items_of subsystems.old ++ subsystem ∷ []) }
    ensures err { OnErr result (items_of subsystems.new ≡ items_of subsystems.old) }
{
    let alloc = *subsystem.name.allocator();
    push_to(subsystems.get_or_insert_with(|| Vec::new(alloc)), subsystem)
}

impl<M> Registry<M> {
    // The index of the subsystem with this name.
    fn index_of(&self, name: &str) -> Option<usize>
        ensures { result ≡ index_in self.now.children name.now }
    {
        match &self.subsystems {
            Some(subsystems) => position_of(subsystems, name),
            None => None,
        }
    }

    // The registry of the subsystem with this name, or `None` if there is none.
    pub(super) fn child(&self, name: &str) -> Option<&Registry<M>>
        ensures { option_copied result ≡ find_child self.now.children name.now }
    {
        let index = self.index_of(name)?;
        match &self.subsystems {
            Some(subsystems) => Some(&subsystems[index].registry),
            None => None,
        }
    }

    /// The registry at the end of a path of subsystem names, starting from this registry, or `None` if a name on the path does
    /// not exist. An empty path leads to this registry. It takes no memory.
    pub fn at(&self, path: &[String]) -> Option<&Registry<M>>
        ensures { option_copied result ≡ subtree_from (Some self.now) (map string_bytes path.now) }
    {
        let mut here = self;
        for name in path {
            here = here.child(name.as_str())?;
        }
        Some(here)
    }
}

impl<M: Drop> Registry<M> {
    // Whether this tail begins with a subsystem's name and an underscore.
    pub(super) fn is_below_child(&self, tail: &str) -> bool
        ensures { result
            ≡ list_any (λ child. below_test child tail.now) (names_in self.now.children) }
    {
        match &self.subsystems {
            Some(subsystems) => subsystems.iter().any(|s| is_below(s.name.as_str(), tail)),
            None => false,
        }
    }

    // Whether the name of a subsystem here begins with this name and an underscore, or the other way round.
    fn is_beside_child(&self, name: &str) -> bool
        ensures { result
            ≡ list_any (λ child. below_test child name.now || below_test name.now child)
            (names_in self.now.children) }
    {
        match &self.subsystems {
            Some(subsystems) => subsystems.iter().any(|s| is_below(s.name.as_str(), name)
                || is_below(name, s.name.as_str())),
            None => false,
        }
    }

    // Whether a new subsystem can't have this name: the tail of a metric here begins with it and an underscore, or a subsystem's name
    // is too near.
    fn is_name_taken(&self, name: &str) -> bool
        ensures { result
            ≡ is_child_taken (tails_of self.now.facts.metrics)
            (names_in self.now.children) name.now }
    {
        match &self.facts.metrics {
            Some(metrics) => {
                metrics.keys().any(|key| is_below(name, key.tail())) || self.is_beside_child(name)
            }
            None => self.is_beside_child(name),
        }
    }

    // A mutable reference to the subsystems.
    fn subsystems_mut(&mut self) -> &mut Option<Vec<Subsystem<M>>>
        ensures* writes_back { sem 𝓛 (lends_subsystems M.row self.entry result) }
        ensures value { forest_of (items_of result.now) ≡ self.old.children }
    {
        &mut self.subsystems
    }

    // A mutable reference to the subsystem at an index.
    fn subsystem_at(&mut self, index: usize) -> &mut Subsystem<M>
        requires { IsSome (nth_in self.old.children index) }
        ensures* writes_back { sem 𝓛 (lends_nth M.row self.entry index result) }
        ensures value { nth_in self.old.children index ≡ Some result.now.registry }
        ensures name { nth_name self.old.children index ≡ Some (string_bytes result.now.name) }
    {
        element_mut(self.subsystems_mut(), index)
    }

    // A mutable reference to the subsystem with this name, which exists.
    pub(super) fn child_mut(&mut self, name: &str) -> &mut Subsystem<M>
        requires { IsSome (find_child self.old.children name.now) }
        ensures* writes_back { sem 𝓛 (lends_child M.row self.entry name.now result) }
        ensures value { find_child self.old.children name.now ≡ Some result.now.registry }
        ensures name { string_bytes result.now.name ≡ name.now }
    {
        match self.index_of(name) {
            Some(index) => self.subsystem_at(index),
            None => unreachable!(),
        }
    }

    // A new subsystem of this registry, not yet added.
    fn new_child(
        &self,
        alloc: Global,
        name: &str,
        labels: Vec<(String, String)>,
    ) -> Result<Registry<M>, AllocError>
        requires { self.now.facts.depth < 64 }
        ensures { IfOk result (λ t. t ≡ new_tree self.now.facts name.now (labels_of labels.items)) }
    {
        let namespace = subsystem_namespace(alloc, &self.facts.namespace, name)?;
        let const_labels = merged_labels(alloc, &self.facts.const_labels, labels)?;
        let facts = Facts {
            namespace: Some(namespace),
            const_labels,
            depth: self.facts.depth + 1,
            metrics: None,
        };
        Ok(Registry {
            facts,
            subsystems: None,
        })
    }

    // Adds a subsystem whose name does not exist yet, and returns its index.
    fn new_index(
        &mut self,
        name: String,
        labels: Vec<(String, String)>,
    ) -> Result<usize, RegistryError>
        requires depth { self.old.facts.depth < 64 }
        requires absent { index_in self.old.children (string_bytes name) ≡ None }
        ensures answer { IsReturned (refusal_of result)
            (new_name_refusal self.old.facts.metrics (names_in self.old.children)
            (string_bytes name)) }
        ensures index { IfOk result
            (λ index. index_in self.new.children (string_bytes name) ≡ Some index) }
        ensures ok { OnOk result
            (self.new ≡ with_subsystem self.old (string_bytes name) (labels_of labels.items)) }
        ensures err { OnErr result (self.new ≡ self.old) }
    {
        if self.is_name_taken(name.as_str()) {
            return Err(RegistryError::NameTaken { name });
        }
        match self.new_child(*name.allocator(), name.as_str(), labels) {
            Ok(registry) => push_subsystem(&mut self.subsystems, Subsystem { name, registry }),
            Err(_) => Err(RegistryError::Memory),
        }
    }

    // The index of the subsystem with this name, which is created if it does not exist.
    fn index_or_new(
        &mut self,
        name: String,
        labels: Vec<(String, String)>,
    ) -> Result<usize, RegistryError>
        requires { self.old.facts.depth < 64 }
        ensures answer { IsReturned (refusal_of result)
            (child_refusal self.old.facts.metrics
            (names_in self.old.children) (string_bytes name)) }
        ensures there { has_text (names_in self.old.children) (string_bytes name) ≡ true
            → refusal_of result ≡ None }
        ensures index { IfOk result
            (λ index. index_in self.new.children (string_bytes name) ≡ Some index) }
        ensures ok { OnOk result
            (self.new ≡ with_subsystem self.old (string_bytes name) (labels_of labels.items)) }
        ensures err { OnErr result (self.new ≡ self.old) }
    {
        match self.index_of(name.as_str()) {
            Some(index) => Ok(index),
            None => self.new_index(name, labels),
        }
    }

    // Creates the subsystem with this name if it does not exist, and returns its index.
    pub(super) fn add_subsystem(
        &mut self,
        name: String,
        labels: Vec<(String, String)>,
    ) -> Result<usize, RegistryError>
        ensures answer { IsReturned (refusal_of result)
            (subsystem_refusal self.old.facts.depth self.old.facts.metrics
            (names_in self.old.children) (string_bytes name) (labels_of labels.items)) }
        ensures there { has_text (names_in self.old.children) (string_bytes name) ≡ true
            → refusal_of result
            ≡ asking_refusal self.old.facts.depth (string_bytes name) (labels_of labels.items) }
        ensures index { IfOk result
            (λ index. index_in self.new.children (string_bytes name) ≡ Some index) }
        ensures ok { OnOk result
            (self.new ≡ with_subsystem self.old (string_bytes name) (labels_of labels.items)) }
        ensures err { OnErr result (self.new ≡ self.old) }
    {
        if !is_snake_case(name.as_str()) {
            return Err(RegistryError::InvalidSubsystemName { name });
        }
        if self.facts.depth >= DEPTH_LIMIT {
            return Err(RegistryError::TooDeep { name });
        }
        let labels = tested_labels(labels)?;
        self.index_or_new(name, labels)
    }

    // Returns the subsystem with this name, which is created with these labels if it does not exist.
    pub(super) fn labelled_subsystem(
        &mut self,
        name: String,
        labels: Vec<(String, String)>,
    ) -> Result<&mut Subsystem<M>, RegistryError>
        ensures* writes_back { sem 𝓛
            (lends_subsystem M.row self.entry (string_bytes name)
            (labels_of labels.items) result) }
        ensures answer { IsReturned (refusal_of result)
            (subsystem_refusal self.old.facts.depth self.old.facts.metrics
            (names_in self.old.children) (string_bytes name) (labels_of labels.items)) }
        ensures there { has_text (names_in self.old.children) (string_bytes name) ≡ true
            → refusal_of result
            ≡ asking_refusal self.old.facts.depth (string_bytes name) (labels_of labels.items) }
        ensures name { IfOk result (λ s. string_bytes s.now.name ≡ string_bytes name) }
        ensures reads { IfOk result (λ s. (b : _) → Reads self.old b
            → LoanReads (with_subsystem self.old (string_bytes name) (labels_of labels.items))
            (string_bytes name) s.now.registry
            (after b (AskSubsystem [] (string_bytes name) (labels_of labels.items)))) }
        ensures sound { IfOk result (λ s. HasHistory self.old → HasHistory s.now.registry) }
    {
        let index = self.add_subsystem(name, labels)?;
        Ok(self.subsystem_at(index))
    }

    /// Returns the subsystem with this name. If it does not exist, it is created with this registry's labels; its
    /// namespace is this registry's and the name, joined by an underscore.
    ///
    /// Errors, in this order: the name is not in snake case (`InvalidSubsystemName`); the subsystem would be 65
    /// registries below the root (`TooDeep`); for a new subsystem, the name is taken (`NameTaken`) or there is no
    /// memory (`Memory`). A name is taken if one of these begins with it and an underscore: a metric's name here, with
    /// an underscore and its unit after it, or the name of another subsystem; or if it begins with another subsystem's
    /// name and an underscore. At an error the registry stays as it was. What is done to the subsystem becomes part of
    /// this registry. Returning an existing subsystem allocates nothing.
    pub fn subsystem(&mut self, name: String) -> Result<&mut Subsystem<M>, RegistryError>
        // What is done to the subsystem becomes part of the registry. At an error the registry stays as it was.
        ensures* writes_back { sem 𝓛
            (lends_subsystem M.row self.entry (string_bytes name) [] result) }
        // The error is the one that the registry gives for this name, or `Memory`.
        ensures answer { IsReturned (refusal_of result)
            (subsystem_refusal self.old.facts.depth self.old.facts.metrics
            (names_in self.old.children) (string_bytes name) []) }
        // Returning an existing one allocates nothing.
        ensures there { has_text (names_in self.old.children) (string_bytes name) ≡ true
            → refusal_of result ≡ asking_refusal self.old.facts.depth (string_bytes name) [] }
        // The subsystem has the name, and reads each history of the registry with this call after it.
        ensures name { IfOk result (λ s. string_bytes s.now.name ≡ string_bytes name) }
        ensures reads { IfOk result (λ s. (b : _) → Reads self.old b
            → LoanReads (with_subsystem self.old (string_bytes name) [])
            (string_bytes name) s.now.registry
            (after b (AskSubsystem [] (string_bytes name) []))) }
        ensures sound { IfOk result (λ s. HasHistory self.old → HasHistory s.now.registry) }
    {
        let alloc = *name.allocator();
        self.labelled_subsystem(name, Vec::new(alloc))
    }
}

impl<M> Deref for Subsystem<M> {
    type Target = Registry<M>;

    ghost deref_gives = { λ s t. t ≡ s.registry };

    fn deref(&self) -> &Registry<M> {
        &self.registry
    }
}

impl<M> DerefMut for Subsystem<M> {
    ghost deref_mut_gives = { λ s t. t ≡ s.registry };

    fn deref_mut(&mut self) -> &mut Registry<M>
        ensures* writes_back { sem 𝓛 (lends_registry M.row self.entry result) }
        ensures shows { result.now ≡ self.old.registry }
    {
        &mut self.registry
    }
}

impl<M> Subsystem<M> {
    /// The subsystem's name, without the names above it.
    pub fn name(&self) -> &str
        ensures { result.now ≡ string_bytes self.now.name }
    {
        self.name.as_str()
    }
}
