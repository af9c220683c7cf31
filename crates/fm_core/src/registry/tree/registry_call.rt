//! Registry calls made one after the other.
ghost use Rattle.std.specs.Prelude.{◌≡◌, ◌<◌, OnOk, OnErr, IfOk, IfNone, IfSome, IsSome, None, Some, true, [], map, length, get_or};
ghost use Rattle.std.specs.String.{string_bytes};
ghost use Rattle.fm_grammar.specs.LabelPairs.{labels_of};
ghost use Rattle.fm_registry_rules.specs.Answer.{refusal_of, missing_name, asking_refusal, subsystem_refusal, after, IsReturned};
ghost use Rattle.fm_registry_rules.specs.History.{Subsystem as AskSubsystem};
ghost use Rattle.fm_registry_rules.specs.Texts.{has_text};
ghost use Rattle.fm_registry_rules.specs.Tree.{Reads, names_in, subtree_from};
ghost use Rattle.fm_registry_rules.specs.Steps.{with_subsystem};
ghost use Rattle.fm_registry_rules.specs.Running.{IsReply};
ghost use Rattle.fm_core.specs.inside.Missing.{missing_in};
ghost use Rattle.fm_core.specs.Calls.{seen_path, RunsCall, RunsCalls};
ghost use Rattle.fm_core.specs.HasHistory.{HasHistory, Grows};

use super::Registry;
use super::register::register_at;
use fm_encoder::EncodeMetric;
use fm_raw::Unit;
use fm_registry_rules::RegistryError;

/// A call at the registry that a path of subsystem names leads to, starting from the registry that runs the call.
///
/// <!-- cut: crates/calling/src/registries.rt -->
/// ```rust
/// Ok(RegistryCall::Subsystem {
///     path: Vec::new(alloc),
///     name,
///     labels: Vec::new(alloc),
/// })
/// // ..
/// let calls = vec![in alloc; make, register]?;
/// for reply in registry.run(calls)? {
///     reply?;
/// }
/// ```
#[derive(Drop)]
pub enum RegistryCall<M = Box<dyn EncodeMetric>> {
    /// Registers a metric there.
    Register {
        path: Vec<String>,
        name: String,
        help: String,
        unit: Option<Unit>,
        metric: M,
    },
    /// Creates a subsystem with this name and these labels there, if it does not exist.
    Subsystem {
        path: Vec<String>,
        name: String,
        labels: Vec<(String, String)>,
    },
}

impl<M> Registry<M> {
    // The index of the first name on the path that no subsystem has, or `None` if the path leads to a registry.
    fn missing_index(&self, path: &[String]) -> Option<usize>
        ensures none { IfNone result (missing_in self.now (seen_path path.now) ≡ None) }
        ensures some { IfSome result (λ index. (name : _) × (index < length path.now)
            × (name ≡ get_or path.now index name)
            × (missing_in self.now (seen_path path.now) ≡ Some (string_bytes name))) }
    {
        let mut here = self;
        for (index, name) in path.iter().enumerate() {
            match here.child(name.as_str()) {
                Some(child) => here = child,
                None => return Some(index),
            }
        }
        None
    }

    // Returns the path unchanged if it leads to a registry; else the first name on it that no subsystem has is the error's.
    fn tested_path(&self, mut path: Vec<String>) -> Result<Vec<String>, RegistryError>
        ensures ok { IfOk result (λ tested. tested ≡ path) }
        ensures answer { refusal_of result
            ≡ missing_name (missing_in self.now (seen_path path.items)) }
    {
        match self.missing_index(path.as_slice()) {
            None => Ok(path),
            Some(index) => Err(RegistryError::NoSuchSubsystem {
                name: path.swap_remove(index),
            }),
        }
    }
}

impl<M: Drop> Registry<M> {
    // Creates a subsystem if it does not exist. Stated of the tree alone.
    fn ask_here(&mut self, name: String, labels: Vec<(String, String)>) -> Result<(), RegistryError>
        ensures answer { IsReturned (refusal_of result)
            (subsystem_refusal self.old.facts.depth self.old.facts.metrics
            (names_in self.old.children) (string_bytes name) (labels_of labels.items)) }
        ensures there { has_text (names_in self.old.children) (string_bytes name) ≡ true
            → refusal_of result
            ≡ asking_refusal self.old.facts.depth (string_bytes name) (labels_of labels.items) }
        ensures ok { OnOk result
            (self.new ≡ with_subsystem self.old (string_bytes name) (labels_of labels.items)) }
        ensures err { OnErr result (self.new ≡ self.old) }
    {
        match self.add_subsystem(name, labels) {
            Ok(_) => Ok(()),
            Err(e) => Err(e),
        }
    }

    // The same, stated for every history that the tree reads.
    fn ask_subsystem(
        &mut self,
        name: String,
        labels: Vec<(String, String)>,
    ) -> Result<(), RegistryError>
        ensures reply { (b : _) → Reads self.old b
            → IsReply (refusal_of result) b
            (AskSubsystem [] (string_bytes name) (labels_of labels.items)) }
        ensures ok { OnOk result
            ((b : _) → Reads self.old b
            → Reads self.new
            (after b (AskSubsystem [] (string_bytes name) (labels_of labels.items)))) }
        ensures err { OnErr result (self.new ≡ self.old) }
    {
        self.ask_here(name, labels)
    }
}

// Asks for a subsystem of the registry that the path leads to. There has to be one.
fn ask_at<M: Drop>(
    registry: &mut Registry<M>,
    path: &[String],
    name: String,
    labels: Vec<(String, String)>,
) -> Result<(), RegistryError>
    requires { IsSome (subtree_from (Some registry.old) (seen_path path.now)) }
    ensures reply { (b : _) → Reads registry.old b
        → IsReply (refusal_of result) b
        (AskSubsystem (seen_path path.now) (string_bytes name) (labels_of labels.items)) }
    ensures ok { OnOk result
        ((b : _) → Reads registry.old b
        → Reads registry.new
        (after b
        (AskSubsystem (seen_path path.now) (string_bytes name) (labels_of labels.items)))) }
    ensures err { OnErr result (registry.new ≡ registry.old) }
{
    match path.split_first() {
        None => registry.ask_subsystem(name, labels),
        Some((first, rest)) => {
            let below = &mut registry.child_mut(first.as_str()).registry;
            ask_at(below, rest, name, labels)
        }
    }
}

impl<M: EncodeMetric> Registry<M> {
    /// Makes one call, and returns its reply: that of `register_metric` or of a subsystem builder at the registry that the
    /// path leads to, or `NoSuchSubsystem` with the first name on the path that does not exist. A call that fails changes
    /// nothing.
    pub fn run_call(&mut self, call: RegistryCall<M>) -> Result<(), RegistryError>
        ensures runs { RunsCall M.types call self.old self.new result }
        ensures grows { Grows self.old self.new }
        ensures sound { HasHistory self.old → HasHistory self.new }
    {
        self.apply_call(call)
    }

    // Makes one call.
    fn apply_call(&mut self, call: RegistryCall<M>) -> Result<(), RegistryError>
        ensures { RunsCall M.types call self.old self.new result }
    {
        match call {
            RegistryCall::Register {
                path,
                name,
                help,
                unit,
                metric,
            } => {
                let metric_type = metric.metric_type();
                let path = self.tested_path(path)?;
                register_at(
                    self,
                    path.as_slice(),
                    (name, help),
                    metric_type,
                    unit,
                    metric,
                )
            }
            RegistryCall::Subsystem { path, name, labels } => {
                let path = self.tested_path(path)?;
                ask_at(self, path.as_slice(), name, labels)
            }
        }
    }
}

impl Registry {
    /// Makes the calls in turn, also after a call that fails, and returns the reply to each.
    ///
    /// A call gets the reply that `register_metric` or a subsystem builder gives at that registry, or `NoSuchSubsystem`
    /// with the first name on its path that does not exist. A call that fails changes nothing. The list of replies is
    /// allocated first: if that fails, no call is made and `run` returns `Memory`, its only error. A call gets no reply
    /// `Memory` where these methods allocate nothing: for the errors that they find without memory, and for a subsystem
    /// that exists.
    pub fn run(
        &mut self,
        calls: Vec<RegistryCall>,
    ) -> Result<Vec<Result<(), RegistryError>>, RegistryError>
        // Each call gets its reply in turn, from the registry that the calls before it left.
        ensures replies { IfOk result
            (λ replies. RunsCalls (λ m t. types m t) calls.items
            self.old self.new (map refusal_of replies.items)) }
        // Its only error is `Memory`, and then nothing changes.
        ensures answer { IsReturned (refusal_of result) None }
        ensures err { OnErr result (self.new ≡ self.old) }
        // Nothing that was accepted before is lost.
        ensures grows { Grows self.old self.new }
        ensures sound { HasHistory self.old → HasHistory self.new }
    {
        let Ok(mut replies) = Vec::with_capacity(*calls.allocator(), calls.len()) else {
            return Err(RegistryError::Memory);
        };
        for call in calls {
            let reply = self.run_call(call);
            replies.push_reserved(reply);
        }
        Ok(replies)
    }
}
