//! Registering metrics.
ghost use Rattle.std.specs.Prelude.{◌≡◌, ◌++◌, ◌∷◌, [], None, Some, true, is_some, IsSome, OnOk, OnErr, IfOk, IfSome, IfNone};
ghost use Rattle.std.specs.Option.{option_map};
ghost use Rattle.std.specs.String.{string_bytes};
ghost use Rattle.fm_raw.specs.Units.{seen_unit};
ghost use Rattle.indexmap.specs.IndexMap.{get};
ghost use Rattle.fm_registry_rules.specs.Registration.{is_same_metric};
ghost use Rattle.fm_registry_rules.specs.Answer.{refusal_of, has_metric, IsReturned, answer, after};
ghost use Rattle.fm_registry_rules.specs.inside.Refusals.{name_refusal, standing_refusal};
ghost use Rattle.fm_registry_rules.specs.History.{Register};
ghost use Rattle.fm_registry_rules.specs.Tree.{Reads, names_in, subtree_from};
ghost use Rattle.fm_registry_rules.specs.Running.{IsReply};
ghost use Rattle.fm_registry_rules.specs.inside.Forests.{with_metric};
ghost use Rattle.fm_registry_rules.specs.inside.Names.{refusal_beside};
ghost use Rattle.fm_registry_rules.specs.contracts.names.TailedPartialEq.TheImpl.{ghosts as tailed};
ghost use Rattle.fm_core.specs.View.{seen_metric, asked, asked_metric};
ghost use Rattle.fm_core.specs.inside.TreeView.{metrics_in, seen_metrics};
ghost use Rattle.fm_core.specs.HasHistory.{HasHistory, Grows};
ghost use Rattle.fm_core.specs.Registers.{Registers};
ghost use Rattle.fm_core.specs.Calls.{seen_path};

use super::Registry;
use fm_encoder::EncodeMetric;
use fm_raw::{Metadata, MetricType, Unit, is_snake_case, is_unit_text};
use fm_registry_rules::RegistryError;
use fm_registry_rules::names::Tailed;
use indexmap::IndexMap;
use std::alloc::Global;

// Tests a metric's name and unit.
fn named_metric(
    name: String,
    help: String,
    metric_type: MetricType,
    unit: Option<Unit>,
) -> Result<Metadata, RegistryError>
    ensures ok { IfOk result (λ metadata. metadata ≡ asked name help metric_type unit) }
    ensures answer { refusal_of result
        ≡ name_refusal (string_bytes name) metric_type (option_map seen_unit unit) }
{
    if !is_snake_case(name.as_str()) {
        return Err(RegistryError::InvalidNameFormat { name });
    }
    if unit.is_some() && !metric_type.takes_unit() {
        return Err(RegistryError::MustHaveAnEmptyUnitString { name });
    }
    let unit = match unit {
        Some(Unit::Other(text)) => {
            if !is_unit_text(text.as_str()) {
                return Err(RegistryError::OtherUnitFormatMustBeLowercase { unit: text });
            }
            Some(Unit::Other(text))
        }
        named => named,
    };
    Ok(Metadata::new(name, help, metric_type, unit))
}

// The metadata of the metric that has this tail.
fn standing_under<'a, M>(metrics: &'a IndexMap<Tailed, M>, key: &Tailed) -> Option<&'a Metadata>
    ensures free { IfNone result (get tailed.eq metrics.now key.now ≡ None) }
    ensures taken { IfSome result (λ there. (is_some (get tailed.eq metrics.now key.now) ≡ true)
        × ((x : M) → has_metric (seen_metrics metrics.now.entries) (seen_metric key.now.metadata x)
        ≡ is_same_metric (seen_metric key.now.metadata x) (seen_metric there.now x))) }
{
    let index = metrics.get_index_of(key)?;
    let (there, _) = metrics.get_index(index)?;
    Some(there.metadata())
}

// Adds a metric if no other has its tail. `is_below`: whether its tail begins with a subsystem's name and an underscore.
fn insert_new<M: Drop>(
    metrics: &mut IndexMap<Tailed, M>,
    key: Tailed,
    metric: M,
    is_below: bool,
) -> Result<(), RegistryError>
    ensures ok { OnOk result
        (seen_metrics metrics.new.entries
        ≡ seen_metrics metrics.old.entries ++ seen_metric key.metadata metric ∷ []) }
    ensures err { OnErr result (metrics.new.entries ≡ metrics.old.entries) }
    ensures answer { IsReturned (refusal_of result)
        (refusal_beside (seen_metrics metrics.old.entries)
        is_below (seen_metric key.metadata metric)) }
{
    if let Some(there) = standing_under(metrics, &key) {
        let is_same = key.metadata().is_same_as(there);
        let name = key.into_name();
        if is_same {
            return Err(RegistryError::AlreadyExists { name });
        }
        return Err(RegistryError::NameTaken { name });
    }
    if is_below {
        let name = key.into_name();
        return Err(RegistryError::NameTaken { name });
    }
    match metrics.insert(key, metric) {
        Ok(_) => Ok(()),
        Err(_) => Err(RegistryError::Memory),
    }
}

// Like `insert_new`, where the map may be absent.
fn insert_metric<M: Drop>(
    metrics: &mut Option<IndexMap<Tailed, M>>,
    alloc: Global,
    key: Tailed,
    metric: M,
    is_below: bool,
) -> Result<(), RegistryError>
    ensures ok { OnOk result
        (metrics_in metrics.new ≡ metrics_in metrics.old ++ seen_metric key.metadata metric ∷ []) }
    ensures err { OnErr result (metrics_in metrics.new ≡ metrics_in metrics.old) }
    ensures answer { IsReturned (refusal_of result)
        (refusal_beside (metrics_in metrics.old) is_below (seen_metric key.metadata metric)) }
{
    insert_new(
        metrics.get_or_insert_with(|| IndexMap::new(alloc)),
        key,
        metric,
        is_below,
    )
}

impl<M: Drop> Registry<M> {
    // Adds a metric whose metadata are tested. Stated of the tree alone.
    fn insert_named(
        &mut self,
        alloc: Global,
        metadata: Metadata,
        metric: M,
    ) -> Result<(), RegistryError>
        ensures answer { IsReturned (refusal_of result)
            (standing_refusal self.old.facts.metrics (names_in self.old.children)
            (seen_metric metadata metric)) }
        ensures ok { OnOk result (self.new ≡ with_metric self.old (seen_metric metadata metric)) }
        ensures err { OnErr result (self.new ≡ self.old) }
    {
        let Ok(key) = Tailed::new(alloc, metadata) else {
            return Err(RegistryError::Memory);
        };
        let is_below = self.is_below_child(key.tail());
        insert_metric(&mut self.facts.metrics, alloc, key, metric, is_below)
    }

    /// Registers a metric with the type that the caller has read from it. It fails as `register_metric` does. For
    /// shared registries, where the lock is taken after the type is known.
    pub fn add_metric(
        &mut self,
        name: String,
        help: String,
        metric_type: MetricType,
        unit: Option<Unit>,
        metric: M,
    ) -> Result<(), RegistryError>
        // The reply is the one that each history of the registry gives, or `Memory`. After `Ok` the call is part of it.
        ensures answer { (b : _) → Reads self.old b
            → IsReturned (refusal_of result)
            (answer b (Register [] (seen_metric (asked name help metric_type unit) metric))) }
        ensures ok { OnOk result
            ((b : _) → Reads self.old b
            → Reads self.new
            (after b (Register [] (seen_metric (asked name help metric_type unit) metric)))) }
        // At an error nothing changes, and nothing that was accepted before is ever lost.
        ensures err { OnErr result (self.new ≡ self.old) }
        ensures grows { Grows self.old self.new }
        ensures sound { HasHistory self.old → HasHistory self.new }
    {
        let alloc = *name.allocator();
        let metadata = named_metric(name, help, metric_type, unit)?;
        self.insert_named(alloc, metadata, metric)
    }
}

impl Registry {
    /// Registers a metric under this name, with or without a unit.
    ///
    /// The metric's type is read once, and is kept. Errors, in this order: the name is not in snake case
    /// (`InvalidNameFormat`); the type can't have a unit (`MustHaveAnEmptyUnitString`); the unit's text is not one word
    /// of lowercase letters and digits (`OtherUnitFormatMustBeLowercase`); a metric with this name, type and unit is
    /// registered here already (`AlreadyExists`); the name, or `name_unit` if there is a unit, is that of another
    /// metric here, or begins with a subsystem's name and an underscore (`NameTaken`).
    ///
    /// It allocates an entry for the metric and the name with its unit; if that fails, it returns `Memory`. The
    /// first three errors allocate nothing. At an error the metric is dropped, and the registry stays as it was.
    pub fn register_metric(
        &mut self,
        name: String,
        help: String,
        unit: Option<Unit>,
        metric: Box<dyn EncodeMetric>,
    ) -> Result<(), RegistryError>
        ensures registers { Registers (λ t. types metric t)
            (asked_metric name help unit metric)
            self.old self.new result }
        ensures grows { Grows self.old self.new }
        ensures sound { HasHistory self.old → HasHistory self.new }
    {
        let metric_type = metric.metric_type();
        self.add_metric(name, help, metric_type, unit, metric)
    }

    /// Like `register_metric`, with a unit.
    pub fn register_with_unit(
        &mut self,
        name: String,
        help: String,
        unit: Unit,
        metric: Box<dyn EncodeMetric>,
    ) -> Result<(), RegistryError>
        ensures registers { Registers (λ t. types metric t)
            (asked_metric name help (Some unit) metric)
            self.old self.new result }
        ensures grows { Grows self.old self.new }
        ensures sound { HasHistory self.old → HasHistory self.new }
    {
        self.register_metric(name, help, Some(unit), metric)
    }

    /// Like `register_metric`, without a unit.
    pub fn register(
        &mut self,
        name: String,
        help: String,
        metric: Box<dyn EncodeMetric>,
    ) -> Result<(), RegistryError>
        ensures registers { Registers (λ t. types metric t)
            (asked_metric name help None metric)
            self.old self.new result }
        ensures grows { Grows self.old self.new }
        ensures sound { HasHistory self.old → HasHistory self.new }
    {
        self.register_metric(name, help, None, metric)
    }
}

/// Registers a metric, by its name and its help, in the registry that the path leads to. There has to be one. It fails as `add_metric`
/// does there.
pub fn register_at<M: Drop>(
    registry: &mut Registry<M>,
    path: &[String],
    texts: (String, String),
    metric_type: MetricType,
    unit: Option<Unit>,
    metric: M,
) -> Result<(), RegistryError>
    requires { IsSome (subtree_from (Some registry.old) (seen_path path.now)) }
    ensures reply { (b : _) → Reads registry.old b
        → IsReply (refusal_of result) b
        (Register (seen_path path.now) (asked_metric texts.0 texts.1 unit metric metric_type)) }
    ensures ok { OnOk result
        ((b : _) → Reads registry.old b
        → Reads registry.new
        (after b
        (Register (seen_path path.now) (asked_metric texts.0 texts.1 unit metric metric_type)))) }
    ensures err { OnErr result (registry.new ≡ registry.old) }
{
    match path.split_first() {
        None => {
            let (name, help) = texts;
            registry.add_metric(name, help, metric_type, unit, metric)
        }
        Some((first, rest)) => {
            let below = &mut registry.child_mut(first.as_str()).registry;
            register_at(below, rest, texts, metric_type, unit, metric)
        }
    }
}
