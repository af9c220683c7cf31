//! Whether a metric fits a registry of a root: whether the names of its labels can stand beside the constant labels. And which faults
//! a root of such metrics may have.
ghost use Rattle.std.specs.Prelude.{◌≡◌, ◌<◌, ◌^◌, None, Option, IfOk, OnOk, map, string_bytes};
ghost use Rattle.std.specs.Option.{option_map};
ghost use Rattle.fm_grammar.specs.LabelPairs.{labels_of};
ghost use Rattle.fm_grammar.specs.Exposition.{Text};
ghost use Rattle.fm_grammar.specs.declared.MetricType.{MetricType};
ghost use Rattle.fm_raw.specs.declared.encode_error.EncodeError.{EncodeError};
ghost use Rattle.fm_raw.specs.Units.{seen_unit};
ghost use Rattle.fm_registry_rules.specs.Answer.{refusal_of};
ghost use Rattle.fm_registry_rules.specs.LabelNames.{shown_texts, AreLabelNames, names_refusal, IsOrMemory};
ghost use Rattle.fm_registry_rules.specs.Registration.{printed_unit};
ghost use Rattle.fm_registry_rules.specs.Texts.{has_text, printed_name};
ghost use Rattle.fm_registry_rules.specs.inside.Fitting.{HasFittingHistory};
ghost use Rattle.fm_core.specs.Admits.{HasFault, HasFaultNamed};
ghost use Rattle.fm_labels.specs.ReservedNames.{reserved_refusal};
ghost use Rattle.fm_labels.specs.inside.FittingNames.{NamesFit};
ghost use Rattle.fastmetrics.specs.Roots.{constants_refusal};
ghost use Rattle.fastmetrics.specs.Fits.{taken_refusal, facts_refusal, constant_refusal, type_refusal, family_refusal, family_type, family_names, fit_refusal, HasOwnFault, HasOwnFaultNamed};
ghost use Rattle.fastmetrics.specs.inside.FittingMetrics.{ConstantFits, FamilyFits, FitsUnder, HasType, Fits};

use crate::registry::kinds::{Constant, Metric, NamedFamily};
use crate::registry::maker::Waiter;
use fm_core::registry::RegistryError;
use fm_encoder::EncodeMetric;
use fm_family::vec::names::test_reserved;
use fm_raw::{MetricType, Unit};
use fm_registry_rules::label_names::LabelNames;
use std::alloc::{AllocError, Global};
use std::sync::Wait;

// Whether one of the labels has this name.
fn has_label(labels: &[(String, String)], name: &str) -> bool
    ensures { result ≡ has_text (map (λ label. label.name) (labels_of labels.now)) name.now }
{
    for label in labels {
        if label.0.as_str() == name {
            return true;
        }
    }
    false
}

// Fails if one of the labels has this name.
fn test_taken(alloc: Global, labels: &[(String, String)], name: &str) -> Result<(), RegistryError>
    ensures { IsOrMemory (refusal_of result) (taken_refusal (labels_of labels.now) name.now) }
{
    if has_label(labels, name) {
        let name = String::from_str(alloc, name)?;
        return Err(RegistryError::DuplicateLabel { name });
    }
    Ok(())
}

/// Fails with the name of the first constant label that is among the names.
pub(crate) fn test_constants(
    alloc: Global,
    labels: &[(String, String)],
    names: &LabelNames,
) -> Result<(), RegistryError>
    ensures { IsOrMemory (refusal_of result) (constants_refusal (labels_of labels.now) names.now) }
{
    for label in labels {
        if names.has(label.0.as_str()) {
            let name = String::from_str(alloc, label.0.as_str())?;
            return Err(RegistryError::DuplicateLabel { name });
        }
    }
    Ok(())
}

// Fails if a constant label has the name that the type reserves.
fn test_type(
    alloc: Global,
    labels: &[(String, String)],
    metric_type: MetricType,
) -> Result<(), RegistryError>
    ensures { IsOrMemory (refusal_of result) (type_refusal metric_type (labels_of labels.now)) }
{
    match metric_type.reserved_label() {
        Some(reserved) => test_taken(alloc, labels, reserved),
        None => Ok(()),
    }
}

// Fails if a family of this type with these label names can't be under the constant labels.
fn test_names(
    alloc: Global,
    labels: &[(String, String)],
    metric_type: MetricType,
    names: &LabelNames,
) -> Result<(), RegistryError>
    ensures answer { IsOrMemory (refusal_of result)
        (family_refusal (labels_of labels.now) metric_type names.now) }
    ensures valid { AreLabelNames names.now }
{
    let _ = names.as_slice();
    test_type(alloc, labels, metric_type)?;
    test_reserved(alloc, metric_type, names)?;
    test_constants(alloc, labels, names)
}

// The same of a family.
fn test_family<H: Wait + Drop>(
    alloc: Global,
    labels: &[(String, String)],
    family: &NamedFamily<H>,
) -> Result<(), RegistryError>
    ensures answer { IsOrMemory (refusal_of result)
        (family_refusal (labels_of labels.now) (family_type family.now) (family_names family.now)) }
    ensures valid { AreLabelNames (family_names family.now) }
{
    match family {
        NamedFamily::Counters(v) => test_names(alloc, labels, MetricType::Counter, v.names()),
        NamedFamily::FixedCounters(v) => test_names(alloc, labels, MetricType::Counter, v.names()),
        NamedFamily::Gauges(v) => test_names(alloc, labels, MetricType::Gauge, v.names()),
        NamedFamily::FixedGauges(v) => test_names(alloc, labels, MetricType::Gauge, v.names()),
        NamedFamily::Histograms(v) => test_names(alloc, labels, MetricType::Histogram, v.names()),
        NamedFamily::GaugeHistograms(v) => {
            test_names(alloc, labels, MetricType::GaugeHistogram, v.names())
        }
    }
}

// The names of facts.
fn names_of(alloc: Global, facts: &[(String, String)]) -> Result<Vec<&str>, AllocError>
    ensures { IfOk result
        (λ names. shown_texts names.items ≡ map (λ label. label.name) (labels_of facts.now)) }
{
    let mut names = Vec::new(alloc);
    for fact in facts {
        names.push(fact.0.as_str())?;
    }
    Ok(names)
}

// Fails if labels with the names of these facts can't follow the constant labels.
fn test_facts(
    alloc: Global,
    labels: &[(String, String)],
    facts: &[(String, String)],
) -> Result<(), RegistryError>
    ensures { IsOrMemory (refusal_of result)
        (facts_refusal (labels_of labels.now) (map (λ label. label.name) (labels_of facts.now))) }
{
    let names = names_of(alloc, facts)?;
    let names = LabelNames::new(alloc, names.as_slice())?;
    test_constants(alloc, labels, &names)
}

// Fails if a constant can't be under the constant labels.
fn test_constant(
    alloc: Global,
    labels: &[(String, String)],
    constant: &Constant,
) -> Result<(), RegistryError>
    ensures answer { IsOrMemory (refusal_of result) (constant_refusal (labels_of labels.now) constant.now) }
    ensures fits { OnOk result (ConstantFits (labels_of labels.now) constant.now) }
{
    match constant {
        Constant::Info(info) => test_facts(alloc, labels, info.get().as_slice()),
        Constant::Histogram(snapshot) => {
            let _ = snapshot.count();
            test_type(alloc, labels, MetricType::Histogram)
        }
        Constant::GaugeHistogram(snapshot) => {
            let _ = snapshot.gcount();
            test_type(alloc, labels, MetricType::GaugeHistogram)
        }
        _ => Ok(()),
    }
}

// The name of a metric in the exposition.
fn printed(
    alloc: Global,
    namespace: Option<&str>,
    name: &str,
    unit: &Option<Unit>,
) -> Result<String, AllocError>
    ensures { IfOk result (λ text. string_bytes text
        ≡ printed_name (option_map (λ n. n.now) namespace.entry) name.now (printed_unit (option_map seen_unit unit.now))) }
{
    let mut text = String::new(alloc);
    if let Some(namespace) = namespace {
        text.push_str(namespace)?;
        text.push_str("_")?;
    }
    text.push_str(name)?;
    if let Some(unit) = unit {
        text.push_str("_")?;
        text.push_str(unit.as_str())?;
    }
    Ok(text)
}

// Fails if a state set that would be printed under this name can't be under the constant labels.
fn test_states(
    alloc: Global,
    labels: &[(String, String)],
    namespace: Option<&str>,
    name: &str,
    unit: &Option<Unit>,
) -> Result<(), RegistryError>
    ensures { IsOrMemory (refusal_of result) (taken_refusal (labels_of labels.now)
        (printed_name (option_map (λ n. n.now) namespace.entry) name.now (printed_unit (option_map seen_unit unit.now)))) }
{
    let printed = printed(alloc, namespace, name, unit)?;
    test_taken(alloc, labels, printed.as_str())
}

/// Where a metric would be: the namespace and the constant labels of the registry.
#[derive(Clone, Copy)]
pub(crate) struct Place<'a> {
    pub alloc: Global,
    pub namespace: Option<&'a str>,
    pub labels: &'a [(String, String)],
}

impl Place<'_> {
    /// Fails if the names of a metric's labels can't stand beside the constant labels.
    pub(crate) fn test<H: Wait + Drop, X>(
        &self,
        name: &str,
        unit: &Option<Unit>,
        metric: &Metric<H, X>,
    ) -> Result<(), RegistryError>
        ensures answer { IsOrMemory (refusal_of result) (fit_refusal
            (printed_name (option_map (λ n. n.now) self.now.namespace) name.now (printed_unit (option_map seen_unit unit.now)))
            (labels_of self.now.labels.now) metric.now) }
        ensures fits { OnOk result (FitsUnder
            (printed_name (option_map (λ n. n.now) self.now.namespace) name.now (printed_unit (option_map seen_unit unit.now)))
            (labels_of self.now.labels.now) metric.now) }
    {
        match metric {
            Metric::Histogram(_) => test_type(self.alloc, self.labels, MetricType::Histogram),
            Metric::GaugeHistogram(_) => {
                test_type(self.alloc, self.labels, MetricType::GaugeHistogram)
            }
            Metric::Family(family) => test_family(self.alloc, self.labels, family),
            Metric::States(_) => test_states(self.alloc, self.labels, self.namespace, name, unit),
            Metric::Constant(constant) => test_constant(self.alloc, self.labels, constant),
            _ => Ok(()),
        }
    }
}

/// A law, which does nothing: a metric of the library declares the type that it has. A fault of metrics that fit their registries is
/// that of a metric of the program's own.
pub(crate) fn only_own_faults<H: Waiter, X: EncodeMetric>()
    ensures types { (m : _) (t : MetricType) → ⟦<Metric<H, X> as EncodeMetric>⟧.types m t
        → HasType m t }
    ensures faults { (k : EncodeError) (t : _) → HasFittingHistory Fits t
        → HasFault ⟦<Metric<H, X> as EncodeMetric>⟧ k t
        → HasOwnFault X.EncodeMetric k t }
    ensures named { (k : EncodeError) (t : _) (name : Text) → HasFittingHistory Fits t
        → HasFaultNamed ⟦<Metric<H, X> as EncodeMetric>⟧ name k t
        → HasOwnFaultNamed X.EncodeMetric name k t }
{}
