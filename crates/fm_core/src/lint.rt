//! What a linter advises of metrics: names and headings that a registry takes, and that a reader of the document stumbles over.
//!
//! These are the rules of Prometheus' `promlint` that a registry leaves open (<https://prometheus.io/docs/practices/naming/>), for
//! the names of families, to which the lines of a document add a suffix.
//!
//! <!-- cut: crates/calling/src/errors.rt -->
//! ```rust
//! for warning in &root.lint()? {
//!     writeln!(out, "{warning}")?;
//! }
//! ```
ghost use Rattle.std.specs.Prelude.{◌≡◌, ◌&&◌, ◌++◌, map, is_none, OnOk, IfOk};
ghost use Rattle.std.specs.Option.{option_copied, option_map};
ghost use Rattle.std.specs.List.{flat_map};
ghost use Rattle.fm_grammar.specs.declared.MetricType.{MetricType};
ghost use Rattle.fm_registry_rules.specs.Listing.{listed_tree, own_metrics};
ghost use Rattle.fm_raw.specs.Units.{seen_unit};
ghost use Rattle.fm_registry_rules.specs.Registration.{printed_unit};
ghost use Rattle.fm_registry_rules.specs.Texts.{has_text};
ghost use Rattle.fm_core.specs.Seen.{seen_listed};
ghost use Rattle.fm_core.specs.Lint.{all_advice, is_advised, last_word, counts_by_size, warnings_among, warnings_of, warnings_of_all, warnings_of_family, seen_warning};

use crate::registry::{ListedMetric, Registry};
use crate::scrape::{print_name, text_of};
use fm_exposition::Exposition;
use fm_grammar::MetricType;
use fm_raw::Metadata;
use std::alloc::{AllocError, Global};
use std::fmt::{self, Display, Formatter};

static ALL: [Advice; 6] = [
    Advice::NoHelp,
    Advice::Suffix,
    Advice::TypeInName,
    Advice::UnitInName,
    Advice::NoUnit,
    Advice::OtherUnit,
];

/// What is advised of a family.
///
/// <!-- cut: tests/unit/src/fastmetrics_lint.rt.in -->
/// ```rust
/// let sum = Box::new(alloc, ConstCounter::<u64>::new(1))?;
/// add(alloc, &mut registry, "sum", "S", sum)?;
/// let warnings = lint_registry(alloc, &registry)?;
/// assert!(rt; warnings.len() == 1 && warnings[0].advice == Advice::Suffix);
/// ```
#[derive(Clone, Copy, Debug, PartialEq, Eq, Hash, Drop)]
pub enum Advice {
    /// It has no help: the text is empty.
    NoHelp,
    /// Its name ends in a word that lines of a document add, such as `total`: the counter `jobs_total` has a line `jobs_total_total`.
    Suffix,
    /// Its name ends in the word of a type, such as `gauge`.
    TypeInName,
    /// It has no unit, and its name ends in one of OpenMetrics, such as `seconds`.
    UnitInName,
    /// It has no unit, and is a histogram, a gauge histogram or a summary of times: its name ends in `time`, `duration` or `latency`.
    NoUnit,
    /// Its unit, or the end of its name, is a multiple or a part of seconds or bytes, such as `milliseconds`.
    OtherUnit,
}

/// What is advised of a family, with its printed name.
///
/// <!-- cut: crates/lint/src/verdict.rt -->
/// ```rust
/// for warning in warnings {
///     if writeln!(out, "{warning}").is_err() {
///         return 1;
///     }
/// }
/// u8::from(!warnings.is_empty())
/// ```
#[derive(Debug, PartialEq, Eq, Drop)]
pub struct Warning {
    pub name: String,
    pub advice: Advice,
}

// Whether a word is one of these.
fn is_one_of(words: &[&str], word: &[u8]) -> bool
    ensures { result ≡ has_text (map (λ other. other.now) words.now) word.now }
{
    for other in words {
        if other.as_bytes() == word {
            return true;
        }
    }
    false
}

// What stands after the last underscore of a name, or all of it.
fn last_word(name: &[u8]) -> &[u8]
    ensures { result.now ≡ last_word name.now }
{
    let mut start = 0;
    for index in 0..name.len() {
        if name[index] == b'_' {
            start = index + 1;
        }
    }
    &name[start..]
}

// Whether metrics of this type count values by their size.
fn counts_by_size(metric_type: MetricType) -> bool
    ensures { result ≡ counts_by_size metric_type }
{
    matches!(
        metric_type,
        MetricType::Histogram | MetricType::GaugeHistogram | MetricType::Summary
    )
}

// Whether there is no unit, and the last word of the name is one of these.
fn is_unitless(unit: Option<&str>, words: &[&str], last: &[u8]) -> bool
    ensures { result ≡ (is_none (option_copied unit.entry)
        && has_text (map (λ word. word.now) words.now) last.now) }
{
    unit.is_none() && is_one_of(words, last)
}

impl Advice {
    /// All kinds, in the order in which a linter tells them.
    pub fn all() -> &'static [Advice]
        ensures { result.now ≡ all_advice }
    {
        &ALL
    }

    /// The kind in words.
    pub fn as_str(self) -> &'static str {
        match self {
            Advice::NoHelp => "it has no help",
            Advice::Suffix => "its name ends in a word that the lines of a document add",
            Advice::TypeInName => "its name ends in the word of a type",
            Advice::UnitInName => "its name ends in a unit, and it has no unit",
            Advice::NoUnit => "it counts times, and has no unit",
            Advice::OtherUnit => "its unit isn't a base unit, such as seconds or bytes",
        }
    }

    /// Whether this is advised of a family with this printed name, type, unit and help.
    pub fn applies(
        self,
        name: &str,
        metric_type: MetricType,
        unit: Option<&str>,
        help: &str,
    ) -> bool
        ensures { result ≡ is_advised self name.now metric_type (option_copied unit.entry) help.now }
    {
        let last = last_word(name.as_bytes());
        match self {
            Advice::NoHelp => help.is_empty(),
            Advice::Suffix => is_one_of(&SUFFIXES, last),
            Advice::TypeInName => is_one_of(&TYPES, last),
            Advice::UnitInName => is_unitless(unit, &UNITS, last),
            Advice::NoUnit => counts_by_size(metric_type) && is_unitless(unit, &TIMES, last),
            Advice::OtherUnit => is_one_of(&OTHER_UNITS, last),
        }
    }
}

static SUFFIXES: [&str; 8] = [
    "total", "created", "bucket", "count", "sum", "gcount", "gsum", "info",
];

static TYPES: [&str; 4] = ["counter", "gauge", "histogram", "summary"];

static UNITS: [&str; 9] = [
    "seconds", "bytes", "joules", "grams", "meters", "ratios", "volts", "amperes", "celsius",
];

static TIMES: [&str; 3] = ["time", "duration", "latency"];

static OTHER_UNITS: [&str; 15] = [
    "nanoseconds",
    "microseconds",
    "milliseconds",
    "minutes",
    "hours",
    "days",
    "kilobytes",
    "megabytes",
    "gigabytes",
    "ns",
    "us",
    "ms",
    "kb",
    "mb",
    "gb",
];

impl Display for Advice {
    fn fmt<W: fmt::Write>(&self, f: &mut Formatter<W>) -> fmt::Result {
        f.write_str(self.as_str())
    }
}

impl Display for Warning {
    fn fmt<W: fmt::Write>(&self, f: &mut Formatter<W>) -> fmt::Result {
        write!(f, "{}: {}", self.name, self.advice)
    }
}

// Adds what is advised of a family with this printed name, type, unit and help.
fn add_warnings(
    alloc: Global,
    warnings: &mut Vec<Warning>,
    name: &str,
    metric_type: MetricType,
    unit: Option<&str>,
    help: &str,
) -> Result<(), AllocError>
    ensures { OnOk result (map seen_warning warnings.new.items
        ≡ map seen_warning warnings.old.items
        ++ warnings_among all_advice name.now metric_type (option_copied unit.entry) help.now) }
{
    for advice in Advice::all() {
        if advice.applies(name, metric_type, unit, help) {
            let name = String::from_str(alloc, name)?;
            let advice = *advice;
            warnings.push(Warning { name, advice })?;
        }
    }
    Ok(())
}

// The text of a metric's unit, as it is printed.
fn unit_of(metadata: &Metadata) -> Option<&str>
    ensures { option_copied result ≡ printed_unit (option_map seen_unit metadata.now.unit) }
{
    text_of(metadata.unit())
}

// Adds what is advised of a listed metric. The text is written over.
fn add_listed<M>(
    alloc: Global,
    warnings: &mut Vec<Warning>,
    name: &mut String,
    listed: &ListedMetric<'_, M>,
) -> Result<(), AllocError>
    ensures { OnOk result (map seen_warning warnings.new.items
        ≡ map seen_warning warnings.old.items ++ warnings_of (seen_listed listed.now)) }
{
    print_name(name, listed)?;
    let metadata = listed.metadata;
    let (metric_type, unit) = (metadata.metric_type(), unit_of(metadata));
    add_warnings(alloc, warnings, name, metric_type, unit, metadata.help())
}

// Adds what is advised of a registry's own metrics. The text is written over.
fn add_registry<M>(
    alloc: Global,
    warnings: &mut Vec<Warning>,
    name: &mut String,
    registry: &Registry<M>,
) -> Result<(), AllocError>
    ensures { OnOk result (map seen_warning warnings.new.items
        ≡ map seen_warning warnings.old.items ++ warnings_of_all (own_metrics registry.now.facts)) }
{
    for index in 0..registry.metric_count() {
        if let Some(listed) = registry.metric_at(index) {
            add_listed(alloc, warnings, name, &listed)?;
        }
    }
    Ok(())
}

/// What is advised of the metrics of a registry and all below it, in the order of its document: of those too that show nothing yet.
/// Fails with `AllocError` if memory runs out.
pub fn lint_registry<M>(alloc: Global, registry: &Registry<M>) -> Result<Vec<Warning>, AllocError>
    ensures { IfOk result (λ warnings. map seen_warning warnings.items
        ≡ warnings_of_all (listed_tree registry.now)) }
{
    let Ok(registries) = registry.listing(alloc) else {
        return Err(AllocError);
    };
    let mut warnings = Vec::new(alloc);
    let mut name = String::new(alloc);
    for registry in &registries {
        add_registry(alloc, &mut warnings, &mut name, registry)?;
    }
    Ok(warnings)
}

/// What is advised of the families of an exposition, in their order. Fails with `AllocError` if memory runs out.
pub fn lint_exposition(alloc: Global, exposition: &Exposition) -> Result<Vec<Warning>, AllocError>
    ensures { IfOk result (λ warnings. map seen_warning warnings.items
        ≡ flat_map warnings_of_family exposition.now) }
{
    let mut warnings = Vec::new(alloc);
    for family in exposition.families() {
        let (name, unit) = (family.name(), family.unit());
        add_warnings(
            alloc,
            &mut warnings,
            name,
            family.metric_type(),
            unit,
            family.help(),
        )?;
    }
    Ok(warnings)
}
