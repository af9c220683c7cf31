//! The state of a reader after each line of a document.
ghost use Rattle.std.specs.Prelude.{◌≡◌, ◌↔◌, IsTrue, IfOk, IfErr, IfSome, None, [], string_bytes};
ghost use Rattle.std.specs.Option.{option_map};
ghost use Rattle.fm_grammar.specs.inside.Words.{IsLastLine};
ghost use Rattle.fm_reader.specs.inside.Lines.{shown_type};
ghost use Rattle.fm_grammar.specs.inside.Lines.{closed, with_unit, Open as OpenState, Headed as HeadedState};
ghost use Rattle.fm_reader.specs.inside.Steps.{reading_state, IsStep, IsStepWithin, IsSampleAdded, IsEnding};
ghost use Rattle.fm_reader.specs.inside.Names.{names_of, state_names, HasNames, IsNoted, FoundNoted};
ghost use Rattle.fm_reader.specs.declared.error.ReadError.TheVariants.{Memory};

use crate::error::ReadError;
use crate::lines::heads::{read_help, read_type, read_unit};
use crate::lines::sample::read_sample;
use crate::samples::ReadSamples;
use fm_exposition::{FamilySamples, make};
use fm_grammar::MetricType;
use std::alloc::Global;
use std::collections::BTreeSet;
use std::marker::Model;

/// A family that may get more samples.
#[derive(Drop)]
pub(crate) struct Pending<'a> {
    name: String,
    metric_type: MetricType,
    help: String,
    unit: Option<String>,
    samples: ReadSamples<'a>,
}

impl<'a> Model for Pending<'a> {
    ghost use Rattle.std.specs.Prelude.{string_bytes};
    ghost use Rattle.std.specs.Option.{option_map};
    ghost use Rattle.fm_grammar.specs.Exposition.{Family};

    ghost Value = { Family };

    ghost view = { λ p. record {
      name = string_bytes p.name;
      metric_type = p.metric_type;
      help = string_bytes p.help;
      unit = option_map string_bytes p.unit;
      samples = p.samples.samples;
    } };
}

impl<'a> Pending<'a> {
    // The family's name.
    fn name(&self) -> &str
        ensures { result.now ≡ self.now.name }
    {
        self.name.as_str()
    }

    // The family's metric type.
    fn metric_type(&self) -> MetricType
        ensures { result ≡ self.now.metric_type }
    {
        self.metric_type
    }

    // Whether the family has neither a unit nor samples so far.
    fn is_bare(&self) -> bool
        ensures { IsTrue result ↔ ((self.now.unit ≡ None) × (self.now.samples ≡ [])) }
    {
        self.unit.is_none() && self.samples.is_empty()
    }

    // The family with this unit.
    fn with_unit(self, unit: String) -> Pending<'a>
        ensures { result ≡ with_unit self.entry (string_bytes unit) }
    {
        Pending {
            name: self.name,
            metric_type: self.metric_type,
            help: self.help,
            unit: Some(unit),
            samples: self.samples,
        }
    }

    // Adds the sample on a line, and returns whether the line is a sample line of the family. Fails with `Memory` if
    // memory runs out.
    fn add_sample(&mut self, alloc: Global, line: &'a str) -> Result<bool, ReadError>
        ensures added { IfOk result (λ read. IsSampleAdded self.old line.now read self.new) }
        ensures memory { IfErr result (λ e. e ≡ Memory) }
    {
        let name = self.name.as_str();
        let Some(sample) = read_sample(alloc, name, self.metric_type, &self.samples, line)? else {
            return Ok(false);
        };
        self.samples.push(sample)?;
        Ok(true)
    }

    // The family with its samples.
    fn finish(self) -> FamilySamples
        ensures { result ≡ self.entry }
    {
        make::family(
            self.name,
            self.metric_type,
            self.help,
            self.unit,
            self.samples.into_store(),
        )
    }
}

/// The state of a reader after some lines.
#[derive(Drop)]
pub(crate) enum Reading<'a> {
    /// After a family's type line and help line, and maybe more of its lines; or at the start.
    Open {
        finished: Vec<FamilySamples>,
        current: Option<Pending<'a>>,
    },
    /// After a type line.
    Headed {
        finished: Vec<FamilySamples>,
        name: String,
        metric_type: MetricType,
    },
    /// After the last line.
    Ended {
        families: Vec<FamilySamples>,
    },
}

/// Reads a line. Returns None if the line can't come next. The set has the names of the families so far, before and
/// after the call.
pub(crate) fn step<'a>(
    alloc: Global,
    names: &mut BTreeSet<&'a str>,
    reading: Reading<'a>,
    line: &'a str,
) -> Result<Option<Reading<'a>>, ReadError>
    requires names { HasNames names.old (state_names (reading_state reading)) }
    ensures names { IfOk result
        (λ next. IfSome next (λ r. HasNames names.new (state_names (reading_state r)))) }
    ensures step { IfOk result (λ next. IsStep (reading_state reading.entry) line.now next) }
    ensures memory { IfErr result (λ e. e ≡ Memory) }
{
    match reading {
        Reading::Open { finished, current } => step_open(alloc, names, finished, current, line),
        Reading::Headed {
            finished,
            name,
            metric_type,
        } => step_headed(alloc, finished, name, metric_type, line),
        Reading::Ended { .. } => Ok(None),
    }
}

// Reads a line where a family may begin. It is inlined, since a family takes long to move.
#[inline(always)]
fn step_open<'a>(
    alloc: Global,
    names: &mut BTreeSet<&'a str>,
    finished: Vec<FamilySamples>,
    current: Option<Pending<'a>>,
    line: &'a str,
) -> Result<Option<Reading<'a>>, ReadError>
    requires names { HasNames names.old (names_of (closed finished.items current)) }
    ensures names { IfOk result
        (λ next. IfSome next (λ r. HasNames names.new (state_names (reading_state r)))) }
    ensures step { IfOk result (λ next. IsStep (OpenState finished.items current.entry) line.now next) }
    ensures memory { IfErr result (λ e. e ≡ Memory) }
{
    if is_last_line(line) {
        let families = close(finished, current)?;
        return Ok(Some(Reading::Ended { families }));
    }
    if let Some((name, metric_type)) = read_new_type(names, line)? {
        let name = String::from_str(alloc, name)?;
        let finished = close(finished, current)?;
        return Ok(Some(Reading::Headed {
            finished,
            name,
            metric_type,
        }));
    }
    match current {
        Some(family) => step_within(alloc, finished, family, line),
        None => Ok(None),
    }
}

// Reads a family's help line.
fn step_headed<'a>(
    alloc: Global,
    finished: Vec<FamilySamples>,
    name: String,
    metric_type: MetricType,
    line: &str,
) -> Result<Option<Reading<'a>>, ReadError>
    ensures step { IfOk result
        (λ next. IsStep (HeadedState finished.items (string_bytes name) metric_type)
        line.now next) }
    ensures memory { IfErr result (λ e. e ≡ Memory) }
{
    let Some(help) = read_help(alloc, &name, line)? else {
        return Ok(None);
    };
    let samples = ReadSamples::new(alloc)?;
    let family = Pending {
        name,
        metric_type,
        help,
        unit: None,
        samples,
    };
    Ok(Some(Reading::Open {
        finished,
        current: Some(family),
    }))
}

// Reads a unit line or a sample line of a family. Returns None if the line is neither. It is inlined too.
#[inline(always)]
fn step_within<'a>(
    alloc: Global,
    finished: Vec<FamilySamples>,
    family: Pending<'a>,
    line: &'a str,
) -> Result<Option<Reading<'a>>, ReadError>
    ensures step { IfOk result (λ next. IsStepWithin finished.items family.entry line.now next) }
    ensures memory { IfErr result (λ e. e ≡ Memory) }
{
    if family.is_bare() {
        if let Some(unit) = read_unit(family.name(), family.metric_type(), line) {
            let unit = String::from_str(alloc, unit)?;
            return Ok(Some(Reading::Open {
                finished,
                current: Some(family.with_unit(unit)),
            }));
        }
    }
    let mut family = family;
    if !family.add_sample(alloc, line)? {
        return Ok(None);
    }
    Ok(Some(Reading::Open {
        finished,
        current: Some(family),
    }))
}

// The finished families, with the current one added as the last.
fn close(
    finished: Vec<FamilySamples>,
    current: Option<Pending<'_>>,
) -> Result<Vec<FamilySamples>, ReadError>
    ensures closed { IfOk result (λ families. families.items ≡ closed finished.items current.entry) }
    ensures memory { IfErr result (λ e. e ≡ Memory) }
{
    let mut families = finished;
    if let Some(family) = current {
        families.push(family.finish())?;
    }
    Ok(families)
}

fn is_last_line(line: &str) -> bool
    ensures { IsTrue result ↔ IsLastLine line.now }
{
    line == "# EOF"
}

// The name and the type on a type line with a new name, which is added to the names.
fn read_new_type<'a>(
    names: &mut BTreeSet<&'a str>,
    line: &'a str,
) -> Result<Option<(&'a str, MetricType)>, ReadError>
    ensures found { IfOk result
        (λ found. FoundNoted names.old line.now (option_map shown_type found) names.new) }
    ensures memory { IfErr result (λ e. e ≡ Memory) }
{
    let Some((name, metric_type)) = read_type(line) else {
        return Ok(None);
    };
    if !note(names, name)? {
        return Ok(None);
    }
    Ok(Some((name, metric_type)))
}

// Adds a name, and returns whether it is new. Fails with `Memory` if memory runs out.
fn note<'a>(names: &mut BTreeSet<&'a str>, name: &'a str) -> Result<bool, ReadError>
    ensures noted { IfOk result (λ new. IsNoted names.old name.now new names.new) }
    ensures memory { IfErr result (λ e. e ≡ Memory) }
{
    let new = names.insert(name)?;
    Ok(new)
}

/// The families, if the last line was read.
pub(crate) fn ended(reading: Reading<'_>) -> Option<Vec<FamilySamples>>
    ensures { IsEnding (reading_state reading.entry) result }
{
    match reading {
        Reading::Ended { families } => Some(families),
        _ => None,
    }
}
