//! Expositions: families, their samples and the samples' exemplars.
ghost use Rattle.std.specs.Prelude.{◌≡◌, ◌++◌, length, slice_get};
ghost use Rattle.std.specs.Option.{option_copied, option_map};
ghost use Rattle.fm_grammar.specs.Reading.{IsExposition};
ghost use Rattle.fm_exposition.specs.inside.Points.{AreInPoints, HaveUtf8Labels};
ghost use Rattle.fm_grammar.specs.LabelPairs.{labels_of, shown_label};
ghost use Rattle.fm_exposition.specs.Samples.{value_of, exemplar_of, sample_of, samples_of, exemplar_at};

use crate::store::SampleStore;
use fm_grammar::{LabelList, MetricType, SampleKind};
use fm_raw::fixed::{Fixed, FixedSum};
use std::marker::Model;
use std::sync::Arc;

/// Labels that the samples of a point share.
pub type CommonLabels = Arc<LabelList>;

/// The value of a sample.
///
/// <!-- cut: tests/unit/src/fastmetrics_this_process.rt.in -->
/// ```rust
/// match sample.value() {
///     Value::Fixed(value) => value.millionths(),
///     Value::Whole(value) => value.saturating_mul(1_000_000),
///     Value::Millis(_) => -1,
/// }
/// ```
#[derive(Clone, Copy, Debug)]
pub enum Value {
    /// A whole number.
    Whole(i128),
    /// A number of millionths.
    Fixed(FixedSum),
    /// A number of milliseconds.
    Millis(u128),
}

/// An observation that is an example of a sample (OpenMetrics, Exemplars): its labels, its value and its time.
///
/// <!-- cut: tests/scripts/src/parts.rt.in -->
/// ```rust
/// let value = buffer.format(FixedSum::from(exemplar.value()));
/// let (time, count) = (exemplar.timestamp_millis(), exemplar.labels().len());
/// ```
#[derive(Debug)]
pub struct Exemplar {
    pub(crate) labels: Vec<(String, String)>,
    pub(crate) value: Fixed,
    pub(crate) time: Option<u128>,
}

impl Drop for Exemplar {
    fn drop(self) {
        let Exemplar {
            labels: _,
            value: _,
            time: _,
        } = self;
    }
}

/// One line of a family. The labels that it shares with its point's other samples come before the others.
///
/// <!-- cut: tests/scripts/src/parts.rt.in -->
/// ```rust
/// let (kind, value) = (sample.kind(), told(alloc, sample.value())?);
/// let (time, traced) = (sample.timestamp_millis(), sample.exemplar().is_some());
/// ```
#[derive(Debug)]
pub struct Sample {
    pub(crate) kind: SampleKind,
    pub(crate) common: CommonLabels,
    pub(crate) own: LabelList,
    pub(crate) value: Value,
    pub(crate) time: Option<u128>,
    // Most samples have none, so it stands in a box of its own.
    pub(crate) exemplar: Option<Box<Exemplar>>,
}

impl Drop for Sample {
    fn drop(self) {
        let Sample {
            kind: _,
            common: _,
            own: _,
            value: _,
            time: _,
            exemplar: _,
        } = self;
    }
}

/// A family with its samples.
///
/// <!-- cut: tests/scripts/src/parts.rt.in -->
/// ```rust
/// let (name, metric_type) = (family.name(), family.metric_type().as_str());
/// let (help, unit) = (family.help(), family.unit());
/// ```
#[derive(Debug)]
pub struct FamilySamples {
    pub(crate) name: String,
    pub(crate) metric_type: MetricType,
    pub(crate) help: String,
    pub(crate) unit: Option<String>,
    pub(crate) samples: SampleStore,
}

impl Drop for FamilySamples {
    fn drop(self) {
        let FamilySamples {
            name: _,
            metric_type: _,
            help: _,
            unit: _,
            samples: _,
        } = self;
    }
}

impl Model for FamilySamples {
    ghost use Rattle.fm_grammar.specs.Exposition.{Family};

    ghost Value = { Family };

    ghost use Rattle.fm_exposition.specs.inside.Families.{family_of};

    ghost view = { family_of };
}

/// Families of samples. Each exposition is well formed: its families are, and no two of them have the same name.
///
/// <!-- cut: crates/calling/src/documents.rt -->
/// ```rust
/// let exposition = collect(alloc, registry)?;
/// if exposition.families().is_empty() {
///     return Ok(None);
/// }
/// ```
#[derive(Debug)]
pub struct Exposition {
    pub(crate) families: Vec<FamilySamples>,
}

impl Drop for Exposition {
    fn drop(self) {
        let Exposition { families: _ } = self;
    }
}

impl Model for Exposition {
    ghost use Rattle.std.specs.Prelude.{List};
    ghost use Rattle.fm_grammar.specs.Exposition.{Family};
    ghost use Rattle.fm_grammar.specs.Reading.{IsExposition};

    ghost Value = { List Family };

    ghost view = { λ a. a.families.items };

    ghost invariant = { λ a. IsExposition a.families.items };
}

impl Exposition {
    /// The families in order. Each is well formed, and no two have the same name.
    pub fn families(&self) -> &[FamilySamples]
        ensures same { result.now ≡ self.now }
        ensures well_formed { IsExposition self.now }
    {
        self.families.as_slice()
    }
}

impl FamilySamples {
    /// The family's name.
    pub fn name(&self) -> &str
        ensures { result.now ≡ self.now.name }
    {
        self.name.as_str()
    }

    /// The family's metric type.
    pub fn metric_type(&self) -> MetricType
        ensures { result ≡ self.now.metric_type }
    {
        self.metric_type
    }

    /// The family's help text.
    pub fn help(&self) -> &str
        ensures { result.now ≡ self.now.help }
    {
        self.help.as_str()
    }

    /// The family's unit, or None if it has none.
    pub fn unit(&self) -> Option<&str>
        ensures { option_copied result ≡ self.now.unit }
    {
        self.unit.as_deref()
    }

    /// The samples in order.
    pub fn samples(&self) -> &[Sample]
        ensures { samples_of result.now ≡ self.now.samples }
    {
        self.samples.as_slice()
    }

    // The number of samples of each point, and all samples.
    pub(crate) fn points(&self) -> (&[usize], &[Sample])
        ensures points { AreInPoints result.0.now result.1.now }
        ensures utf8 { HaveUtf8Labels result.1.now }
        ensures samples { samples_of result.1.now ≡ self.now.samples }
    {
        self.samples.points()
    }
}

impl Sample {
    /// The sample's kind, which decides the suffix of its name.
    pub fn kind(&self) -> SampleKind
        ensures { result ≡ (sample_of self.now).kind }
    {
        self.kind
    }

    /// The number of the sample's labels.
    #[tactic(auto, using(crate::proofs::LabelLemmas::lengths))]
    pub fn label_count(&self) -> usize
        ensures { result ≡ length (sample_of self.now).labels }
    {
        self.common.len() + self.own.len()
    }

    /// The name and the value of the label at an index, or None if there is none.
    pub fn label(&self, index: usize) -> Option<(&str, &str)>
        ensures { option_map shown_label result ≡ slice_get (sample_of self.now).labels index }
    {
        joined_at(&self.common, &self.own, index)
    }

    /// The sample's value.
    pub fn value(&self) -> Value
        ensures { value_of result ≡ (sample_of self.now).value }
    {
        self.value
    }

    /// The sample's timestamp in milliseconds, or None if it has none.
    pub fn timestamp_millis(&self) -> Option<u128>
        ensures { result ≡ (sample_of self.now).time }
    {
        self.time
    }

    /// The sample's exemplar, or None if it has none.
    pub fn exemplar(&self) -> Option<&Exemplar>
        ensures { option_map exemplar_at result ≡ (sample_of self.now).exemplar }
    {
        self.exemplar.as_deref()
    }
}

impl Exemplar {
    /// The labels in order, each with its name and its value.
    pub fn labels(&self) -> &[(String, String)]
        ensures { labels_of result.now ≡ (exemplar_of self.now).labels }
    {
        self.labels.as_slice()
    }

    /// The number of the exemplar's labels.
    pub fn label_count(&self) -> usize
        ensures { result ≡ length (exemplar_of self.now).labels }
    {
        self.labels.len()
    }

    /// The name and the value of the label at an index, or None if there is none.
    pub fn label(&self, index: usize) -> Option<(&str, &str)>
        ensures { option_map shown_label result ≡ slice_get (exemplar_of self.now).labels index }
    {
        label_at(&self.labels, index)
    }

    /// The exemplar's value.
    pub fn value(&self) -> Fixed
        ensures { result ≡ (exemplar_of self.now).value }
    {
        self.value
    }

    /// The exemplar's timestamp in milliseconds, or None if it has none.
    pub fn timestamp_millis(&self) -> Option<u128>
        ensures { result ≡ (exemplar_of self.now).time }
    {
        self.time
    }
}

// The name and the value of the label at an index of a list.
fn label_at(labels: &[(String, String)], index: usize) -> Option<(&str, &str)>
    ensures { option_map shown_label result ≡ slice_get (labels_of labels.now) index }
{
    let label = labels.get(index)?;
    Some((label.0.as_str(), label.1.as_str()))
}

// The name and the value of the label at an index of two lists, one after the other.
#[tactic(auto, using(crate::proofs::LabelLemmas::gets))]
fn joined_at<'a>(
    front: &'a LabelList,
    back: &'a LabelList,
    index: usize,
) -> Option<(&'a str, &'a str)>
    ensures { option_map shown_label result ≡ slice_get (front.now ++ back.now) index }
{
    if index < front.len() {
        front.label(index)
    } else {
        back.label(index - front.len())
    }
}
