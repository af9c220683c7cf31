//! The value of a sample by its name and its labels.
ghost use Rattle.std.specs.Prelude.{◌≡◌, ◌++◌, map, slice_get};
ghost use Rattle.std.specs.Cmp.Lexicographic.{pointwise};
ghost use Rattle.std.specs.Option.{option_map};
ghost use Rattle.fm_grammar.specs.Kinds.{suffix_of};
ghost use Rattle.fm_grammar.specs.LabelPairs.{shown_label};
ghost use Rattle.fm_exposition.specs.Samples.{sample_of, value_of};
ghost use Rattle.fm_exposition.specs.Same.{same_text, same_label};
ghost use Rattle.fm_exposition.specs.Finding.{named_samples, value_among, first_value};

use crate::equality::is_same_label;
use crate::exposition::{Exposition, FamilySamples, Sample, Value};
use fm_grammar::SampleKind;

impl Exposition {
    /// The value of the first sample, in the exposition's order, whose name is `name` and whose labels are exactly these, or None
    /// if there is none. It takes no memory.
    ///
    /// A sample's name is its family's with the suffix of its kind, as its line shows it: `requests_total`, `took_bucket`,
    /// `took_count`. Its labels are in the order in which they are written: those of the registry come first, and `le` and
    /// `quantile` are among them.
    pub fn value(&self, name: &str, labels: &[(&str, &str)]) -> Option<Value>
        ensures { option_map value_of result
            ≡ first_value name.now (map shown_label labels.now) self.now }
    {
        for family in self.families() {
            if let Some(value) = value_in(family, name, labels) {
                return Some(value);
            }
        }
        None
    }
}

// The value of the first sample of a family with this name and these labels.
fn value_in(family: &FamilySamples, name: &str, labels: &[(&str, &str)]) -> Option<Value>
    ensures { option_map value_of result
        ≡ value_among name.now (map shown_label labels.now) (named_samples family.now) }
{
    for sample in family.samples() {
        if has_name(family.name(), sample.kind(), name) && has_labels(sample, labels) {
            return Some(sample.value());
        }
    }
    None
}

// Whether samples of a kind in the family of the first name are printed under the other name.
fn has_name(family: &str, kind: SampleKind, name: &str) -> bool
    ensures { result ≡ same_text (family.now ++ suffix_of kind) name.now }
{
    match name.strip_prefix(family) {
        Some(suffix) => kind.suffix() == suffix,
        None => false,
    }
}

// Whether a sample has exactly these labels.
fn has_labels(sample: &Sample, labels: &[(&str, &str)]) -> bool
    ensures { result
        ≡ pointwise same_label (sample_of sample.now).labels (map shown_label labels.now) }
{
    let count = sample.label_count();
    if count != labels.len() {
        return false;
    }
    for index in 0..count {
        if !is_same_label(sample.label(index), pair_at(labels, index)) {
            return false;
        }
    }
    true
}

// The pair at an index, or None if there is none.
fn pair_at<'n, 'v>(labels: &[(&'n str, &'v str)], index: usize) -> Option<(&'n str, &'v str)>
    ensures { option_map shown_label result ≡ slice_get (map shown_label labels.now) index }
{
    labels.get(index).copied()
}
