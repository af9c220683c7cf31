// When two parts of an exposition are equal: exactly if contracts see them as equal.
ghost use Rattle.std.specs.Prelude.{◌≡◌, ◌↔◌, IsTrue};
ghost use Rattle.std.specs.Cmp.Lexicographic.{pointwise};
ghost use Rattle.std.specs.Option.{option_map, option_eq};
ghost use Rattle.std.specs.Ordering.{on};
ghost use Rattle.fm_exposition.specs.Same.{same_label, same_value, same_exemplar, same_sample, same_family, same_exposition};
ghost use Rattle.fm_grammar.specs.LabelPairs.{labels_of, shown_label};
ghost use Rattle.fm_exposition.specs.Samples.{value_of, exemplar_of, sample_of};
ghost use Rattle.fm_exposition.specs.inside.SameLaws.{view_laws, view_equivalence, same_value_decides, same_exemplar_decides, same_sample_decides, family_laws, family_equivalence, exposition_laws, exposition_equivalence};

use crate::exposition::{Exemplar, Exposition, FamilySamples, Sample, Value};

impl PartialEq for Value {
    ghost eq = { on value_of same_value };

    ghost laws = { view_laws value_of same_value same_value_decides };

    /// Whether both are the same number of the same kind.
    #[tactic(auto, using(crate::proofs::SameLemmas::same))]
    fn eq(&self, other: &Value) -> bool
        ensures test { result ≡ same_value (value_of self.now) (value_of other.now) }
        ensures exact { IsTrue result ↔ (value_of self.now ≡ value_of other.now) }
    {
        match (self, other) {
            (Value::Whole(one), Value::Whole(other)) => *one == *other,
            (Value::Fixed(one), Value::Fixed(other)) => one.millionths() == other.millionths(),
            (Value::Millis(one), Value::Millis(other)) => *one == *other,
            _ => false,
        }
    }
}

impl Eq for Value {
    ghost laws = { view_equivalence value_of same_value same_value_decides };
}

impl PartialEq for Exemplar {
    ghost eq = { on exemplar_of same_exemplar };

    ghost laws = { view_laws exemplar_of same_exemplar same_exemplar_decides };

    /// Whether both have the same labels, value and time.
    #[tactic(auto, using(crate::proofs::SameLemmas::same))]
    fn eq(&self, other: &Exemplar) -> bool
        ensures test { result ≡ same_exemplar (exemplar_of self.now) (exemplar_of other.now) }
        ensures exact { IsTrue result ↔ (exemplar_of self.now ≡ exemplar_of other.now) }
    {
        is_same_exemplar(self, other)
    }
}

impl Eq for Exemplar {
    ghost laws = { view_equivalence exemplar_of same_exemplar same_exemplar_decides };
}

impl PartialEq for Sample {
    ghost eq = { on sample_of same_sample };

    ghost laws = { view_laws sample_of same_sample same_sample_decides };

    /// Whether both have the same kind, labels, value, time and exemplar.
    #[tactic(auto, using(crate::proofs::SameLemmas::same))]
    fn eq(&self, other: &Sample) -> bool
        ensures test { result ≡ same_sample (sample_of self.now) (sample_of other.now) }
        ensures exact { IsTrue result ↔ (sample_of self.now ≡ sample_of other.now) }
    {
        is_same_sample(self, other)
    }
}

impl Eq for Sample {
    ghost laws = { view_equivalence sample_of same_sample same_sample_decides };
}

impl PartialEq for FamilySamples {
    ghost eq = { same_family };

    ghost laws = { family_laws };

    /// Whether both have the same name, type, help, unit and samples.
    #[tactic(auto, using(crate::proofs::SameLemmas::same))]
    fn eq(&self, other: &FamilySamples) -> bool
        ensures test { result ≡ same_family self.now other.now }
        ensures exact { IsTrue result ↔ (self.now ≡ other.now) }
    {
        is_same_family(self, other)
    }
}

impl Eq for FamilySamples {
    ghost laws = { family_equivalence };
}

impl PartialEq for Exposition {
    ghost eq = { same_exposition };

    ghost laws = { exposition_laws };

    /// Whether both have the same families in the same order.
    #[tactic(auto, using(crate::proofs::SameLemmas::same))]
    fn eq(&self, other: &Exposition) -> bool
        ensures test { result ≡ same_exposition self.now other.now }
        ensures exact { IsTrue result ↔ (self.now ≡ other.now) }
    {
        self.families == other.families
    }
}

impl Eq for Exposition {
    ghost laws = { exposition_equivalence };
}

// Whether two lists have the same labels.
#[tactic(auto, using(crate::proofs::SameLemmas::same))]
fn same_labels(one: &[(String, String)], other: &[(String, String)]) -> bool
    ensures { result ≡ pointwise same_label (labels_of one.now) (labels_of other.now) }
{
    one == other
}

// Whether two samples have the same labels, whichever of them are shared.
fn same_joined_labels(one: &Sample, other: &Sample) -> bool
    ensures { result
        ≡ pointwise same_label (sample_of one.now).labels (sample_of other.now).labels }
{
    let count = one.label_count();
    if count != other.label_count() {
        return false;
    }
    for index in 0..count {
        if !is_same_label(one.label(index), other.label(index)) {
            return false;
        }
    }
    true
}

// Whether two labels are the same, or both are absent.
pub(crate) fn is_same_label(one: Option<(&str, &str)>, other: Option<(&str, &str)>) -> bool
    ensures { result
        ≡ option_eq same_label (option_map shown_label one.entry)
        (option_map shown_label other.entry) }
{
    match (one, other) {
        (Some(one), Some(other)) => one.0 == other.0 && one.1 == other.1,
        (None, None) => true,
        _ => false,
    }
}

// Whether two exemplars have the same parts.
#[tactic(auto, using(crate::proofs::SameLemmas::same))]
fn is_same_exemplar(one: &Exemplar, other: &Exemplar) -> bool
    ensures { result ≡ same_exemplar (exemplar_of one.now) (exemplar_of other.now) }
{
    same_labels(&one.labels, &other.labels)
        && one.value.millionths() == other.value.millionths()
        && one.time == other.time
}

// Whether two samples have the same parts.
#[tactic(auto, using(crate::proofs::SameLemmas::same))]
fn is_same_sample(one: &Sample, other: &Sample) -> bool
    ensures { result ≡ same_sample (sample_of one.now) (sample_of other.now) }
{
    one.kind as u8 == other.kind as u8
        && same_joined_labels(one, other)
        && one.value == other.value
        && one.time == other.time
        && one.exemplar() == other.exemplar()
}

// Whether two families have the same parts.
#[tactic(auto, using(crate::proofs::SameLemmas::same))]
fn is_same_family(one: &FamilySamples, other: &FamilySamples) -> bool
    ensures { result ≡ same_family one.now other.now }
{
    one.name == other.name
        && one.metric_type as u8 == other.metric_type as u8
        && one.help == other.help
        && one.unit == other.unit
        && one.samples() == other.samples()
}
