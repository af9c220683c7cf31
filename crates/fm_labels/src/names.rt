// The test of labels' names against the type of their family.
ghost use Rattle.std.specs.Prelude.{◌↔◌, IsTrue};
ghost use Rattle.fm_labels.specs.Labels.{IsReserved};
ghost use Rattle.fm_labels.specs.inside.FreeLabels.{HasReserved, HasAnyReserved};

use fm_grammar::MetricType;
use fm_text::LabelText;

// Whether metrics of this type keep the name for labels of their own.
pub(crate) fn is_reserved(metric_type: MetricType, name: &str) -> bool
    ensures { IsTrue result ↔ IsReserved metric_type name.now }
{
    match metric_type.reserved_label() {
        Some(reserved) => reserved == name,
        None => false,
    }
}

// Whether one of the labels has the name that metrics of this type keep for labels of their own.
pub(crate) fn has_reserved(metric_type: MetricType, labels: &LabelText) -> bool
    ensures { IsTrue result ↔ HasReserved metric_type labels.now.labels }
{
    match metric_type.reserved_label() {
        Some(reserved) => labels.has_name(reserved),
        None => false,
    }
}

// Whether one of the labels has a name that metrics of some type keep for labels of their own.
pub(crate) fn has_any_reserved(labels: &LabelText) -> bool
    ensures { IsTrue result ↔ HasAnyReserved labels.now.labels }
{
    MetricType::all()
        .iter()
        .any(|metric_type| has_reserved(*metric_type, labels))
}
