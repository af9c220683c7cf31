//! Makes expositions. It is for collectors: a user gets expositions from a registry's `collect`.

ghost use Rattle.std.specs.Prelude.{◌≡◌};
ghost use Rattle.std.specs.Option.{option_map};
ghost use Rattle.std.specs.String.{string_bytes};
ghost use Rattle.fm_grammar.specs.Reading.{IsExposition};
ghost use Rattle.fm_grammar.specs.LabelPairs.{labels_of};
ghost use Rattle.fm_exposition.specs.Samples.{exemplar_of};

use crate::exposition::{Exemplar, Exposition, FamilySamples};
use crate::store::SampleStore;
use fm_grammar::MetricType;
use fm_raw::fixed::Fixed;

/// An exemplar with these labels, this value and this time in milliseconds.
pub fn exemplar(labels: Vec<(String, String)>, value: Fixed, time: Option<u128>) -> Exemplar
    ensures { exemplar_of result
        ≡ record { labels = labels_of labels.items; value = value; time = time } }
{
    Exemplar {
        labels,
        value,
        time,
    }
}

/// A family with these parts.
pub fn family(
    name: String,
    metric_type: MetricType,
    help: String,
    unit: Option<String>,
    samples: SampleStore,
) -> FamilySamples
    ensures { result ≡ record {
      name = string_bytes name;
      metric_type = metric_type;
      help = string_bytes help;
      unit = option_map string_bytes unit;
      samples = samples.samples;
    } }
{
    FamilySamples {
        name,
        metric_type,
        help,
        unit,
        samples,
    }
}

/// The exposition of these families, which are well formed and have different names.
pub fn exposition(families: Vec<FamilySamples>) -> Exposition
    requires { IsExposition families.items }
    ensures { result ≡ families.items }
{
    Exposition { families }
}
