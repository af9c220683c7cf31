//! The metrics of one registry, as a collector receives them.
ghost use Rattle.std.specs.Prelude.{◌≡◌, slice_get};
ghost use Rattle.std.specs.Option.{option_copied, option_map};
ghost use Rattle.fm_grammar.specs.LabelPairs.{labels_of};
ghost use Rattle.fm_registry_rules.specs.Listing.{listed_with};
ghost use Rattle.fm_core.specs.inside.TreeView.{seen_metrics};
ghost use Rattle.fm_core.specs.Seen.{seen_listed};

use crate::registry::listed::ListedMetric;
use fm_registry_rules::names::Tailed;
use indexmap::IndexMap;

// The metric at an index in a registry with this namespace and these labels.
pub(crate) fn metric_in<'a, M>(
    namespace: Option<&'a str>,
    const_labels: &'a [(String, String)],
    metrics: &'a IndexMap<Tailed, M>,
    index: usize,
) -> Option<ListedMetric<'a, M>>
    ensures { option_map seen_listed result
        ≡ slice_get
        (listed_with (option_copied namespace.entry) (labels_of const_labels.now) (seen_metrics metrics.now.entries))
        index }
{
    let Some((key, metric)) = metrics.get_index(index) else {
        return None;
    };
    Some(ListedMetric {
        namespace,
        const_labels,
        tail: key.tail(),
        metadata: key.metadata(),
        metric,
    })
}
