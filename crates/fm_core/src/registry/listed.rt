//! A metric as a collector receives it.
ghost use Rattle.std.specs.Prelude.{◌≡◌};
ghost use Rattle.fm_registry_rules.specs.inside.Names.{metadata_tail};

use fm_encoder::EncodeMetric;
use fm_raw::Metadata;

/// A metric as a collector receives it: with its metadata, and with the namespace and the labels of its registry.
///
/// <!-- cut: tests/unit/src/fm_core_registry_listing.rt.in -->
/// ```rust
/// listed.namespace == Some("db")
///     && (key.as_str(), value.as_str()) == ("k", "v")
///     && listed.tail == tail
///     && (listed.metadata.name(), listed.metadata.help()) == (name, "H")
///     && listed.metadata.unit() == Some(&Unit::Bytes)
///     && listed.metric.metric_type() == MetricType::Gauge
/// ```
#[derive(Drop)]
pub struct ListedMetric<'a, M = Box<dyn EncodeMetric>> {
    pub namespace: Option<&'a str>,
    /// The constant labels of its registry.
    pub const_labels: &'a [(String, String)],
    /// The name as it was registered, with an underscore and the unit after it if there is a unit.
    pub tail: &'a str,
    pub metadata: &'a Metadata,
    pub metric: &'a M,
    pub ghost fits: { tail.now ≡ metadata_tail metadata.now },
}
