//! Information that does not change.
//!
//! <!-- cut: crates/server/src/main.rt -->
//! ```rust
//! let mut root: Root<_, Own> = Root::built(Registry::builder(), rt)?;
//! // ..
//! root.namespace("shop", &[("zone", "west")])?;
//! root.info("build", "What runs", &[("version", "1.2")])?;
//! ```
ghost use Rattle.std.specs.Prelude.{◌≡◌, [], ◌∷◌};
ghost use Rattle.fm_grammar.specs.declared.MetricType.TheVariants.{Info as InfoType};
ghost use Rattle.fm_encoder.specs.Points.{InfoPoint};
ghost use Rattle.fm_metrics.specs.Constants.{label_set_of};

use fm_encoder::{EncodeLabelSet, EncodeMetric, EncodePoint, MetricEncoder, PointEncoder};
use fm_raw::{EncodeError, MetricType, TypedMetric};
use std::time::Duration;

/// An info metric: a label set that does not change.
///
/// <!-- cut: crates/calling/src/infos.rt -->
/// ```rust
/// let version = (
///     String::from_str(alloc, "version")?,
///     String::from_str(alloc, "1.2.3")?,
/// );
/// Ok(Info::new(vec![in alloc; version]?))
/// ```
#[derive(Clone, Debug, Drop)]
pub struct Info<LS> {
    labels: LS,
}

impl<LS> Info<LS> {
    /// An info metric with this label set.
    pub fn new(labels: LS) -> Info<LS>
        ensures { label_set_of result ≡ labels }
    {
        Info { labels }
    }

    /// The label set.
    pub fn get(&self) -> &LS
        ensures { result.now ≡ label_set_of self.now }
    {
        &self.labels
    }
}

impl<LS> TypedMetric for Info<LS> {
    ghost TYPE = { InfoType };

    const TYPE: MetricType = MetricType::Info;
}

impl<LS: EncodeLabelSet> EncodePoint for Info<LS> {
    ghost points = { λ i ps. ps ≡ InfoPoint (LS.labels i.labels) ∷ [] };

    ghost may_fault = { λ i. LS.may_fault i.labels };

    fn encode(&self, points: &mut PointEncoder) -> Result<(), EncodeError> {
        points.encode_info(&self.labels)
    }
}

impl<LS: EncodeLabelSet + Send + Sync + Drop> EncodeMetric for Info<LS> {
    ghost types = { λ _ t. t ≡ InfoType };

    ghost offers = { λ i _ ms. ms
        ≡ record { labels = []; point = InfoPoint (LS.labels i.labels) } ∷ [] };

    ghost may_fault = { λ i. LS.may_fault i.labels };

    fn encode(&self, encoder: &mut MetricEncoder) -> Result<(), EncodeError> {
        encoder.encode(&(), self)
    }

    fn metric_type(&self) -> MetricType {
        MetricType::Info
    }

    fn timestamp(&self) -> Option<Duration> {
        None
    }
}
