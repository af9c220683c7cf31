//! Snapshots of histograms and gauge histograms as metrics.
ghost use Rattle.std.specs.Prelude.{◌≡◌, [], ◌∷◌, None};
ghost use Rattle.fm_histogram.specs.Shown.{alone};

use crate::sign::Sign;
use crate::snapshot::SnapshotOf;
use fm_encoder::{EncodeMetric, EncodePoint, MetricEncoder, PointEncoder};
use fm_raw::{EncodeError, MetricType, TypedMetric};
use std::time::Duration;

impl<S: Sign> TypedMetric for SnapshotOf<S> {
    ghost TYPE = { S.TYPE };

    const TYPE: MetricType = S::TYPE;
}

/// The snapshot's buckets without exemplars, its count and its sum, without a time of creation.
impl<S: Sign> EncodePoint for SnapshotOf<S> {
    ghost points = { λ s ps. ps ≡ S.point s None ∷ [] };

    fn encode(&self, points: &mut PointEncoder) -> Result<(), EncodeError> {
        self.encode_created(None, points)
    }
}

impl<S: Sign + Send + Sync> EncodeMetric for SnapshotOf<S> {
    ghost types = { λ _ t. t ≡ S.TYPE };

    ghost offers = { λ s _ ms. ms ≡ alone (S.point s None) ∷ [] };

    fn encode(&self, encoder: &mut MetricEncoder) -> Result<(), EncodeError> {
        encoder.encode(&(), self)
    }

    fn metric_type(&self) -> MetricType {
        S::TYPE
    }

    fn timestamp(&self) -> Option<Duration> {
        None
    }
}
