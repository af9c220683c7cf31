//! A summary, which is a metric of the program's own.
ghost use Rattle.std.specs.Prelude.{◌≡◌, [], ◌∷◌, None};
ghost use Rattle.fastmetrics.specs.Points.{SummaryPoint};
ghost use Rattle.fm_grammar.specs.declared.MetricType.TheVariants.{Summary};

use fastmetrics::encoder::{EncodeError, EncodeMetric, MetricEncoder};
use fastmetrics::metrics::summary::Quantile;
use fastmetrics::raw::{FixedSum, MetricType};
use std::time::Duration;

/// How long requests took, by quantiles that were computed elsewhere.
#[derive(Drop)]
pub struct Latencies {
    /// The quantiles, in seconds.
    pub quantiles: Vec<Quantile>,
    /// How many requests there were.
    pub requests: u64,
    /// How many seconds they took together.
    pub seconds: FixedSum,
}

impl EncodeMetric for Latencies {
    ghost types = { λ _ t. t ≡ Summary };

    ghost offers = { λ l _ ms. ms ≡ record {
      labels = [];
      point = SummaryPoint l.quantiles.items l.seconds l.requests None;
    } ∷ [] };

    fn encode(&self, encoder: &mut MetricEncoder) -> Result<(), EncodeError> {
        encoder.encode_summary(self.quantiles.as_slice(), self.seconds, self.requests, None)
    }

    fn metric_type(&self) -> MetricType {
        MetricType::Summary
    }

    fn timestamp(&self) -> Option<Duration> {
        None
    }
}
