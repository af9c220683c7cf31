//! A histogram with an exemplar.
ghost use Rattle.std.specs.Prelude.{◌≡◌, [], ◌∷◌, None};
ghost use Rattle.std.specs.Option.{option_map};
ghost use Rattle.fastmetrics.specs.Points.{HistogramPoint, millis};
ghost use Rattle.fm_grammar.specs.declared.MetricType.TheVariants.{Histogram};

use fastmetrics::encoder::{
    EncodeError, EncodeLabelSet, EncodeMetric, LabeledExemplar, MetricEncoder,
};
use fastmetrics::raw::bucket::Bucket;
use fastmetrics::raw::{FixedSum, MetricType};
use std::time::Duration;

/// How long requests took, by one bound, and the trace of one that was within it.
#[derive(Drop)]
pub struct Durations<LS> {
    /// The bucket of the bound, and the one above it.
    pub buckets: [Bucket; 2],
    /// How many seconds one of the first bucket took, under its labels.
    pub trace: LabeledExemplar<LS>,
    /// How many requests there were.
    pub requests: u64,
    /// How many seconds they took together.
    pub seconds: FixedSum,
}

impl<LS: EncodeLabelSet + Send + Sync + Drop> EncodeMetric for Durations<LS> {
    ghost types = { λ _ t. t ≡ Histogram };

    ghost offers = { λ d _ ms. ms ≡ record {
      labels = [];
      point = HistogramPoint d.buckets
          ((record {
            labels = LS.labels d.trace.labels;
            value = d.trace.value;
            time = option_map millis d.trace.timestamp;
          } ∷ []) ∷ [] ∷ [])
          d.requests d.seconds None;
    } ∷ [] };

    // The trace's labels may return an error of their own.
    ghost may_fault = { λ _. Unit {0} };

    fn encode(&self, encoder: &mut MetricEncoder) -> Result<(), EncodeError> {
        let exemplars = [Some(&self.trace), None];
        encoder.encode_histogram(&self.buckets, &exemplars, self.requests, self.seconds, None)
    }

    fn metric_type(&self) -> MetricType {
        MetricType::Histogram
    }

    fn timestamp(&self) -> Option<Duration> {
        None
    }
}
