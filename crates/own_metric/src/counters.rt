//! A counter with an exemplar.
ghost use Rattle.std.specs.Prelude.{◌≡◌, ◌⊎◌, [], ◌∷◌, None, pos};
ghost use Rattle.std.specs.Option.{option_map};
ghost use Rattle.fastmetrics.specs.Exposition.{Whole};
ghost use Rattle.fastmetrics.specs.Points.{CounterPoint, millis};
ghost use Rattle.fm_grammar.specs.declared.MetricType.TheVariants.{Counter};

use fastmetrics::encoder::{
    EncodeError, EncodeLabelSet, EncodeMetric, LabeledExemplar, MetricEncoder,
};
use fastmetrics::raw::MetricType;
use std::time::Duration;

/// How many requests were answered, and the trace of one of them.
#[derive(Drop)]
pub struct Returned<LS> {
    /// How many.
    pub requests: u64,
    /// How many seconds one of them took, under its labels.
    pub trace: LabeledExemplar<LS>,
}

impl<LS: EncodeLabelSet + Send + Sync + Drop> EncodeMetric for Returned<LS> {
    ghost types = { λ _ t. t ≡ Counter };

    ghost offers = { λ a _ ms. ms ≡ record {
      labels = [];
      point = CounterPoint (Whole (pos a.requests) ∷ [])
          (record {
            labels = LS.labels a.trace.labels;
            value = a.trace.value;
            time = option_map millis a.trace.timestamp;
          } ∷ []) None;
    } ∷ [] };

    // The trace's labels may return an error of their own.
    ghost may_fault = { λ a. ⊥ ⊎ LS.may_fault a.trace.labels };

    fn encode(&self, encoder: &mut MetricEncoder) -> Result<(), EncodeError> {
        encoder.encode_counter(&self.requests, Some(&self.trace), None)
    }

    fn metric_type(&self) -> MetricType {
        MetricType::Counter
    }

    fn timestamp(&self) -> Option<Duration> {
        None
    }
}
