//! Labels, states and metrics of a program's own: requests, how many of them wait in a queue, how far a job is, a counter and a
//! histogram with an exemplar, a summary, and a gauge with the timestamp of its value.
#![tactic(auto)]

ghost use Rattle.std.specs.Prelude.{◌≡◌, [], ◌∷◌, pos, codes, decimal, string_bytes};
ghost use Rattle.fastmetrics.specs.Exposition.{Whole};
ghost use Rattle.fastmetrics.specs.Points.{GaugePoint};
ghost use Rattle.fm_grammar.specs.declared.MetricType.TheVariants.{Gauge};
ghost use Rattle.fastmetrics.specs.OwnLabels.{label};

pub mod counters;
pub mod histograms;
pub mod readings;
pub mod request;
pub mod states;
pub mod summaries;

pub use counters::Returned;
use fastmetrics::encoder::{
    EncodeError, EncodeLabelSet, EncodeMetric, LabelSetEncoder, LabelValue, MetricEncoder,
    encode_labels,
};
use fastmetrics::metrics::gauge::ConstGauge;
use fastmetrics::metrics::labeled::Labeled;
use fastmetrics::raw::MetricType;
pub use histograms::Durations;
pub use readings::Readings;
use std::time::Duration;
pub use summaries::Latencies;

/// Which queue.
#[derive(Drop)]
pub struct Queue {
    /// Its name.
    pub name: String,
    /// Its priority: 0 comes first.
    pub priority: u8,
}

impl EncodeLabelSet for Queue {
    ghost labels = { λ q.
        label (codes "queue") (string_bytes q.name)
        ∷ label (codes "priority") (decimal q.priority) ∷ [] };

    fn encode(&self, encoder: &mut LabelSetEncoder) -> Result<(), EncodeError> {
        let name = LabelValue::Text(self.name.as_str());
        let priority = LabelValue::Whole(u64::from(self.priority));
        encode_labels(encoder, &[("queue", name), ("priority", priority)])
    }
}

/// How many requests wait in a queue: nothing but labels and a value.
pub fn waiting_now(queue: Queue, requests: u64) -> Labeled<Queue, ConstGauge<u64>> {
    Labeled {
        labels: queue,
        point: ConstGauge::new(requests),
    }
}

/// The same by a type whose `impl` says what it offers.
#[derive(Drop)]
pub struct Waiting {
    /// Which queue.
    pub queue: Queue,
    /// How many.
    pub requests: u64,
}

impl EncodeMetric for Waiting {
    ghost types = { λ _ t. t ≡ Gauge };

    ghost offers = { λ w _ ms. ms ≡ record {
      labels = ⟦<Queue as EncodeLabelSet>⟧.labels w.queue;
      point = GaugePoint (Whole (pos w.requests) ∷ []);
    } ∷ [] };

    fn encode(&self, encoder: &mut MetricEncoder) -> Result<(), EncodeError> {
        encoder.encode(&self.queue, &ConstGauge::new(self.requests))
    }

    fn metric_type(&self) -> MetricType {
        MetricType::Gauge
    }

    fn timestamp(&self) -> Option<Duration> {
        None
    }
}
