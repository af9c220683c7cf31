//! A gauge of recorded readings, whose value and timestamp are of one moment.
ghost use Rattle.std.specs.Prelude.{◌≡◌, ℕ, ℤ, [], ◌∷◌, Some, IfSome, Contains};
ghost use Rattle.fastmetrics.specs.Exposition.{Whole};
ghost use Rattle.fastmetrics.specs.Points.{GaugePoint};
ghost use Rattle.fm_grammar.specs.declared.MetricType.TheVariants.{Gauge};

use fastmetrics::encoder::{EncodeError, EncodeMetric, MetricEncoder};
use fastmetrics::raw::MetricType;
use std::sync::atomic::{AtomicUsize, Ordering};
use std::time::Duration;

/// Readings that were recorded, and the index of the one that is shown.
#[derive(Drop)]
pub struct Readings {
    /// Of each reading its moment, in milliseconds since the Unix epoch, and its value.
    pub recorded: Vec<(u64, i64)>,
    /// The index of the one that is shown. Other threads may change it at any time.
    pub shown: AtomicUsize,
}

impl Readings {
    // The reading that is shown at this moment.
    fn shown_reading(&self) -> Option<(u64, i64)>
        ensures { IfSome result (λ reading. Contains self.now.recorded.items reading) }
    {
        self.recorded
            .get(self.shown.load(Ordering::Relaxed))
            .copied()
    }
}

impl EncodeMetric for Readings {
    ghost types = { λ _ t. t ≡ Gauge };

    // Which reading is shown may change, and the timestamp with it.
    ghost stamps = { λ _ _. Unit {0} };

    // But the value is that of the timestamp's moment.
    ghost offers = { λ r stamp ms. (reading : ℕ × ℤ)
        × Contains r.recorded.items reading × (stamp ≡ Some reading.0)
        × (ms ≡ record { labels = []; point = GaugePoint (Whole reading.1 ∷ []) } ∷ []) };

    // Another reading is shown than when the timestamp was asked for.
    ghost may_fault = { λ _. Unit {0} };

    fn encode(&self, encoder: &mut MetricEncoder) -> Result<(), EncodeError> {
        let Some(reading) = self.shown_reading() else {
            return Err(EncodeError::MetricFault);
        };
        if encoder.timestamp() != Some(u128::from(reading.0)) {
            return Err(EncodeError::MetricFault);
        }
        encoder.encode_gauge(&reading.1)
    }

    fn metric_type(&self) -> MetricType {
        MetricType::Gauge
    }

    fn timestamp(&self) -> Option<Duration> {
        match self.shown_reading() {
            Some(reading) => Some(Duration::from_millis(reading.0)),
            None => None,
        }
    }
}
