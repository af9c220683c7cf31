//! Counters by labels.
ghost use Rattle.std.specs.Prelude.{[], ◌∷◌, codes, decimal};
ghost use Rattle.fastmetrics.specs.OwnLabels.{label};

use fastmetrics::encoder::{
    EncodeError, EncodeLabelSet, LabelSetEncoder, LabelValue, StaticStr, encode_labels,
};
use fastmetrics::metrics::counter::Counter;
use fastmetrics::metrics::family::{CounterVec, DefaultFamily, PairFamily, with_pairs};
use fastmetrics::raw::MetricError;
use fastmetrics::registry::Waiter;
use std::sync::Wait;

/// Counts a request in the member of its method, which is made if it is not there, and returns how many there were before.
pub fn count_request<H: Waiter>(
    requests: &CounterVec<H>,
    method: &str,
) -> Result<u64, MetricError> {
    requests.with(&[method], |count| count.inc())
}

/// A handle of the member of a method, which counts without a look-up.
pub fn counter_of<H: Waiter>(
    requests: &CounterVec<H>,
    method: &str,
) -> Result<Counter, MetricError> {
    requests.with_label_values(&[method])
}

/// Removes the member of a method, and returns whether there was one.
pub fn forget_method<H: Waiter>(
    requests: &CounterVec<H>,
    method: &str,
) -> Result<bool, MetricError> {
    requests.remove(&[method])
}

/// The labels of a response: its status.
#[derive(Clone, Copy, PartialEq, Eq, Hash)]
pub struct Answer {
    /// The number of its status.
    pub status: u64,
}

impl EncodeLabelSet for Answer {
    ghost labels = { λ answer. label (codes "status") (decimal answer.status) ∷ [] };

    fn encode(&self, encoder: &mut LabelSetEncoder) -> Result<(), EncodeError> {
        encode_labels(encoder, &[("status", LabelValue::Whole(self.status))])
    }
}

/// Counts a response by its labels, which takes no memory if its member exists.
pub fn count_answer<H: Wait + Clone + Drop>(
    answers: &DefaultFamily<Answer, Counter, H>,
    answer: &Answer,
) -> Result<u64, MetricError> {
    answers.with_or_new(answer, |count| count.inc())
}

/// Counts responses by a number, which takes no memory if the member exists.
pub fn count_status<H: Wait + Clone + Drop>(
    statuses: &PairFamily<u64, Counter, H, 1>,
    status: u64,
) -> Result<u64, MetricError> {
    let labels = [(StaticStr("status"), status)];
    with_pairs(statuses, &labels, |count| count.inc())
}
