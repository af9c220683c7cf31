//! How metrics pass values and points to the encoders that gather samples.
//!
//! A user's metric implements [`EncodeMetric`]. It declares in the trait's ghost members what it may emit, and `collect`
//! relies on nothing else. An encoder keeps its first refusal, even if a metric ignores the error.
#![tactic(auto)]

pub mod exemplar;
pub mod metric;
pub mod point;
mod time;
pub mod value;

pub mod collector {
    //! What the collector and families call, and no metric.
    pub use crate::metric::collector::{
        begin_document, begin_family, encode_member, end_document, enter, for_lines, for_samples,
        lines, outcome, take_samples, type_of,
    };
    pub use fm_labels::WrittenLabels;
}

pub use exemplar::{EncodeExemplar, ExemplarEncoder, ExemplarLabels, LabeledExemplar};
pub use fm_labels::{
    EncodeLabel, EncodeLabelName, EncodeLabelSet, EncodeLabelValue, FirstRefusal, LabelEncoder,
    LabelSetEncoder, LabelSlice, LabelStr, LabelValue, StaticStr, encode_labels, label, label_set,
    label_value,
};
pub use fm_raw::EncodeError;
pub use metric::{EncodeMetric, MetricEncoder};
pub use point::histogram::bare::{encode_bare_gauge_histogram, encode_bare_histogram};
pub use point::{EncodePoint, PointEncoder};
pub use time::whole_millis;
pub use value::{
    CounterValueEncoder, EncodeCounterValue, EncodeGaugeValue, EncodeUnknownValue,
    GaugeValueEncoder, UnknownValueEncoder,
};
