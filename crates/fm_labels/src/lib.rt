//! Labels: what emits them, the encoders that gather and test them, and label values.
#![tactic(auto)]

pub mod collecting;
pub mod label;
mod label_number;
pub mod label_set;
mod label_set_wrapper;
mod label_text_value;
pub mod label_value;
pub mod label_values;
mod label_wrapper;
mod names;

pub use collecting::constants::ConstantLabels;
pub use collecting::first_refusal::FirstRefusal;
pub use collecting::written::WrittenLabels;
pub use fm_raw::EncodeError;
pub use label::{EncodeLabel, EncodeLabelName, EncodeLabelValue, LabelEncoder, LabelSetEncoder};
pub use label_set::{EncodeLabelSet, LabelSlice};
pub use label_value::{LabelStr, LabelValue, StaticStr, encode_labels};
pub use label_values::LabelValues;
