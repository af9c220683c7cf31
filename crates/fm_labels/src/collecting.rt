//! What encoders of families, points and exemplars do with labels, and no label set.
pub mod after;
pub mod constants;
pub mod first_refusal;
pub mod written;

pub mod gathering {
    //! What these encoders do with a label set encoder.
    pub use crate::label::gathering::{begin, metric_type, new, outcome, text};
}
