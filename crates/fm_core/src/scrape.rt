//! What a scrape does: collecting a registry, or writing its document.

pub(crate) mod buffer;
pub(crate) mod collect;
pub(crate) mod encode;
mod family;
mod family_fault;
mod gather;
mod metric_family_encoder;
mod name;

pub use family_fault::{FamilyFault, fault};
pub use metric_family_encoder::MetricFamilyEncoder;
pub(crate) use name::{print_name, text_of};
