//! The OpenMetrics text format: collecting a registry, writing its document, reading documents back, and finding where
//! two texts differ.
//!
//! <!-- cut: crates/calling/src/documents.rt -->
//! ```rust
//! let exposition = collect(alloc, registry)?;
//! if exposition.families().is_empty() {
//!     return Ok(None);
//! }
//! let mut body = Vec::new(alloc);
//! encode_exposition(alloc, &mut body, &exposition)?;
//! ```

pub use crate::scrape::buffer::DocumentBuffer;
pub use crate::scrape::collect::collect;
pub use crate::scrape::encode::encode;
pub use crate::scrape::{FamilyFault, fault};
pub use fm_exposition::{Exemplar, Exposition, FamilySamples, Sample, Value};
pub use fm_grammar::SampleKind;
pub use fm_raw::EncodeError;
pub use fm_reader::{Difference, ReadError, first_difference, read};
pub use fm_writer::encode_exposition;

/// The content type of a document, for the header of a server's answer (OpenMetrics 1.0.0, "Overall Structure").
pub const CONTENT_TYPE: &str = "application/openmetrics-text; version=1.0.0; charset=utf-8";
