//! The buckets of histograms: their bounds, their counts, and the search for the bucket of a value.
//!
//! <!-- cut: tests/unit/src/fm_raw_buckets.rt.in -->
//! ```rust
//! let [first, .., last] = DEFAULT_BUCKETS;
//! assert!(rt; default_buckets() == DEFAULT_BUCKETS);
//! ```

pub mod bound;
pub mod error;
pub mod exponential;
pub mod linear;
pub mod search;

pub use crate::fixed::DEFAULT_BUCKETS;
pub use crate::quantile;
pub use crate::quantile::{QUANTILE_LABEL, Quantile};
pub use bound::{BUCKET_LABEL, Bound, Bucket, default_buckets};
pub use error::BucketError;
pub use exponential::{ExponentialBuckets, exponential_buckets, exponential_buckets_range};
pub use linear::{LinearBuckets, linear_buckets};
pub use search::{Probe, find_bucket};
