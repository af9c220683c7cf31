//! Why a call that makes bounds fails.
//!
//! <!-- cut: tests/unit/src/fm_raw_buckets.rt.in -->
//! ```rust
//! fn is_error(alloc: Global, error: BucketError, number: u8, text: &str) -> Result<bool, AllocError> {
//!     Ok(error.number() == number && error.to_string(alloc)?.as_str() == text)
//! }
//! ```
ghost use Rattle.std.specs.Prelude.{◌≡◌};
ghost use Rattle.fm_raw.specs.BucketErrors.{error_number};

use thiserror::Error;

/// Why bounds could not be made: the first test that failed.
///
/// <!-- cut: crates/expose_io/src/output.rt -->
/// ```rust
/// fn from(error: BucketError) -> Fault {
///     Fault::Refused {
///         layer: "bucket",
///         number: error.number(),
///     }
/// }
/// ```
#[derive(Clone, Copy, Debug, PartialEq, Eq, Hash, Drop, Error)]
pub enum BucketError {
    /// The width is not above zero.
    #[error("NonPositiveWidth")]
    NonPositiveWidth = 1,
    /// The number of bounds is zero.
    #[error("ZeroCount")]
    ZeroCount = 2,
    /// The last bound is greater than the greatest `Fixed`.
    #[error("Overflow")]
    Overflow = 3,
    /// The first bound is not above zero.
    #[error("NonPositiveStart")]
    NonPositiveStart = 4,
    /// The factor is less than two.
    #[error("FactorTooSmall")]
    FactorTooSmall = 5,
    /// No whole factor leads from the least bound to the greatest in this number of steps.
    #[error("NoWholeFactor")]
    NoWholeFactor = 6,
}

impl BucketError {
    /// The error's number, from 1 to 6.
    pub fn number(self) -> u8
        ensures { result ≡ error_number self }
    {
        self as u8
    }
}
