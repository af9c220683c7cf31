//! `EncodeError`: why collecting or writing an exposition fails.
ghost use Rattle.std.specs.Prelude.{◌≡◌};
ghost use Rattle.fm_raw.specs.EncodeErrors.{error_number};
ghost use Rattle.fm_raw.specs.declared.encode_error.EncodeError.TheVariants.{Memory};

use std::alloc::{AllocError, AllocFailed};
use thiserror::Error;

/// Why an exposition was not collected or not written.
///
/// <!-- cut: crates/own_metric/src/readings.rt -->
/// ```rust
/// if encoder.timestamp() != Some(u128::from(reading.0)) {
///     return Err(EncodeError::MetricFault);
/// }
/// ```
#[derive(Clone, Copy, Debug, PartialEq, Eq, Hash, Drop, Error)]
pub enum EncodeError {
    /// Memory could not be allocated.
    #[error("Memory")]
    Memory,
    /// A label's name is not a letter or an underscore, followed by letters, digits and underscores.
    #[error("InvalidLabelName")]
    InvalidLabelName,
    /// A label has the name that its family's type reserves: `le` for histograms, `quantile` for summaries.
    #[error("ReservedLabel")]
    ReservedLabel,
    /// Two labels of one sample or exemplar have the same name.
    #[error("DuplicateLabel")]
    DuplicateLabel,
    /// A label was not encoded as one name and then one value.
    #[error("MalformedLabel")]
    MalformedLabel,
    /// The user's code for a value ended without a number.
    #[error("MissingValue")]
    MissingValue,
    /// The user's code for a value encoded a second number.
    #[error("ValueTwice")]
    ValueTwice,
    /// A histogram point has not one entry for an exemplar for each bucket.
    #[error("ExemplarCountMismatch")]
    ExemplarCountMismatch,
    /// The counts of a histogram's buckets add up to more than `u64::MAX`.
    #[error("BucketOverflow")]
    BucketOverflow,
    /// A point's type is not the type that its metric declared.
    #[error("KindMismatch")]
    KindMismatch,
    /// The user's code for an exemplar encoded a second one.
    #[error("ExemplarTwice")]
    ExemplarTwice,
    /// The names and values of an exemplar's labels have more than 128 characters together.
    #[error("ExemplarTooLong")]
    ExemplarTooLong,
    /// The user's code that encodes a metric or its labels returned an error of its own.
    #[error("MetricFault")]
    MetricFault,
    /// The writer returned an error.
    #[error("Write")]
    Write,
    /// The writer accepted no byte: it returned 0.
    #[error("WriteZero")]
    WriteZero,
}

impl EncodeError {
    /// The error's number, from 1 to 15.
    pub fn number(self) -> u8
        ensures { result ≡ error_number self }
    {
        match self {
            EncodeError::Memory => 1,
            EncodeError::InvalidLabelName => 2,
            EncodeError::ReservedLabel => 3,
            EncodeError::DuplicateLabel => 4,
            EncodeError::MalformedLabel => 5,
            EncodeError::MissingValue => 6,
            EncodeError::ValueTwice => 7,
            EncodeError::ExemplarCountMismatch => 8,
            EncodeError::BucketOverflow => 9,
            EncodeError::KindMismatch => 10,
            EncodeError::ExemplarTwice => 11,
            EncodeError::ExemplarTooLong => 12,
            EncodeError::MetricFault => 13,
            EncodeError::Write => 14,
            EncodeError::WriteZero => 15,
        }
    }
}

impl From<AllocError> for EncodeError {
    ghost from_gives = { λ _ e. e ≡ Memory };

    fn from(_: AllocError) -> EncodeError {
        EncodeError::Memory
    }
}

impl<T: Drop> From<AllocFailed<T>> for EncodeError {
    ghost from_gives = { λ _ e. e ≡ Memory };

    fn from(_: AllocFailed<T>) -> EncodeError {
        EncodeError::Memory
    }
}
