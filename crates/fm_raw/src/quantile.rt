//! Quantiles of summaries.
//!
//! <!-- cut: tests/unit/src/fm_laws_calls.rt.in -->
//! ```rust
//! let quantile = Quantile::new(median, value);
//! assert!(rt; quantile.quantile() == median && quantile.value() == value);
//! ```
ghost use Rattle.std.specs.Prelude.{◌≡◌};

use crate::fixed::Fixed;

/// The name of the label whose value is the quantile of a sample (OpenMetrics, Summary).
pub const QUANTILE_LABEL: &str = "quantile";

/// A quantile of observed values, mostly from 0 to 1, and its value. Neither is tested.
///
/// <!-- cut: tests/unit/src/fastmetrics_memory_of_documents.rt.in -->
/// ```rust
/// let quantiles = [
///     Quantile::new(Fixed::from_millionths(500_000), one),
///     // ..
/// ];
/// encoder.encode_summary(&quantiles, FixedSum::from(one), 3, None)
/// ```
#[derive(Clone, Copy, Debug, PartialEq, Eq)]
pub struct Quantile {
    pub(crate) quantile: Fixed,
    pub(crate) value: Fixed,
}

impl Quantile {
    /// This quantile with this value. The median is the quantile 0.5.
    pub fn new(quantile: Fixed, value: Fixed) -> Quantile
        ensures { result ≡ record { quantile = quantile; value = value } }
    {
        Quantile { quantile, value }
    }

    /// The quantile, such as 0.5 for the median.
    pub fn quantile(self) -> Fixed
        ensures { result ≡ self.quantile }
    {
        self.quantile
    }

    /// The value at the quantile.
    pub fn value(self) -> Fixed
        ensures { result ≡ self.value }
    {
        self.value
    }
}
