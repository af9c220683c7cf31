//! Buckets and their bounds.
//!
//! <!-- cut: tests/unit/src/fm_laws_calls.rt.in -->
//! ```rust
//! let (low, high) = (Fixed::from_millionths(-1), Fixed::from_millionths(2));
//! // ..
//! assert!(rt; Bound::Finite(low) < Bound::Finite(high) && Bound::Finite(high) < Bound::Inf);
//! ```
ghost use Rattle.std.specs.Prelude.{◌≡◌, ◌+◌, ◌^◌, ◌↔◌, Ok, Err, IfErr, OnOk, OnErr};
ghost use Rattle.fm_raw.specs.declared.error.MetricError.TheVariants.{CountFull};
ghost use Rattle.fm_raw.specs.declared.bucket.bound.Bound.TheVariants.{Finite, Inf};
ghost use Rattle.fm_raw.specs.BoundTests.{lies_below, bound_text};
ghost use Rattle.fm_raw.specs.Bounds.{default_bounds};

use crate::error::MetricError;
use crate::fixed::{DEFAULT_BUCKETS, Fixed, FixedBuffer, FixedSum};

/// The name of the label whose value is a bucket's bound (OpenMetrics, Histogram).
pub const BUCKET_LABEL: &str = "le";

/// A bucket's upper bound: a number, or none (`Inf`). Bounds are ordered as their numbers, and `Inf` is the greatest.
///
/// <!-- cut: tests/scripts/src/language/bounds.rt.in -->
/// ```rust
/// let bound = match bound {
///     "+Inf" => Bound::Inf,
///     _ => Bound::Finite(fixed(bound)?),
/// };
/// ```
#[derive(Clone, Copy, Debug, PartialEq, Eq, PartialOrd, Ord, Hash)]
pub enum Bound {
    /// Values up to this one, inclusive.
    Finite(Fixed),
    /// All values.
    Inf,
}

/// A bucket: its upper bound, and how many values are in the interval that ends with it.
///
/// <!-- cut: tests/unit/src/fm_raw_buckets.rt.in -->
/// ```rust
/// let mut bucket = Bucket::new(Bound::Inf, u64::MAX - 1);
/// assert!(rt; bucket.inc() == Ok(()) && bucket.inc() == Err(MetricError::CountFull));
/// ```
#[derive(Clone, Copy, Debug, PartialEq, Eq)]
pub struct Bucket {
    pub(crate) upper_bound: Bound,
    pub(crate) count: u64,
}

impl Bound {
    /// Whether the bound is less than the value.
    pub fn is_below(self, value: Fixed) -> bool
        ensures { result ≡ lies_below self value }
    {
        match self {
            Bound::Finite(bound) => bound < value,
            Bound::Inf => false,
        }
    }

    /// The bound's text as a label value: the number's text, or `+Inf`. It takes no memory.
    pub fn format<'a>(self, buffer: &'a mut FixedBuffer) -> &'a str
        ensures { result.now ≡ bound_text self }
    {
        match self {
            Bound::Finite(bound) => buffer.format(FixedSum::from(bound)),
            Bound::Inf => "+Inf",
        }
    }
}

impl Bucket {
    /// A bucket with this upper bound and this count.
    pub fn new(upper_bound: Bound, count: u64) -> Bucket
        ensures { result ≡ record { upper_bound = upper_bound; count = count } }
    {
        Bucket { upper_bound, count }
    }

    /// The greatest value that the bucket counts.
    pub fn upper_bound(self) -> Bound
        ensures { result ≡ self.upper_bound }
    {
        self.upper_bound
    }

    /// How many values are in the bucket.
    pub fn count(self) -> u64
        ensures { result ≡ self.count }
    {
        self.count
    }

    /// Adds one to the count. Fails with `CountFull` if the count is the greatest `u64`, and then changes nothing.
    pub fn inc(&mut self) -> Result<(), MetricError>
        ensures counted { OnOk result
            (self.new ≡ record { upper_bound = self.old.upper_bound; count = self.old.count + 1 }) }
        ensures full { (result ≡ Err CountFull) ↔ (self.old.count + 1 ≡ 2 ^ 64) }
        ensures only_full { IfErr result (λ e. e ≡ CountFull) }
        ensures kept { OnErr result (self.new ≡ self.old) }
    {
        let Some(count) = self.count.checked_add(1) else {
            return Err(MetricError::CountFull);
        };
        self.count = count;
        Ok(())
    }
}

/// `DEFAULT_BUCKETS` as a function, whose contract states the bounds.
pub fn default_buckets() -> [Fixed; 11]
    ensures { result ≡ default_bounds }
{
    DEFAULT_BUCKETS
}
