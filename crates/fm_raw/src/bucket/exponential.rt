//! Bounds that grow by a factor.
//!
//! <!-- cut: tests/scripts/src/language/bounds.rt.in -->
//! ```rust
//! fn exponential(alloc: Global, bounds: ExponentialBuckets) -> Result<Vec<Fixed>, Stop> {
//!     let mut all = Vec::new(alloc);
//!     for bound in bounds {
//!         all.push(bound)?;
//!     }
//! ```
ghost use Rattle.std.specs.Prelude.{◌≡◌, ◌≢◌, ℕ, ◌+◌, ◌-◌, ◌*◌, ◌^◌, ◌<◌, ◌≤◌, ◌↔◌, pos, min, IsTrue, IsOk, IfOk, IfErr, IfSome, IfNone};
ghost use Rattle.std.specs.Iterator.{YieldsFirst, item_count};
ghost use Rattle.fm_raw.specs.Bounds.{exponential_bounds, IsExponential, IsExponentialFault, IsRange, IsRangeFault};

use crate::bucket::error::BucketError;
use crate::fixed::Fixed;
use std::marker::Model;

/// Bounds that grow by a factor. Contracts see it as the list of those that are left. It takes no memory.
///
/// <!-- cut: crates/expose_io/src/histogram.rt -->
/// ```rust
/// let histogram = Histogram::new(wait, alloc, exponential_buckets(Fixed::ONE, 2, 5)?)?;
/// ```
#[derive(Clone, Debug, Drop)]
pub struct ExponentialBuckets {
    next: u64,
    factor: u64,
    left: usize,
}

impl Model for ExponentialBuckets {
    ghost use Rattle.std.specs.Prelude.{List, ℤ, pos};
    ghost use Rattle.fm_raw.specs.Bounds.{exponential_bounds};
    ghost use Rattle.fm_raw.specs.inside.Fits.{FitExponential};

    ghost Value = { List ℤ };

    ghost view = { λ b. exponential_bounds (pos b.next) b.factor b.left };

    ghost invariant = { λ b. FitExponential b.next b.factor b.left };
}

impl Iterator for ExponentialBuckets {
    type Item = Fixed;

    ghost next_gives = { YieldsFirst (λ rest. rest) };

    ghost remaining = { item_count (λ rest. rest) };

    fn next(&mut self) -> Option<Fixed> {
        if self.left == 0 {
            return None;
        }
        let bound = self.next;
        self.left -= 1;
        if self.left > 0 {
            self.next = bound * self.factor;
        }
        Some(Fixed::from_millionths(bound as i64))
    }
}

/// Returns `count` bounds: `start`, and then each `factor` times the one before.
///
/// Errors, in this order: the start is not above zero (`NonPositiveStart`), the factor is below two (`FactorTooSmall`),
/// the count is zero (`ZeroCount`), the last bound is greater than the greatest `Fixed` (`Overflow`).
pub fn exponential_buckets(
    start: Fixed,
    factor: u64,
    count: usize,
) -> Result<ExponentialBuckets, BucketError>
    ensures bounds { IfOk result (λ bounds. bounds ≡ exponential_bounds start factor count) }
    ensures ok { IsOk result ↔ IsExponential start factor count }
    ensures refused { IfErr result (IsExponentialFault start factor count) }
{
    if start <= Fixed::ZERO {
        return Err(BucketError::NonPositiveStart);
    }
    if factor < 2 {
        return Err(BucketError::FactorTooSmall);
    }
    if count == 0 {
        return Err(BucketError::ZeroCount);
    }
    let next = start.millionths().unsigned_abs();
    if !last_fits(next, factor, count - 1) {
        return Err(BucketError::Overflow);
    }
    Ok(ExponentialBuckets {
        next,
        factor,
        left: count,
    })
}

/// Returns `count` bounds from `min` to `max`, each the same whole factor times the one before. If `count` is 1, the
/// bound is `min`.
///
/// Errors, in this order: `min` is not above zero (`NonPositiveStart`), the count is zero (`ZeroCount`), no whole
/// factor leads from `min` to `max` (`NoWholeFactor`).
pub fn exponential_buckets_range(
    min: Fixed,
    max: Fixed,
    count: usize,
) -> Result<ExponentialBuckets, BucketError>
    ensures bounds { IfOk result (IsRange min max count) }
    ensures refused { IfErr result (IsRangeFault min max count) }
{
    if min <= Fixed::ZERO {
        return Err(BucketError::NonPositiveStart);
    }
    if count == 0 {
        return Err(BucketError::ZeroCount);
    }
    let next = min.millionths().unsigned_abs();
    let Some(factor) = whole_factor(next, max.millionths(), count - 1) else {
        return Err(BucketError::NoWholeFactor);
    };
    Ok(ExponentialBuckets {
        next,
        factor,
        left: count,
    })
}

// The power, or `u64::MAX` if it is greater.
fn capped_power(base: u64, exponent: usize) -> u64
    requires { 2 ≤ base }
    ensures { result ≡ min (base ^ exponent) (2 ^ 64 - 1) }
{
    if exponent >= 64 {
        return u64::MAX;
    }
    base.saturating_pow(exponent as u32)
}

// Whether the last bound, after this number of steps, fits in 63 bits.
fn last_fits(start: u64, factor: u64, steps: usize) -> bool
    requires { (0 < start) × (2 ≤ factor) }
    ensures { IsTrue result ↔ (start * factor ^ steps < 2 ^ 63) }
{
    capped_power(factor, steps) <= i64::MAX as u64 / start
}

// The whole factor, at least one, that leads from one number to the other in this number of steps, if there is one.
fn whole_factor(least: u64, greatest: i64, steps: usize) -> Option<u64>
    requires { 0 < least }
    ensures some { IfSome result
        (λ factor. (1 ≤ factor) × (0 < steps → pos (least * factor ^ steps) ≡ greatest)) }
    ensures none { IfNone result
        ((0 < steps) × ((factor : ℕ) → 1 ≤ factor → pos (least * factor ^ steps) ≢ greatest)) }
{
    if steps == 0 {
        return Some(1);
    }
    if greatest <= 0 {
        return None;
    }
    let greatest = greatest.unsigned_abs();
    if greatest % least != 0 {
        return None;
    }
    whole_root(greatest / least, steps)
}

// The whole number whose power with this exponent is `power`, if there is one.
fn whole_root(power: u64, exponent: usize) -> Option<u64>
    requires some { (0 < power) × (0 < exponent) }
    requires small { power < 2 ^ 63 }
    ensures some { IfSome result (λ root. (1 ≤ root) × (root ^ exponent ≡ power)) }
    ensures none { IfNone result ((root : ℕ) → root ^ exponent ≢ power) }
{
    if power == 1 {
        return Some(1);
    }
    let mut low = 2;
    let mut high = power + 1;
    while low < high {
        let middle = low + (high - low) / 2;
        let found = capped_power(middle, exponent);
        if found == power {
            return Some(middle);
        }
        if found < power {
            low = middle + 1;
        } else {
            high = middle;
        }
    }
    None
}
