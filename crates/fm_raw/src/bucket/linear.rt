//! Bounds with equal steps between them.
//!
//! <!-- cut: tests/scripts/src/language/bounds.rt.in -->
//! ```rust
//! fn linear(alloc: Global, start: Fixed, width: Fixed, count: usize) -> Result<Vec<Fixed>, Stop> {
//!     let mut all = Vec::new(alloc);
//!     for bound in linear_buckets(start, width, count)? {
//! ```
ghost use Rattle.std.specs.Prelude.{◌≡◌, ◌↔◌, IsOk, IfOk, IfErr};
ghost use Rattle.std.specs.Iterator.{YieldsFirst, item_count};
ghost use Rattle.fm_raw.specs.Bounds.{linear_bounds, IsLinear, IsLinearFault};

use crate::bucket::error::BucketError;
use crate::fixed::Fixed;
use std::marker::Model;

/// Bounds with equal steps between them. Contracts see it as the list of those that are left. It takes no memory.
///
/// <!-- cut: tests/scripts/src/language/bounds.rt.in -->
/// ```rust
/// for bound in linear_buckets(start, width, count)? {
///     all.push(bound)?;
/// }
/// ```
#[derive(Clone, Debug, Drop)]
pub struct LinearBuckets {
    next: i64,
    width: i64,
    left: usize,
}

impl Model for LinearBuckets {
    ghost use Rattle.std.specs.Prelude.{List, ℤ};
    ghost use Rattle.fm_raw.specs.Bounds.{linear_bounds};
    ghost use Rattle.fm_raw.specs.inside.Fits.{FitLinear};

    ghost Value = { List ℤ };

    ghost view = { λ b. linear_bounds b.next b.width b.left };

    ghost invariant = { λ b. FitLinear b.next b.width b.left };
}

impl Iterator for LinearBuckets {
    type Item = Fixed;

    ghost next_gives = { YieldsFirst (λ rest. rest) };

    ghost remaining = { item_count (λ rest. rest) };

    fn next(&mut self) -> Option<Fixed> {
        if self.left == 0 {
            return None;
        }
        let bound = self.next;
        self.left -= 1;
        if self.left > 0 {
            self.next = bound + self.width;
        }
        Some(Fixed::from_millionths(bound))
    }
}

/// Returns `count` bounds: `start`, and then each greater by `width` than the one before.
///
/// Errors, in this order: the width is not above zero (`NonPositiveWidth`), the count is zero (`ZeroCount`), the last
/// bound is greater than the greatest `Fixed` (`Overflow`).
pub fn linear_buckets(
    start: Fixed,
    width: Fixed,
    count: usize,
) -> Result<LinearBuckets, BucketError>
    ensures bounds { IfOk result (λ bounds. bounds ≡ linear_bounds start width count) }
    ensures ok { IsOk result ↔ IsLinear start width count }
    ensures refused { IfErr result (IsLinearFault start width count) }
{
    if width <= Fixed::ZERO {
        return Err(BucketError::NonPositiveWidth);
    }
    if count == 0 {
        return Err(BucketError::ZeroCount);
    }
    let (next, width) = (start.millionths(), width.millionths());
    let room = i64::MAX.abs_diff(next);
    if (count - 1) as u64 > room / width.unsigned_abs() {
        return Err(BucketError::Overflow);
    }
    Ok(LinearBuckets {
        next,
        width,
        left: count,
    })
}
