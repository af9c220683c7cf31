//! Default values of types that allocate.
//!
//! <!-- cut: crates/expose_io/src/tree.rt -->
//! ```rust
//! let requests = Counter::try_default(wait, alloc)?;
//! requests.inc();
//! ```
ghost use Rattle.std.specs.Prelude.{◌≡◌, IfOk, IfErr, ⊤};
ghost use Rattle.fm_raw.specs.declared.error.MetricError.{MetricError as Refusal};
ghost use Rattle.fm_raw.specs.declared.error.MetricError.TheVariants.{Memory};

use crate::MetricError;
use std::alloc::Global;
use std::sync::Wait;

/// A fallible `Default`, for types that allocate.
///
/// A value with a lock keeps the `Wait` handle. Others drop it.
///
/// <!-- cut: crates/calling/src/globals.rt -->
/// ```rust
/// use fastmetrics::raw::TryDefault;
/// // ..
/// let requests = Counter::<u64>::try_default(rt, alloc)?;
/// ```
pub trait TryDefault<H: Wait>: Sized {
    /// Holds of each value that `try_default` may return.
    ghost is_default: { Self → Type 0 } = { λ _. ⊤ };

    /// Holds of each error that `try_default` may return: `Memory`, unless another is declared.
    ghost may_refuse: { Refusal → Type 0 } = { λ e. e ≡ Memory };

    /// The default value.
    fn try_default(wait: H, alloc: Global) -> Result<Self, MetricError>
        ensures default { IfOk result is_default }
        ensures refused { IfErr result may_refuse };
}
