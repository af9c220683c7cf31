//! The types of the numbers in counters, gauges and unknown metrics.
//!
//! <!-- cut: tests/unit/src/fm_metrics_atomic_steps.rt.in -->
//! ```rust
//! impl GaugeValue for Steps {
//!     type Atomic = Counted;
//! }
//! ```
use crate::atomic::Atomic;
use crate::fixed::Fixed;
use crate::number::Number;
use std::sync::atomic::{AtomicI32, AtomicI64, AtomicIsize, AtomicU32, AtomicU64, AtomicUsize};

/// A number that a counter may contain.
///
/// <!-- cut: tests/unit/src/fm_metrics_atomic_steps.rt.in -->
/// ```rust
/// impl CounterValue for Steps {
///     type Atomic = Counted;
/// }
/// ```
pub trait CounterValue: Number {
    /// The atomic that contains it.
    type Atomic: Atomic<Self>;
}

impl CounterValue for u32 {
    type Atomic = AtomicU32;
}

impl CounterValue for u64 {
    type Atomic = AtomicU64;
}

impl CounterValue for usize {
    type Atomic = AtomicUsize;
}

impl CounterValue for Fixed {
    type Atomic = AtomicI64;
}

/// A number that a gauge may contain.
///
/// <!-- cut: tests/unit/src/fm_metrics_in_progress.rt.in -->
/// ```rust
/// fn meanwhile<N: GaugeValue>(gauge: &Gauge<N>) -> N {
///     let _in_progress = gauge.track_in_progress();
///     gauge.get()
/// }
/// ```
pub trait GaugeValue: Number {
    /// The atomic that contains it.
    type Atomic: Atomic<Self>;
}

impl GaugeValue for i32 {
    type Atomic = AtomicI32;
}

impl GaugeValue for i64 {
    type Atomic = AtomicI64;
}

impl GaugeValue for isize {
    type Atomic = AtomicIsize;
}

impl GaugeValue for u32 {
    type Atomic = AtomicU32;
}

impl GaugeValue for u64 {
    type Atomic = AtomicU64;
}

impl GaugeValue for Fixed {
    type Atomic = AtomicI64;
}

/// A number that an unknown metric may contain.
///
/// <!-- cut: tests/unit/src/fastmetrics_own_types.rt.in -->
/// ```rust
/// root.add_own("ways", "H", Unknown::<i64>::new(-4))?;
/// ```
pub trait UnknownValue: Number {}

impl UnknownValue for i32 {}

impl UnknownValue for i64 {}

impl UnknownValue for isize {}

impl UnknownValue for u32 {}

impl UnknownValue for Fixed {}
