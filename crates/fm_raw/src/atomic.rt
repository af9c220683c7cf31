//! Atomics: numbers that threads change in single steps.
//!
//! <!-- cut: tests/unit/src/fm_raw_atomic.rt.in -->
//! ```rust
//! let word = word_of::<N, W>(value);
//! let raises = word.raise(by) == value && word.get() == greater;
//! ```
ghost use Rattle.std.specs.Prelude.{⊤};

use crate::fixed::Fixed;
use crate::number::Number;
use std::sync::atomic::Ordering::SeqCst;
use std::sync::atomic::{AtomicI32, AtomicI64, AtomicIsize, AtomicU32, AtomicU64, AtomicUsize};

/// A number that threads share.
///
/// Each call is one step in the one order of all such steps. Sums and differences wrap at the ends of the type. No call
/// takes memory or waits. Contracts promise a value's range only, since other threads may change it at any time.
///
/// <!-- cut: tests/unit/src/fm_raw_atomic.rt.in -->
/// ```rust
/// fn word_of<N: Number, W: Atomic<N>>(value: N) -> W {
///     let word = W::default();
///     word.set(value);
///     word
/// }
/// ```
pub trait Atomic<N: Number>: Default + Send + Sync + Drop {
    /// `raises word v before`: a call `word.raise(v)` returned `before`.
    ghost raises: { Self → N → N → Type 0 };

    /// Adds one and returns the value before.
    fn inc(&self) -> N
        ensures { N.in_range result }
    {
        self.inc_by(N::ONE)
    }

    /// Adds `v` and returns the value before.
    fn inc_by(&self, v: N) -> N
        ensures { N.in_range result };

    /// Subtracts one and returns the value before.
    fn dec(&self) -> N
        ensures { N.in_range result }
    {
        self.dec_by(N::ONE)
    }

    /// Subtracts `v` and returns the value before.
    fn dec_by(&self, v: N) -> N
        ensures { N.in_range result };

    /// Sets the value to `v`.
    fn set(&self, v: N);

    /// The value at this moment.
    fn get(&self) -> N
        ensures { N.in_range result };

    /// Sets the value to the greater of the value and `v`, and returns the value before.
    fn raise(&self, v: N) -> N
        ensures in_range { N.in_range result }
        ensures raised { raises self.now v result };
}

impl Atomic<i32> for AtomicI32 {
    ghost raises = { λ _ _ _. ⊤ };

    fn inc_by(&self, v: i32) -> i32 {
        self.fetch_add(v, SeqCst)
    }

    fn dec_by(&self, v: i32) -> i32 {
        self.fetch_sub(v, SeqCst)
    }

    fn set(&self, v: i32) {
        self.store(v, SeqCst);
    }

    fn get(&self) -> i32 {
        self.load(SeqCst)
    }

    fn raise(&self, v: i32) -> i32 {
        self.fetch_max(v, SeqCst)
    }
}

impl Atomic<i64> for AtomicI64 {
    ghost raises = { λ _ _ _. ⊤ };

    fn inc_by(&self, v: i64) -> i64 {
        self.fetch_add(v, SeqCst)
    }

    fn dec_by(&self, v: i64) -> i64 {
        self.fetch_sub(v, SeqCst)
    }

    fn set(&self, v: i64) {
        self.store(v, SeqCst);
    }

    fn get(&self) -> i64 {
        self.load(SeqCst)
    }

    fn raise(&self, v: i64) -> i64 {
        self.fetch_max(v, SeqCst)
    }
}

impl Atomic<isize> for AtomicIsize {
    ghost raises = { λ _ _ _. ⊤ };

    fn inc_by(&self, v: isize) -> isize {
        self.fetch_add(v, SeqCst)
    }

    fn dec_by(&self, v: isize) -> isize {
        self.fetch_sub(v, SeqCst)
    }

    fn set(&self, v: isize) {
        self.store(v, SeqCst);
    }

    fn get(&self) -> isize {
        self.load(SeqCst)
    }

    fn raise(&self, v: isize) -> isize {
        self.fetch_max(v, SeqCst)
    }
}

impl Atomic<u32> for AtomicU32 {
    ghost raises = { λ _ _ _. ⊤ };

    fn inc_by(&self, v: u32) -> u32 {
        self.fetch_add(v, SeqCst)
    }

    fn dec_by(&self, v: u32) -> u32 {
        self.fetch_sub(v, SeqCst)
    }

    fn set(&self, v: u32) {
        self.store(v, SeqCst);
    }

    fn get(&self) -> u32 {
        self.load(SeqCst)
    }

    fn raise(&self, v: u32) -> u32 {
        self.fetch_max(v, SeqCst)
    }
}

impl Atomic<u64> for AtomicU64 {
    ghost raises = { λ _ _ _. ⊤ };

    fn inc_by(&self, v: u64) -> u64 {
        self.fetch_add(v, SeqCst)
    }

    fn dec_by(&self, v: u64) -> u64 {
        self.fetch_sub(v, SeqCst)
    }

    fn set(&self, v: u64) {
        self.store(v, SeqCst);
    }

    fn get(&self) -> u64 {
        self.load(SeqCst)
    }

    fn raise(&self, v: u64) -> u64 {
        self.fetch_max(v, SeqCst)
    }
}

impl Atomic<usize> for AtomicUsize {
    ghost raises = { λ _ _ _. ⊤ };

    fn inc_by(&self, v: usize) -> usize {
        self.fetch_add(v, SeqCst)
    }

    fn dec_by(&self, v: usize) -> usize {
        self.fetch_sub(v, SeqCst)
    }

    fn set(&self, v: usize) {
        self.store(v, SeqCst);
    }

    fn get(&self) -> usize {
        self.load(SeqCst)
    }

    fn raise(&self, v: usize) -> usize {
        self.fetch_max(v, SeqCst)
    }
}

/// The atomic contains the number of millionths.
impl Atomic<Fixed> for AtomicI64 {
    ghost raises = { λ _ _ _. ⊤ };

    fn inc_by(&self, v: Fixed) -> Fixed {
        Fixed::from_millionths(self.fetch_add(v.millionths(), SeqCst))
    }

    fn dec_by(&self, v: Fixed) -> Fixed {
        Fixed::from_millionths(self.fetch_sub(v.millionths(), SeqCst))
    }

    fn set(&self, v: Fixed) {
        self.store(v.millionths(), SeqCst);
    }

    fn get(&self) -> Fixed {
        Fixed::from_millionths(self.load(SeqCst))
    }

    fn raise(&self, v: Fixed) -> Fixed {
        Fixed::from_millionths(self.fetch_max(v.millionths(), SeqCst))
    }
}
