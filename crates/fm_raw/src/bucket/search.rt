//! The search for a bucket, with a bound on the number of tests.
//!
//! <!-- cut: tests/unit/src/fm_raw_bucket_search.rt.in -->
//! ```rust
//! let index = find_bucket(n, &mut probe);
//! ```
ghost use Rattle.std.specs.Prelude.{◌≡◌, ℕ, ◌+◌, ◌-◌, ◌*◌, ◌^◌, ◌≤◌, ◌↔◌, IsTrue, min};

/// A test of indices: false below some index, true from it on. Each test is counted.
///
/// <!-- cut: tests/unit/src/fm_raw_bucket_search.rt.in -->
/// ```rust
/// impl<L: Ledger> Probe for Counting<L> {
///     // ..
///     fn reaches(&mut self, i: usize) -> bool {
///     // ..
///         self.first <= i
/// ```
pub trait Probe {
    /// The first index where the test is true.
    ghost first: { Self → ℕ };

    /// How many tests were made.
    ghost asked: { Self → ℕ };

    /// Whether the index is the first one where the test is true, or after it.
    fn reaches(&mut self, i: usize) -> bool
        ensures answer { IsTrue result ↔ (first self.old ≤ i) }
        ensures same { first self.new ≡ first self.old }
        ensures counted { asked self.new ≡ asked self.old + 1 };
}

/// Returns the first index below `n` where the test is true, or else `n`. It tests at most as often as `n + 1` has
/// binary digits.
pub fn find_bucket<P: Probe>(n: usize, probe: &mut P) -> usize
    ensures place { result ≡ min n (P.first probe.old) }
    ensures same { P.first probe.new ≡ P.first probe.old }
    ensures cost { 2 ^ (P.asked probe.new - P.asked probe.old) ≤ 2 * (n + 1) }
{
    let mut low = 0;
    let mut left = usize::BITS - n.leading_zeros();
    while left > 0 {
        left -= 1;
        let step = 1usize << left;
        let is_below = n - low >= step && !probe.reaches(low + (step - 1));
        low += usize::from(is_below) << left;
    }
    low
}
