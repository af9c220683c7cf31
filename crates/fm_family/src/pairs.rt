//! Families whose labels are pairs of a name and a value that take no memory, such as a text of the program and a number.
ghost use Rattle.std.specs.Prelude.{◌≡◌, ◌⊎◌, IfOk, IfErr};
ghost use Rattle.std.specs.Fn.{FnOnceReturnsAt};
ghost use Rattle.fm_raw.specs.declared.error.MetricError.TheVariants.{Memory};
ghost use Rattle.fm_family.specs.Members.{ClonesEqual};

use crate::family::DefaultFamily;
use fm_encoder::{EncodeLabelName, EncodeLabelValue, StaticStr};
use fm_raw::{MetricError, TryDefault};
use std::hash::Hash;
use std::sync::Wait;

/// Metrics by `N` pairs of a text of the program and a value of the type `V`, such as a number.
///
/// A member is removed by `Family::remove`, which takes a reference to the array of pairs and takes no memory.
///
/// <!-- cut: crates/calling/src/families.rt -->
/// ```rust
/// pub fn count_status<H: Wait + Clone + Drop>(
///     statuses: &PairFamily<u64, Counter, H, 1>,
///     status: u64,
/// ) -> Result<u64, MetricError> {
///     let labels = [(StaticStr("status"), status)];
///     with_pairs(statuses, &labels, |count| count.inc())
/// }
/// ```
pub type PairFamily<V, M, H, const N: usize> = DefaultFamily<[(StaticStr, V); N], M, H>;

/// Calls `f` with the metric of these labels, and returns its result. If there is none, `try_default` makes one, which is added
/// as the last member.
///
/// If the metric exists and cloning its labels takes no memory, the call takes none. If memory runs out for a new one, it fails
/// with `Memory`, and the members stay as they were. It waits as `Family::with_or_new` does. Clones of a name and of a value must
/// equal it, as those of numbers, truth values and `StaticStr` do.
pub fn with_pairs<
    K: EncodeLabelName + Clone + Hash + Drop,
    V: EncodeLabelValue + Clone + Hash + Drop,
    M: TryDefault<H> + Drop,
    H: Wait + Clone + Drop,
    R,
    F: FnOnce(&M) -> R,
    const N: usize,
>(family: &DefaultFamily<[(K, V); N], M, H>, labels: &[(K, V); N], f: F) -> Result<R, MetricError>
    // `f` can be called, and a clone of a name or of a value equals it.
    requires callable { F.IsAlwaysCallable f }
    requires names { ClonesEqual K.is_clone K.eq }
    requires values { ClonesEqual V.is_clone V.eq }
    // `f` is called with a metric. The error is `Memory`, or that of `try_default`.
    ensures called { IfOk result (λ r. (metric : M) × FnOnceReturnsAt F.FnOnce f metric r) }
    ensures refused { IfErr result (λ e. (e ≡ Memory) ⊎ M.may_refuse e) }
{
    family.with_or_new(labels, f)
}
