// What a worker does with a snapshot, with the errors of `observe_all`.
ghost use Rattle.std.specs.Prelude.{◌≡◌, ◌+◌, ◌≤◌, ◌^◌, ℤ, List, [], ◌∷◌, ◌++◌, true, false, IfOk, IfErr};
ghost use Rattle.fm_histogram.specs.Histogram.{IsHistogram, IsBoundsOf, upper_bounds, takes};

use crate::error::TallyError;
use fm_histogram::Sign;
use fm_histogram::snapshot::SnapshotOf;
use fm_raw::Fixed;
use std::alloc::Global;

// A snapshot without values.
pub(crate) fn of_no_values<S: Sign>(
    alloc: Global,
    bounds: &[Fixed],
) -> Result<SnapshotOf<S>, TallyError>
    ensures bounds { IfOk result (λ s. (rising : List ℤ)
        × IsBoundsOf (takes S.NEGATIVE) bounds.now rising
        × IsHistogram (takes S.NEGATIVE) rising [] s) }
    ensures only_memory { IfErr result (λ e. e ≡ TallyError.Memory) }
{
    match SnapshotOf::new(alloc, bounds.iter().copied()) {
        Ok(snapshot) => Ok(snapshot),
        Err(_) => Err(TallyError::Memory),
    }
}

// A copy of a snapshot.
pub(crate) fn duplicate<S: Sign>(snapshot: &SnapshotOf<S>) -> Result<SnapshotOf<S>, TallyError>
    ensures same { IfOk result (λ s. s ≡ snapshot.now) }
    ensures only_memory { IfErr result (λ e. e ≡ TallyError.Memory) }
{
    Ok(snapshot.clone()?)
}

// Counts a value. Returns false if the count is full.
pub(crate) fn take_value<S: Sign>(snapshot: &mut SnapshotOf<S>, value: Fixed) -> bool
    ensures counted { result ≡ true → (bounds xs : List ℤ)
        → IsHistogram (takes S.NEGATIVE) bounds xs snapshot.old
        → IsHistogram (takes S.NEGATIVE) bounds (xs ++ value ∷ []) snapshot.new }
    ensures full { result ≡ false → 2 ^ 64 ≤ snapshot.old.count + 1 }
    ensures count { result ≡ true → snapshot.new.count ≤ snapshot.old.count + 1 }
{
    snapshot.observe(value).is_ok()
}

// Adds the counts of a snapshot with the same bounds. Returns false if the count would not fit.
pub(crate) fn take_all<S: Sign>(snapshot: &mut SnapshotOf<S>, other: &SnapshotOf<S>) -> bool
    requires { upper_bounds snapshot.old.buckets ≡ upper_bounds other.now.buckets }
    ensures counted { result ≡ true → (bounds xs ys : List ℤ)
        → IsHistogram (takes S.NEGATIVE) bounds xs snapshot.old
        → IsHistogram (takes S.NEGATIVE) bounds ys other.now
        → IsHistogram (takes S.NEGATIVE) bounds (xs ++ ys) snapshot.new }
    ensures full { result ≡ false → 2 ^ 64 ≤ snapshot.old.count + other.now.count }
{
    snapshot.merge(other).is_ok()
}
