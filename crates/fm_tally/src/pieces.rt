//! A worker for each piece of the values, and the merged snapshots of all workers.
ghost use Rattle.std.specs.Prelude.{◌≡◌, ℕ, ◌<◌, ◌≤◌, ℤ, List, [], true, IfOk, IfErr, slice_index_or, length, vec_len, flat_map, take};
ghost use Rattle.fm_histogram.specs.Histogram.{IsHistogram, IsBoundsOf, is_taken, takes, takes_all};
ghost use Rattle.fm_tally.specs.Pieces.{MayFail, IsObserved};

use crate::error::TallyError;
use crate::gate::Gate;
use crate::snapshot::{duplicate, of_no_values, take_all, take_value};
use fm_histogram::snapshot::SnapshotOf;
use fm_histogram::{GaugeHistogramSnapshot, HistogramSnapshot, Sign};
use fm_raw::Fixed;
use std::alloc::Global;
use std::sync::Wait;
use std::thread;
use std::thread::{Promise, PromisedHandle, Scope, Threads};

// The task of one worker.
#[derive(Drop)]
struct Work<'a, S: Sign, G: Gate> {
    empty: &'a SnapshotOf<S>,
    gate: &'a G,
    index: usize,
    piece: &'a [Fixed],
}

// The result of the worker.
impl<'a, S: Sign, G: Gate> Promise<Result<SnapshotOf<S>, TallyError>> for Work<'a, S, G> {
    ghost kept_by = { λ w r. IsObserved (takes S.NEGATIVE) (G.may_refuse w.gate.now)
        w.empty.now w.index w.piece.now r };
}

// Does one worker's task.
fn observe_piece<S: Sign, G: Gate>(
    empty: &SnapshotOf<S>,
    gate: &G,
    index: usize,
    piece: &[Fixed],
) -> Result<SnapshotOf<S>, TallyError>
    requires { empty.now.count ≡ 0 }
    ensures { IsObserved (takes S.NEGATIVE) (G.may_refuse gate.now)
        empty.now index piece.now result }
{
    if !gate.pass(index) {
        return Err(TallyError::GateRefused { piece: index });
    }
    let mut seen = duplicate(empty)?;
    for value in piece {
        if !take_value(&mut seen, *value) {
            unreachable!()
        }
    }
    Ok(seen)
}

// Starts a worker for each piece. The `bool` is whether all could be started.
fn start_all<'s, E, S: Sign + Send + Sync, G: Gate>(
    scope: &Scope<'s, E>,
    alloc: Global,
    empty: &'s SnapshotOf<S>,
    pieces: &'s [Vec<Fixed>],
    gate: &'s G,
) -> Result<
    (
        Vec<PromisedHandle<Result<SnapshotOf<S>, TallyError>, Work<'s, S, G>>>,
        bool,
    ),
    TallyError,
>
    requires { empty.now.count ≡ 0 }
    ensures all { IfOk result (λ r. r.1 ≡ true → vec_len r.0 ≡ length pieces.now) }
    ensures len { IfOk result (λ r. vec_len r.0 ≤ length pieces.now) }
    ensures index { IfOk result (λ r. (k : ℕ) (d : _) → k < vec_len r.0
        → (slice_index_or r.0.items k d).promise.index ≡ k) }
    ensures empty { IfOk result (λ r. (k : ℕ) (d : _) → k < vec_len r.0
        → (slice_index_or r.0.items k d).promise.empty.now ≡ empty.now) }
    ensures gate { IfOk result (λ r. (k : ℕ) (d : _) → k < vec_len r.0
        → (slice_index_or r.0.items k d).promise.gate.now ≡ gate.now) }
    ensures piece { IfOk result (λ r. (k : ℕ) (d : _) (e : _) → k < vec_len r.0
        → (slice_index_or r.0.items k d).promise.piece.now
        ≡ (slice_index_or pieces.now k e).items) }
    ensures only_memory { IfErr result (λ e. e ≡ TallyError.Memory) }
{
    let mut workers = Vec::with_capacity(alloc, pieces.len())?;
    for index in 0..pieces.len() {
        let piece = pieces[index].as_slice();
        let work = Work {
            empty,
            gate,
            index,
            piece,
        };
        let job = move || -> Result<SnapshotOf<S>, TallyError>
            requires { empty.now.count ≡ 0 }
            ensures { IsObserved (takes S.NEGATIVE) (G.may_refuse gate.entry.now)
                empty.entry.now index piece.entry.now result }
        { observe_piece(empty, gate, index, piece) };
        match scope.spawn_with(work, job) {
            Ok(worker) => workers.push_reserved(worker),
            Err(_) => return Ok((workers, false)),
        }
    }
    Ok((workers, true))
}

// The results of the workers of a scope, and whether all could be started. All that were started are joined.
fn join_all<'s, E, S: Sign + Send + Sync, G: Gate, R: Threads>(
    scope: &Scope<'s, E>,
    rt: &R,
    alloc: Global,
    empty: &'s SnapshotOf<S>,
    pieces: &'s [Vec<Fixed>],
    gate: &'s G,
) -> Result<(Vec<Result<SnapshotOf<S>, TallyError>>, bool), TallyError>
    requires { empty.now.count ≡ 0 }
    ensures all { IfOk result (λ r. r.1 ≡ true → vec_len r.0 ≡ length pieces.now) }
    ensures len { IfOk result (λ r. vec_len r.0 ≤ length pieces.now) }
    ensures done { IfOk result (λ r. (k : ℕ) (d : _) (e : _) → k < vec_len r.0
        → IsObserved (takes S.NEGATIVE) (G.may_refuse gate.now) empty.now k
        (slice_index_or pieces.now k e).items (slice_index_or r.0.items k d)) }
    ensures only_memory { IfErr result (λ e. e ≡ TallyError.Memory) }
{
    let (workers, all_started) = start_all(scope, alloc, empty, pieces, gate)?;
    match thread::join_promised(rt, workers) {
        Ok(done) => Ok((done, all_started)),
        Err(_) => Err(TallyError::Memory),
    }
}

// Runs all workers at the same time. Returns their results, and whether all could be started.
fn run_all<'a, S: Sign + Send + Sync, G: Gate, R: Threads + Wait>(
    rt: &R,
    alloc: Global,
    empty: &'a SnapshotOf<S>,
    pieces: &'a [Vec<Fixed>],
    gate: &'a G,
) -> Result<(Vec<Result<SnapshotOf<S>, TallyError>>, bool), TallyError>
    requires { empty.now.count ≡ 0 }
    ensures all { IfOk result (λ r. r.1 ≡ true → vec_len r.0 ≡ length pieces.now) }
    ensures len { IfOk result (λ r. vec_len r.0 ≤ length pieces.now) }
    ensures done { IfOk result (λ r. (k : ℕ) (d : _) (e : _) → k < vec_len r.0
        → IsObserved (takes S.NEGATIVE) (G.may_refuse gate.now) empty.now k
        (slice_index_or pieces.now k e).items (slice_index_or r.0.items k d)) }
    ensures only_memory { IfErr result (λ e. e ≡ TallyError.Memory) }
{
    thread::scope(
        thread::scope_env(),
        rt,
        |scope| -> Result<(Vec<Result<SnapshotOf<S>, TallyError>>, bool), TallyError>
            requires { empty.now.count ≡ 0 }
            ensures { IfOk result (λ r. (r.1 ≡ true → vec_len r.0 ≡ length pieces.entry.now)
                × (vec_len r.0 ≤ length pieces.entry.now)
                × ((k : ℕ) (d : _) (e : _) → k < vec_len r.0
                → IsObserved (takes S.NEGATIVE) (G.may_refuse gate.entry.now)
                empty.entry.now k
                (slice_index_or pieces.entry.now k e).items (slice_index_or r.0.items k d)))
                × IfErr result (λ e. e ≡ TallyError.Memory) }
        { join_all(scope, rt, alloc, empty, pieces, gate) },
    )
}

// Merges the snapshots of the first pieces, or returns the first error.
fn merge_all<S: Sign, G: Gate>(
    empty: &SnapshotOf<S>,
    gate: &G,
    pieces: &[Vec<Fixed>],
    done: &[Result<SnapshotOf<S>, TallyError>],
) -> Result<SnapshotOf<S>, TallyError>
    requires empty { (bounds : List ℤ) × IsHistogram (takes S.NEGATIVE) bounds [] empty.now }
    requires len { length done.now ≤ length pieces.now }
    requires done { (k : ℕ) (d : _) (e : _) → k < length done.now
        → IsObserved (takes S.NEGATIVE) (G.may_refuse gate.now) empty.now k
        (slice_index_or pieces.now k e).items (slice_index_or done.now k d) }
    ensures ok { IfOk result (λ s. (bounds : List ℤ)
        → IsHistogram (takes S.NEGATIVE) bounds [] empty.now
        → IsHistogram (takes S.NEGATIVE) bounds
        (flat_map (λ p. p.items) (take (length done.now) pieces.now))
        s) }
    ensures err { IfErr result
        (MayFail (takes S.NEGATIVE) (G.may_refuse gate.now) (length pieces.now)
        (flat_map (λ p. p.items) pieces.now)) }
{
    let mut all = duplicate(empty)?;
    for index in 0..done.len() {
        match &done[index] {
            Ok(piece) => {
                if !take_all(&mut all, piece) {
                    return Err(TallyError::CountFull);
                }
            }
            Err(fault) => return Err(*fault),
        }
    }
    Ok(all)
}

// Observes all pieces. Which values count is up to the kind of snapshot.
fn observe_pieces<S: Sign + Send + Sync, G: Gate, R: Threads + Wait>(
    rt: &R,
    alloc: Global,
    bounds: &[Fixed],
    pieces: &[Vec<Fixed>],
    gate: &G,
) -> Result<SnapshotOf<S>, TallyError>
    ensures ok { IfOk result (λ s. (rising : List ℤ)
        × IsBoundsOf (takes S.NEGATIVE) bounds.now rising
        × IsHistogram (takes S.NEGATIVE) rising (flat_map (λ p. p.items) pieces.now) s) }
    ensures err { IfErr result
        (MayFail (takes S.NEGATIVE) (G.may_refuse gate.now) (length pieces.now)
        (flat_map (λ p. p.items) pieces.now)) }
{
    let empty = of_no_values(alloc, bounds)?;
    let (done, all_started) = run_all(rt, alloc, &empty, pieces, gate)?;
    let all = merge_all(&empty, gate, pieces, done.as_slice())?;
    if all_started {
        Ok(all)
    } else {
        Err(TallyError::SpawnFailed)
    }
}

/// Returns the histogram of the values of all pieces, with those of the given bounds that are not negative. Negative
/// values don't count.
///
/// Each piece has a worker: a thread that calls the gate and observes the piece in a snapshot. All workers are started
/// before the first is waited for, and the snapshots are merged after all have ended.
///
/// Errors: the gate refused a piece (`GateRefused`), the pieces have more values than a `u64` counts (`CountFull`),
/// there is no memory (`Memory`), or a worker could not be started (`SpawnFailed`). Of several errors it returns that
/// of the first piece.
pub fn observe_all<G: Gate, R: Threads + Wait>(
    rt: &R,
    alloc: Global,
    bounds: &[Fixed],
    pieces: &[Vec<Fixed>],
    gate: &G,
) -> Result<HistogramSnapshot, TallyError>
    ensures ok { IfOk result (λ s. (rising : List ℤ)
        × IsBoundsOf is_taken bounds.now rising
        × IsHistogram is_taken rising (flat_map (λ p. p.items) pieces.now) s) }
    ensures err { IfErr result
        (MayFail is_taken (G.may_refuse gate.now) (length pieces.now)
        (flat_map (λ p. p.items) pieces.now)) }
{
    observe_pieces(rt, alloc, bounds, pieces, gate)
}

/// The same for a gauge histogram: with all of the given bounds, and negative values count too.
pub fn observe_all_gauge<G: Gate, R: Threads + Wait>(
    rt: &R,
    alloc: Global,
    bounds: &[Fixed],
    pieces: &[Vec<Fixed>],
    gate: &G,
) -> Result<GaugeHistogramSnapshot, TallyError>
    ensures ok { IfOk result (λ s. (rising : List ℤ)
        × IsBoundsOf takes_all bounds.now rising
        × IsHistogram takes_all rising (flat_map (λ p. p.items) pieces.now) s) }
    ensures err { IfErr result
        (MayFail takes_all (G.may_refuse gate.now) (length pieces.now)
        (flat_map (λ p. p.items) pieces.now)) }
{
    observe_pieces(rt, alloc, bounds, pieces, gate)
}
