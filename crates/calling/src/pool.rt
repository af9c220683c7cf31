//! A pool of workers that counts exactly: four workers add up the bytes that they received in one tally.
ghost use Rattle.std.specs.Prelude.{◌≡◌, ℕ, ◌+◌, ◌<◌, ◌≤◌, All, IfOk, Ok, map, sum, sum_by, length, vec_len, slice_index_or};

use fastmetrics::format::text::encode;
use fastmetrics::metrics::counter::ConstCounter;
use fastmetrics::metrics::tally::{Share, Tally, TallyError, TallyKey};
use fastmetrics::registry::{Registry, add};
use std::alloc::Global;
use std::io::Write;
use std::marker::Brand;
use std::sync::Wait;
use std::sync::ledger::Blank;
use std::thread;
use std::thread::{Promise, PromisedHandle, Scope, Threads};

/// What the workers of a pool counted.
#[derive(Clone, Copy, Debug, PartialEq, Eq)]
pub struct Received {
    /// The sum of all batches.
    pub total: u64,
    /// The total that the tally told the watch while the workers ran.
    pub so_far: u64,
}

// The task of one worker: to add the values of its batch to the tally.
#[derive(Drop)]
struct Work<'a, K: TallyKey> {
    tally: &'a Tally<K>,
    batch: &'a [u64],
}

// The result of the worker: its share, with the whole batch added.
impl<'a, K: TallyKey> Promise<Result<Share<K>, TallyError>> for Work<'a, K> {
    ghost kept_by = { λ w r. IfOk r (λ share. share.amount ≡ sum w.batch.now) };
}

// Does one worker's task.
fn add_batch<K: TallyKey, R: Wait>(
    rt: &R,
    tally: &Tally<K>,
    mut share: Share<K>,
    batch: &[u64],
) -> Result<Share<K>, TallyError>
    requires { share.amount ≡ 0 }
    ensures { IfOk result (λ share. share.amount ≡ sum batch.now) }
{
    for value in batch {
        tally.add(rt, &mut share, *value)?;
    }
    Ok(share)
}

// Starts a worker for each batch, each with a share.
fn start_all<'s, E, K: TallyKey + Send + Sync, R: Wait + Sync>(
    scope: &Scope<'s, E>,
    rt: &'s R,
    tally: &'s Tally<K>,
    mut shares: Vec<Share<K>>,
    batches: &'s [Vec<u64>],
) -> Result<Vec<PromisedHandle<Result<Share<K>, TallyError>, Work<'s, K>>>, TallyError>
    requires unused { All (λ s. s.amount ≡ 0) shares.items }
    ensures len { IfOk result (λ v. vec_len v ≡ length batches.now) }
    ensures batch { IfOk result (λ v. (k : ℕ) (d : _) (e : _) → k < vec_len v
        → (slice_index_or v.items k d).promise.batch.now ≡ (slice_index_or batches.now k e).items) }
{
    let mut workers = Vec::with_capacity(*shares.allocator(), batches.len())?;
    for index in 0..batches.len() {
        let batch = batches[index].as_slice();
        let Some(share) = shares.pop() else {
            return Err(TallyError::MissingShares);
        };
        let job = move || -> Result<Share<K>, TallyError>
            requires { share.amount ≡ 0 }
            ensures { IfOk result (λ share. share.amount ≡ sum batch.entry.now) }
        { add_batch(rt, tally, share, batch) };
        match scope.spawn_with(Work { tally, batch }, job) {
            Ok(worker) => workers.push_reserved(worker),
            Err(_) => return Err(TallyError::SpawnFailed),
        }
    }
    Ok(workers)
}

// The results of the workers of a scope, and the watch's share, which was told a total while they ran.
fn join_all<'s, E, K: TallyKey + Send + Sync, R: Threads + Wait + Sync>(
    scope: &Scope<'s, E>,
    rt: &'s R,
    tally: &'s Tally<K>,
    shares: Vec<Share<K>>,
    mut watch: Share<K>,
    batches: &'s [Vec<u64>],
) -> Result<(Vec<Result<Share<K>, TallyError>>, Share<K>), TallyError>
    requires unused { All (λ s. s.amount ≡ 0) shares.items }
    ensures len { IfOk result (λ r. vec_len r.0 ≡ length batches.now) }
    ensures each { IfOk result (λ r. (k : ℕ) (d : _) (e : _) → k < vec_len r.0
        → IfOk (slice_index_or r.0.items k d)
        (λ share. share.amount ≡ sum (slice_index_or batches.now k e).items)) }
    ensures watch { IfOk result (λ r. r.1.amount ≡ watch.amount) }
{
    let workers = start_all(scope, rt, tally, shares, batches)?;
    tally.total(rt, &mut watch);
    match thread::join_promised(rt, workers) {
        Ok(done) => Ok((done, watch)),
        Err(_) => Err(TallyError::Memory),
    }
}

// Runs all workers at the same time.
fn run_all<'a, K: TallyKey + Send + Sync, R: Threads + Wait + Sync>(
    rt: &'a R,
    tally: &'a Tally<K>,
    shares: Vec<Share<K>>,
    watch: Share<K>,
    batches: &'a [Vec<u64>],
) -> Result<(Vec<Result<Share<K>, TallyError>>, Share<K>), TallyError>
    requires unused { All (λ s. s.amount ≡ 0) shares.items }
    ensures len { IfOk result (λ r. vec_len r.0 ≡ length batches.now) }
    ensures each { IfOk result (λ r. (k : ℕ) (d : _) (e : _) → k < vec_len r.0
        → IfOk (slice_index_or r.0.items k d)
        (λ share. share.amount ≡ sum (slice_index_or batches.now k e).items)) }
    ensures watch { IfOk result (λ r. r.1.amount ≡ watch.amount) }
{
    thread::scope(
        thread::scope_env(),
        rt,
        move |scope| -> Result<(Vec<Result<Share<K>, TallyError>>, Share<K>), TallyError>
            requires { All (λ s. s.amount ≡ 0) shares.items }
            ensures { IfOk result (λ r. (vec_len r.0 ≡ length batches.entry.now)
                × ((k : ℕ) (d : _) (e : _) → k < vec_len r.0
                → IfOk (slice_index_or r.0.items k d) (λ share. share.amount
                ≡ sum (slice_index_or batches.entry.now k e).items))
                × (r.1.amount ≡ watch.amount)) }
        { join_all(scope, rt, tally, shares, watch, batches) },
    )
}

// The shares that the workers returned, or the first error.
fn gather<K: TallyKey>(
    alloc: Global,
    done: Vec<Result<Share<K>, TallyError>>,
) -> Result<Vec<Share<K>>, TallyError>
    ensures { IfOk result (λ shares. map Ok shares.items ≡ done.items) }
{
    let mut shares = Vec::new(alloc);
    for share in done {
        shares.push(share?)?;
    }
    Ok(shares)
}

/// Adds up all batches, each in a worker, and reads the sum once while they run.
///
/// The blank has one part for each batch, one for the watch, and one for the tally. Fails with `Full` if the sum passes
/// 2^64 - 1, with `Memory` if memory runs out, and with `SpawnFailed` if a worker can't be started.
pub fn count_all<K: TallyKey + Send + Sync, R: Threads + Wait + Sync>(
    rt: &R,
    alloc: Global,
    blank: Blank,
    batches: &[Vec<u64>],
) -> Result<Received, TallyError>
    requires name { blank.name ≡ K.name }
    requires parts { blank.parts ≡ K.parts }
    requires two_more { blank.parts ≡ length batches.now + 2 }
    ensures total { IfOk result (λ r. r.total ≡ sum_by (λ b. sum b.items) batches.now) }
    ensures so_far { IfOk result (λ r. r.so_far ≤ r.total) }
{
    let (tally, mut shares) = Tally::<K>::new(alloc, blank, batches.len() + 1)?;
    let Some(watch) = shares.pop() else {
        return Err(TallyError::MissingShares);
    };
    let (done, watch) = run_all(rt, &tally, shares, watch, batches)?;
    let so_far = watch.seen();
    let mut shares = gather(alloc, done)?;
    shares.push(watch)?;
    let total = tally.close(shares)?;
    Ok(Received { total, so_far })
}

// Counts four batches.
fn count_four<R: Threads + Wait + Sync>(rt: &R, alloc: Global) -> Result<Received, TallyError> {
    let batches = [
        vec![in alloc; 1_500, 640, 64]?,
        vec![in alloc; 9_000]?,
        vec![in alloc; 0, 1_500, 1_500, 1_024]?,
        Vec::new(alloc),
    ];
    count_all::<Brand, _>(rt, alloc, Blank::new(6), &batches)
}

/// Writes the sum of four batches as a counter.
pub fn show<R: Threads + Wait + Sync, W: Write>(
    rt: &R,
    alloc: Global,
    out: &mut W,
) -> anyhow::Result<()> {
    let received = count_four(rt, alloc)?;
    let mut registry = Registry::default();
    let counter = Box::new(alloc, ConstCounter::new(received.total))?;
    add(
        alloc,
        &mut registry,
        "received_bytes",
        "Bytes that were received",
        counter,
    )?;
    encode(alloc, out, &registry)?;
    Ok(())
}
