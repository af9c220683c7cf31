//! Threads that count.
use fastmetrics::metrics::counter::Counter;
use fastmetrics::metrics::family::CounterVec;
use fastmetrics::metrics::histogram::Histogram;
use fastmetrics::raw::{Fixed, MetricError};
use fastmetrics::registry::Waiter;
use std::alloc::AllocError;
use std::sync::Wait;
use std::thread::{self, JoinHandle, Threads};

/// Starts a thread that counts with a clone of the counter. It is `None` where no thread can be started.
pub fn count_in_thread<R: Threads>(
    rt: &R,
    jobs: &Counter,
) -> Result<Option<JoinHandle<u64>>, AllocError> {
    let mine = jobs.clone()?;
    Ok(thread::spawn(rt, move || mine.inc()).ok())
}

/// Starts a thread that observes with a clone of the histogram.
pub fn observe_in_thread<R: Threads, H: Wait + Clone + Send + Sync + Drop + 'static>(
    rt: &R,
    durations: &Histogram<H>,
    seconds: Fixed,
) -> Result<Option<JoinHandle<Result<(), MetricError>>>, AllocError> {
    let mine = durations.clone()?;
    Ok(thread::spawn(rt, move || mine.observe(seconds)).ok())
}

/// Starts a thread that counts by a label with a clone of the family.
pub fn count_member_in_thread<R: Threads, H: Waiter + 'static>(
    rt: &R,
    requests: &CounterVec<H>,
) -> Result<Option<JoinHandle<Result<u64, MetricError>>>, AllocError> {
    let mine = requests.clone()?;
    let count = move || mine.with(&["GET"], |count| count.inc());
    Ok(thread::spawn(rt, count).ok())
}
