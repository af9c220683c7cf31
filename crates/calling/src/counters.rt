//! A counter that the threads of a server share.
use fastmetrics::metrics::counter::Counter;
use fastmetrics::raw::MetricError;
use std::alloc::Global;
use std::time::Duration;

/// A counter that was created at a time since 1970, which its document shows, with a batch of three counted.
pub fn count_batch(alloc: Global, now: Duration) -> Result<Counter, MetricError> {
    let messages = Counter::<u64>::with_created(alloc, now)?;
    messages.inc();
    messages.inc_by(2)?;
    Ok(messages)
}

/// Takes over a total that is counted elsewhere, such as by the operating system. A total that is less than the counter's is
/// refused, and the counter stays as it was.
pub fn take_over(bytes_read: &Counter, total: u64) -> Result<(), MetricError> {
    bytes_read.set(total)
}
