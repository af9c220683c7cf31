//! How long requests take.
use fastmetrics::metrics::histogram::{Histogram, HistogramSnapshot};
use fastmetrics::raw::{Fixed, MetricError};
use std::alloc::Global;
use std::sync::Wait;

/// A histogram by three bounds in seconds, with one duration observed. Whoever observes waits for its lock.
pub fn durations<H: Wait + Drop>(wait: H, alloc: Global) -> Result<Histogram<H>, MetricError> {
    let bounds = [
        Fixed::from_millionths(10_000),
        Fixed::from_millionths(100_000),
        Fixed::from_millionths(1_000_000),
    ];
    let durations = Histogram::new(wait, alloc, bounds.into_iter())?;
    durations.observe(Fixed::from_millionths(250_000))?;
    Ok(durations)
}

/// A histogram of one thread's own, which needs no lock. Workers fill one each, and `merge` adds them up.
pub fn merged(
    mut all: HistogramSnapshot,
    mine: &HistogramSnapshot,
) -> Result<HistogramSnapshot, MetricError> {
    all.merge(mine)?;
    Ok(all)
}
