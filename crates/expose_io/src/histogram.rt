//! The metric of the scene of a histogram.
use crate::output::Fault;
use fastmetrics::metrics::histogram::Histogram;
use fastmetrics::raw::Fixed;
use fastmetrics::raw::bucket::exponential_buckets;
use std::alloc::Global;
use std::sync::Wait;

/// The histogram of the whole numbers from 1 to 100, by bounds that double. It may wait for the histogram's lock.
pub fn numbers<H: Wait + Drop>(wait: H, alloc: Global) -> Result<Box<Histogram<H>>, Fault> {
    let histogram = Histogram::new(wait, alloc, exponential_buckets(Fixed::ONE, 2, 5)?)?;
    for whole in 1..101u8 {
        histogram.observe(Fixed::from_millionths(i64::from(whole) * 1_000_000))?;
    }
    Ok(Box::new(alloc, histogram)?)
}
