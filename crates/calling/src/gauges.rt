//! A gauge that rises and falls.
use fastmetrics::metrics::gauge::Gauge;
use fastmetrics::raw::{Fixed, MetricError};
use std::alloc::Global;

/// How many connections are open, around one of them.
pub fn serve_one(open: &Gauge) {
    open.inc();
    open.dec();
}

/// A temperature of 21.5 degrees: numbers with a fraction are whole millionths.
pub fn temperature(alloc: Global) -> Result<Gauge<Fixed>, MetricError> {
    Gauge::new(alloc, Fixed::from_millionths(21_500_000))
}
