//! Histograms and their snapshots: counts of observed values by bounds.
#![tactic(auto)]

mod counts;
mod encode;
pub mod exemplars;
pub mod histogram;
mod index;
mod rising;
pub mod sign;
pub mod snapshot;
pub mod steps;
pub mod timer;

pub use exemplars::ExemplarHistogram;
pub use histogram::{GaugeHistogram, Histogram};
pub use sign::Sign;
pub use snapshot::{GaugeHistogramSnapshot, HistogramSnapshot};
pub use timer::{Timer, TimerError};
