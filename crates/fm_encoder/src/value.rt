//! Values of metrics: what emits them, and the encoders that take one number each.
//!
//! <!-- cut: crates/own_metric/src/counters.rt -->
//! ```rust
//! pub requests: u64,
//! // ..
//! encoder.encode_counter(&self.requests, Some(&self.trace), None)
//! ```

mod counter;
mod encoder;
mod gauge;
mod unknown;

pub use counter::{CounterValueEncoder, EncodeCounterValue};
pub use gauge::{EncodeGaugeValue, GaugeValueEncoder};
pub use unknown::{EncodeUnknownValue, UnknownValueEncoder};
