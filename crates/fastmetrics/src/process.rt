//! What Linux tells of the process that runs: ordinary metrics, which are set to what the files of `/proc` tell.
//!
//! <!-- cut: crates/calling/src/process.rt -->
//! ```rust
//! use fastmetrics::process::{ProcessMetrics, register_process};
//! // ..
//! let mut root = Root::new(rt)?;
//! let process = register_process(&mut root, &rt)?;
//! ```

mod files;
mod metrics;
mod stat;

pub use metrics::{ProcessMetrics, register_process};
