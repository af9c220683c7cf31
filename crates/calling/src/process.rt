//! Numbers of the process, and a number that another part of the program keeps.
use fastmetrics::metrics::source::SourceGauge;
use fastmetrics::process::{ProcessMetrics, register_process};
use fastmetrics::registry::{RegistryError, Root, Waiter};
use std::alloc::{AllocError, Global};
use std::random::RandomSource;
use std::rt::Files;
use std::sync::Arc;
use std::sync::atomic::AtomicI64;

/// A root with the metrics of the process, and their handles.
pub fn watched_root<H: Waiter + RandomSource + AllocGlobal + Files>(
    rt: H,
) -> Result<(Root<H>, ProcessMetrics), RegistryError> {
    let mut root = Root::new(rt)?;
    let process = register_process(&mut root, &rt)?;
    Ok((root, process))
}

/// The document for a scrape. The numbers of the process are read just before it; those that can't be read stay as they were.
pub fn scrape<R: Files + AllocGlobal + Clone + Drop, H: Waiter>(
    rt: &R,
    root: &Root<H>,
    process: &ProcessMetrics,
) -> anyhow::Result<Vec<u8>> {
    let _unread = process.read(rt);
    let mut body = Vec::new(rt.alloc());
    root.encode(&mut body)?;
    Ok(body)
}

/// A gauge that shows the number in an atomic, which another part of the program changes.
pub fn queue_length(
    length: &Arc<AtomicI64, Global>,
) -> Result<SourceGauge<i64, Arc<AtomicI64, Global>>, AllocError> {
    Ok(SourceGauge::new(length.clone()?))
}
