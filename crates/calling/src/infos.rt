//! Which version of a program runs, and what it does.
use fastmetrics::metrics::info::Info;
use fastmetrics::metrics::state_set::NamedStates;
use fastmetrics::raw::MetricError;
use std::alloc::{AllocError, Global};

/// The labels of an info are what it tells; its value is always 1.
pub fn build_info(alloc: Global) -> Result<Info<Vec<(String, String)>>, AllocError> {
    let version = (
        String::from_str(alloc, "version")?,
        String::from_str(alloc, "1.2.3")?,
    );
    Ok(Info::new(vec![in alloc; version]?))
}

/// A state set whose states are texts. At first the first is the current one.
pub fn start_job(alloc: Global) -> Result<NamedStates, MetricError> {
    let job = NamedStates::new(alloc, &["waiting", "running", "done"])?;
    job.set("running")?;
    Ok(job)
}
