//! Fifty metrics: ten for each of five kinds of work, which one function makes in a subsystem of its own.
use fastmetrics::metrics::counter::Counter;
use fastmetrics::metrics::gauge::Gauge;
use fastmetrics::registry::{RegistryError, Root, Waiter};
use std::io::Write;
use std::random::RandomSource;

// What is counted of one kind of work.
#[derive(Drop)]
struct Work {
    begun: Counter,
    done: Counter,
    failed: Counter,
    repeated: Counter,
    dropped: Counter,
    waiting: Gauge,
    delayed: Gauge,
    running: Gauge,
    workers: Gauge,
    idle: Gauge,
}

// Makes the metrics of the kind of work with this name.
fn make_work<H: Waiter>(root: &mut Root<H>, name: &str) -> Result<Work, RegistryError> {
    root.leave();
    root.enter(name, &[])?;
    Ok(Work {
        begun: root.counter("begun", "Jobs that were begun")?,
        done: root.counter("done", "Jobs that were done")?,
        failed: root.counter("failed", "Jobs that failed")?,
        repeated: root.counter("repeated", "Jobs that were tried again")?,
        dropped: root.counter("dropped", "Jobs that were given up")?,
        waiting: root.gauge("waiting", "Jobs that wait for a worker")?,
        delayed: root.gauge("delayed", "Jobs that wait for their time")?,
        running: root.gauge("running", "Jobs that run")?,
        workers: root.gauge("workers", "Workers")?,
        idle: root.gauge("idle", "Workers that wait for a job")?,
    })
}

/// Begins a job of each kind, and writes the document.
pub fn show<H: Waiter + RandomSource + AllocGlobal, W: Write>(
    rt: H,
    out: &mut W,
) -> anyhow::Result<()> {
    let mut root = Root::new(rt)?;
    for name in ["mail", "images", "reports", "backups", "imports"] {
        let work = make_work(&mut root, name)?;
        work.begun.inc();
        work.running.inc();
    }
    root.encode(out)?;
    Ok(())
}
