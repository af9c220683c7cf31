//! What a program prints where a registration or a scrape is refused, and what a linter advises of its metrics.

use anyhow::{anyhow, bail};
use fastmetrics::encoder::EncodeMetric;
use fastmetrics::metrics::counter::Counter;
use fastmetrics::registry::{RegistryError, Root, Waiter};
use std::io::Write;
use std::random::RandomSource;

fn make_jobs<H: Waiter>(root: &mut Root<H>) -> Result<Counter, RegistryError> {
    root.gauge("jobs_total", "Jobs at this moment")?;
    root.counter("jobs_total", "Jobs")
}

/// The document, or an error that names the family at fault.
pub fn scrape<H: Waiter, X: EncodeMetric>(root: &Root<H, X>) -> anyhow::Result<Vec<u8>> {
    let mut document = Vec::new(root.alloc());
    if let Err(error) = root.encode(&mut document) {
        match root.fault()? {
            Some(fault) => bail!("{fault}"),
            None => bail!(error),
        }
    }
    Ok(document)
}

/// Writes what a linter advises of the metrics.
pub fn advise<H: Waiter, X: EncodeMetric, W: Write>(
    root: &Root<H, X>,
    out: &mut W,
) -> anyhow::Result<()> {
    for warning in &root.lint()? {
        writeln!(out, "{warning}")?;
    }
    Ok(())
}

/// Writes why a metric is refused, what is advised of the one before it, and the document.
pub fn show<H: Waiter + RandomSource + AllocGlobal, W: Write>(
    rt: H,
    out: &mut W,
) -> anyhow::Result<()> {
    let mut root = Root::new(rt)?;
    let made = make_jobs(&mut root).map_err(|error| anyhow!("{error:?}"));
    if let Err(error) = made {
        writeln!(out, "{error}")?;
    }
    advise(&root, out)?;
    out.write_all(&scrape(&root)?)?;
    Ok(())
}
