//! A root under a lock, for a program that registers while it runs; and a scrape that is never refused.
ghost use Rattle.std.specs.Prelude.{◌≡◌, IfErr, IfOk, codes};

use fastmetrics::format::text::{EncodeError, Exposition};
use fastmetrics::metrics::counter::Counter;
use fastmetrics::metrics::gauge::ConstGauge;
use fastmetrics::metrics::state_set::NamedStates;
use fastmetrics::registry::{RegistryError, Root, Shown, Waiter};
use std::alloc::Global;
use std::io::Write;
use std::random::RandomSource;
use std::sync::Mutex;

/// Registers a counter while other threads may have the root. It waits for the lock.
pub fn register_later<H: Waiter>(
    wait: &H,
    root: &Mutex<Root<H>>,
) -> Result<Counter, RegistryError> {
    let mut root = root.lock(wait);
    root.counter("late", "Registered while the program runs")
}

/// Registers a state set by its names, which is in the first of them.
pub fn add_phase<H: Waiter>(root: &mut Root<H>) -> anyhow::Result<NamedStates> {
    let phase = NamedStates::new(root.alloc(), &["starting", "serving", "closing"])?;
    Ok(root.keep("phase", "What the server does", phase)?)
}

/// The document of a root that is under a lock. It waits for the lock.
pub fn scrape_locked<H: Waiter>(
    wait: &H,
    alloc: Global,
    root: &Mutex<Root<H>>,
) -> Result<Vec<u8>, EncodeError> {
    let mut document = Vec::new(alloc);
    let root = root.lock(wait);
    root.encode(&mut document)?;
    Ok(document)
}

/// What a root without metrics of the program's own shows. Only want of memory keeps it from being collected.
pub fn shown<H: Waiter>(root: &Root<H>) -> Result<Exposition, EncodeError>
    ensures { IfErr result (λ error. error ≡ EncodeError.Memory) }
{
    root.is_never_refused();
    root.collect()
}

/// Registers a counter, counts, and returns the document: what it returns is the document of an exposition that the root then admits, and
/// of no other.
pub fn first_page<H: Waiter>(root: &mut Root<H>) -> anyhow::Result<Vec<u8>>
    ensures { IfOk result (λ bytes. ⟦<Root<H> as Shown>⟧.is_document root.new bytes.items) }
{
    let pages = root.counter("pages", "Pages that were asked for")?;
    pages.inc();
    Ok(root.document()?)
}

/// The page of a program that says only which version it has. It is known before the program runs: its bytes are this text.
pub fn version_page<H: Waiter + RandomSource + AllocGlobal>(rt: H) -> anyhow::Result<Vec<u8>>
    ensures { IfOk result (λ bytes. bytes.items ≡ codes
        "# TYPE version gauge\n# HELP version Version of the protocol\nversion 3\n# EOF\n") }
{
    let mut root = Root::new(rt)?;
    root.register(
        "version",
        "Version of the protocol",
        None,
        ConstGauge::new(3_i64),
    )?;
    root.shows_its_constants();
    Ok(root.document()?)
}

/// Writes that page.
pub fn show<H: Waiter + RandomSource + AllocGlobal, W: Write>(
    rt: H,
    out: &mut W,
) -> anyhow::Result<()> {
    out.write_all(&version_page(rt)?)?;
    Ok(())
}
