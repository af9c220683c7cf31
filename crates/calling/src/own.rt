//! Metrics of a program's own types beside the usual ones and those of the process, in one root.
use crate::families::Answer;
use fastmetrics::encoder::StaticStr;
use fastmetrics::metrics::counter::Counter;
use fastmetrics::metrics::family::{
    Collected, CollectedMembers, Collector, Family, MetricFactory, PairFamily, with_pairs,
};
use fastmetrics::metrics::gauge::ConstGauge;
use fastmetrics::metrics::histogram::Histogram;
use fastmetrics::metrics::source::{NumberSource, SourceGauge};
use fastmetrics::metrics::state_set::NamedStates;
use fastmetrics::process::register_process;
use fastmetrics::raw::{Fixed, MetricError};
use fastmetrics::registry::{Description, OneOf, Registry, Root, Waiter};
use std::alloc::Global;
use std::hash::{BuildHasherDefault, FoldHasher};
use std::io::Write;
use std::random::RandomSource;
use std::rt::Files;
use std::sync::atomic::AtomicI64;
use std::sync::atomic::Ordering::SeqCst;
use std::sync::{Arc, Wait};

/// A queue of jobs.
#[derive(Drop)]
pub struct Queue {
    waiting: AtomicI64,
}

/// It tells how many jobs wait.
impl NumberSource<i64> for Queue {
    fn read(&self) -> i64 {
        self.waiting.load(SeqCst)
    }
}

/// The workers of two pools.
#[derive(Drop)]
pub struct Pools {
    mail: AtomicI64,
    pages: AtomicI64,
}

/// It gives two families: the workers of each pool, and those of both.
impl Collector<ConstGauge<i64>> for Pools {
    fn collect(
        &self,
        family: usize,
        members: &mut CollectedMembers<ConstGauge<i64>>,
    ) -> Result<(), MetricError> {
        let (mail, pages) = (self.mail.load(SeqCst), self.pages.load(SeqCst));
        if family == 0 {
            members.add(&["mail"], ConstGauge::new(mail))?;
            members.add(&["pages"], ConstGauge::new(pages))?;
        } else {
            members.add(&[], ConstGauge::new(mail.saturating_add(pages)))?;
        }
        Ok(())
    }
}

/// Makes histograms of sizes in kilobytes.
#[derive(Drop)]
pub struct Sizes<H: Wait> {
    wait: H,
    alloc: Global,
}

impl<H: Wait + Copy + Drop> MetricFactory<Histogram<H>> for Sizes<H> {
    fn new_metric(&self) -> Result<Histogram<H>, MetricError> {
        let bounds = [1_000_000, 16_000_000, 256_000_000].map(Fixed::from_millionths);
        Histogram::new(self.wait, self.alloc, bounds.into_iter())
    }
}

/// Sizes by what a struct of the program's own says, with bounds of their own.
pub type SizesBy<H> = Family<Answer, Histogram<H>, Sizes<H>, BuildHasherDefault<FoldHasher>, H>;

/// The types of the program's own metrics: each stands here once, and nothing more is said of them.
pub type Own<H> = OneOf<
    SourceGauge<i64, Arc<Queue>>,
    OneOf<
        Collected<ConstGauge<i64>, Arc<Pools>>,
        OneOf<PairFamily<u64, Counter, H, 1>, SizesBy<H>>,
    >,
>;

/// What the program counts with.
#[derive(Drop)]
pub struct Handles<H: Wait> {
    queue: Arc<Queue>,
    phase: NamedStates,
    mode: NamedStates,
    statuses: PairFamily<u64, Counter, H, 1>,
    sizes: SizesBy<H>,
}

/// Registers a queue, two families of a collector, two state sets, a family by numbers, and one by labels of the program's own.
pub fn register<H: Waiter>(root: &mut Root<H, Own<H>>) -> anyhow::Result<Handles<H>> {
    let (wait, alloc) = (root.wait(), root.alloc());
    let queue = Arc::new(
        alloc,
        Queue {
            waiting: AtomicI64::new(0),
        },
    )?;
    root.add_own("queue", "Jobs that wait", SourceGauge::new(queue.clone()?))?;

    let families = [
        Description::new("workers", "Workers by pool").labels(&["pool"]),
        Description::new("all_workers", "Workers of all pools"),
    ];
    let pools = Pools {
        mail: AtomicI64::new(2),
        pages: AtomicI64::new(5),
    };
    root.collector(&families, Arc::new(alloc, pools)?)?;

    let phase = NamedStates::new(alloc, &["starting", "serving"])?;
    let mode = NamedStates::new(alloc, &["normal", "reduced"])?;
    let sizes = Family::new(wait, alloc, Sizes { wait, alloc })?;
    root.add_own("sizes", "Sizes by status, in kilobytes", sizes.clone()?)?;
    Ok(Handles {
        queue,
        phase: root.keep("phase", "What the server does", phase)?,
        mode: root.keep("mode", "How much it does", mode)?,
        statuses: root.own("statuses", "Responses by status")?,
        sizes,
    })
}

/// Counts a response with this status and size, in kilobytes, while so many jobs wait.
pub fn count<H: Waiter>(
    handles: &Handles<H>,
    status: u64,
    size: Fixed,
    waiting: i64,
) -> Result<(), MetricError> {
    handles.queue.waiting.store(waiting, SeqCst);
    handles.phase.set("serving")?;
    handles.mode.set("normal")?;
    with_pairs(
        &handles.statuses,
        &[(StaticStr("status"), status)],
        |count| count.inc(),
    )?;
    handles
        .sizes
        .with_or_new(&Answer { status }, |sizes| sizes.observe(size))??;
    Ok(())
}

/// Writes the document, without what the process tells, which is another at each run.
pub fn show<H: Waiter + RandomSource + AllocGlobal + Files, W: Write>(
    rt: H,
    out: &mut W,
) -> anyhow::Result<()> {
    let mut root: Root<H, Own<H>> = Root::built(Registry::builder(), rt)?;
    let process = register_process(&mut root, &rt)?;
    root.namespace("shop", &[])?;
    root.info("build", "What runs", &[("version", "1.2")])?;
    let handles = register(&mut root)?;
    count(&handles, 200, Fixed::from_millionths(12_500_000), 3)?;
    process.read(&rt)?;
    let mut document = Vec::new(root.alloc());
    root.encode(&mut document)?;
    let text = String::from_utf8(document)?;
    if let Some(start) = text.find("# TYPE shop") {
        out.write_all(text[start..].as_bytes())?;
    }
    Ok(())
}
