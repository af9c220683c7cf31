//! A server's metrics, some twenty families, with two workers that count, one of which scrapes too, and a scrape in memory; and
//! plugins that register by themselves in a root under a lock. It has no clause and no proof.
#![tactic(auto)]

use fastmetrics::format::text::DocumentBuffer;
use fastmetrics::metrics::counter::Counter;
use fastmetrics::metrics::family::{
    Collected, CollectedMembers, Collector, CounterVec, HistogramVec,
};
use fastmetrics::metrics::gauge::{ConstGauge, Gauge};
use fastmetrics::metrics::gauge_histogram::GaugeHistogram;
use fastmetrics::metrics::histogram::Histogram;
use fastmetrics::process::register_process;
use fastmetrics::raw::{Fixed, MetricError, Unit};
use fastmetrics::registry::{Description, Registry, RegistryError, Root, Waiter};
use std::io::Write;
use std::sync::atomic::AtomicI64;
use std::sync::atomic::Ordering::SeqCst;
use std::sync::{Arc, Mutex, Wait};
use std::thread;
use std::thread::Threads;

// The jobs that wait, which each scrape collects.
#[derive(Drop)]
struct Queues {
    mail: AtomicI64,
    pages: AtomicI64,
}

type Members = CollectedMembers<ConstGauge<i64>>;

type Own = Collected<ConstGauge<i64>, Arc<Queues>>;

impl Collector<ConstGauge<i64>> for Queues {
    fn collect(&self, family: usize, members: &mut Members) -> Result<(), MetricError> {
        let (mail, pages) = (self.mail.load(SeqCst), self.pages.load(SeqCst));
        if family == 0 {
            members.add(&["mail"], ConstGauge::new(mail))?;
            members.add(&["pages"], ConstGauge::new(pages))?;
        } else {
            members.add(&[], ConstGauge::new(mail.saturating_add(pages)))?;
        }
        Ok(())
    }
}

// The bounds of times: 10, 100 and 250 milliseconds.
fn bounds() -> [Fixed; 3] {
    [10_000, 100_000, 250_000].map(Fixed::from_millionths)
}

// The metrics of the subsystem that serves requests.
#[derive(Drop)]
struct Http<H: Wait> {
    sent: Counter,
    in_flight: Gauge,
    latency: Histogram<H>,
    sizes: GaugeHistogram<H>,
    requests: CounterVec<H>,
    routes: CounterVec<H>,
}

// Those of the subsystem that runs jobs.
#[derive(Drop)]
struct Pool<H: Wait> {
    jobs: Counter,
    busy: Gauge,
    time: Counter<Fixed>,
    waits: HistogramVec<H>,
}

fn make_http<H: Waiter>(root: &mut Root<H, Own>) -> Result<Http<H>, RegistryError> {
    root.enter("http", &[("protocol", "1.1")])?;
    let latency = Description::new("latency", "Time to serve").unit(Unit::Seconds);
    Ok(Http {
        sent: root.counter_with(Description::new("sent", "What was sent").unit(Unit::Bytes))?,
        in_flight: root.gauge("in_flight", "Requests that are served now")?,
        latency: root.histogram_with(latency.bounds(&bounds()))?,
        sizes: root.gauge_histogram("sizes", "Sizes of what waits")?,
        requests: root.counters("requests", "Requests by method", &["method"])?,
        routes: root.counters("routes", "By port and status", &["port", "status"])?,
    })
}

fn make_pool<H: Waiter>(root: &mut Root<H, Own>) -> Result<Pool<H>, RegistryError> {
    root.enter("pool", &[])?;
    let time = Description::new("time", "Time of all jobs").unit(Unit::Seconds);
    let waits = Description::new("waits", "Waits by queue and place").labels(&["queue", "place"]);
    Ok(Pool {
        jobs: root.counter("jobs", "Jobs that were done")?,
        busy: root.gauge("busy", "Workers that have a job")?,
        time: root.fixed_counter_with(time)?,
        waits: root.histograms_with(waits.bounds(&bounds()).limit(100))?,
    })
}

// What the workers share.
#[derive(Drop)]
struct Server<H: Wait> {
    http: Http<H>,
    pool: Pool<H>,
}

// What is counted of one request.
fn serve<H: Waiter>(server: &Server<H>) -> Result<(), MetricError> {
    let http = &server.http;
    let _in_flight = http.in_flight.track_in_progress();
    http.requests.with(&["GET"], |count| count.inc())?;
    http.routes.with(&["80", "200"], |count| count.inc())?;
    http.latency.observe(Fixed::from_millionths(250_000))?;
    http.sizes.observe(Fixed::from_millionths(3_000_000))?;
    http.sent.inc_by(512)?;
    Ok(())
}

// What is counted of one job.
fn run_job<H: Waiter>(server: &Server<H>) -> Result<(), MetricError> {
    let pool = &server.pool;
    let _busy = pool.busy.track_in_progress();
    pool.jobs.inc();
    pool.time.inc_by(Fixed::from_millionths(1_500_000))?;
    let waited = Fixed::from_millionths(20_000);
    pool.waits
        .with(&["mail", "out"], |wait| wait.observe(waited))??;
    Ok(())
}

// What is counted of one job, and a scrape while the other worker counts.
fn run_job_and_scrape<H: Waiter>(root: &Root<H, Own>, server: &Server<H>) -> anyhow::Result<()> {
    run_job(server)?;
    root.document()?;
    Ok(())
}

// Counts by two workers. It stands apart: the check proves that `join` may send what it is passed only where little else is known
// of it. The root comes by itself: in one struct with a struct of metrics and a listener `join` isn't proved.
fn run<R: Threads + Waiter>(rt: &R, root: &Root<R, Own>, server: &Server<R>) -> anyhow::Result<()> {
    let (served, done) = thread::join(rt, || serve(server), || run_job_and_scrape(root, server));
    served?;
    done
}

// Registers the metric of a plugin.
fn load_plugin<R: Waiter>(
    rt: &R,
    root: &Mutex<Root<R>>,
    name: &'static str,
) -> Result<Counter, RegistryError> {
    root.lock(rt).counter(name, "Calls of a plugin")
}

// Loads plugins by two threads, which share the root under a lock.
fn load_plugins<R: Threads + Waiter>(
    rt: &R,
    root: &Mutex<Root<R>>,
) -> Result<(Counter, Counter), RegistryError> {
    let (maps, mail) = thread::join(
        rt,
        || load_plugin(rt, root, "maps"),
        || load_plugin(rt, root, "mail"),
    );
    Ok((maps?, mail?))
}

// The document, without what the process tells, which is another at each run.
fn scrape<H: Waiter>(root: &Root<H, Own>, buffer: &mut DocumentBuffer) -> anyhow::Result<String> {
    let mut document = Vec::new(root.alloc());
    root.encode_into(buffer, &mut document)?;
    let text = String::from_utf8(document)?;
    match text.find("# TYPE shop") {
        Some(start) => Ok(String::from_str(root.alloc(), &text[start..])?),
        None => Ok(text),
    }
}

fn main(rt: HostRuntime) -> anyhow::Result<()> {
    let mut root: Root<_, Own> = Root::built(Registry::builder(), rt)?;
    let process = register_process(&mut root, &rt)?;
    root.namespace("shop", &[("zone", "west")])?;
    root.info("build", "What runs", &[("version", "1.2")])?;
    let load = root.fixed_gauge("load", "How busy the machine is")?;
    let (mail, pages) = (AtomicI64::new(2), AtomicI64::new(5));
    let queues = Arc::new(root.alloc(), Queues { mail, pages })?;
    let queue = Description::new("queue", "Jobs that wait").labels(&["name"]);
    let all = Description::new("queues", "Jobs that wait in all queues");
    root.collector(&[queue, all], queues.clone()?)?;
    let http = make_http(&mut root)?;
    root.leave();
    let pool = make_pool(&mut root)?;
    let server = Server { http, pool };

    queues.mail.store(3, SeqCst);
    load.set(Fixed::from_millionths(500_000));
    run(&rt, &root, &server)?;
    let plugins = Mutex::new(Root::new(rt)?);
    let (maps, mail) = load_plugins(&rt, &plugins)?;
    maps.inc_by(mail.inc())?;
    process.read(&rt)?;
    let mut buffer = DocumentBuffer::new(root.alloc());
    scrape(&root, &mut buffer)?;
    let again = scrape(&root, &mut buffer)?;
    rt.stdout().write_all(again.as_bytes())?;
    Ok(())
}
