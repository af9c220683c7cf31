//! The scene of a tree: counters and a family at the root, and a counter two subsystems below it.
ghost use Rattle.std.specs.Prelude.{[], ◌∷◌, false};
ghost use Rattle.fastmetrics.specs.HasHistory.{HasHistory};
ghost use Rattle.fastmetrics.specs.Labels.{ValuePiece};
ghost use Rattle.expose_io.specs.Requests.{method_text, labels_of_request};

use crate::output::Fault;
use fastmetrics::encoder::{
    EncodeError, EncodeLabelSet, EncodeLabelValue, EncodeMetric, LabelEncoder, LabelSetEncoder,
    LabelStr,
};
use fastmetrics::metrics::counter::{ConstCounter, Counter};
use fastmetrics::metrics::family::{DefaultFactory, Family};
use fastmetrics::raw::TryDefault;
use fastmetrics::registry::{
    Registry, RegistryBuilder, RegistryError, add, add_at, add_subsystem_at,
};
use std::alloc::Global;
use std::hash::{BuildHasherDefault, FoldHasher};
use std::sync::Wait;

/// How a request was made.
#[derive(Clone, Copy, PartialEq, Eq, Hash)]
pub enum Method {
    /// It reads.
    Get,
    /// It writes.
    Put,
}

impl EncodeLabelValue for Method {
    ghost pieces = { λ method. ValuePiece (method_text method) ∷ [] };

    ghost is_skipped = { λ _. false };

    fn encode(&self, encoder: &mut LabelEncoder) -> Result<(), EncodeError> {
        encoder.encode_str_value(match self {
            Method::Get => "Get",
            Method::Put => "Put",
        })
    }

    fn skip_encoding(&self) -> bool {
        false
    }
}

/// The method of a request and the status of its response.
#[derive(Clone, Copy, PartialEq, Eq, Hash)]
pub struct Request {
    method: Method,
    status: u16,
}

impl EncodeLabelSet for Request {
    ghost labels = { labels_of_request };

    fn encode(&self, encoder: &mut LabelSetEncoder) -> Result<(), EncodeError> {
        encoder.encode(&(LabelStr("method"), self.method))?;
        encoder.encode(&(LabelStr("status"), self.status))
    }
}

/// How many requests there were of each kind.
pub type Requests<H> = Family<
    Request,
    Counter,
    DefaultFactory<Counter, H>,
    BuildHasherDefault<FoldHasher>,
    H,
>;

// The counter of one request.
fn one_request<H: Wait + Drop>(wait: H, alloc: Global) -> Result<Box<Counter>, Fault> {
    let requests = Counter::try_default(wait, alloc)?;
    requests.inc();
    Ok(Box::new(alloc, requests)?)
}

// The family of one request that succeeded. It may wait for the family's lock.
fn one_request_by_kind<H: Wait + Clone + Drop>(
    wait: H,
    alloc: Global,
) -> Result<Box<Requests<H>>, Fault> {
    let requests = Requests::try_default(wait, alloc)?;
    let request = Request {
        method: Method::Get,
        status: 200,
    };
    requests.with_or_new(&request, |count| count.inc())?;
    Ok(Box::new(alloc, requests)?)
}

/// The metrics of an application that got one request and made seven database queries: its requests, the same by kind, and
/// the queries. It may wait for the lock of the family.
pub fn application_metrics<H: Wait + Copy + Drop>(
    wait: H,
    alloc: Global,
) -> Result<(Box<Counter>, Box<Requests<H>>, Box<ConstCounter<u64>>), Fault> {
    let requests = one_request(wait, alloc)?;
    let by_kind = one_request_by_kind(wait, alloc)?;
    let queries = Box::new(alloc, ConstCounter::new(7))?;
    Ok((requests, by_kind, queries))
}

// The builder of the root of an application in production.
fn production(alloc: Global) -> Result<RegistryBuilder, RegistryError> {
    let mut labels = Vec::new(alloc);
    labels.push((
        String::from_str(alloc, "env")?,
        String::from_str(alloc, "prod")?,
    ))?;
    Registry::builder()
        .with_namespace(String::from_str(alloc, "myapp")?)?
        .with_const_labels(labels)
}

/// Makes the registry that of an application in production, with the metrics of its requests and of the queries to its database.
pub fn fill(
    alloc: Global,
    registry: &mut Registry,
    requests: Box<dyn EncodeMetric>,
    by_kind: Box<dyn EncodeMetric>,
    queries: Box<dyn EncodeMetric>,
) -> Result<(), Fault>
    requires { HasHistory registry.old }
    ensures { HasHistory registry.new }
{
    *registry = production(alloc)?.build_root();
    let help = "Total requests processed";
    add(alloc, registry, "requests", help, requests)?;
    add(
        alloc,
        registry,
        "http_requests",
        "Total HTTP requests",
        by_kind,
    )?;
    let engine = [("engine", "innodb")];
    add_subsystem_at(alloc, registry, &["database"], "mysql", &engine)?;
    let path = ["database", "mysql"];
    let help = "Total MySQL queries";
    add_at(alloc, registry, &path, "queries", help, queries)?;
    Ok(())
}
