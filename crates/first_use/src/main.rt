//! A first use: a counter, a family of counters by labels, and the document of both.
#![tactic(auto)]

use fastmetrics::registry::Root;

fn main(rt: HostRuntime) -> anyhow::Result<()> {
    let mut root = Root::new(rt)?;
    let connections = root.counter("connections", "Connections opened")?;
    let requests = root.counters(
        "requests",
        "Requests by method and status",
        &["method", "status"],
    )?;

    connections.inc();
    requests.with(&["GET", "200"], |count| count.inc())?;

    root.encode(&mut rt.stdout())?;
    Ok(())
}
