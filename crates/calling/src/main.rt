//! Examples of each kind of metric and of each way to write a document, which docs/GUIDE.md shows. The program writes three
//! documents: of a pool of workers that counts exactly, of the registry that a program shares, and of fifty metrics.
#![tactic(auto)]

mod counters;
mod documents;
mod errors;
mod families;
mod gauges;
mod globals;
mod histograms;
mod infos;
mod many;
mod own;
mod pool;
mod process;
mod registries;
mod roots;
mod threads;

fn main(rt: HostRuntime) -> anyhow::Result<()> {
    pool::show(&rt, rt.alloc(), &mut rt.stdout())?;
    globals::show(rt, rt.alloc(), &mut rt.stdout())?;
    many::show(rt, &mut rt.stdout())?;
    own::show(rt, &mut rt.stdout())?;
    errors::show(rt, &mut rt.stdout())?;
    roots::show(rt, &mut rt.stdout())
}
