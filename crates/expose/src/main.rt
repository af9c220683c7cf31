//! `expose SCENE` prints the document of a scene.
#![tactic(auto)]

ghost use Rattle.fastmetrics.specs.HasHistory.{HasHistory};

use expose_io::histogram::numbers;
use expose_io::output::{Fault, finish};
use expose_io::scene::{Scene, scene_of_words};
use expose_io::states::running_task;
use expose_io::tally::jobs;
use expose_io::tree::{application_metrics, fill};
use fastmetrics::encoder::EncodeMetric;
use fastmetrics::registry::{Registry, add};
use std::alloc::Global;
use std::process::ExitCode;

fn main(rt: HostRuntime) -> ExitCode {
    let alloc = rt.alloc();
    let mut registry = Registry::default();
    let filled = match scene_of_words(&rt) {
        Ok(Scene::Empty) => Ok(()),
        Ok(Scene::Tally) => match jobs(&rt, alloc) {
            Ok(jobs) => add_one(alloc, &mut registry, "jobs", "Jobs done", jobs),
            Err(fault) => Err(fault),
        },
        Ok(Scene::Histogram) => match numbers(rt, alloc) {
            Ok(numbers) => add_one(
                alloc,
                &mut registry,
                "my_histogram",
                "My histogram help",
                numbers,
            ),
            Err(fault) => Err(fault),
        },
        Ok(Scene::States) => match running_task(alloc) {
            Ok(task) => add_one(
                alloc,
                &mut registry,
                "my_stateset",
                "My stateset help",
                task,
            ),
            Err(fault) => Err(fault),
        },
        Ok(Scene::Tree) => match application_metrics(rt, alloc) {
            Ok((requests, by_kind, queries)) => fill(
                alloc,
                &mut registry,
                requests,
                by_kind,
                queries,
            ),
            Err(fault) => Err(fault),
        },
        Err(fault) => Err(fault),
    };
    let made = match filled {
        Ok(()) => Ok(registry),
        Err(fault) => Err(fault),
    };
    let status = finish(alloc, made, &mut rt.stdout(), &mut rt.stderr());
    ExitCode::from(status)
}

// Registers the one metric of a scene.
fn add_one(
    alloc: Global,
    registry: &mut Registry,
    name: &str,
    help: &str,
    metric: Box<dyn EncodeMetric>,
) -> Result<(), Fault>
    requires { HasHistory registry.old }
    ensures { HasHistory registry.new }
{
    Ok(add(alloc, registry, name, help, metric)?)
}
