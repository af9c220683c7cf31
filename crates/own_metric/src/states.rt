//! How far a job is.
ghost use Rattle.std.specs.Prelude.{[], ◌∷◌, codes};
ghost use Rattle.own_metric.specs.declared.states.Job.TheVariants.{Waiting, Running};

use fastmetrics::metrics::state_set::{StateSet, StateSetValue};
use fastmetrics::raw::MetricError;
use std::alloc::Global;

/// How far a job is.
#[derive(Clone, Copy, PartialEq, Eq)]
pub enum Job {
    /// It waits.
    Waiting,
    /// It runs.
    Running,
}

static JOBS: [Job; 2] = [Job::Waiting, Job::Running];

impl StateSetValue for Job {
    ghost all = { Waiting ∷ Running ∷ [] };

    ghost text = { elim [ Waiting ↦ codes "waiting" | Running ↦ codes "running" ] };

    fn variants() -> &'static [Job] {
        &JOBS
    }

    fn as_str(&self) -> &str {
        match self {
            Job::Waiting => "waiting",
            Job::Running => "running",
        }
    }
}

/// A job that waited and runs now.
pub fn run_job(alloc: Global) -> Result<StateSet<Job>, MetricError> {
    let job = StateSet::new(alloc, Job::Waiting)?;
    job.set(Job::Running)?;
    Ok(job)
}
