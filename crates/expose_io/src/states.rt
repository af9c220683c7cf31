//! The metric of the scene of a state set.
ghost use Rattle.std.specs.Prelude.{[], ◌∷◌, codes};
ghost use Rattle.expose_io.specs.declared.states.Progress.TheVariants.{Pending, Running, Completed, Failed};

use crate::output::Fault;
use fastmetrics::metrics::state_set::{StateSet, StateSetValue};
use std::alloc::Global;

/// How far a task is.
#[derive(Clone, Copy, PartialEq, Eq)]
pub enum Progress {
    /// It waits.
    Pending,
    /// It is at work.
    Running,
    /// It ended well.
    Completed,
    /// It broke off.
    Failed,
}

static PROGRESS: [Progress; 4] = [
    Progress::Pending,
    Progress::Running,
    Progress::Completed,
    Progress::Failed,
];

impl StateSetValue for Progress {
    ghost all = { Pending ∷ Running ∷ Completed ∷ Failed ∷ [] };

    ghost text = { elim [
      | Pending ↦ codes "pending"
      | Running ↦ codes "running"
      | Completed ↦ codes "completed"
      | Failed ↦ codes "failed"
    ] };

    fn variants() -> &'static [Progress] {
        &PROGRESS
    }

    fn as_str(&self) -> &str {
        match self {
            Progress::Pending => "pending",
            Progress::Running => "running",
            Progress::Completed => "completed",
            Progress::Failed => "failed",
        }
    }
}

/// The state set of a task that runs.
pub fn running_task(alloc: Global) -> Result<Box<StateSet<Progress>>, Fault> {
    let task = StateSet::new(alloc, Progress::Pending)?;
    task.set(Progress::Running)?;
    Ok(Box::new(alloc, task)?)
}
