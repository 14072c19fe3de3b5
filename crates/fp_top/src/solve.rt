ghost use Rattle.std.specs.Prelude.{◌≡◌, false, IfOk, IfErr};
ghost use Rattle.fp_words.specs.Asked.{run_of_job};
ghost use Rattle.fp_top.specs.Outcome.{outcome_of_sound};
ghost use Rattle.fp_top.specs.Outcome.Outcome.{Report};
ghost use Rattle.fp_top.specs.Refusal.{Says, IsOwn};
ghost use Rattle.fp_top.specs.Runs.{lines_of, IsReady};

use crate::refusal::Refusal;
use fp_eqs::{Solved, rounds};
use fp_facts::Loaded;
use fp_system::JavaSystem;
use fp_words::Job;
use std::alloc::Global;

/// A run that is solved: what was read, its system, the solution, and what was asked for.
#[derive(Drop)]
pub struct Run {
    pub loaded: Loaded,
    pub system: JavaSystem,
    pub solved: Solved,
    pub job: Job,
}

/// Builds the system of a set and solves it.
pub fn solve(alloc: Global, loaded: Loaded, job: Job) -> Result<Run, Refusal>
    requires { (job.all ≡ false) × (job.cycles ≡ false) }
    ensures report { IfOk result (λ run. outcome_of_sound loaded.set (run_of_job job) ≡ Report (lines_of run)) }
    ensures ready { IfOk result IsReady }
    ensures refusal { IfErr result (λ refusal. Says (outcome_of_sound loaded.set (run_of_job job)) refusal) }
    ensures own { IfErr result IsOwn }
{
    let system = JavaSystem::build(alloc, &loaded, &job)?;
    let solved = rounds(alloc, &system)?;
    Ok(Run {
        loaded,
        system,
        solved,
        job,
    })
}
