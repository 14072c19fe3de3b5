ghost use Rattle.std.specs.Prelude.{◌≡◌, ◌<◌, length, IsTrue, IsSome, IfOk, IfErr, MatchResult};
ghost use Rattle.fp_base.specs.Files.{texts};
ghost use Rattle.fp_load.specs.Causes.{Keeps};
ghost use Rattle.fp_load.specs.Load.{most_files};
ghost use Rattle.fp_top.specs.Outcome.{outcome};
ghost use Rattle.fp_top.specs.Outcome.Outcome.{Report};
ghost use Rattle.fp_top.specs.Words as spec;
ghost use Rattle.fp_top.specs.Refusal.{Says, BlamesWords, IsWorded};
ghost use Rattle.fp_top.specs.Runs.{lines_of, IsReady};

use crate::refusal::Refusal;
use crate::solve::{Run, solve};
use crate::words::job_of;
use fp_base::ClassDir;
use fp_load::load;
use std::alloc::Global;

/// The run that the words ask for, solved.
pub fn decide<D: ClassDir>(alloc: Global, words: &[String], dir: &mut D) -> Result<Run, Refusal>
    ensures keeps { Keeps (D.tells dir.old) (D.files dir.old) (D.failed dir.old) (D.tells dir.new) (D.files dir.new) (D.failed dir.new) }
    ensures report { IfOk result (λ run. IsTrue (D.tells dir.old) → outcome (texts words.now) (D.files dir.old) ≡ Report (lines_of run)) }
    ensures ready { IfOk result IsReady }
    ensures refusal { IfErr result (λ refusal. IsTrue (D.tells dir.old) → Says (outcome (texts words.now) (D.files dir.old)) refusal) }
    ensures worded { MatchResult result (λ _. IsSome (spec.directory_of (texts words.now))) (λ refusal. IsWorded (spec.directory_of (texts words.now)) refusal) }
    ensures blames { IfErr result (λ refusal. BlamesWords (texts words.now) (D.listed dir.new) (D.failed dir.old) (D.failed dir.new) refusal) }
    ensures unread { most_files < length (D.listed dir.new) → D.readings dir.new ≡ D.readings dir.old }
{
    let job = job_of(alloc, words)?;
    let loaded = load(alloc, dir, &job)?;
    solve(alloc, loaded, job)
}
