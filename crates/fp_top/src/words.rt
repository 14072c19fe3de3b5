ghost use Rattle.std.specs.Prelude.{◌≡◌, Some, None, IfOk, IfErr, false};
ghost use Rattle.fp_base.specs.Files.{texts};
ghost use Rattle.fp_words.specs.Asked.{run_of_job};
ghost use Rattle.fp_top.specs.Refusal.{IsUsage};
ghost use Rattle.fp_top.specs.Words.{asked_of};

use crate::refusal::Refusal;
use fp_words::{Job, Order, WordsFault, read_words};
use std::alloc::Global;

/// The run that the words ask for.
pub fn job_of(alloc: Global, words: &[String]) -> Result<Job, Refusal>
    ensures job { IfOk result (λ job. asked_of (texts words.now) ≡ Some (run_of_job job)) }
    ensures plain { IfOk result (λ job. (job.all ≡ false) × (job.cycles ≡ false)) }
    ensures refusal { IfErr result (λ refusal. IsUsage (asked_of (texts words.now)) refusal) }
    ensures usage { asked_of (texts words.now) ≡ None → IfErr result (λ refusal. refusal ≡ Refusal.Usage) }
{
    match read_words(alloc, words) {
        Ok(Order::Run(job)) => Ok(job),
        Ok(Order::Generate { .. }) => unreachable!(),
        Err(WordsFault::Usage) => Err(Refusal::Usage),
        Err(WordsFault::Memory) => Err(Refusal::Memory),
    }
}
