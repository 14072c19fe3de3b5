//! What a solver holds, and one step of it.
ghost use Rattle.std.specs.Prelude.{◌≡◌, ◌+◌, ◌<◌, ◌≤◌, ◌^◌, ℕ, false, [], IsTrue, IfOk, OnOk, length, slice_index, if◌then◌else◌};
ghost use Rattle.fp_eqs.specs.Answers.{IsGiven, asked, distinct};
ghost use Rattle.fp_eqs.specs.Bounds.{evaluation_bound};
ghost use Rattle.fp_eqs.specs.Solved.{flag_at};
ghost use Rattle.fp_solo.specs.Working.{HasTaken, IsSolvingBy, IsWork};

use crate::agenda::{Agenda, want_answers};
use crate::begin::{first_agenda, fixed_values};
use crate::evaluate::{Page, evaluate};
use crate::join::join_all;
use crate::record::{Reads, no_reads, record_reads};
use fp_eqs::{Counted, System};
use std::alloc::{AllocError, Global};
use std::sync::ledger::Ledger;

/// What is known while a system is solved.
#[derive(Drop)]
pub struct Work {
    /// The values so far, by place.
    pub values: Vec<u64>,
    /// What is wanted, started and due.
    pub agenda: Agenda,
    /// Which places each task read when it was evaluated last.
    pub reads: Reads,
    /// The lists of an evaluation.
    pub page: Page,
}

/// What is known before any task was evaluated.
pub fn open<S: System, L: Ledger>(
    alloc: Global,
    system: &Counted<'_, S, L>,
) -> Result<Work, AllocError>
    ensures work { IfOk result (IsWork (S.equations system.now.system)) }
    ensures solving { IfOk result (λ w. IsSolvingBy (S.equations system.now.system) w 0) }
{
    let values = fixed_values(alloc, system)?;
    let agenda = first_agenda(alloc, system)?;
    let reads = no_reads(alloc, system)?;
    let page = Page::new(alloc, system.places())?;
    Ok(Work {
        values,
        agenda,
        reads,
        page,
    })
}

/// Puts what an evaluation asked and contributed where it belongs. Reads are recorded before contributions are joined, since a task
/// may read a place to which it gives.
fn commit<S: System, L: Ledger>(
    system: &Counted<'_, S, L>,
    work: &mut Work,
    task: u32,
) -> Result<(), AllocError>
    requires task { task < (S.equations system.now.system).tasks }
    requires work { IsWork (S.equations system.now.system) work.old }
    requires once { IsTrue (distinct work.old.page.questions.answers.items) }
    requires few { length work.old.page.questions.answers.items < 2 ^ 32 }
    requires asks { let k = (S.equations system.now.system).task task in
        (p : ℕ) → asked work.old.page.questions.answers.items p ≡ k.uses (slice_index work.old.values.items) p }
    requires gives { let k = (S.equations system.now.system).task task in
        IsGiven [] work.old.page.given.list k.gives k.makes (k.out (slice_index work.old.values.items)) }
    ensures work { OnOk result (IsWork (S.equations system.now.system) work.new) }
    ensures taken { OnOk result (HasTaken (S.equations system.now.system) task work.old work.new) }
{
    let answers = work.page.questions.answers.as_slice();
    record_reads(&mut work.reads, task, answers)?;
    want_answers(system, &mut work.agenda, answers)?;
    let given = work.page.given.list();
    join_all(
        system,
        &mut work.values,
        &work.reads.links,
        &mut work.agenda.due,
        given,
    )?;
    Ok(())
}

/// Evaluates the next task that is due, and tells whether there was one.
pub fn step<S: System, L: Ledger>(
    alloc: Global,
    system: &mut Counted<'_, S, L>,
    work: &mut Work,
) -> Result<bool, AllocError>
    requires { IsWork (S.equations system.old.system) work.old }
    ensures system { system.new.system ≡ system.old.system }
    ensures work { OnOk result (IsWork (S.equations system.old.system) work.new) }
    ensures solving { (n : ℕ) → IsSolvingBy (S.equations system.old.system) work.old n
        → IfOk result (λ more. IsSolvingBy (S.equations system.old.system) work.new (if more then n + 1 else n)) }
    ensures evals { IfOk result (λ more. system.new.evals ≡ (if more then system.old.evals + 1 else system.old.evals)) }
    ensures none { IfOk result (λ more. more ≡ false → (t : ℕ) → flag_at work.new.agenda.due.flags.items t ≡ false) }
    ensures few { (n : ℕ) → IsSolvingBy (S.equations system.old.system) work.old n
        → n + system.new.evals ≤ system.old.evals + evaluation_bound (S.equations system.old.system) }
{
    let Some(task) = work.agenda.due.take() else {
        return Ok(false);
    };
    work.page.prepare(system.bound(task))?;
    evaluate(alloc, system, &work.values, task, &mut work.page);
    commit(system, work, task)?;
    Ok(true)
}
