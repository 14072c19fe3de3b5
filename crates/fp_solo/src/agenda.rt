//! Which places are wanted, and which tasks they start.
ghost use Rattle.std.specs.Prelude.{◌≡◌, ◌<◌, ◌↔◌, ◌==◌, ◌||◌, ℕ, Contains, length, IsTrue, OnOk};
ghost use Rattle.fp_eqs.specs.Answers.{asked};
ghost use Rattle.fp_eqs.specs.Makers.{is_maker};
ghost use Rattle.fp_eqs.specs.Solved.{flag_at};
ghost use Rattle.fp_solo.specs.Agenda.{AreStarted, HasMore, IsAgenda};

use crate::due::Due;
use fp_eqs::{Counted, Start, System};
use std::alloc::AllocError;
use std::sync::ledger::Ledger;

/// A task that may ask more places than this waits until no other one is due.
const FEW_ASKS: u32 = 8;

/// The places that are wanted so far, and the tasks that were started for them.
#[derive(Drop)]
pub struct Agenda {
    /// Whether each place is wanted.
    pub wanted: Vec<bool>,
    /// Whether each task was started.
    pub started: Vec<bool>,
    /// The tasks that are to be evaluated, anew or for the first time.
    pub due: Due,
}

/// Whether a task may ask many places.
pub fn is_wide<S: System, L: Ledger>(system: &Counted<'_, S, L>, task: u32) -> bool
    requires { task < (S.equations system.now.system).tasks }
    ensures { IsTrue result ↔ (FEW_ASKS < ((S.equations system.now.system).task task).asks) }
{
    system.bound(task).asks > FEW_ASKS
}

/// Starts a task, which is due then, unless it was started.
pub fn begin<S: System, L: Ledger>(
    system: &Counted<'_, S, L>,
    agenda: &mut Agenda,
    task: u32,
) -> Result<(), AllocError>
    requires task { task < (S.equations system.now.system).tasks }
    requires agenda { IsAgenda (S.equations system.now.system) agenda.old }
    ensures agenda { OnOk result (IsAgenda (S.equations system.now.system) agenda.new) }
    ensures wanted { OnOk result (agenda.new.wanted ≡ agenda.old.wanted) }
    ensures started { OnOk result ((t : ℕ) → flag_at agenda.new.started.items t ≡ (flag_at agenda.old.started.items t || task == t)) }
    ensures more { OnOk result (HasMore agenda.old agenda.new) }
{
    if agenda.started[task as usize] {
        return Ok(());
    }
    agenda.started[task as usize] = true;
    agenda.due.mark(task, is_wide(system, task))
}

/// Starts each lazy task that makes a place.
fn begin_makers<S: System, L: Ledger>(
    system: &Counted<'_, S, L>,
    agenda: &mut Agenda,
    place: u32,
) -> Result<(), AllocError>
    requires place { place < (S.equations system.now.system).places }
    requires agenda { IsAgenda (S.equations system.now.system) agenda.old }
    ensures agenda { OnOk result (IsAgenda (S.equations system.now.system) agenda.new) }
    ensures wanted { OnOk result (agenda.new.wanted ≡ agenda.old.wanted) }
    ensures started { let e = S.equations system.now.system in OnOk result ((t : ℕ) → t < e.tasks →
        flag_at agenda.new.started.items t ≡ (flag_at agenda.old.started.items t || is_maker place (e.task t))) }
    ensures more { OnOk result (HasMore agenda.old agenda.new) }
{
    for k in 0..system.tasks() {
        let Some(task) = system.maker(place, k) else {
            return Ok(());
        };
        begin(system, agenda, task)?;
    }
    Ok(())
}

/// Wants a place, and starts what makes it, unless it was wanted.
pub fn want<S: System, L: Ledger>(
    system: &Counted<'_, S, L>,
    agenda: &mut Agenda,
    place: u32,
) -> Result<(), AllocError>
    requires place { place < (S.equations system.now.system).places }
    requires agenda { IsAgenda (S.equations system.now.system) agenda.old }
    requires starts { AreStarted (S.equations system.now.system) agenda.old }
    ensures agenda { OnOk result (IsAgenda (S.equations system.now.system) agenda.new) }
    ensures starts { OnOk result (AreStarted (S.equations system.now.system) agenda.new) }
    ensures wanted { OnOk result ((p : ℕ) → flag_at agenda.new.wanted.items p ≡ (flag_at agenda.old.wanted.items p || place == p)) }
    ensures more { OnOk result (HasMore agenda.old agenda.new) }
{
    if agenda.wanted[place as usize] {
        return Ok(());
    }
    agenda.wanted[place as usize] = true;
    begin_makers(system, agenda, place)?;
    Ok(())
}

/// Wants the place of each answer.
pub fn want_answers<S: System, L: Ledger>(
    system: &Counted<'_, S, L>,
    agenda: &mut Agenda,
    answers: &[(u32, u64)],
) -> Result<(), AllocError>
    requires places { (p w : ℕ) → Contains answers.now (p, w) → p < (S.equations system.now.system).places }
    requires agenda { IsAgenda (S.equations system.now.system) agenda.old }
    requires starts { AreStarted (S.equations system.now.system) agenda.old }
    ensures agenda { OnOk result (IsAgenda (S.equations system.now.system) agenda.new) }
    ensures starts { OnOk result (AreStarted (S.equations system.now.system) agenda.new) }
    ensures wanted { OnOk result ((p : ℕ) → flag_at agenda.new.wanted.items p ≡ (flag_at agenda.old.wanted.items p || asked answers.now p)) }
    ensures more { OnOk result (HasMore agenda.old agenda.new) }
{
    for (place, _answer) in answers {
        want(system, agenda, *place)?;
    }
    Ok(())
}
