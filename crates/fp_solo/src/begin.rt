//! What is wanted and started before any task is evaluated.
ghost use Rattle.std.specs.Prelude.{◌≡◌, ◌<◌, ◌==◌, ◌&&◌, ◌||◌, ℕ, false, not, length, IsTrue, IfOk, OnOk, slice_index};
ghost use Rattle.fp_eqs.specs.Equations.{IsIn};
ghost use Rattle.fp_eqs.specs.Makers.{is_lazy};
ghost use Rattle.fp_eqs.specs.Solved.{flag_at};
ghost use Rattle.fp_solo.specs.Agenda.{AreStarted, HasMore, IsAgenda};

use crate::agenda::{Agenda, begin, want};
use crate::due::{Due, unset};
use fp_eqs::{Counted, Start, System};
use std::alloc::{AllocError, Global};
use std::sync::ledger::Ledger;

/// The value that each place starts with.
pub fn fixed_values<S: System, L: Ledger>(
    alloc: Global,
    system: &Counted<'_, S, L>,
) -> Result<Vec<u64>, AllocError>
    ensures long { IfOk result (λ v. length v.items ≡ (S.equations system.now.system).places) }
    ensures fixed { IfOk result (λ v. (p : ℕ) → slice_index v.items p ≡ (S.equations system.now.system).fixed p) }
{
    let mut values = Vec::new(alloc);
    for place in 0..system.places() {
        values.push(system.fixed(place))?;
    }
    Ok(values)
}

/// No place is wanted, and no task was started.
fn no_agenda<S: System, L: Ledger>(
    alloc: Global,
    system: &Counted<'_, S, L>,
) -> Result<Agenda, AllocError>
    ensures agenda { IfOk result (IsAgenda (S.equations system.now.system)) }
    ensures wanted { IfOk result (λ a. (p : ℕ) → flag_at a.wanted.items p ≡ false) }
    ensures started { IfOk result (λ a. (t : ℕ) → flag_at a.started.items t ≡ false) }
    ensures due { IfOk result (λ a. (t : ℕ) → flag_at a.due.flags.items t ≡ false) }
{
    Ok(Agenda {
        wanted: unset(alloc, system.places())?,
        started: unset(alloc, system.tasks())?,
        due: Due::new(alloc, system.tasks())?,
    })
}

/// Starts a task unless it waits for demand.
fn begin_if_eager<S: System, L: Ledger>(
    system: &Counted<'_, S, L>,
    agenda: &mut Agenda,
    task: u32,
) -> Result<(), AllocError>
    requires task { task < (S.equations system.now.system).tasks }
    requires agenda { IsAgenda (S.equations system.now.system) agenda.old }
    ensures agenda { OnOk result (IsAgenda (S.equations system.now.system) agenda.new) }
    ensures wanted { OnOk result (agenda.new.wanted ≡ agenda.old.wanted) }
    ensures started { OnOk result ((t : ℕ) → flag_at agenda.new.started.items t
        ≡ (flag_at agenda.old.started.items t || (task == t && not (is_lazy ((S.equations system.now.system).task task).start)))) }
    ensures more { OnOk result (HasMore agenda.old agenda.new) }
{
    match system.start(task) {
        Start::Lazy => Ok(()),
        Start::Always | Start::Triggered(_) => begin(system, agenda, task),
    }
}

/// Starts each task that waits for no demand, where nothing is wanted yet.
fn begin_eager<S: System, L: Ledger>(
    system: &Counted<'_, S, L>,
    agenda: &mut Agenda,
) -> Result<(), AllocError>
    requires agenda { IsAgenda (S.equations system.now.system) agenda.old }
    requires wanted { (p : ℕ) → flag_at agenda.old.wanted.items p ≡ false }
    requires started { (t : ℕ) → flag_at agenda.old.started.items t ≡ false }
    ensures agenda { OnOk result (IsAgenda (S.equations system.now.system) agenda.new) }
    ensures wanted { OnOk result (agenda.new.wanted ≡ agenda.old.wanted) }
    ensures starts { OnOk result (AreStarted (S.equations system.now.system) agenda.new) }
    ensures more { OnOk result (HasMore agenda.old agenda.new) }
{
    for task in 0..system.tasks() {
        begin_if_eager(system, agenda, task)?;
    }
    Ok(())
}

/// Wants a place if it is shown.
fn want_if_shown<S: System, L: Ledger>(
    system: &Counted<'_, S, L>,
    agenda: &mut Agenda,
    place: u32,
) -> Result<(), AllocError>
    requires place { place < (S.equations system.now.system).places }
    requires agenda { IsAgenda (S.equations system.now.system) agenda.old }
    requires starts { AreStarted (S.equations system.now.system) agenda.old }
    ensures agenda { OnOk result (IsAgenda (S.equations system.now.system) agenda.new) }
    ensures starts { OnOk result (AreStarted (S.equations system.now.system) agenda.new) }
    ensures wanted { OnOk result ((p : ℕ) → flag_at agenda.new.wanted.items p
        ≡ (flag_at agenda.old.wanted.items p || (place == p && (S.equations system.now.system).shown p))) }
    ensures more { OnOk result (HasMore agenda.old agenda.new) }
{
    if !system.shown(place) {
        return Ok(());
    }
    want(system, agenda, place)?;
    Ok(())
}

/// Wants each place that is shown, where none is wanted yet.
fn want_shown<S: System, L: Ledger>(
    system: &Counted<'_, S, L>,
    agenda: &mut Agenda,
) -> Result<(), AllocError>
    requires agenda { IsAgenda (S.equations system.now.system) agenda.old }
    requires starts { AreStarted (S.equations system.now.system) agenda.old }
    requires none { (p : ℕ) → flag_at agenda.old.wanted.items p ≡ false }
    ensures agenda { OnOk result (IsAgenda (S.equations system.now.system) agenda.new) }
    ensures starts { OnOk result (AreStarted (S.equations system.now.system) agenda.new) }
    ensures shown { OnOk result (IsIn (S.equations system.now.system).shown (flag_at agenda.new.wanted.items)) }
    ensures only { OnOk result (IsIn (flag_at agenda.new.wanted.items) (S.equations system.now.system).shown) }
    ensures more { OnOk result (HasMore agenda.old agenda.new) }
{
    for place in 0..system.places() {
        want_if_shown(system, agenda, place)?;
    }
    Ok(())
}

/// The shown places are wanted, and the tasks that these start are due.
pub fn first_agenda<S: System, L: Ledger>(
    alloc: Global,
    system: &Counted<'_, S, L>,
) -> Result<Agenda, AllocError>
    ensures agenda { IfOk result (IsAgenda (S.equations system.now.system)) }
    ensures starts { IfOk result (AreStarted (S.equations system.now.system)) }
    ensures shown { IfOk result (λ a. IsIn (S.equations system.now.system).shown (flag_at a.wanted.items)) }
    ensures only { IfOk result (λ a. IsIn (flag_at a.wanted.items) (S.equations system.now.system).shown) }
    ensures due { IfOk result (λ a. (t : ℕ) → flag_at a.due.flags.items t ≡ flag_at a.started.items t) }
{
    let mut agenda = no_agenda(alloc, system)?;
    begin_eager(system, &mut agenda)?;
    want_shown(system, &mut agenda)?;
    Ok(agenda)
}
