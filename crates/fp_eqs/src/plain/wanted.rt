ghost use Rattle.std.specs.Prelude.{◌≡◌, ◌<◌, ℕ, false, IfOk, IsTrue, length, slice_index};
ghost use Rattle.fp_eqs.specs.Demand.{demand, is_started};
ghost use Rattle.fp_eqs.specs.Equations.{IsIn};
ghost use Rattle.fp_eqs.specs.Makers.{is_lazy, is_maker};
ghost use Rattle.fp_eqs.specs.Needs.{AreLater, AreNeeds};
ghost use Rattle.fp_eqs.specs.Solution.{solution};
ghost use Rattle.fp_eqs.specs.Solved.{flag_at};

use crate::plain::known::evaluate;
use crate::plain::needs::Needs;
use crate::start::Start;
use crate::system::System;
use std::alloc::{AllocError, Global};

/// Whether each place is demanded, where the values are those of the least solution.
///
/// Each task is started once and each wanted place is looked at once.
pub fn wanted_places<S: System>(
    alloc: Global,
    system: &S,
    values: &[u64],
) -> Result<Vec<bool>, AllocError>
    requires long { length values.now ≡ (S.equations system.now).places }
    requires solution { slice_index values.now ≡ solution (S.equations system.now) }
    ensures long { IfOk result (λ v. length v.items ≡ (S.equations system.now).places) }
    ensures demand { IfOk result (λ v. flag_at v.items ≡ demand (S.equations system.now)) }
{
    let mut needs = Needs::new(alloc, system.places(), system.tasks())?;
    want_shown(system, &mut needs)?;
    start_eager(alloc, system, values, &mut needs)?;
    for at in 0..system.places() as usize {
        if needs.found.len() <= at {
            return Ok(needs.wanted);
        }
        let place = needs.found[at];
        start_makers(alloc, system, values, place, &mut needs)?;
    }
    Ok(needs.wanted)
}

/// Wants each place that is shown.
fn want_shown<S: System>(system: &S, needs: &mut Needs) -> Result<(), AllocError>
    requires needs { AreNeeds (S.equations system.now) needs.old }
    ensures needs { IfOk result (λ _. AreNeeds (S.equations system.now) needs.new) }
    ensures shown { IfOk result (λ _. IsIn (S.equations system.now).shown (flag_at needs.new.wanted.items)) }
{
    for place in 0..system.places() {
        want_if_shown(system, place, needs)?;
    }
    Ok(())
}

/// Wants a place if it is shown.
fn want_if_shown<S: System>(system: &S, place: u32, needs: &mut Needs) -> Result<(), AllocError>
    requires place { place < (S.equations system.now).places }
    requires needs { AreNeeds (S.equations system.now) needs.old }
    ensures needs { IfOk result (λ _. AreNeeds (S.equations system.now) needs.new) }
    ensures later { IfOk result (λ _. AreLater needs.old needs.new) }
    ensures shown { IfOk result (λ _. IsTrue ((S.equations system.now).shown place) → IsTrue (flag_at needs.new.wanted.items place)) }
{
    if !system.shown(place) {
        return Ok(());
    }
    needs.want(place)?;
    Ok(())
}

/// Starts each task that waits for no demand.
fn start_eager<S: System>(
    alloc: Global,
    system: &S,
    values: &[u64],
    needs: &mut Needs,
) -> Result<(), AllocError>
    requires long { length values.now ≡ (S.equations system.now).places }
    requires solution { slice_index values.now ≡ solution (S.equations system.now) }
    requires needs { AreNeeds (S.equations system.now) needs.old }
    ensures needs { IfOk result (λ _. AreNeeds (S.equations system.now) needs.new) }
    ensures later { IfOk result (λ _. AreLater needs.old needs.new) }
    ensures started { let e = S.equations system.now in
        IfOk result (λ _. (t : ℕ) → t < e.tasks → is_lazy (e.task t).start ≡ false → IsTrue (flag_at needs.new.started.items t)) }
{
    for task in 0..system.tasks() {
        start_if_eager(alloc, system, values, task, needs)?;
    }
    Ok(())
}

/// Starts a task unless it waits for demand.
fn start_if_eager<S: System>(
    alloc: Global,
    system: &S,
    values: &[u64],
    task: u32,
    needs: &mut Needs,
) -> Result<(), AllocError>
    requires task { task < (S.equations system.now).tasks }
    requires long { length values.now ≡ (S.equations system.now).places }
    requires solution { slice_index values.now ≡ solution (S.equations system.now) }
    requires needs { AreNeeds (S.equations system.now) needs.old }
    ensures needs { IfOk result (λ _. AreNeeds (S.equations system.now) needs.new) }
    ensures later { IfOk result (λ _. AreLater needs.old needs.new) }
    ensures started { IfOk result (λ _. is_lazy ((S.equations system.now).task task).start ≡ false → IsTrue (flag_at needs.new.started.items task)) }
{
    match system.start(task) {
        Start::Lazy => Ok(()),
        Start::Always | Start::Triggered(_) => start(alloc, system, values, task, needs),
    }
}

/// Starts the lazy tasks that make a wanted place.
fn start_makers<S: System>(
    alloc: Global,
    system: &S,
    values: &[u64],
    place: u32,
    needs: &mut Needs,
) -> Result<(), AllocError>
    requires place { place < (S.equations system.now).places }
    requires wanted { IsTrue (flag_at needs.old.wanted.items place) }
    requires long { length values.now ≡ (S.equations system.now).places }
    requires solution { slice_index values.now ≡ solution (S.equations system.now) }
    requires needs { AreNeeds (S.equations system.now) needs.old }
    ensures needs { IfOk result (λ _. AreNeeds (S.equations system.now) needs.new) }
    ensures later { IfOk result (λ _. AreLater needs.old needs.new) }
    ensures started { let e = S.equations system.now in
        IfOk result (λ _. (t : ℕ) → t < e.tasks → IsTrue (is_maker place (e.task t)) → IsTrue (flag_at needs.new.started.items t)) }
{
    for k in 0..system.tasks() {
        let Some(task) = system.maker(place, k) else {
            return Ok(());
        };
        start(alloc, system, values, task, needs)?;
    }
    Ok(())
}

/// Starts a task that the demand starts, if it wasn't, and wants the places that it uses.
fn start<S: System>(
    alloc: Global,
    system: &S,
    values: &[u64],
    task: u32,
    needs: &mut Needs,
) -> Result<(), AllocError>
    requires task { task < (S.equations system.now).tasks }
    requires runs { IsTrue (is_started (S.equations system.now) (demand (S.equations system.now)) task) }
    requires long { length values.now ≡ (S.equations system.now).places }
    requires solution { slice_index values.now ≡ solution (S.equations system.now) }
    requires needs { AreNeeds (S.equations system.now) needs.old }
    ensures needs { IfOk result (λ _. AreNeeds (S.equations system.now) needs.new) }
    ensures later { IfOk result (λ _. AreLater needs.old needs.new) }
    ensures started { IfOk result (λ _. IsTrue (flag_at needs.new.started.items task)) }
{
    if needs.started[task as usize] {
        return Ok(());
    }
    let evaluation = evaluate(alloc, system, values, task)?;
    needs.want_asked(&evaluation.answers)?;
    needs.started[task as usize] = true;
    Ok(())
}
