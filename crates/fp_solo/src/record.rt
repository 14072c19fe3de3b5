//! The reads of each task as links between tasks and places.
ghost use Rattle.std.specs.Prelude.{◌≡◌, ◌<◌, ◌≤◌, ◌==◌, ◌^◌, ℕ, false, Contains, length, slice_index, IsTrue, IfOk, OnOk, if◌then◌else◌};
ghost use Rattle.fp_eqs.specs.Answers.{asked, distinct};
ghost use Rattle.fp_solo.specs.Recorded.{AreReads, IsCount, is_read};
ghost use Rattle.fp_solo.specs.Counted.{AreCounted};

use fp_eqs::{Counted, System};
use fp_links::Links;
use std::alloc::{AllocError, Global};
use std::sync::ledger::Ledger;

/// The places that each task read when it was evaluated last.
#[derive(Drop)]
pub struct Reads {
    /// Which task reads which place.
    pub links: Links,
    /// How many places each task reads.
    pub counts: Vec<u32>,
}

/// No task has read any place.
pub fn no_reads<S: System, L: Ledger>(
    alloc: Global,
    system: &Counted<'_, S, L>,
) -> Result<Reads, AllocError>
    ensures reads { IfOk result (λ r. AreReads (S.equations system.now.system) r.links) }
    ensures counts { IfOk result (AreCounted (S.equations system.now.system)) }
    ensures none { IfOk result (λ r. (t p : ℕ) → is_read r.links t p ≡ false) }
{
    let mut links = Links::new(alloc);
    links.reserve(system.tasks(), system.places(), 0)?;
    let counts = zeros(alloc, system.tasks())?;
    Ok(Reads { links, counts })
}

/// So many zeros.
fn zeros(alloc: Global, count: u32) -> Result<Vec<u32>, AllocError>
    ensures long { IfOk result (λ v. length v.items ≡ count) }
    ensures zeros { IfOk result (λ v. (i : ℕ) → slice_index v.items i ≡ 0) }
{
    let mut numbers = Vec::with_capacity(alloc, count as usize)?;
    for _ in 0..count {
        numbers.push(0)?;
    }
    Ok(numbers)
}

/// Links a task to the places of the answers alone.
fn relink(links: &mut Links, task: u32, answers: &[(u32, u64)]) -> Result<(), AllocError>
    requires task { task < links.old.tasks }
    requires places { (p w : ℕ) → Contains answers.now (p, w) → p < length links.old.rows }
    requires once { IsTrue (distinct answers.now) }
    requires few { length answers.now < 2 ^ 32 }
    ensures places { OnOk result (length links.old.rows ≤ length links.new.rows) }
    ensures tasks { OnOk result (links.old.tasks ≤ links.new.tasks) }
    ensures reads { OnOk result ((t p : ℕ) → is_read links.new t p ≡ (if t == task then asked answers.now p else is_read links.old t p)) }
{
    links.unlink_task(task);
    links.reserve(0, 0, answers.len() as u32)?;
    for (place, _answer) in answers {
        links.link(task, *place);
    }
    Ok(())
}

/// Puts the places of the answers in the place of what a task had read. These are among them, so that as many answers are the same
/// places, and their links stay.
pub fn record_reads(reads: &mut Reads, task: u32, answers: &[(u32, u64)]) -> Result<(), AllocError>
    requires task { task < reads.old.links.tasks }
    requires counted { task < length reads.old.counts.items }
    requires count { IsCount (is_read reads.old.links task) (slice_index reads.old.counts.items task) }
    requires before { (p : ℕ) → IsTrue (is_read reads.old.links task p) → IsTrue (asked answers.now p) }
    requires places { (p w : ℕ) → Contains answers.now (p, w) → p < length reads.old.links.rows }
    requires once { IsTrue (distinct answers.now) }
    requires few { length answers.now < 2 ^ 32 }
    ensures places { OnOk result (length reads.old.links.rows ≤ length reads.new.links.rows) }
    ensures tasks { OnOk result (reads.old.links.tasks ≤ reads.new.links.tasks) }
    ensures reads { OnOk result ((t p : ℕ) → is_read reads.new.links t p ≡ (if t == task then asked answers.now p else is_read reads.old.links t p)) }
    ensures long { OnOk result (length reads.new.counts.items ≡ length reads.old.counts.items) }
    ensures counts { OnOk result ((t : ℕ) → slice_index reads.new.counts.items t ≡ (if t == task then length answers.now else slice_index reads.old.counts.items t)) }
{
    if reads.counts[task as usize] as usize == answers.len() {
        return Ok(());
    }
    relink(&mut reads.links, task, answers)?;
    reads.counts[task as usize] = answers.len() as u32;
    Ok(())
}
