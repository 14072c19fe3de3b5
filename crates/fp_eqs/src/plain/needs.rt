ghost use Rattle.std.specs.Prelude.{◌≡◌, ◌<◌, ◌||◌, ◌==◌, ℕ, false, Contains, IfOk, length};
ghost use Rattle.fp_eqs.specs.Answers.{asked};
ghost use Rattle.fp_eqs.specs.Needs.{AreFound, GoesOn};
ghost use Rattle.fp_eqs.specs.Solved.{flag_at};

use std::alloc::{AllocError, Global};

/// The places that are wanted so far, and the tasks that were started for them.
#[derive(Drop)]
pub struct Needs {
    /// Whether each place is wanted.
    pub wanted: Vec<bool>,
    /// The wanted places, in the order in which they were found.
    pub found: Vec<u32>,
    /// Whether each task was started.
    pub started: Vec<bool>,
}

impl Needs {
    /// No place is wanted, and no task was started.
    pub fn new(alloc: Global, places: u32, tasks: u32) -> Result<Needs, AllocError>
        ensures places { IfOk result (λ s. length s.wanted.items ≡ places) }
        ensures tasks { IfOk result (λ s. length s.started.items ≡ tasks) }
        ensures found { IfOk result (λ s. AreFound s.wanted.items s.found.items) }
        ensures wanted { IfOk result (λ s. (p : ℕ) → flag_at s.wanted.items p ≡ false) }
        ensures started { IfOk result (λ s. (t : ℕ) → flag_at s.started.items t ≡ false) }
    {
        Ok(Needs {
            wanted: unset(alloc, places)?,
            found: Vec::new(alloc),
            started: unset(alloc, tasks)?,
        })
    }

    /// Wants a place.
    pub fn want(&mut self, place: u32) -> Result<(), AllocError>
        requires place { place < length self.old.wanted.items }
        requires found { AreFound self.old.wanted.items self.old.found.items }
        ensures long { IfOk result (λ _. length self.new.wanted.items ≡ length self.old.wanted.items) }
        ensures marked { IfOk result (λ _. (p : ℕ) → flag_at self.new.wanted.items p ≡ (flag_at self.old.wanted.items p || place == p)) }
        ensures found { IfOk result (λ _. AreFound self.new.wanted.items self.new.found.items) }
        ensures goes_on { IfOk result (λ _. GoesOn self.old.found.items self.new.found.items) }
        ensures started { self.new.started ≡ self.old.started }
    {
        if self.wanted[place as usize] {
            return Ok(());
        }
        self.found.push(place)?;
        self.wanted[place as usize] = true;
        Ok(())
    }

    /// Wants the place of each answer.
    pub fn want_asked(&mut self, answers: &[(u32, u64)]) -> Result<(), AllocError>
        requires places { (p w : ℕ) → Contains answers.now (p, w) → p < length self.old.wanted.items }
        requires found { AreFound self.old.wanted.items self.old.found.items }
        ensures long { IfOk result (λ _. length self.new.wanted.items ≡ length self.old.wanted.items) }
        ensures marked { IfOk result (λ _. (p : ℕ) → flag_at self.new.wanted.items p ≡ (flag_at self.old.wanted.items p || asked answers.now p)) }
        ensures found { IfOk result (λ _. AreFound self.new.wanted.items self.new.found.items) }
        ensures goes_on { IfOk result (λ _. GoesOn self.old.found.items self.new.found.items) }
        ensures started { self.new.started ≡ self.old.started }
    {
        for (place, _answer) in answers {
            self.want(*place)?;
        }
        Ok(())
    }
}

/// So many flags that are not set.
fn unset(alloc: Global, count: u32) -> Result<Vec<bool>, AllocError>
    ensures long { IfOk result (λ v. length v.items ≡ count) }
    ensures unset { IfOk result (λ v. (i : ℕ) → flag_at v.items i ≡ false) }
{
    let mut flags = Vec::with_capacity(alloc, count as usize)?;
    for _ in 0..count {
        flags.push(false)?;
    }
    Ok(flags)
}
