//! Laws of solving a system on demand.
ghost use Rattle.std.specs.Prelude.{◌≡◌, ◌+◌, ◌≤◌, ℕ, false, IsTrue};
ghost use Rattle.fp_eqs.specs.Bounds.{evaluation_bound};
ghost use Rattle.fp_eqs.specs.Demand.{demand};
ghost use Rattle.fp_eqs.specs.Equations.{Equations, IsMonotone, count_below};
ghost use Rattle.fp_eqs.specs.Solution.{solution};
ghost use Rattle.fp_solo.specs.Solving.{IsSolving};
ghost use Rattle.fp_solo.specs.Steps.{IsStep, IsWord, State};

/// A law: while a system is solved, there were no more evaluations, and no more are due, than the bound of the system.
pub fn law_few()
    ensures { (e : Equations) → IsMonotone e → (s : State) → (n : ℕ) → IsSolving e s.values s.wanted s.started s.due s.reads n
        → n + count_below s.due e.tasks ≤ evaluation_bound e }
{}

/// A law: an evaluation of a task that is due, which records its reads before it joins its contributions and then makes due
/// whoever read a place that changed, keeps what stands while a system is solved.
pub fn law_evaluation()
    ensures { (e : Equations) → IsMonotone e → (old new : State) → (task n : ℕ) → IsWord old.values → IsWord new.values
        → IsSolving e old.values old.wanted old.started old.due old.reads n → IsStep e task old new
        → IsSolving e new.values new.wanted new.started new.due new.reads (n + 1) }
{}

/// A law: where no task is due any more, the wanted places are the demanded ones, and their values are the least solution's.
pub fn law_end()
    ensures { (e : Equations) → IsMonotone e → (s : State) → (n : ℕ) → IsSolving e s.values s.wanted s.started s.due s.reads n
        → ((t : ℕ) → s.due t ≡ false)
        → ((p : ℕ) → s.wanted p ≡ demand e p) × ((p : ℕ) → IsTrue (s.wanted p) → s.values p ≡ solution e p) }
{}
