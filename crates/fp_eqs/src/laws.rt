//! Laws of systems of monotone equations.
ghost use Rattle.fp_eqs.specs.Demand.{IsLeastDemand, demand};
ghost use Rattle.fp_eqs.specs.Equations.{Equations, IsMonotone};
ghost use Rattle.fp_eqs.specs.Solution.{IsLeastSolution, solution};

/// A law: the solution of a monotone system is its least assignment that holds what is fixed and is closed under its tasks.
pub fn law_solution()
    ensures { (e : Equations) → IsMonotone e → IsLeastSolution e (solution e) }
{}

/// A law: the demand of a monotone system is its least set of places that holds the shown ones and what the tasks which it starts use at the solution.
pub fn law_demand()
    ensures { (e : Equations) → IsMonotone e → IsLeastDemand e (demand e) }
{}
