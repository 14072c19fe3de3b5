ghost use Rattle.std.specs.Prelude.{◌≡◌, ◌+◌, ◌<◌, ◌≤◌, ℕ, [], length};
ghost use Rattle.fp_eqs.specs.Equations.{Tasks, AllLawful, Serves, IsEvaluated};
ghost use Rattle.fp_eqs.specs.Makers.{IsMakerOf};

use crate::ask::Ask;
use crate::gives::Gives;
use crate::start::{Bound, Start};

/// The tasks of one analysis, numbered from 0, over the places that it was made with. A system is put together of
/// analyses. No call takes memory.
pub trait Analysis {
    ghost meaning: { Self → Tasks };

    ghost places: { Self → ℕ };

    ghost lawful: { (analysis : Self) → AllLawful (places analysis) (meaning analysis) };

    /// How many tasks there are.
    fn tasks(&self) -> u32
        ensures { result ≡ (meaning self.now).count };

    /// When a task is started.
    fn start(&self, task: u32) -> Start
        requires { task < (meaning self.now).count }
        ensures { result ≡ ((meaning self.now).task task).start };

    /// The bounds of a task.
    fn bound(&self, task: u32) -> Bound
        requires { task < (meaning self.now).count }
        ensures asks { result.asks ≡ ((meaning self.now).task task).asks }
        ensures gives { result.gives ≡ ((meaning self.now).task task).gives };

    /// The `k`-th lazy task, in ascending order and counted from 0, that can give to a place, or `None` where there are
    /// not so many.
    fn maker(&self, place: u32, k: u32) -> Option<u32>
        requires { place < places self.now }
        ensures { IsMakerOf (meaning self.now).task (meaning self.now).count place k result };

    /// Runs a task's transfer function: it asks for the values of exactly the places that it uses at the values answered,
    /// and adds exactly its contributions there.
    fn eval<A: Ask>(&self, task: u32, ask: &mut A, give: &mut Gives)
        requires task { task < (meaning self.now).count }
        requires fresh { A.answers ask.old ≡ [] }
        requires serves { Serves (A.allows (A.base ask.old)) ((meaning self.now).task task) }
        requires room { ((meaning self.now).task task).gives ≤ give.old.spare }
        ensures base { A.base ask.new ≡ A.base ask.old }
        ensures evaluated { IsEvaluated ((meaning self.now).task task) (A.answers ask.new) give.old.list give.new.list }
        ensures kept { give.new.spare + length give.new.list ≡ give.old.spare + length give.old.list };
}
