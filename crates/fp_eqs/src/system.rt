ghost use Rattle.std.specs.Prelude.{◌≡◌, ◌+◌, ◌<◌, ◌≤◌, [], length};
ghost use Rattle.fp_eqs.specs.Equations.{Equations, IsMonotone, Serves, IsEvaluated};
ghost use Rattle.fp_eqs.specs.Makers.{IsMakerOf};

use crate::ask::Ask;
use crate::gives::Gives;
use crate::start::{Bound, Start};

/// A system of monotone equations over numbered places, whose values are words of 64 bits.
///
/// Each task has a transfer function, which uses some places of an assignment and contributes bits to others. All calls
/// but making a system take no memory.
pub trait System {
    ghost equations: { Self → Equations };

    ghost monotone: { (system : Self) → IsMonotone (equations system) };

    /// How many places there are.
    fn places(&self) -> u32
        ensures { result ≡ (equations self.now).places };

    /// How many tasks there are.
    fn tasks(&self) -> u32
        ensures { result ≡ (equations self.now).tasks };

    /// When a task is started.
    fn start(&self, task: u32) -> Start
        requires { task < (equations self.now).tasks }
        ensures { result ≡ ((equations self.now).task task).start };

    /// The bounds of a task.
    fn bound(&self, task: u32) -> Bound
        requires { task < (equations self.now).tasks }
        ensures asks { result.asks ≡ ((equations self.now).task task).asks }
        ensures gives { result.gives ≡ ((equations self.now).task task).gives };

    /// The value that a place starts with.
    fn fixed(&self, place: u32) -> u64
        requires { place < (equations self.now).places }
        ensures { result ≡ (equations self.now).fixed place };

    /// Whether a place is shown.
    fn shown(&self, place: u32) -> bool
        requires { place < (equations self.now).places }
        ensures { result ≡ (equations self.now).shown place };

    /// The `k`-th lazy task, in ascending order and counted from 0, that can give to a place, or `None` where there are
    /// not so many.
    fn maker(&self, place: u32, k: u32) -> Option<u32>
        requires { place < (equations self.now).places }
        ensures { IsMakerOf (equations self.now).task (equations self.now).tasks place k result };

    /// Runs a task's transfer function: it asks for the values of exactly the places that it uses at the values answered,
    /// and adds exactly its contributions there.
    fn eval<A: Ask>(&self, task: u32, ask: &mut A, give: &mut Gives)
        requires task { task < (equations self.now).tasks }
        requires fresh { A.answers ask.old ≡ [] }
        requires serves { Serves (A.allows (A.base ask.old)) ((equations self.now).task task) }
        requires room { ((equations self.now).task task).gives ≤ give.old.spare }
        ensures base { A.base ask.new ≡ A.base ask.old }
        ensures evaluated { IsEvaluated ((equations self.now).task task) (A.answers ask.new) give.old.list give.new.list }
        ensures kept { give.new.spare + length give.new.list ≡ give.old.spare + length give.old.list };
}
