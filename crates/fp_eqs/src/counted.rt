ghost use Rattle.std.specs.Prelude.{◌≡◌, ◌+◌, ◌<◌, ◌≤◌, [], length};
ghost use Rattle.fp_eqs.specs.Equations.{Serves, IsEvaluated};
ghost use Rattle.fp_eqs.specs.Makers.{IsMakerOf};

use crate::ask::Ask;
use crate::gives::Gives;
use crate::start::{Bound, Start};
use crate::system::System;
use std::marker::Model;
use std::sync::ledger::{Blank, Book, Ledger, Share};

/// A system whose evaluations are counted, by a number that is not there at run time.
///
/// It has the calls of a system, of which only `eval` raises the number. It is no system itself, so that nobody counts
/// afresh, and it never hands its system out.
#[derive(Drop)]
pub struct Counted<'s, S: System, L: Ledger> {
    system: &'s S,
    book: Book<L>,
    share: Share<L>,
}

impl<'s, S: System, L: Ledger> Model for Counted<'s, S, L> {
    ghost use Rattle.std.specs.Prelude.{◌<◌};
    ghost use Rattle.fp_eqs.specs.Counting.{CountedSystem};

    ghost Value = { CountedSystem S };

    ghost view = { λ c. record { system = c.system.now; evals = c.book.total } };

    ghost invariant = { λ c. 0 < c.share.parts };
}

impl<'s, S: System, L: Ledger> Counted<'s, S, L> {
    /// The system with no evaluation counted yet, in a new ledger.
    pub fn new(system: &'s S, blank: Blank) -> Counted<'s, S, L>
        requires name { blank.name ≡ L.name }
        requires parts { blank.parts ≡ L.parts }
        requires some { 0 < blank.parts }
        ensures system { result.system ≡ system.now }
        ensures evals { result.evals ≡ 0 }
    {
        let (book, share) = blank.open();
        Counted {
            system,
            book,
            share,
        }
    }

    /// How many places there are.
    pub fn places(&self) -> u32
        ensures { result ≡ (S.equations self.now.system).places }
    {
        self.system.places()
    }

    /// How many tasks there are.
    pub fn tasks(&self) -> u32
        ensures { result ≡ (S.equations self.now.system).tasks }
    {
        self.system.tasks()
    }

    /// When a task is started.
    pub fn start(&self, task: u32) -> Start
        requires { task < (S.equations self.now.system).tasks }
        ensures { result ≡ ((S.equations self.now.system).task task).start }
    {
        self.system.start(task)
    }

    /// The bounds of a task.
    pub fn bound(&self, task: u32) -> Bound
        requires { task < (S.equations self.now.system).tasks }
        ensures asks { result.asks ≡ ((S.equations self.now.system).task task).asks }
        ensures gives { result.gives ≡ ((S.equations self.now.system).task task).gives }
    {
        self.system.bound(task)
    }

    /// The value that a place starts with.
    pub fn fixed(&self, place: u32) -> u64
        requires { place < (S.equations self.now.system).places }
        ensures { result ≡ (S.equations self.now.system).fixed place }
    {
        self.system.fixed(place)
    }

    /// Whether a place is shown.
    pub fn shown(&self, place: u32) -> bool
        requires { place < (S.equations self.now.system).places }
        ensures { result ≡ (S.equations self.now.system).shown place }
    {
        self.system.shown(place)
    }

    /// The `k`-th lazy task, in ascending order and counted from 0, that can give to a place, or `None` where there are
    /// not so many.
    pub fn maker(&self, place: u32, k: u32) -> Option<u32>
        requires { place < (S.equations self.now.system).places }
        ensures { IsMakerOf (S.equations self.now.system).task (S.equations self.now.system).tasks place k result }
    {
        self.system.maker(place, k)
    }

    /// Runs a task's transfer function, as the system does, and counts it.
    pub fn eval<A: Ask>(&mut self, task: u32, ask: &mut A, give: &mut Gives)
        requires task { task < (S.equations self.old.system).tasks }
        requires fresh { A.answers ask.old ≡ [] }
        requires serves { Serves (A.allows (A.base ask.old)) ((S.equations self.old.system).task task) }
        requires room { ((S.equations self.old.system).task task).gives ≤ give.old.spare }
        ensures system { self.new.system ≡ self.old.system }
        ensures evals { self.new.evals ≡ self.old.evals + 1 }
        ensures base { A.base ask.new ≡ A.base ask.old }
        ensures evaluated { IsEvaluated ((S.equations self.old.system).task task) (A.answers ask.new) give.old.list give.new.list }
        ensures kept { give.new.spare + length give.new.list ≡ give.old.spare + length give.old.list }
    {
        self.book.add(&mut self.share, 1);
        self.system.eval(task, ask, give)
    }
}
