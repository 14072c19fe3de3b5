//! The evaluation of a task at values: what it asks, and what it contributes.
ghost use Rattle.std.specs.Prelude.{◌≡◌, ◌+◌, ◌-◌, ◌<◌, ◌≤◌, ℕ, false, [], IsTrue, IfOk, OnOk, OnErr, length, slice_index, vec_capacity};
ghost use Rattle.fp_eqs.specs.Answers.{Agrees, IsGiven, asked, distinct};
ghost use Rattle.fp_eqs.specs.Equations.{IsForced};
ghost use Rattle.fp_eqs.specs.Solved.{flag_at};
ghost use Rattle.fp_solo.specs.Asked.{AreQuestions, Asking};

use crate::due::unset;
use fp_eqs::{Ask, Bound, Counted, Gives, Naming, System};
use std::alloc::{AllocError, Global};
use std::marker::{Brand, PhantomData};
use std::mem;
use std::sync::ledger::Ledger;

/// The questions of an evaluation.
#[derive(Drop)]
pub struct Questions {
    /// Whether each place was asked.
    pub seen: Vec<bool>,
    /// The places that were asked, each once, with their values.
    pub answers: Vec<(u32, u64)>,
}

impl Questions {
    /// Forgets all questions.
    fn forget(&mut self)
        requires { AreQuestions (length self.old.seen.items) self.old }
        ensures questions { (n : ℕ) → AreQuestions n self.old → AreQuestions n self.new }
        ensures none { self.new.answers.items ≡ [] }
    {
        while let Some((place, _value)) = self.answers.pop() {
            self.seen[place as usize] = false;
        }
    }
}

/// What an evaluation asked and contributed, in lists that serve one evaluation after the other.
#[derive(Drop)]
pub struct Page {
    /// What it asked.
    pub questions: Questions,
    /// What it contributed.
    pub given: Gives,
}

impl Page {
    /// A page for so many places, on which nothing stands.
    pub fn new(alloc: Global, places: u32) -> Result<Page, AllocError>
        ensures questions { IfOk result (λ page. AreQuestions places page.questions) }
    {
        Ok(Page {
            questions: Questions {
                seen: unset(alloc, places)?,
                answers: Vec::new(alloc),
            },
            given: Gives::new(alloc),
        })
    }

    /// Empties the page, and makes room for what a task with these bounds may ask and contribute.
    pub fn prepare(&mut self, bound: Bound) -> Result<(), AllocError>
        requires { AreQuestions (length self.old.questions.seen.items) self.old.questions }
        ensures questions { OnOk result ((n : ℕ) → AreQuestions n self.old.questions → AreQuestions n self.new.questions) }
        ensures fresh { OnOk result (self.new.questions.answers.items ≡ []) }
        ensures none { OnOk result (self.new.given.list ≡ []) }
        ensures asks { OnOk result (bound.asks ≤ vec_capacity self.new.questions.answers) }
        ensures gives { OnOk result (bound.gives ≤ self.new.given.spare) }
    {
        self.questions.forget();
        self.given.clear();
        self.questions.answers.reserve(bound.asks as usize)?;
        self.given.reserve(bound.gives)?;
        Ok(())
    }
}

/// An asker over values, which looks at each place once for a question and has room for all answers.
#[derive(Drop)]
struct Asker<'a, N: Naming> {
    system: PhantomData<N>,
    task: u32,
    values: &'a [u64],
    questions: Questions,
    ghost task_in: { task < N.equations.tasks },
    ghost long: { length values.now ≡ N.equations.places },
    ghost seen: { AreQuestions N.equations.places questions },
    ghost same: { Agrees (slice_index values.now) questions.answers.items },
    ghost used: { (p : ℕ) → IsTrue (asked questions.answers.items p) → IsTrue ((N.equations.task task).uses (slice_index values.now) p) },
    ghost once: { IsTrue (distinct questions.answers.items) },
    ghost room: { (N.equations.task task).asks ≤ vec_capacity questions.answers },
}

impl<N: Naming> Ask for Asker<'_, N> {
    ghost Base = { Asking };

    ghost base = { λ r. record { task = r.task; values = r.values.now } };

    ghost allows = { λ b es p. IsForced (N.equations.task b.task).uses es p };

    ghost answers = { λ r. r.questions.answers.items };

    fn read(&mut self, place: u32) -> u64 {
        let value = self.values[place as usize];
        if self.questions.seen[place as usize] {
            return value;
        }
        self.questions.seen[place as usize] = true;
        self.questions.answers.push_reserved((place, value));
        value
    }
}

/// Evaluates a task of the system that the type names, and adds its questions to none.
fn run<S: System, L: Ledger, N: Naming>(
    system: &mut Counted<'_, S, L>,
    values: &[u64],
    task: u32,
    questions: Questions,
    given: &mut Gives,
) -> Questions
    requires named { S.equations system.old.system ≡ N.equations }
    requires task { task < N.equations.tasks }
    requires long { length values.now ≡ N.equations.places }
    requires questions { AreQuestions N.equations.places questions }
    requires fresh { questions.answers.items ≡ [] }
    requires none { given.old.list ≡ [] }
    requires asks { (N.equations.task task).asks ≤ vec_capacity questions.answers }
    requires gives { (N.equations.task task).gives ≤ given.old.spare }
    ensures system { system.new.system ≡ system.old.system }
    ensures evals { system.new.evals ≡ system.old.evals + 1 }
    ensures questions { AreQuestions N.equations.places result }
    ensures once { IsTrue (distinct result.answers.items) }
    ensures asks { (p : ℕ) → asked result.answers.items p ≡ (N.equations.task task).uses (slice_index values.now) p }
    ensures gives { let k = N.equations.task task in IsGiven [] given.new.list k.gives k.makes (k.out (slice_index values.now)) }
{
    let mut ask = Asker::<N> {
        system: PhantomData,
        task,
        values,
        questions,
    };
    system.eval(task, &mut ask, given);
    let Asker {
        system: _,
        task: _,
        values: _,
        questions,
    } = ask;
    questions
}

/// Evaluates a task at values, onto a page that was prepared for it.
pub fn evaluate<S: System, L: Ledger>(
    alloc: Global,
    system: &mut Counted<'_, S, L>,
    values: &[u64],
    task: u32,
    page: &mut Page,
)
    requires task { task < (S.equations system.old.system).tasks }
    requires long { length values.now ≡ (S.equations system.old.system).places }
    requires questions { AreQuestions (S.equations system.old.system).places page.old.questions }
    requires fresh { page.old.questions.answers.items ≡ [] }
    requires none { page.old.given.list ≡ [] }
    requires asks { ((S.equations system.old.system).task task).asks ≤ vec_capacity page.old.questions.answers }
    requires gives { ((S.equations system.old.system).task task).gives ≤ page.old.given.spare }
    ensures system { system.new.system ≡ system.old.system }
    ensures evals { system.new.evals ≡ system.old.evals + 1 }
    ensures questions { AreQuestions (S.equations system.old.system).places page.new.questions }
    ensures once { IsTrue (distinct page.new.questions.answers.items) }
    ensures asks { let k = (S.equations system.old.system).task task in
        (p : ℕ) → asked page.new.questions.answers.items p ≡ k.uses (slice_index values.now) p }
    ensures gives { let k = (S.equations system.old.system).task task in
        IsGiven [] page.new.given.list k.gives k.makes (k.out (slice_index values.now)) }
{
    let none = Questions {
        seen: Vec::new(alloc),
        answers: Vec::new(alloc),
    };
    let questions = mem::replace(&mut page.questions, none);
    page.questions = run::<S, L, Brand>(system, values, task, questions, &mut page.given);
}
