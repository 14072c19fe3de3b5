//! Tasks that give 1 to some places.
ghost use Rattle.std.specs.Prelude.{◌≡◌, ◌+◌, ◌<◌, ◌≤◌, ◌^◌, ◌++◌, ℕ, [], length, IsTrue};
ghost use Rattle.fp_model.specs.ClassSet.{is_number};
ghost use Rattle.fp_eqs.specs.Answers.{Agrees, asked};
ghost use Rattle.fp_eqs.specs.Equations.{IsEvaluated, Serves};
ghost use Rattle.fp_rta.specs.Contributions.{ones};
ghost use Rattle.fp_rta.specs.Tasks.{giving_task, is_waiting, start_of};

use fp_eqs::{Ask, Bound, Gives, Start};
use sqlite_items::Items;

/// A task that gives 1 to each of some places.
#[derive(Drop)]
pub struct Giver {
    /// The place that may not be 0 before it gives anything, none where it gives from the first.
    pub trigger: Option<u32>,
    /// The places to which it gives.
    pub places: Items<u32>,
}

impl Giver {
    /// When it starts.
    pub(crate) fn start(&self) -> Start
        ensures { result ≡ start_of self.now.trigger }
    {
        match self.trigger {
            Some(trigger) => Start::Triggered(trigger),
            None => Start::Always,
        }
    }

    /// Its bounds.
    pub(crate) fn bound(&self) -> Bound
        requires { length self.now.places < 2 ^ 32 }
        ensures asks { result.asks ≡ (giving_task self.now.trigger self.now.places).asks }
        ensures gives { result.gives ≡ (giving_task self.now.trigger self.now.places).gives }
    {
        let asks = if self.trigger.is_some() { 1 } else { 0 };
        Bound {
            asks,
            gives: self.places.len() as u32,
        }
    }

    /// Evaluates it.
    pub(crate) fn evaluate<A: Ask>(&self, ask: &mut A, give: &mut Gives)
        requires fresh { A.answers ask.old ≡ [] }
        requires serves { Serves (A.allows (A.base ask.old)) (giving_task self.now.trigger self.now.places) }
        requires room { length self.now.places ≤ give.old.spare }
        ensures base { A.base ask.new ≡ A.base ask.old }
        ensures evaluated { IsEvaluated (giving_task self.now.trigger self.now.places) (A.answers ask.new) give.old.list give.new.list }
        ensures kept { give.new.spare + length give.new.list ≡ give.old.spare + length give.old.list }
    {
        if is_waiting(self.trigger, ask) {
            return;
        }
        give_ones(self.places.as_slice(), give);
    }
}

// Whether a trigger is 0, which is asked where there is one.
fn is_waiting<A: Ask>(trigger: Option<u32>, ask: &mut A) -> bool
    requires fresh { A.answers ask.old ≡ [] }
    requires may { (p : ℕ) → IsTrue (is_number p trigger) → A.allows (A.base ask.old) (A.answers ask.old) p }
    ensures base { A.base ask.new ≡ A.base ask.old }
    ensures asked { (p : ℕ) → asked (A.answers ask.new) p ≡ is_number p trigger }
    ensures waiting { (a : ℕ → ℕ) → Agrees a (A.answers ask.new) → result ≡ is_waiting trigger a }
{
    match trigger {
        Some(trigger) => ask.read(trigger) == 0,
        None => false,
    }
}

// Gives 1 to each of some places.
fn give_ones(places: &[u32], give: &mut Gives)
    requires room { length places.now ≤ give.old.spare }
    ensures list { give.new.list ≡ give.old.list ++ ones places.now }
    ensures kept { give.new.spare + length give.new.list ≡ give.old.spare + length give.old.list }
{
    for place in places {
        give.add(*place, 1);
    }
}
