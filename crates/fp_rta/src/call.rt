//! The evaluation of calls.
ghost use Rattle.std.specs.Prelude.{◌≡◌, ◌+◌, ◌*◌, ◌/◌, ◌<◌, ◌≤◌, ◌^◌, ◌++◌, ◌||◌, ℕ, List, [], length, IsTrue, if◌then◌else◌};
ghost use Rattle.fp_facts.specs.Hierarchy.{has_number};
ghost use Rattle.fp_eqs.specs.Answers.{Agrees, asked};
ghost use Rattle.fp_eqs.specs.Equations.{IsEvaluated, Serves};
ghost use Rattle.fp_rta.specs.Contributions as given;
ghost use Rattle.fp_rta.specs.Meaning.{IsLater};
ghost use Rattle.fp_rta.specs.Tasks.{call_task};

use crate::candidate::Candidate;
use fp_eqs::{Ask, Gives};

/// Evaluates a call by its candidates, whose first bit stands in the place `callees`.
pub(crate) fn evaluate<A: Ask>(
    trigger: u32,
    callees: u32,
    candidates: &[Candidate],
    ask: &mut A,
    give: &mut Gives,
)
    requires fresh { A.answers ask.old ≡ [] }
    requires serves { Serves (A.allows (A.base ask.old)) (call_task trigger callees candidates.now) }
    requires room { 2 * length candidates.now ≤ give.old.spare }
    requires places { callees + length candidates.now / 64 < 2 ^ 32 }
    ensures base { A.base ask.new ≡ A.base ask.old }
    ensures evaluated { IsEvaluated (call_task trigger callees candidates.now) (A.answers ask.new) give.old.list give.new.list }
    ensures kept { give.new.spare + length give.new.list ≡ give.old.spare + length give.old.list }
{
    let reached = ask.read(trigger);
    if reached == 0 {
        return;
    }
    give_candidates(callees, candidates, ask, give);
}

// Gives the bits of the candidates that are set, and that their targets are reached.
fn give_candidates<A: Ask>(callees: u32, candidates: &[Candidate], ask: &mut A, give: &mut Gives)
    requires may { (es : List (ℕ × ℕ)) (p : ℕ) → IsLater (A.answers ask.old) es → IsTrue (has_number (given.sources_of candidates.now) p) → A.allows (A.base ask.old) es p }
    requires room { 2 * length candidates.now ≤ give.old.spare }
    requires places { callees + length candidates.now / 64 < 2 ^ 32 }
    ensures base { A.base ask.new ≡ A.base ask.old }
    ensures later { IsLater (A.answers ask.old) (A.answers ask.new) }
    ensures asked { (p : ℕ) → asked (A.answers ask.new) p ≡ (asked (A.answers ask.old) p || has_number (given.sources_of candidates.now) p) }
    ensures given { (a : ℕ → ℕ) → Agrees a (A.answers ask.new) → give.new.list ≡ give.old.list ++ given.pairs_from (given.is_on a) callees 0 candidates.now }
    ensures kept { give.new.spare + length give.new.list ≡ give.old.spare + length give.old.list }
{
    for bit in 0..candidates.len() {
        let candidate = &candidates[bit];
        let on = is_on(candidate, ask);
        give_bit(on, callees, bit, candidate.target, give);
    }
}

// Whether a bit is set. The places of its classes are asked in either case.
fn is_on<A: Ask>(candidate: &Candidate, ask: &mut A) -> bool
    requires may { (es : List (ℕ × ℕ)) (p : ℕ) → IsLater (A.answers ask.old) es → IsTrue (has_number candidate.now.sources p) → A.allows (A.base ask.old) es p }
    ensures base { A.base ask.new ≡ A.base ask.old }
    ensures later { IsLater (A.answers ask.old) (A.answers ask.new) }
    ensures asked { (p : ℕ) → asked (A.answers ask.new) p ≡ (asked (A.answers ask.old) p || has_number candidate.now.sources p) }
    ensures on { (a : ℕ → ℕ) → Agrees a (A.answers ask.new) → result ≡ given.is_on a candidate.now }
{
    let any = any_set(candidate.sources.as_slice(), ask);
    candidate.always || any
}

// Whether one of some places isn't 0. Each is asked.
fn any_set<A: Ask>(places: &[u32], ask: &mut A) -> bool
    requires may { (es : List (ℕ × ℕ)) (p : ℕ) → IsLater (A.answers ask.old) es → IsTrue (has_number places.now p) → A.allows (A.base ask.old) es p }
    ensures base { A.base ask.new ≡ A.base ask.old }
    ensures later { IsLater (A.answers ask.old) (A.answers ask.new) }
    ensures asked { (p : ℕ) → asked (A.answers ask.new) p ≡ (asked (A.answers ask.old) p || has_number places.now p) }
    ensures set { (a : ℕ → ℕ) → Agrees a (A.answers ask.new) → result ≡ given.any_set a places.now }
{
    let mut any = false;
    for place in places {
        let value = ask.read(*place);
        any |= value != 0;
    }
    any
}

// Gives a bit that is set, and that its target is reached.
fn give_bit(on: bool, callees: u32, bit: usize, target: Option<u32>, give: &mut Gives)
    requires room { 2 ≤ give.old.spare }
    requires places { callees + bit / 64 < 2 ^ 32 }
    ensures list { give.new.list ≡ give.old.list ++ (if on then given.bit_pairs callees bit target else []) }
    ensures room { give.old.spare ≤ give.new.spare + 2 }
    ensures kept { give.new.spare + length give.new.list ≡ give.old.spare + length give.old.list }
{
    if !on {
        return;
    }
    give.add(callees + (bit / 64) as u32, 1 << (bit % 64));
    if let Some(target) = target {
        give.add(target, 1);
    }
}
