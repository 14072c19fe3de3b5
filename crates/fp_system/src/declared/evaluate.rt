ghost use Rattle.std.specs.Prelude.{◌≡◌, ◌+◌, ◌<◌, ◌≤◌, [], length, bit_and, if◌then◌else◌};
ghost use Rattle.fp_eqs.specs.Equations.{IsEvaluated, Serves};
ghost use Rattle.fp_system.specs.ClassEquations.{declared_task};

use crate::declared::ClassTask;
use fp_eqs::{Ask, Bound, Gives};

/// The bounds of the equation of a class: it asks for the superclass's bit, where that is in the set, and gives its own.
pub fn bound_of(row: ClassTask) -> Bound
    ensures asks { result.asks ≡ (declared_task row).asks }
    ensures gives { result.gives ≡ (declared_task row).gives }
{
    let asks = if row.parent.is_some() { 1 } else { 0 };
    Bound { asks, gives: 1 }
}

/// Evaluates the equation of a class: it is open by itself, or where its superclass is.
pub fn evaluate<A: Ask>(row: ClassTask, ask: &mut A, give: &mut Gives)
    requires fresh { A.answers ask.old ≡ [] }
    requires serves { Serves (A.allows (A.base ask.old)) (declared_task row) }
    requires room { 1 ≤ give.old.spare }
    ensures base { A.base ask.new ≡ A.base ask.old }
    ensures evaluated { IsEvaluated (declared_task row) (A.answers ask.new) give.old.list give.new.list }
    ensures kept { give.new.spare + length give.new.list ≡ give.old.spare + length give.old.list }
{
    match row.parent {
        Some(parent) => {
            let word = ask.read(parent);
            give.add(row.place, word_of(row.is_open, word));
        }
        None => give.add(row.place, u64::from(row.is_open)),
    }
}

// What a class gives to its place, by whether it is open by itself and the word of its superclass.
fn word_of(is_open: bool, parent: u64) -> u64
    ensures { result ≡ (if is_open then 1 else bit_and parent 1) }
{
    if is_open { 1 } else { parent & 1 }
}
