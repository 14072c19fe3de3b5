//! What frames know of a word.
ghost use Rattle.std.specs.Prelude.{◌≡◌, ◌≢◌, false, IsTrue, bit_or};
ghost use Rattle.fp_facts.specs.Sorts as words;

use fp_model::Sort;

/// What is known of one word of a frame, by which frames are joined.
pub trait Word: Copy + Drop {
    ghost join: { Self → Self → Self };

    /// What is known of a word of which the one is known or the other.
    fn joined(self, other: Self) -> Self
        ensures { result ≡ join self other };

    /// Whether the same is known of two words.
    fn is(self, other: Self) -> bool
        ensures same { IsTrue result → self ≡ other }
        ensures apart { result ≡ false → self ≢ other };
}

/// A word of two sorts has none.
impl Word for Sort {
    ghost join = { words.join_sorts };

    fn joined(self, other: Sort) -> Sort {
        if same_sort(self, other) {
            self
        } else {
            Sort::Unset
        }
    }

    #[tactic(auto, using(crate::proofs::SameWords::telling))]
    fn is(self, other: Sort) -> bool {
        same_sort(self, other)
    }
}

/// Marks are united.
impl Word for u64 {
    ghost join = { bit_or };

    fn joined(self, other: u64) -> u64 {
        self | other
    }

    fn is(self, other: u64) -> bool {
        self == other
    }
}

/// Whether two sorts are one.
pub fn same_sort(a: Sort, b: Sort) -> bool
    ensures { result ≡ words.same_sort a b }
{
    a == b
}
