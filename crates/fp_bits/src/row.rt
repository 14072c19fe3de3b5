ghost use Rattle.std.specs.Prelude.{◌≡◌, ◌≢◌, ◌<◌, ◌≤◌, ◌^◌, ◌↔◌, IsTrue, IfOk, count_ones, false, length, replicate, sum_by};
ghost use Rattle.fp_bits.specs.Rows.{IsRowWithin, joined_rows};

use std::alloc::{AllocError, Global};
use std::marker::Model;

/// A list of words of 64 bits each, the value of one property. A row has fewer than 2^32 words.
#[derive(Drop)]
pub struct Row {
    words: Vec<u64>,
}

impl Model for Row {
    ghost use Rattle.std.specs.Prelude.{ℕ, List, ◌<◌, ◌^◌, length};

    ghost Value = { List ℕ };

    ghost view = { λ r. r.words.items };

    ghost invariant = { λ r. length r.words.items < 2 ^ 32 };
}

impl Row {
    /// A row of so many words, all of them zero.
    pub fn zero(alloc: Global, words: u32) -> Result<Row, AllocError>
        ensures { IfOk result (λ r. r ≡ replicate words 0) }
    {
        let words = vec![in alloc; 0u64; words as usize]?;
        Ok(Row { words })
    }

    /// The row of these words.
    pub fn from_vec(words: Vec<u64>) -> Row
        requires { length words.items < 2 ^ 32 }
        ensures { result ≡ words.items }
    {
        Row { words }
    }

    /// The words of the row, which is given up.
    pub fn into_vec(self) -> Vec<u64>
        ensures { result.items ≡ self }
    {
        let Row { words } = self;
        words
    }

    /// The words of the row.
    pub fn words(&self) -> &[u64]
        ensures words { result.now ≡ self.now }
        ensures few { length result.now < 2 ^ 32 }
    {
        self.words.as_slice()
    }

    /// How many words the row has.
    pub fn len(&self) -> usize
        ensures length { result ≡ length self.now }
        ensures few { result < 2 ^ 32 }
    {
        self.words.len()
    }

    /// Whether the row has no word.
    pub fn is_empty(&self) -> bool
        ensures { IsTrue result ↔ (length self.now ≡ 0) }
    {
        self.words.is_empty()
    }
}

/// Sets the bits of `other` in `into`, and says whether that changed `into`.
pub fn join(into: &mut Row, other: &Row) -> bool
    requires { length into.old ≡ length other.now }
    ensures joined { into.new ≡ joined_rows into.old other.now }
    ensures changed { IsTrue result → into.new ≢ into.old }
    ensures same { result ≡ false → into.new ≡ into.old }
{
    let mut changed = false;
    for (at, more) in other.words.iter().enumerate() {
        let word = into.words[at];
        let joined = word | *more;
        if joined != word {
            changed = true;
        }
        into.words[at] = joined;
    }
    changed
}

/// Whether each bit of `a` is set in `b` too.
pub fn within(a: &Row, b: &Row) -> bool
    requires { length a.now ≡ length b.now }
    ensures { IsTrue result ↔ IsRowWithin a.now b.now }
{
    for (at, word) in a.words.iter().enumerate() {
        let above = b.words[at];
        if *word | above != above {
            return false;
        }
    }
    true
}

/// How many bits of the row are set.
pub fn count(a: &Row) -> u64
    ensures { result ≡ sum_by count_ones a.now }
{
    let mut bits = 0;
    for word in &a.words {
        bits += u64::from(word.count_ones());
    }
    bits
}
