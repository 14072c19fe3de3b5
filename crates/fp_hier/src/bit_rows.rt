//! Rows of bits.
ghost use Rattle.std.specs.Prelude.{◌≡◌, ℕ, ◌<◌, ◌==◌, false, IfOk};
ghost use Rattle.fp_hier.specs.BitRows.{HoldsRows, Marks, bit_of};

use std::alloc::{AllocError, Global};

/// Rows of as many bits each. A word holds the bits of 64 rows in one column, so that columns are joined fast.
#[derive(Drop)]
pub(crate) struct BitRows {
    columns: usize,
    rows: usize,
    // How many words a column has.
    height: usize,
    words: Vec<u64>,
}

impl BitRows {
    /// So many rows of bits that are all 0.
    pub(crate) fn new(alloc: Global, rows: usize, columns: usize) -> Result<BitRows, AllocError>
        ensures holds { IfOk result HoldsRows }
        ensures rows { IfOk result (λ b. b.rows ≡ rows) }
        ensures columns { IfOk result (λ b. b.columns ≡ columns) }
        ensures unset { IfOk result (λ b. (row column : ℕ) → bit_of b row column ≡ false) }
    {
        let height = rows.div_ceil(64);
        let Some(count) = height.checked_mul(columns) else {
            return Err(AllocError);
        };
        let words = vec![in alloc; 0u64; count]?;
        Ok(BitRows {
            columns,
            rows,
            height,
            words,
        })
    }

    /// Sets a bit.
    pub(crate) fn set(&mut self, row: usize, column: usize)
        requires holds { HoldsRows self.old }
        requires row { row < self.old.rows }
        requires column { column < self.old.columns }
        ensures { Marks column (λ r. r == row) self.old self.new }
    {
        let at = row / 64 * self.columns + column;
        self.words[at] |= 1 << (row % 64);
    }

    /// Whether a bit is set.
    pub(crate) fn has(&self, row: usize, column: usize) -> bool
        requires holds { HoldsRows self.now }
        requires row { row < self.now.rows }
        requires column { column < self.now.columns }
        ensures { result ≡ bit_of self.now row column }
    {
        let word = self.words[row / 64 * self.columns + column];
        (word >> (row % 64)) & 1 == 1
    }

    /// Sets in a column the bits that are set in another one.
    pub(crate) fn join(&mut self, column: usize, from: usize)
        requires holds { HoldsRows self.old }
        requires column { column < self.old.columns }
        requires from { from < self.old.columns }
        ensures { Marks column (λ r. bit_of self.old r from) self.old self.new }
    {
        for index in 0..self.height {
            let first = index * self.columns;
            self.words[first + column] |= self.words[first + from];
        }
    }
}
