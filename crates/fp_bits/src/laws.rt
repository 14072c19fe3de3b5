ghost use Rattle.std.specs.Prelude.{bit_or};
ghost use Rattle.fp_bits.specs.Words.{IsJoin, IsOrder};
ghost use Rattle.fp_bits.specs.Rows.{IsRowJoin, IsRowOrder, joined_rows};

/// Inclusion of words is a partial order, and bitwise or is its least upper bound.
pub fn law_join()
    ensures order { IsOrder }
    ensures join { IsJoin bit_or }
{}

/// Inclusion of rows is a partial order, word by word, and the join of rows is its least upper bound.
pub fn law_join_rows()
    ensures order { IsRowOrder }
    ensures join { IsRowJoin joined_rows }
{}
