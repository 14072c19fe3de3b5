ghost use Rattle.std.specs.Prelude.{◌≡◌, ◌+◌, ℕ, List, IsTrue, Ok};
ghost use Rattle.fp_model.specs.declared.raw.pool.Pool.{Pool};
ghost use Rattle.fp_model.specs.Pool.{pool_at};
ghost use Rattle.fp_model.specs.Reading.{Takes};
ghost use Rattle.fp_model.specs.References.{checked_pool_at, entries_checked};
ghost use Rattle.fp_model.specs.Spelling.{spelled_pool};
ghost use Rattle.fp_pool.specs.Form.{has_form};

/// A law: each constant pool that has the form is cut out of its spelling, wherever it stands, and is read there if its
/// entries refer to what they have to.
pub fn law_spelled_pool()
    ensures cut { (bytes : List ℕ) (at : ℕ) (pool : Pool) (next : ℕ)
        → IsTrue (has_form pool) → Takes bytes at (spelled_pool pool) next → pool_at bytes at ≡ Ok (pool, next) }
    ensures read { (bytes : List ℕ) (at : ℕ) (pool : Pool) (next : ℕ)
        → IsTrue (has_form pool) → entries_checked pool.entries (at + 2) pool.entries ≡ Ok tt
        → Takes bytes at (spelled_pool pool) next → checked_pool_at bytes at ≡ Ok (pool, next) }
{}
