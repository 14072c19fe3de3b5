//! Texts in the order of their bytes.
ghost use Rattle.std.specs.Prelude.{◌≡◌, map, IfOk};
ghost use Rattle.fp_base.specs.Order.{in_text_order};

use std::alloc::AllocError;

/// Puts texts in the order of their bytes.
pub fn sort_texts(mut texts: Vec<Vec<u8>>) -> Result<Vec<Vec<u8>>, AllocError>
    ensures { IfOk result (λ sorted. map (λ t. t.items) sorted.items ≡ in_text_order (map (λ t. t.items) texts.items)) }
{
    texts.sort()?;
    Ok(texts)
}
