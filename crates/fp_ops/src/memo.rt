//! What is known of the texts of a constant pool, so that each is named and read once.
ghost use Rattle.std.specs.Prelude.{◌≡◌, ◌<◌, ℕ, List, None, Some, length, option_copied, replicate, set, IfOk};
ghost use Rattle.fp_ops.specs.Memos.{known_at, IsMemo};

use fp_model::{Descr, Entry, Kind, Shared};
use std::alloc::{AllocError, Global};

/// The numbers of texts, and what descriptors say, by the indexes of the constant pool, as far as they are known. What a
/// method descriptor says is shared by all instructions and methods that have it.
#[derive(Drop)]
pub struct Memo {
    pub numbers: Vec<Option<u32>>,
    pub kinds: Vec<Option<Kind>>,
    /// What the names of array classes say of the elements.
    pub elements: Vec<Option<Kind>>,
    pub descrs: Vec<Option<Shared<Descr>>>,
}

/// A memo in which nothing is known.
pub fn empty_memo(alloc: Global, entries: &[Entry]) -> Result<Memo, AllocError>
    ensures { IfOk result (λ memo. (names : List (List ℕ)) → IsMemo names entries.now memo) }
{
    let numbers = vec![in alloc; None; entries.len()]?;
    let kinds = vec![in alloc; None; entries.len()]?;
    let elements = vec![in alloc; None; entries.len()]?;
    let descrs = unknown(alloc, entries.len())?;
    Ok(Memo {
        numbers,
        kinds,
        elements,
        descrs,
    })
}

/// A list of so many places in which nothing is known.
pub fn unknown<T: Drop>(alloc: Global, size: usize) -> Result<Vec<Option<T>>, AllocError>
    ensures { IfOk result (λ known. known.items ≡ replicate size None) }
{
    let mut known = Vec::with_capacity(alloc, size)?;
    for _ in 0..size {
        known.push(None)?;
    }
    Ok(known)
}

/// The number of the text at an index, if it is known.
pub fn known_number(memo: &Memo, index: u16) -> Option<u32>
    ensures { result ≡ known_at memo.now.numbers.items index }
{
    memo.numbers.get(index as usize).copied().flatten()
}

/// The kind that the descriptor at an index says, if it is known.
pub fn known_kind(memo: &Memo, index: u16) -> Option<Kind>
    ensures { result ≡ known_at memo.now.kinds.items index }
{
    memo.kinds.get(index as usize).copied().flatten()
}

/// The kind that the name of an array class at an index says of the elements, if it is known.
pub fn known_element(memo: &Memo, index: u16) -> Option<Kind>
    ensures { result ≡ known_at memo.now.elements.items index }
{
    memo.elements.get(index as usize).copied().flatten()
}

/// What the method descriptor at an index says, if it is known.
pub fn known_descr(memo: &Memo, index: u16) -> Option<&Shared<Descr>>
    ensures { option_copied result ≡ known_at memo.now.descrs.items index }
{
    match memo.descrs.get(index as usize) {
        Some(Some(descr)) => Some(descr),
        _ => None,
    }
}

/// Keeps the number of the text at an index.
pub fn keep_number(memo: &mut Memo, index: u16, number: u32)
    requires { index < length memo.old.numbers.items }
    ensures numbers { memo.new.numbers.items ≡ set memo.old.numbers.items index (Some number) }
    ensures kinds { memo.new.kinds.items ≡ memo.old.kinds.items }
    ensures elements { memo.new.elements.items ≡ memo.old.elements.items }
    ensures descrs { memo.new.descrs.items ≡ memo.old.descrs.items }
{
    memo.numbers[index as usize] = Some(number);
}

/// Keeps the kind that the descriptor at an index says.
pub fn keep_kind(memo: &mut Memo, index: u16, kind: Kind)
    requires { index < length memo.old.kinds.items }
    ensures kinds { memo.new.kinds.items ≡ set memo.old.kinds.items index (Some kind) }
    ensures numbers { memo.new.numbers.items ≡ memo.old.numbers.items }
    ensures elements { memo.new.elements.items ≡ memo.old.elements.items }
    ensures descrs { memo.new.descrs.items ≡ memo.old.descrs.items }
{
    memo.kinds[index as usize] = Some(kind);
}

/// Keeps the kind that the name of an array class at an index says of the elements.
pub fn keep_element(memo: &mut Memo, index: u16, kind: Kind)
    requires { index < length memo.old.elements.items }
    ensures elements { memo.new.elements.items ≡ set memo.old.elements.items index (Some kind) }
    ensures numbers { memo.new.numbers.items ≡ memo.old.numbers.items }
    ensures kinds { memo.new.kinds.items ≡ memo.old.kinds.items }
    ensures descrs { memo.new.descrs.items ≡ memo.old.descrs.items }
{
    memo.elements[index as usize] = Some(kind);
}

/// Keeps what the method descriptor at an index says.
pub fn keep_descr(memo: &mut Memo, index: u16, descr: Shared<Descr>)
    requires { index < length memo.old.descrs.items }
    ensures descrs { memo.new.descrs.items ≡ set memo.old.descrs.items index (Some descr) }
    ensures numbers { memo.new.numbers.items ≡ memo.old.numbers.items }
    ensures kinds { memo.new.kinds.items ≡ memo.old.kinds.items }
    ensures elements { memo.new.elements.items ≡ memo.old.elements.items }
{
    memo.descrs[index as usize] = Some(descr);
}
