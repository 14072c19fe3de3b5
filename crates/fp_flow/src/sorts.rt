//! The words that values take in a frame (JVMS SE 21 sections 2.6.1 and 2.6.2).
ghost use Rattle.std.specs.Prelude.{◌≡◌, ◌++◌, [], length, IfOk, OnOk};
ghost use Rattle.fp_facts.specs.Sorts as words;

use fp_model::flags::is_static;
use fp_model::{Kind, Method, Sort};
use std::alloc::{AllocError, Global};

/// The sort of the first word of a value of a type.
pub fn sort_of(kind: Kind) -> Sort
    ensures { result ≡ words.sort_of kind }
{
    match kind {
        Kind::Int(_) => Sort::Int,
        Kind::Long => Sort::Long,
        Kind::Float => Sort::Float,
        Kind::Double => Sort::Double,
        Kind::Class(_) | Kind::Array(_, _) => Sort::Ref,
    }
}

/// Whether a value takes two words.
pub fn is_wide(sort: Sort) -> bool
    ensures { result ≡ words.is_wide sort }
{
    matches!(sort, Sort::Long | Sort::Double)
}

/// How many words a value takes.
pub fn width(sort: Sort) -> usize
    ensures { result ≡ length (words.words_of sort) }
{
    if is_wide(sort) { 2 } else { 1 }
}

/// The words of a value, the first lowest.
pub fn words_of(alloc: Global, sort: Sort) -> Result<Vec<Sort>, AllocError>
    ensures { IfOk result (λ v. v.items ≡ words.words_of sort) }
{
    if is_wide(sort) {
        Vec::from_slice(alloc, &[sort, Sort::Half])
    } else {
        Vec::from_slice(alloc, &[sort])
    }
}

/// Puts the words of a value behind others.
pub fn push_words(to: &mut Vec<Sort>, sort: Sort) -> Result<(), AllocError>
    ensures { OnOk result (to.new.items ≡ to.old.items ++ words.words_of sort) }
{
    if is_wide(sort) {
        to.extend_from_slice(&[sort, Sort::Half])
    } else {
        to.extend_from_slice(&[sort])
    }
}

/// Puts the words of values of these types behind others.
pub fn push_kinds(to: &mut Vec<Sort>, kinds: &[Kind]) -> Result<(), AllocError>
    ensures { OnOk result (to.new.items ≡ to.old.items ++ words.words_of_kinds kinds.now) }
{
    for kind in kinds {
        push_words(to, sort_of(*kind))?;
    }
    Ok(())
}

/// The words of a result, none for `void`.
pub fn result_words(alloc: Global, returned: Option<Kind>) -> Result<Vec<Sort>, AllocError>
    ensures { IfOk result (λ v. v.items ≡ words.result_words returned) }
{
    match returned {
        Some(kind) => words_of(alloc, sort_of(kind)),
        None => Ok(Vec::new(alloc)),
    }
}

/// The words of a method's arguments, the receiver of an instance method first.
pub fn argument_words(alloc: Global, method: &Method) -> Result<Vec<Sort>, AllocError>
    ensures { IfOk result (λ v. v.items ≡ words.argument_words method.now) }
{
    let mut arguments = Vec::new(alloc);
    if !is_static(method.flags) {
        arguments.push(Sort::Ref)?;
    }
    push_kinds(&mut arguments, method.kinds.args.as_slice())?;
    Ok(arguments)
}
