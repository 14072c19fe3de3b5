//! A list in one word: items with commas between them.
ghost use Rattle.std.specs.Prelude.{◌≡◌, length, map, is_some, IfOk, Some};
ghost use Rattle.std.specs.List.{list_any};
ghost use Rattle.fp_base.specs.Files.{texts};
ghost use Rattle.fp_words.specs.Lists as spec;
ghost use Rattle.fp_words.specs.Lists.{is_empty, distinct_items, items_between};

use indexmap::IndexSet;
use sqlite_items::Items;
use std::alloc::{AllocError, Global};

/// Whether a word is a list: none of its items is empty. Takes no memory.
pub fn is_list(word: &str) -> bool
    ensures { result ≡ is_some (spec.list_items word.now) }
{
    !word.split(',').any(|item| item.is_empty())
}

/// The items of a list, each once, in the order of the word.
pub fn list_items(alloc: Global, word: &str) -> Result<Items<String>, AllocError>
    ensures { IfOk result (λ items. texts items ≡ distinct_items (items_between word.now)) }
{
    let items = cut(alloc, word)?;
    let distinct = distinct(alloc, items.as_slice())?;
    copies(alloc, distinct.as_slice())
}

// The parts of a word between its commas.
fn cut(alloc: Global, word: &str) -> Result<Vec<&str>, AllocError>
    ensures { IfOk result (λ items. map (λ item. item.now) items.items ≡ items_between word.now) }
{
    word.split(',').collect(alloc)
}

// Each item once, where it stands first.
fn distinct<'a>(alloc: Global, items: &[&'a str]) -> Result<IndexSet<&'a str>, AllocError>
    ensures { IfOk result (λ set. map (λ item. item.now) set.keys ≡ distinct_items (map (λ item. item.now) items.now)) }
{
    let mut distinct = IndexSet::new(alloc);
    for item in items {
        distinct.insert(*item)?;
    }
    Ok(distinct)
}

/// The texts, copied.
pub fn copies(alloc: Global, items: &[&str]) -> Result<Items<String>, AllocError>
    ensures { IfOk result (λ copies. texts copies ≡ map (λ item. item.now) items.now) }
{
    let mut copies = Vec::new(alloc);
    for item in items {
        copies.push(String::from_str(alloc, item)?)?;
    }
    Ok(Items::from_vec(copies))
}
