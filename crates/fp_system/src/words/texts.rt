//! Tables of the texts of words.
ghost use Rattle.std.specs.Prelude.{◌≡◌, ◌≤◌, List, ℕ, length, true, IfOk, OnOk};
ghost use Rattle.fp_base.specs.Files.{texts};
ghost use Rattle.fp_base.specs.Names.{has_name, with_name};
ghost use Rattle.fp_system.specs.Java.{has_text};
ghost use Rattle.fp_system.specs.Texts.{AreWithin, first_parts, part_before};

use fp_base::Names;
use std::alloc::{AllocError, Global};

/// Texts to look up, and how long the longest is.
#[derive(Drop)]
pub struct Wanted {
    /// The texts.
    pub texts: Names,
    /// None of them is longer.
    pub longest: usize,
    pub ghost short: { AreWithin longest texts },
}

impl Wanted {
    ghost use Rattle.std.specs.Prelude.{◌≡◌, List, ℕ, IfOk};
    ghost use Rattle.fp_base.specs.Files.{texts};
    ghost use Rattle.fp_base.specs.Names.{has_name};
    ghost use Rattle.fp_system.specs.Java.{has_text};

    /// The texts of words, to look them up.
    pub fn index(alloc: Global, words: &[String]) -> Result<Wanted, AllocError>
        ensures { IfOk result (λ w. (text : List ℕ) → has_name w.texts text ≡ has_text (texts words.now) text) }
    {
        let texts = index_texts(alloc, words)?;
        let longest = longest_text(words);
        Ok(Wanted { texts, longest })
    }
}

// How long the longest of the texts is.
fn longest_text(words: &[String]) -> usize
    ensures { (text : List ℕ) → has_text (texts words.now) text ≡ true → length text ≤ result }
{
    let mut longest = 0;
    for word in words {
        longest = word.as_bytes().len().max(longest);
    }
    longest
}

/// The texts of words, to look them up.
pub fn index_texts(alloc: Global, words: &[String]) -> Result<Names, AllocError>
    ensures { IfOk result (λ names. (text : List ℕ) → has_name names text ≡ has_text (texts words.now) text) }
{
    let mut names = Names::new(alloc);
    for word in words {
        add_text(alloc, word.as_bytes(), &mut names)?;
    }
    Ok(names)
}

/// What stands before the first `=` of each word, to look it up.
pub fn index_first_parts(alloc: Global, words: &[String]) -> Result<Names, AllocError>
    ensures { IfOk result (λ names. (text : List ℕ) → has_name names text ≡ has_text (first_parts (texts words.now)) text) }
{
    let mut names = Names::new(alloc);
    for word in words {
        add_text(alloc, first_part(word.as_bytes()), &mut names)?;
    }
    Ok(names)
}

// What stands before the first `=`, or all of the text.
fn first_part(text: &[u8]) -> &[u8]
    ensures { result.now ≡ part_before text.now }
{
    for (at, byte) in text.iter().enumerate() {
        if *byte == b'=' {
            return &text[..at];
        }
    }
    text
}

/// Adds a text. A table that is full is taken for want of memory.
pub fn add_text(alloc: Global, text: &[u8], names: &mut Names) -> Result<(), AllocError>
    ensures { OnOk result (names.new ≡ with_name names.old text.now) }
{
    match names.intern(alloc, text) {
        Ok(_) => Ok(()),
        Err(_) => Err(AllocError),
    }
}
