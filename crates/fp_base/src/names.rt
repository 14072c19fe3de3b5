//! The table of names: each byte string that the analyser speaks of has one number.
ghost use Rattle.std.specs.Prelude.{◌≡◌, ◌≤◌, ◌↔◌, [], ◌∷◌, ◌++◌, length, true, false, is_some, slice_get, option_copied, IsTrue, IsOk, IfOk, IfSome, OnOk, OnErr, IsErrOf};
ghost use Rattle.fp_base.specs.Names.{has_name, with_name, texts_of, AreDistinct};

use indexmap::IndexSet;
use std::alloc::{AllocError, Global};
use std::marker::Model;

/// The most names that a table holds.
pub const MAX_NAMES: u32 = 16_777_216;

/// Why a table took no new name.
#[derive(Clone, Copy, Debug, PartialEq, Eq, Hash)]
pub enum NameFault {
    /// The table holds as many names as it may.
    Full,
    /// There was no memory for another name.
    Memory,
}

/// The names of a program, numbered from 0 in the order in which they were first met.
///
/// A name is any byte string. It keeps its number for as long as the table lives, and no two numbers have one name.
#[derive(Drop)]
pub struct Names {
    set: IndexSet<Vec<u8>>,
}

impl Model for Names {
    ghost use Rattle.std.specs.Prelude.{List, ℕ};
    ghost use Rattle.fp_base.specs.Names.{texts_of, IsNameTable};

    ghost Value = { List (List ℕ) };

    ghost view = { λ n. texts_of n.set };

    ghost invariant = { λ n. IsNameTable (texts_of n.set) };
}

impl Names {
    /// A table with no name, which takes no memory.
    pub fn new(alloc: Global) -> Self
        ensures { result ≡ [] }
    {
        Names {
            set: IndexSet::new(alloc),
        }
    }

    /// How many names there are. Their numbers are those below it.
    pub fn len(&self) -> u32
        ensures len { result ≡ length self.now }
        ensures distinct { AreDistinct self.now }
        ensures within_limit { length self.now ≤ MAX_NAMES }
    {
        self.set.len() as u32
    }

    /// Whether there is no name.
    pub fn is_empty(&self) -> bool
        ensures empty { IsTrue result ↔ (self.now ≡ []) }
        ensures distinct { AreDistinct self.now }
        ensures within_limit { length self.now ≤ MAX_NAMES }
    {
        self.set.is_empty()
    }

    /// The number of `text`, if it has one. Takes no memory.
    pub fn find(&self, text: &[u8]) -> Option<u32>
        ensures found { is_some result ≡ has_name self.now text.now }
        ensures number { IfSome result (λ id. slice_get self.now id ≡ Some text.now) }
        ensures distinct { AreDistinct self.now }
        ensures within_limit { length self.now ≤ MAX_NAMES }
    {
        let index = self.set.get_index_of(text)?;
        Some(index as u32)
    }

    /// The name with the number `id`, if the number was given. Takes no memory.
    pub fn text(&self, id: u32) -> Option<&[u8]>
        ensures text { option_copied result ≡ slice_get self.now id }
        ensures distinct { AreDistinct self.now }
        ensures within_limit { length self.now ≤ MAX_NAMES }
    {
        let name = self.set.get_index(id as usize)?;
        Some(name.as_slice())
    }

    /// The number of `text`, which is the next one if it had none.
    ///
    /// A fault leaves the table as it was, and comes for a new text alone.
    #[tactic(auto, using(crate::proofs::NameLemmas::interning))]
    pub fn intern(&mut self, alloc: Global, text: &[u8]) -> Result<u32, NameFault>
        ensures names { IfOk result (λ id. self.new ≡ with_name self.old text.now) }
        ensures number { IfOk result (λ id. slice_get self.new id ≡ Some text.now) }

        ensures known { has_name self.old text.now ≡ true → IsOk result }
        ensures full { IsErrOf result NameFault.Full
            ↔ (has_name self.old text.now ≡ false) × (length self.old ≡ MAX_NAMES) }
        ensures err { OnErr result (self.new ≡ self.old) }

        ensures distinct { AreDistinct self.new }
        ensures within_limit { length self.new ≤ MAX_NAMES }
    {
        if let Some(id) = self.find(text) {
            return Ok(id);
        }
        let next = self.len();
        if next == MAX_NAMES {
            return Err(NameFault::Full);
        }
        if add_new(&mut self.set, alloc, text).is_err() {
            return Err(NameFault::Memory);
        }
        Ok(next)
    }
}

// Adds a name that the set lacks, or leaves the set as it was.
fn add_new(set: &mut IndexSet<Vec<u8>>, alloc: Global, text: &[u8]) -> Result<(), AllocError>
    requires { has_name (texts_of set.old) text.now ≡ false }
    ensures ok { OnOk result (texts_of set.new ≡ texts_of set.old ++ text.now ∷ []) }
    ensures err { OnErr result (texts_of set.new ≡ texts_of set.old) }
{
    let copy = Vec::from_slice(alloc, text)?;
    set.insert(copy)?;
    Ok(())
}
