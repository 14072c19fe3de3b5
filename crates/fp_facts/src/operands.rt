ghost use Rattle.std.specs.Prelude.{◌≡◌, ◌++◌, IfOk};
ghost use Rattle.fp_facts.specs.Sorts.{words_of_kinds};

use fp_model::{Descr, Kind, Shared, Sort};
use sqlite_items::Items;
use std::alloc::AllocError;
use std::marker::Model;

/// The words that an instruction pops, the lowest first. Those of a call's arguments are told by its descriptor, which is shared:
/// a class file can have thousands of calls of one method with thousands of parameters.
#[derive(Drop)]
pub struct Operands {
    listed: Items<Sort>,
    /// What tells the words above the listed ones.
    arguments: Option<Shared<Descr>>,
}

impl Model for Operands {
    ghost use Rattle.std.specs.Prelude.{◌++◌, List, []};
    ghost use Rattle.std.specs.Option.{option_map_or};
    ghost use Rattle.fp_model.specs.declared.kind.Sort.{Sort};
    ghost use Rattle.fp_facts.specs.Sorts.{words_of_kinds};

    ghost Value = { List Sort };

    ghost view = { λ o. o.listed ++ option_map_or (λ d. words_of_kinds d.args) o.arguments [] };
}

impl Operands {
    /// These words.
    pub fn of_words(words: Vec<Sort>) -> Operands
        ensures { result ≡ words.items }
    {
        Operands {
            listed: Items::from_vec(words),
            arguments: None,
        }
    }

    /// These words, and above them the arguments that a descriptor tells.
    pub fn of_call(words: Vec<Sort>, kinds: &Shared<Descr>) -> Result<Operands, AllocError>
        ensures { IfOk result (λ o. o ≡ words.items ++ words_of_kinds kinds.now.args) }
    {
        Ok(Operands {
            listed: Items::from_vec(words),
            arguments: Some(kinds.share()?),
        })
    }

    /// Words, and the types of the values above them.
    pub fn parts(&self) -> (&[Sort], &[Kind])
        ensures { self.now ≡ result.0.now ++ words_of_kinds result.1.now }
    {
        match &self.arguments {
            Some(kinds) => (self.listed.as_slice(), kinds.args.as_slice()),
            None => (self.listed.as_slice(), &[]),
        }
    }
}
