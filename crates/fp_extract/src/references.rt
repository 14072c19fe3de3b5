//! The table of the references of calls.
ghost use Rattle.std.specs.Prelude.{◌≡◌, ◌++◌, List, [], Some, slice_get, not, IfOk, OnOk};
ghost use Rattle.fp_facts.specs.declared.reference.Reference.{Reference};
ghost use Rattle.fp_facts.specs.References.{has_reference, number_in, with_reference};

use fp_facts::Reference;
use indexmap::IndexSet;
use std::alloc::{AllocError, Global};
use std::marker::Model;

/// References, numbered from 0 in the order in which they were first met.
#[derive(Drop)]
pub(crate) struct References {
    table: IndexSet<Reference>,
}

impl Model for References {
    ghost use Rattle.std.specs.Prelude.{List};
    ghost use Rattle.fp_facts.specs.declared.reference.Reference.{Reference};

    ghost Value = { List Reference };

    ghost view = { λ r. r.table.keys };
}

impl References {
    /// A table with nothing, which takes no memory.
    pub(crate) fn new(alloc: Global) -> References
        ensures { result ≡ [] }
    {
        References {
            table: IndexSet::new(alloc),
        }
    }

    /// The number of a reference, and whether it is new: then it is the next one. It keeps it whatever is met later.
    pub(crate) fn number(&mut self, reference: Reference) -> Result<(u32, bool), AllocError>
        ensures table { OnOk result (self.new ≡ with_reference self.old reference) }
        ensures number { IfOk result (λ n. (more : List Reference) → number_in (self.new ++ more) reference ≡ n.0) }
        ensures is_new { IfOk result (λ n. n.1 ≡ not (has_reference self.old reference)) }
        ensures stored { IfOk result (λ n. slice_get self.new n.0 ≡ Some reference) }
    {
        let (number, is_new) = self.table.insert_full(reference)?;
        let Ok(number) = u32::try_from(number) else {
            return Err(AllocError);
        };
        Ok((number, is_new))
    }

    /// The references, in the order of their numbers.
    pub(crate) fn as_slice(&self) -> &[Reference]
        ensures { result.now ≡ self.now }
    {
        self.table.as_slice()
    }
}
