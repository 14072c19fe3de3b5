//! The calls of a code.
ghost use Rattle.std.specs.Prelude.{◌≡◌, ◌<◌, ◌++◌, List, length, IfOk, OnOk};
ghost use Rattle.fp_facts.specs.declared.reference.Reference.{Reference};
ghost use Rattle.fp_facts.specs.Behaviour.{references_of, sites_of};
ghost use Rattle.fp_facts.specs.References.{with_references};
ghost use Rattle.fp_facts.specs.Steps.{step_of, steps_of};
ghost use Rattle.fp_hier.specs.Hierarchies.{IsHierOf};
ghost use Rattle.fp_extract.specs.Calling.{IsCallTable};
ghost use Rattle.fp_extract.specs.Rooms.{left_after};

use crate::arguments::call_arguments;
use crate::calls::CallTable;
use fp_facts::{CallSite, OriginSet, Reference};
use fp_hier::Hier;
use fp_model::{ClassId, ClassSet, Instr};
use sqlite_items::Items;
use std::alloc::{AllocError, Global};

/// The calls of a class's code that control may come to, in its order, by the origins of the words before each instruction. The table
/// meets them.
pub(crate) fn sites(
    alloc: Global,
    set: &ClassSet,
    hier: &Hier,
    caller: ClassId,
    instrs: &[(u16, Instr)],
    frames: &[Option<Items<OriginSet>>],
    calls: &mut CallTable,
) -> Result<Vec<CallSite>, AllocError>
    requires hier { IsHierOf set.now hier.now }
    requires caller { caller < length set.now.classes }
    requires frames { length instrs.now ≡ length frames.now }
    requires told { IsCallTable set.now calls.old }
    ensures told { OnOk result (IsCallTable set.now calls.new) }
    ensures table { OnOk result (calls.new.references ≡ with_references calls.old.references (references_of caller (steps_of instrs.now frames.now))) }
    ensures left { OnOk result (calls.new.left ≡ left_after set.now calls.old.left (references_of caller (steps_of instrs.now frames.now))) }
    ensures sites { IfOk result (λ sites. (more : List Reference) → sites.items ≡ sites_of (calls.new.references ++ more) caller (steps_of instrs.now frames.now)) }
{
    let mut sites = Vec::new(alloc);
    for at in 0..instrs.len() {
        let (pc, instr) = &instrs[at];
        push_site(
            alloc,
            set,
            hier,
            caller,
            *pc,
            instr,
            &frames[at],
            calls,
            &mut sites,
        )?;
    }
    Ok(sites)
}

// Adds a call, where control may come to it.
fn push_site(
    alloc: Global,
    set: &ClassSet,
    hier: &Hier,
    caller: ClassId,
    pc: u16,
    instr: &Instr,
    frame: &Option<Items<OriginSet>>,
    calls: &mut CallTable,
    sites: &mut Vec<CallSite>,
) -> Result<(), AllocError>
    requires hier { IsHierOf set.now hier.now }
    requires caller { caller < length set.now.classes }
    requires told { IsCallTable set.now calls.old }
    ensures told { OnOk result (IsCallTable set.now calls.new) }
    ensures table { OnOk result (calls.new.references ≡ with_references calls.old.references (references_of caller (step_of (pc, instr.now) frame.now))) }
    ensures left { OnOk result (calls.new.left ≡ left_after set.now calls.old.left (references_of caller (step_of (pc, instr.now) frame.now))) }
    ensures sites { OnOk result ((more : List Reference) → sites.new.items ≡ sites.old.items ++ sites_of (calls.new.references ++ more) caller (step_of (pc, instr.now) frame.now)) }
{
    let words = match frame {
        Some(words) => words.as_slice(),
        None => return Ok(()),
    };
    let Some(reference) = Reference::of(caller, instr) else {
        return Ok(());
    };
    let call = calls.meet(alloc, set, hier, reference)?;
    let args = call_arguments(alloc, instr, words)?;
    sites.push(CallSite {
        pc,
        call,
        args: Items::from_vec(args),
    })?;
    Ok(())
}
