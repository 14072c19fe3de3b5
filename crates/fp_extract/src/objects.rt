//! The objects and arrays that code makes.
ghost use Rattle.std.specs.Prelude.{◌≡◌, ◌++◌, length, IfOk, OnOk};
ghost use Rattle.fp_facts.specs.Behaviour as behaviour;
ghost use Rattle.fp_facts.specs.Behaviour.{allocs_of, news_of};
ghost use Rattle.fp_facts.specs.Steps.{step_of, steps_of};

use fp_facts::OriginSet;
use fp_model::{ClassId, ClassSet, Instr};
use sqlite_items::Items;
use std::alloc::{AllocError, Global};

/// The classes of the set that a code makes objects of where control may come, in the order of the code.
pub(crate) fn news(
    alloc: Global,
    set: &ClassSet,
    instrs: &[(u16, Instr)],
    frames: &[Option<Items<OriginSet>>],
) -> Result<Vec<ClassId>, AllocError>
    requires { length instrs.now ≡ length frames.now }
    ensures { IfOk result (λ news. news.items ≡ news_of set.now.classes (steps_of instrs.now frames.now)) }
{
    let mut news = Vec::new(alloc);
    for at in 0..instrs.len() {
        let (pc, instr) = &instrs[at];
        push_new(&mut news, set, *pc, instr, &frames[at])?;
    }
    Ok(news)
}

// Adds the class of the set that an instruction makes an object of, where control may come to it.
fn push_new(
    news: &mut Vec<ClassId>,
    set: &ClassSet,
    pc: u16,
    instr: &Instr,
    frame: &Option<Items<OriginSet>>,
) -> Result<(), AllocError>
    ensures { OnOk result (news.new.items ≡ news.old.items ++ news_of set.now.classes (step_of (pc, instr.now) frame.now)) }
{
    if frame.is_none() {
        return Ok(());
    }
    if let Some(class) = made_class(set, instr) {
        news.push(class)?;
    }
    Ok(())
}

// The class of the set that an instruction makes an object of.
fn made_class(set: &ClassSet, instr: &Instr) -> Option<ClassId>
    ensures { result ≡ behaviour.made_class set.now.classes instr.now }
{
    match instr {
        Instr::New { class } => set.find_class(*class),
        _ => None,
    }
}

/// The offsets at which a code makes objects and arrays where control may come, in its order.
pub(crate) fn allocs(
    alloc: Global,
    instrs: &[(u16, Instr)],
    frames: &[Option<Items<OriginSet>>],
) -> Result<Vec<u16>, AllocError>
    requires { length instrs.now ≡ length frames.now }
    ensures { IfOk result (λ pcs. pcs.items ≡ allocs_of (steps_of instrs.now frames.now)) }
{
    let mut pcs = Vec::new(alloc);
    for at in 0..instrs.len() {
        let (pc, instr) = &instrs[at];
        push_alloc(&mut pcs, *pc, instr, &frames[at])?;
    }
    Ok(pcs)
}

// Adds the offset of an instruction that makes an object or an array, where control may come to it.
fn push_alloc(
    pcs: &mut Vec<u16>,
    pc: u16,
    instr: &Instr,
    frame: &Option<Items<OriginSet>>,
) -> Result<(), AllocError>
    ensures { OnOk result (pcs.new.items ≡ pcs.old.items ++ allocs_of (step_of (pc, instr.now) frame.now)) }
{
    if frame.is_none() {
        return Ok(());
    }
    if let Instr::New { .. } | Instr::NewArray { .. } = instr {
        pcs.push(pc)?;
    }
    Ok(())
}
