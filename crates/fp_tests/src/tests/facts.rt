//! Words of frames, and laws of least solutions.
use fp_facts::{
    Assume, CallSite, CallTargets, Facts, Label, Origin, OriginSet, law_ancestors, law_begins,
    law_frames, law_kinds, law_least_flow, law_least_solution, law_moves, law_moves_map,
    law_moves_reached, law_moves_shape, law_reached, law_reaches, law_reference_candidates,
    law_same_solution, law_seeds, law_sorts,
};
use sqlite_items::Items;
use std::alloc::{AllocError, Global};
use std::test::Fail;

#[test]
fn a_frame_holds_its_words(rt: HostRuntime) -> Result<(), Fail> {
    let locals = Items::from_slice(rt.alloc(), &[1u8, 2])?;
    let stack = Items::from_slice(rt.alloc(), &[3u8])?;
    let label = Label::Frame { locals, stack };
    assert!(rt;
        matches!(&label, Label::Frame { locals, stack } if locals.len() == 2 && stack.len() == 1)
    );
    Ok(())
}

#[test]
fn nothing_is_taken_for_granted(rt: HostRuntime) {
    let assume = Assume::none(rt.alloc());
    assert_eq!(rt;
        (assume.pure.len(), assume.sef.len(), assume.fixed.len()),
        (0, 0, 0)
    );
}

/// Facts of two references, and no method.
fn two_references(alloc: Global) -> Result<Facts, AllocError> {
    let mut calls = Items::new(alloc);
    calls.push(CallTargets::none(alloc))?;
    let mut watch = Items::new(alloc);
    watch.push((3, Items::from_slice(alloc, &[1u32])?))?;
    calls.push(CallTargets {
        targets: Items::from_slice(alloc, &[4u32, 7])?,
        always: Items::from_slice(alloc, &[2u32])?,
        watch,
    })?;
    Ok(Facts {
        references: Items::new(alloc),
        calls,
        methods: Items::new(alloc),
        seeds: Items::new(alloc),
        roots: Items::new(alloc),
        assume: Assume::none(alloc),
    })
}

/// What a call of a number can reach.
fn call_text(alloc: Global, facts: &Facts, call: u32) -> Result<String, AllocError> {
    if call as usize >= facts.calls.len() {
        return String::from_str(alloc, "no call");
    }
    let site = CallSite {
        pc: 9,
        call,
        args: Items::new(alloc),
    };
    let watch = facts.watch(&site).len();
    format!(in alloc;
        "{:?} {:?} {watch}",
        facts.targets(&site),
        facts.always(&site)
    )
}

#[test]
fn a_call_reaches_what_its_reference_does(rt: HostRuntime) -> Result<(), Fail> {
    let facts = two_references(rt.alloc())?;
    let mut texts = Vec::new(rt.alloc());
    for call in 0..3 {
        texts.push(call_text(rt.alloc(), &facts, call)?)?;
    }
    let text = texts.join(rt.alloc(), "; ")?;
    assert_eq!(rt; text.as_str(), "[] [] 0; [4, 7] [2] 1; no call");
    Ok(())
}

#[test]
fn a_copy_has_the_same_origins(rt: HostRuntime) -> Result<(), Fail> {
    let mut set = OriginSet::new(rt.alloc());
    set.push(Origin::Param(1))?;
    set.push(Origin::Other)?;
    let copy = set.copy(rt.alloc())?;
    assert_eq!(rt;
        copy.as_slice(),
        [Origin::Param(1), Origin::Other].as_slice()
    );
    Ok(())
}

#[test]
fn the_laws_can_be_called_at_a_type(_rt: HostRuntime) {
    law_least_solution::<u64>();
    law_least_flow::<u64>();
    law_same_solution::<u64>();
    law_reaches();
    law_frames::<u64>();
    law_sorts();
    law_kinds();
    law_reached();
    law_moves::<u64>();
    law_moves_reached::<u64>();
    law_moves_map::<u64, bool>();
    law_moves_shape::<u64>();
    law_seeds();
    law_begins();
    law_ancestors();
    law_reference_candidates();
}
