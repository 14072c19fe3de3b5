//! The edges of codes, and the solution of a dataflow problem.
ghost use Rattle.std.specs.Prelude.{All, IsTrue, length};
ghost use Rattle.fp_flow.specs.Reached.{keeps_within, reached, reached-lawful};
ghost use Rattle.fp_model.specs.SoundCode.{IsSoundMethod};

use super::files::{class_of, method_file};
use super::table::check;
use fp_flow::{Dataflow, edges, law_edges, solve};
use fp_model::Method;
use std::alloc::{AllocError, Global};
use std::test::Fail;

/// Codes and rows of their exception tables (JVMS SE 21 section 4.10.2.2): one instruction after the other; a last one that would
/// fall through; a `goto` ahead and one back; a condition; a switch with a default and two cases; a return and a throw; a row over
/// two instructions, whose handler is one of them; two rows over one instruction; all from one instruction.
const EDGES: &str = "\
    0000b1 ;[(0, 1, false), (1, 2, false)]\n\
    0000 ;[(0, 1, false)]\n\
    a7000400a7ffff ;[(0, 2, false), (1, 2, false), (2, 1, false)]\n\
    99000400b1 ;[(0, 1, false), (0, 2, false), (1, 2, false)]\n\
    aa0000000000001a0000000000000001000000180000001900b1bf ;[(0, 3, false), (0, 1, false), (0, 2, false), (1, 2, false)]\n\
    b1bf00 ;[]\n\
    00bfb1 0000000200010000;[(0, 1, false), (0, 1, true), (1, 1, true)]\n\
    00b1bfbf 00000001000300000000000100020000;[(0, 1, false), (0, 3, true), (0, 2, true)]\n\
    990000b1 0000000400030000;[(0, 1, false), (0, 0, false), (0, 1, true), (1, 1, true)]\n\
    ";

/// The edges of a method's code, or that they are not made.
fn edges_text(alloc: Global, method: &Method) -> Result<String, AllocError>
    requires { IsSoundMethod method.now }
{
    let Some(code) = &method.code else {
        return String::from_str(alloc, "no code");
    };
    let Ok(flow) = edges(alloc, code) else {
        return String::from_str(alloc, "no edges");
    };
    format!(in alloc; "{:?}", flow.edges.as_slice())
}

/// The edges of the first of some methods.
#[tactic(auto, using(crate::proofs::MethodLemmas::first))]
fn first_text(alloc: Global, methods: &[Method]) -> Result<String, Fail>
    requires { All IsSoundMethod methods.now }
{
    let method = methods.get(0).ok_or("no method")?;
    Ok(edges_text(alloc, method)?)
}

/// The edges of a code, by the digits of its instructions and of the rows of its exception table.
fn told(alloc: Global, input: &str) -> Result<String, Fail> {
    let (code, rows) = input.split_once(' ').ok_or("no rows")?;
    let code = hex::decode(alloc, code)?;
    let rows = hex::decode(alloc, rows)?;
    let class = class_of(alloc, &method_file(alloc, "()V", &code, &rows)?)?;
    first_text(alloc, class.methods.as_slice())
}

#[test]
fn edges_lead_to_the_next_to_targets_and_to_handlers(rt: HostRuntime) -> Result<(), Fail> {
    check(&rt, rt.alloc(), EDGES, told)
}

/// A class file with 65,535 instructions that each lead to 1,024 handlers, and all but the last to the next one: 67,173,374 edges.
fn many_edges(alloc: Global) -> Result<Vec<u8>, AllocError> {
    let code = vec![in alloc; 0u8; 65_535]?;
    let mut rows = Vec::new(alloc);
    for _ in 0..1024 {
        rows.extend_from_slice(&[0, 0, 0xFF, 0xFF, 0, 0, 0, 0])?;
    }
    method_file(alloc, "()V", &code, &rows)
}

#[test]
fn more_edges_than_the_most_are_refused(rt: HostRuntime) -> Result<(), Fail> {
    let class = class_of(rt.alloc(), &many_edges(rt.alloc())?)?;
    let text = first_text(rt.alloc(), class.methods.as_slice())?;
    assert_eq!(rt; text.as_str(), "no edges");
    law_edges();
    Ok(())
}

/// Which nodes are reached by edges that lead to no exception handler.
#[derive(Drop)]
struct Reached<'p> {
    edges: &'p [(u32, u32, bool)],
    first: &'p [bool],
    ghost within: { IsTrue (keeps_within (length first.now) edges.now) },
}

impl<'p> Dataflow for Reached<'p> {
    type Label = bool;

    ghost problem = { λ p. reached p.edges.now p.first.now };

    ghost lawful = { λ p. reached-lawful p.edges.now p.first.now p.within };

    fn behind(&self, _alloc: Global, _node: u32, before: &bool) -> Result<bool, AllocError> {
        Ok(*before)
    }

    fn caught(
        &self,
        _alloc: Global,
        _node: u32,
        _before: &bool,
        _behind: &bool,
    ) -> Result<bool, AllocError> {
        Ok(false)
    }

    fn join(&self, _alloc: Global, into: &mut bool, more: &bool) -> Result<bool, AllocError> {
        let changed = *more && !*into;
        *into = *into || *more;
        Ok(changed)
    }
}

#[test]
fn the_answer_passes_round_a_cycle(rt: HostRuntime) -> Result<(), Fail> {
    let edges = [
        (0, 3, false),
        (1, 2, false),
        (2, 3, false),
        (2, 5, true),
        (3, 1, false),
        (4, 2, false),
    ];
    let first = [true, false, false, false, false, false];
    let problem = Reached {
        edges: &edges,
        first: &first,
    };
    let labels = Vec::from_slice(rt.alloc(), &first)?;
    let found = solve(rt.alloc(), &problem, &edges, labels)?;
    assert_eq!(rt;
        found.as_slice(),
        [true, true, true, true, false, false].as_slice()
    );
    Ok(())
}
