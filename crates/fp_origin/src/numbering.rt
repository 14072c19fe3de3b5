//! The origins of a method, in ascending order.
ghost use Rattle.std.specs.Prelude.{◌≡◌, ◌+◌, ◌<◌, ◌^◌, ◌++◌, if◌then◌else◌, Some, length, IfOk, OnOk};
ghost use Rattle.fp_model.specs.Flags as flags;
ghost use Rattle.fp_model.specs.SoundCode.{IsSoundMethod};
ghost use Rattle.fp_facts.specs.Origins.{origins_of};
ghost use Rattle.fp_origin.specs.Numbering as defined;

use fp_facts::Origin;
use fp_model::flags::is_static;
use fp_model::{Code, Instr, Kind, Method};
use std::alloc::{AllocError, Global};

/// All that a word may come from in a method, ascending.
pub(crate) fn all_origins(
    alloc: Global,
    code: &Code,
    method: &Method,
) -> Result<Vec<Origin>, AllocError>
    requires sound { IsSoundMethod method.now }
    requires code { method.now.code ≡ Some code.now }
    ensures { IfOk result (λ v. v.items ≡ origins_of method.now code.now) }
{
    let mut origins = Vec::with_capacity(alloc, usize::from(code.max_locals))?;
    push_arguments(&mut origins, method)?;
    push_allocations(&mut origins, code)?;
    push_results(&mut origins, code)?;
    origins.push(Origin::Other)?;
    Ok(origins)
}

// Adds those of the arguments, the receiver of an instance method first.
fn push_arguments(origins: &mut Vec<Origin>, method: &Method) -> Result<(), AllocError>
    requires { length method.now.kinds.args + (if flags.is_static method.now.flags then 0 else 1) < 2 ^ 16 }
    ensures { OnOk result (origins.new.items ≡ origins.old.items ++ defined.method_origins method.now) }
{
    let kinds = method.kinds.args.as_slice();
    if is_static(method.flags) {
        push_params(origins, 0, kinds)
    } else {
        origins.push(Origin::Param(0))?;
        push_params(origins, 1, kinds)
    }
}

// Adds those of arguments from a number on.
fn push_params(origins: &mut Vec<Origin>, first: u16, kinds: &[Kind]) -> Result<(), AllocError>
    requires { first + length kinds.now < 2 ^ 16 }
    ensures { OnOk result (origins.new.items ≡ origins.old.items ++ defined.param_origins first kinds.now) }
{
    let mut number = first;
    for kind in kinds {
        if is_reference(*kind) {
            origins.push(Origin::Param(number))?;
        }
        number += 1;
    }
    Ok(())
}

// Adds those of the objects and arrays that instructions make.
fn push_allocations(origins: &mut Vec<Origin>, code: &Code) -> Result<(), AllocError>
    ensures { OnOk result (origins.new.items ≡ origins.old.items ++ defined.allocation_origins code.now.instrs) }
{
    for (pc, instr) in code.instrs.as_slice() {
        if allocates(instr) {
            origins.push(Origin::New(*pc))?;
        }
    }
    Ok(())
}

// Adds those of the references that calls return.
fn push_results(origins: &mut Vec<Origin>, code: &Code) -> Result<(), AllocError>
    ensures { OnOk result (origins.new.items ≡ origins.old.items ++ defined.result_origins code.now.instrs) }
{
    for (pc, instr) in code.instrs.as_slice() {
        if returns_reference(instr) {
            origins.push(Origin::Result(*pc))?;
        }
    }
    Ok(())
}

// Whether values of a type are references.
fn is_reference(kind: Kind) -> bool
    ensures { result ≡ defined.is_reference kind }
{
    matches!(kind, Kind::Class(_) | Kind::Array(_, _))
}

// Whether an instruction makes an object or an array.
fn allocates(instr: &Instr) -> bool
    ensures { result ≡ defined.allocates instr.now }
{
    matches!(instr, Instr::New { .. } | Instr::NewArray { .. })
}

// Whether an instruction calls a method whose result is a reference.
fn returns_reference(instr: &Instr) -> bool
    ensures { result ≡ defined.returns_reference instr.now }
{
    match instr {
        Instr::InvokeVirtual { kinds, .. }
        | Instr::InvokeSpecial { kinds, .. }
        | Instr::InvokeStatic { kinds, .. }
        | Instr::InvokeInterface { kinds, .. } => is_reference_result(kinds.result),
        Instr::InvokeDynamic { descr, .. } => is_reference_result(descr.result),
        _ => false,
    }
}

fn is_reference_result(returned: Option<Kind>) -> bool
    ensures { result ≡ defined.is_reference_result returned }
{
    match returned {
        Some(kind) => is_reference(kind),
        None => false,
    }
}
