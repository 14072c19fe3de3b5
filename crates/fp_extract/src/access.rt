//! The reads and writes of fields, statics and elements of arrays.
ghost use Rattle.std.specs.Prelude.{◌≡◌, ◌++◌, List, length, option_map, IfOk, OnOk};
ghost use Rattle.fp_model.specs.declared.class.Class.{Class};
ghost use Rattle.fp_model.specs.declared.class.instr.Instr.{Instr};
ghost use Rattle.fp_facts.specs.Behaviour as behaviour;
ghost use Rattle.fp_facts.specs.Behaviour.{access_shape, accesses_of};
ghost use Rattle.fp_facts.specs.Steps.{step_of, steps_of};
ghost use Rattle.fp_hier.specs.Hierarchies.{IsHierOf};
ghost use Rattle.fp_extract.specs.Accessed.{accessed_field};
ghost use Rattle.fp_extract.specs.Shapes.{as_shape, with_field};

use crate::arguments::operand;
use crate::lookup::accessed_field;
use fp_facts::{Access, AccessForm, OriginSet};
use fp_flow::{sort_of, width};
use fp_hier::Hier;
use fp_model::{ClassSet, FieldId, Instr};
use sqlite_items::Items;
use std::alloc::{AllocError, Global};

/// The opcodes of `lastore` and `dastore`.
const STORE_LONG: u8 = 80;

const STORE_DOUBLE: u8 = 82;

/// The form of a read or write, with the depths on the stack of its object or array and of what it writes.
#[derive(Clone, Copy)]
struct Operands {
    form: AccessForm,
    object: Option<usize>,
    value: Option<usize>,
}

/// A read or write, with the field of the set that it is of.
#[derive(Clone, Copy)]
struct Shape {
    operands: Operands,
    field: Option<FieldId>,
}

/// The reads and writes of a code that control may come to, in its order, by the origins of the words before each instruction.
pub(crate) fn accesses(
    alloc: Global,
    set: &ClassSet,
    hier: &Hier,
    instrs: &[(u16, Instr)],
    frames: &[Option<Items<OriginSet>>],
) -> Result<Vec<Access>, AllocError>
    requires hier { IsHierOf set.now hier.now }
    requires frames { length instrs.now ≡ length frames.now }
    ensures { IfOk result (λ accesses. accesses.items ≡ accesses_of set.now.classes (steps_of instrs.now frames.now)) }
{
    let mut accesses = Vec::new(alloc);
    for at in 0..instrs.len() {
        let (pc, instr) = &instrs[at];
        push_access(
            alloc,
            &mut accesses,
            *pc,
            access_shape(set, hier, instr),
            &frames[at],
        )?;
    }
    Ok(accesses)
}

// Adds a read or write, where control may come to it.
fn push_access(
    alloc: Global,
    accesses: &mut Vec<Access>,
    pc: u16,
    shape: Option<Shape>,
    frame: &Option<Items<OriginSet>>,
) -> Result<(), AllocError>
    ensures { (classes : List Class) (instr : Instr) → option_map as_shape shape ≡ access_shape classes instr
        → OnOk result (accesses.new.items ≡ accesses.old.items ++ accesses_of classes (step_of (pc, instr) frame.now)) }
{
    let Some(words) = frame else {
        return Ok(());
    };
    let Some(shape) = shape else {
        return Ok(());
    };
    let Shape { operands, field } = shape;
    let object = operand_at(alloc, words.as_slice(), operands.object)?;
    let value = operand_at(alloc, words.as_slice(), operands.value)?;
    accesses.push(Access {
        pc,
        form: operands.form,
        field,
        object,
        value,
    })?;
    Ok(())
}

// The origins at a depth, none where there is no depth.
fn operand_at(
    alloc: Global,
    words: &[OriginSet],
    depth: Option<usize>,
) -> Result<OriginSet, AllocError>
    ensures { IfOk result (λ set. set ≡ behaviour.operand_at words.now depth) }
{
    match depth {
        Some(depth) => operand(alloc, words, depth),
        None => Ok(OriginSet::new(alloc)),
    }
}

// How many words the element takes that an instruction stores.
fn stored_width(op: u8) -> usize
    ensures { result ≡ behaviour.stored_width op }
{
    if op == STORE_LONG || op == STORE_DOUBLE {
        2
    } else {
        1
    }
}

// What an instruction reads or writes.
fn access_shape(set: &ClassSet, hier: &Hier, instr: &Instr) -> Option<Shape>
    requires { IsHierOf set.now hier.now }
    ensures { option_map as_shape result ≡ access_shape set.now.classes instr.now }
{
    let operands = access_operands(instr)?;
    let field = accessed_field(set, hier, instr);
    Some(Shape { operands, field })
}

// The form in which an instruction reads or writes, and its operands.
fn access_operands(instr: &Instr) -> Option<Operands>
    ensures { (classes : List Class) → option_map (with_field (accessed_field classes instr.now)) result ≡ access_shape classes instr.now }
{
    let (form, object, value) = match instr {
        Instr::GetStatic { .. } => (AccessForm::GetStatic, None, None),
        Instr::PutStatic { kind, .. } => {
            let width = width(sort_of(*kind));
            (AccessForm::PutStatic, None, Some(width))
        }
        Instr::GetField { .. } => (AccessForm::GetField, Some(1), None),
        Instr::PutField { kind, .. } => {
            let width = width(sort_of(*kind));
            (AccessForm::PutField, Some(width + 1), Some(width))
        }
        Instr::ArrayLoad { .. } => (AccessForm::Load, Some(2), None),
        Instr::ArrayStore { op } => {
            let width = stored_width(*op);
            (AccessForm::Store, Some(width + 2), Some(width))
        }
        _ => return None,
    };
    Some(Operands {
        form,
        object,
        value,
    })
}
