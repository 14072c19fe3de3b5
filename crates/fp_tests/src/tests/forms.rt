//! The texts of instructions and of what they hold, in numbers of a table of names.
use fp_model::{BootArg, Descr, Instr};
use std::alloc::{AllocError, Global};

/// The text of an instruction: its form, and then what that has.
pub fn instr_text(alloc: Global, instr: &Instr) -> Result<String, AllocError> {
    match instr {
        Instr::Nop => String::from_str(alloc, "Nop"),
        Instr::Null => String::from_str(alloc, "Null"),
        Instr::Const { sort } => format!(in alloc; "Const {sort:?}"),
        Instr::ConstRef => String::from_str(alloc, "ConstRef"),
        Instr::Load { sort, at } => format!(in alloc; "Load {sort:?}, {at}"),
        Instr::Store { sort, at } => format!(in alloc; "Store {sort:?}, {at}"),
        Instr::ArrayLoad { op } => format!(in alloc; "ArrayLoad {op}"),
        Instr::ArrayStore { op } => format!(in alloc; "ArrayStore {op}"),
        Instr::Shuffle { op } => format!(in alloc; "Shuffle {op}"),
        Instr::Op { op } => format!(in alloc; "Op {op}"),
        Instr::Inc { at } => format!(in alloc; "Inc {at}"),
        Instr::If { op, to } => format!(in alloc; "If {op}, {to}"),
        Instr::Goto { to } => format!(in alloc; "Goto {to}"),
        Instr::Switch { to } => format!(in alloc; "Switch {:?}", to.as_slice()),
        Instr::Return { op } => format!(in alloc; "Return {op}"),
        Instr::New { class } => format!(in alloc; "New {class}"),
        Instr::NewArray { dims, element } => format!(in alloc; "NewArray {dims}, {element:?}"),
        Instr::ArrayLength => String::from_str(alloc, "ArrayLength"),
        Instr::Throw => String::from_str(alloc, "Throw"),
        Instr::CheckCast { class } => format!(in alloc; "CheckCast {class}"),
        Instr::InstanceOf { class } => format!(in alloc; "InstanceOf {class}"),
        Instr::Monitor => String::from_str(alloc, "Monitor"),
        other => member_text(alloc, other),
    }
}

/// The text of an access to a field or of a call.
fn member_text(alloc: Global, instr: &Instr) -> Result<String, AllocError> {
    match instr {
        Instr::GetStatic {
            class,
            name,
            descr,
            kind,
        } => { format!(in alloc; "GetStatic {class}, {name}, {descr}, {kind:?}") }
        Instr::PutStatic {
            class,
            name,
            descr,
            kind,
        } => { format!(in alloc; "PutStatic {class}, {name}, {descr}, {kind:?}") }
        Instr::GetField {
            class,
            name,
            descr,
            kind,
        } => { format!(in alloc; "GetField {class}, {name}, {descr}, {kind:?}") }
        Instr::PutField {
            class,
            name,
            descr,
            kind,
        } => { format!(in alloc; "PutField {class}, {name}, {descr}, {kind:?}") }
        Instr::InvokeVirtual {
            class,
            name,
            descr,
            kinds,
        } => { call_text(alloc, "InvokeVirtual", (*class, *name, *descr), kinds) }
        Instr::InvokeSpecial {
            class,
            name,
            descr,
            kinds,
        } => { call_text(alloc, "InvokeSpecial", (*class, *name, *descr), kinds) }
        Instr::InvokeStatic {
            class,
            name,
            descr,
            kinds,
        } => { call_text(alloc, "InvokeStatic", (*class, *name, *descr), kinds) }
        Instr::InvokeInterface {
            class,
            name,
            descr,
            kinds,
        } => { call_text(alloc, "InvokeInterface", (*class, *name, *descr), kinds) }
        Instr::InvokeDynamic {
            name,
            descr,
            boot,
            args,
        } => {
            let args = boot_args_text(alloc, args.as_slice())?;
            let descr = descr_text(alloc, descr)?;
            format!(in alloc; "InvokeDynamic {name}, {descr}, {boot:?}, [{args}]")
        }
        _ => String::from_str(alloc, "another"),
    }
}

fn call_text(
    alloc: Global,
    form: &str,
    numbers: (u32, u32, u32),
    kinds: &Descr,
) -> Result<String, AllocError> {
    let (class, name, descr) = numbers;
    let kinds = descr_text(alloc, kinds)?;
    format!(in alloc; "{form} {class}, {name}, {descr}, {kinds}")
}

/// The kinds of the parameters, and that of the result.
pub fn descr_text(alloc: Global, descr: &Descr) -> Result<String, AllocError> {
    let result = descr.result;
    match result {
        Some(kind) => format!(in alloc; "{:?} {kind:?}", descr.args.as_slice()),
        None => format!(in alloc; "{:?} None", descr.args.as_slice()),
    }
}

fn boot_args_text(alloc: Global, args: &[BootArg]) -> Result<String, AllocError> {
    let mut texts = Vec::new(alloc);
    for arg in args {
        texts.push(boot_arg_text(alloc, arg)?)?;
    }
    texts.join(alloc, ", ")
}

fn boot_arg_text(alloc: Global, arg: &BootArg) -> Result<String, AllocError> {
    match arg {
        BootArg::Sig(descr) => {
            let descr = descr_text(alloc, descr)?;
            format!(in alloc; "Sig {descr}")
        }
        BootArg::Ref(handle) => format!(in alloc; "Ref {handle:?}"),
        BootArg::Other => String::from_str(alloc, "Other"),
    }
}
