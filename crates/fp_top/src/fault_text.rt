ghost use Rattle.std.specs.Prelude.{◌≡◌, IfOk, string_bytes};
ghost use Rattle.fp_top.specs.FaultTexts as spec;

use fp_load::FileRefusal;
use fp_model::FileFault;
use std::alloc::{AllocError, Global};

/// Why a file is no class file, its numbers in decimal.
pub fn fault_text(alloc: Global, fault: FileFault) -> Result<String, AllocError>
    ensures { IfOk result (λ text. string_bytes text ≡ spec.fault_text fault) }
{
    match fault {
        FileFault::Truncated { at } => format!(in alloc; "truncated at {at}"),
        FileFault::Magic => String::from_str(alloc, "magic"),
        FileFault::Version { major, minor } => format!(in alloc; "version {major}.{minor}"),
        FileFault::Tag { at, tag } => format!(in alloc; "tag {tag} at {at}"),
        FileFault::Index { at, index } => format!(in alloc; "index {index} at {at}"),
        FileFault::Descriptor { at } => format!(in alloc; "descriptor at {at}"),
        FileFault::Opcode { at, byte } => format!(in alloc; "opcode {byte} at {at}"),
        FileFault::Subroutine { at } => format!(in alloc; "subroutine at {at}"),
        FileFault::Bounds { at } => format!(in alloc; "bounds at {at}"),
        FileFault::CodeCount { method } => format!(in alloc; "code count method {method}"),
        FileFault::Repeat { at } => format!(in alloc; "repeat at {at}"),
        FileFault::Trailing { at } => format!(in alloc; "trailing at {at}"),
        FileFault::Memory => String::from_str(alloc, "memory"),
    }
}

/// Why a file is refused, its numbers in decimal.
pub fn file_refusal_text(alloc: Global, refusal: FileRefusal) -> Result<String, AllocError>
    ensures { IfOk result (λ text. string_bytes text ≡ spec.file_refusal_text refusal) }
{
    match refusal {
        FileRefusal::File(fault) => fault_text(alloc, fault),
        FileRefusal::Kinds { method, pc } => format!(in alloc; "kinds method {method} pc {pc}"),
    }
}
