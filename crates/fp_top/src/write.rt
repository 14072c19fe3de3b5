ghost use Rattle.std.specs.Prelude.{◌≡◌, map, IfOk, string_bytes};
ghost use Rattle.fp_base.specs.Faults.{AppendsPart};
ghost use Rattle.fp_load.specs.Faults.{refusal_told};
ghost use Rattle.fp_top.specs.Outcome as outcome;
ghost use Rattle.fp_top.specs.Refusal as spec;

use crate::fault_text::file_refusal_text;
use crate::refusal::Refusal;
use fp_base::Sink;
use fp_load::FileRefusal;
use fp_model::LimitName;
use std::alloc::{AllocError, Global};

/// What words that are not of the grammar are answered by.
const USAGE: &str =
    "usage: fpcf --analyses LIST --show LIST --workers N [--assume FILE] [--all] [--cycles] DIR [ROOT]...\nusage: fpcf generate --seed N --classes N --workers N\n";

/// Puts what a refusal writes to err, as far as memory and the sink let it.
pub fn tell<S: Sink>(alloc: Global, sink: &mut S, refusal: &Refusal)
    ensures { AppendsPart (S.told sink.old) (S.told sink.new) (spec.text_of refusal.now) }
{
    if let Ok(text) = text_of(alloc, refusal) {
        let _ = sink.put(text.as_bytes());
    }
}

/// What a refusal writes to err.
fn text_of(alloc: Global, refusal: &Refusal) -> Result<String, AllocError>
    ensures { IfOk result (λ text. string_bytes text ≡ spec.text_of refusal.now) }
{
    match refusal {
        Refusal::Usage => String::from_str(alloc, USAGE),
        Refusal::Read(path) => format!(in alloc; "read fault: {path}\n"),
        Refusal::Files(refused) => fault_lines(alloc, refused.as_slice()),
        Refusal::Duplicate(name) => format!(in alloc; "refused: duplicate {name}\n"),
        Refusal::Cycle(name) => format!(in alloc; "refused: cycle {name}\n"),
        Refusal::Selection(item) => format!(in alloc; "selection: {item}\n"),
        Refusal::Limit(name, most) => limit_text(alloc, *name, *most),
        Refusal::Memory => String::from_str(alloc, "out of memory\n"),
    }
}

/// What a bound that is passed writes to err.
fn limit_text(alloc: Global, name: LimitName, most: u64) -> Result<String, AllocError>
    ensures { IfOk result (λ text. string_bytes text ≡ outcome.limit_text name most) }
{
    let name = name.text();
    format!(in alloc; "limit: {name} {most}\n")
}

/// A line for each file that is refused.
fn fault_lines(alloc: Global, refused: &[(String, FileRefusal)]) -> Result<String, AllocError>
    ensures { IfOk result (λ text. string_bytes text ≡ outcome.fault_lines (map refusal_told refused.now)) }
{
    let mut lines = String::new(alloc);
    for (path, refusal) in refused {
        let line = fault_line(alloc, path.as_str(), *refusal)?;
        lines.push_str(line.as_str())?;
    }
    Ok(lines)
}

/// What a file that is refused writes to err.
fn fault_line(alloc: Global, path: &str, refusal: FileRefusal) -> Result<String, AllocError>
    ensures { IfOk result (λ text. string_bytes text ≡ outcome.fault_line path.now refusal) }
{
    let why = file_refusal_text(alloc, refusal)?;
    format!(in alloc; "refused: {path}: {why}\n")
}
