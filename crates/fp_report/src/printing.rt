//! Puts a report.
ghost use Rattle.std.specs.Prelude.{◌≡◌, ◌≤◌, length, map, slice_index, false, OnOk, OnErr, IsErrOf};
ghost use Rattle.std.specs.List.{flat_map};
ghost use Rattle.std.specs.Io.KnownBytes.{append_known};
ghost use Rattle.fp_base.specs.Faults.{AppendsPart, HasSinkCause};
ghost use Rattle.fp_eqs.specs.Solved.{flag_at};
ghost use Rattle.fp_report.specs.Report.{report, IsReportable};
ghost use Rattle.fp_report.specs.Printing.{HasPrintCause};

use crate::lines::report_lines;
use fp_base::{Sink, SinkFault};
use fp_cells::JavaView;
use fp_eqs::Solved;
use fp_model::ClassSet;
use fp_words::Job;
use std::alloc::Global;
use thiserror::Error;

/// Why a report was not put whole.
#[derive(Clone, Copy, Debug, Error, PartialEq, Eq)]
pub enum PrintFault {
    /// The sink could not take all of it.
    #[error("write fault")]
    Write,
    /// Memory ran out.
    #[error("out of memory")]
    Memory,
}

/// Puts the report on a solved system: a line for each shown cell, in the order of their bytes, and one with the number of
/// demanded cells. All lines are made before the first is put, and each is one put. The job asks for neither all cells nor cycles.
pub fn print<S: Sink>(
    alloc: Global,
    set: &ClassSet,
    system: &JavaView<'_>,
    solved: &Solved,
    job: &Job,
    sink: &mut S,
) -> Result<(), PrintFault>
    requires plain { (job.now.all ≡ false) × (job.now.cycles ≡ false) }
    requires view { IsReportable set.now system.now.cells.now system.now.targets.now system.now.shown.now (length solved.now.values) (length solved.now.wanted) }
    ensures whole { OnOk result (S.told sink.new ≡ append_known (S.told sink.old) (flat_map (λ line. line) (report set.now system.now.cells.now system.now.targets.now system.now.shown.now (slice_index solved.now.values) (flag_at solved.now.wanted)))) }
    ensures part { OnErr result (AppendsPart (S.told sink.old) (S.told sink.new) (flat_map (λ line. line) (report set.now system.now.cells.now system.now.targets.now system.now.shown.now (slice_index solved.now.values) (flag_at solved.now.wanted)))) }
    ensures cause { HasPrintCause (S.faults sink.old) (S.faults sink.new) result }
{
    let _ = job;
    let Ok(lines) = report_lines(alloc, set, system, solved) else {
        return Err(PrintFault::Memory);
    };
    match put_lines(sink, &lines) {
        Ok(()) => Ok(()),
        Err(SinkFault::Failed) => Err(PrintFault::Write),
        Err(SinkFault::Memory) => Err(PrintFault::Memory),
    }
}

/// Puts lines, one after another.
fn put_lines<S: Sink>(sink: &mut S, lines: &[Vec<u8>]) -> Result<(), SinkFault>
    ensures whole { OnOk result (S.told sink.new ≡ append_known (S.told sink.old) (flat_map (λ line. line.items) lines.now)) }
    ensures part { OnErr result (AppendsPart (S.told sink.old) (S.told sink.new) (flat_map (λ line. line.items) lines.now)) }
    ensures cause { HasSinkCause (S.faults sink.old) (S.faults sink.new) result }
{
    for line in lines {
        if let Err(fault) = sink.put(line.as_slice()) {
            return Err(fault);
        }
    }
    Ok(())
}
