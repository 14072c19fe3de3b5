ghost use Rattle.std.specs.Prelude.{◌≡◌, OnOk, OnErr};
ghost use Rattle.std.specs.List.{flat_map};
ghost use Rattle.std.specs.Io.KnownBytes.{append_known};
ghost use Rattle.fp_base.specs.Faults.{AppendsPart};
ghost use Rattle.fp_report.specs.Printing.{HasPrintCause};
ghost use Rattle.fp_top.specs.Runs.{lines_of, IsReady};

use crate::solve::Run;
use fp_base::Sink;
use fp_cells::JavaView;
use fp_report::{PrintFault, print};
use std::alloc::Global;

/// Puts the report of a run, and ends it.
pub fn put_report<S: Sink>(alloc: Global, run: Run, out: &mut S) -> Result<(), PrintFault>
    requires { IsReady run }
    ensures whole { OnOk result (S.told out.new ≡ append_known (S.told out.old) (flat_map (λ line. line) (lines_of run))) }
    ensures part { OnErr result (AppendsPart (S.told out.old) (S.told out.new) (flat_map (λ line. line) (lines_of run))) }
    ensures cause { HasPrintCause (S.faults out.old) (S.faults out.new) result }
{
    let view = JavaView {
        cells: run.system.cells(),
        targets: run.system.targets(),
        shown: run.system.shown_cells(),
        edges: &[],
    };
    print(alloc, &run.loaded.set, &view, &run.solved, &run.job, out)
}
