ghost use Rattle.std.specs.Prelude.{◌≡◌, ◌≢◌, ◌⊎◌, ◌↔◌, ◌<◌, ℕ, List, length, Some, None, IsTrue, IsNone};
ghost use Rattle.std.specs.Io.KnownBytes.{append_known};
ghost use Rattle.fp_base.specs.Files.{texts};
ghost use Rattle.fp_base.specs.Calls.{Grows};
ghost use Rattle.fp_base.specs.Counters.{Rose};
ghost use Rattle.fp_base.specs.Faults.{AppendsPart};
ghost use Rattle.fp_load.specs.Load.{most_files};
ghost use Rattle.fp_top.specs.Words as spec;
ghost use Rattle.fp_top.specs.Outcome.{verdict, output};
ghost use Rattle.fp_top.specs.Top.{Fits, IsText, IsReadFault, TellsTheSame};

use crate::decide::decide;
use crate::refusal::status_of;
use crate::report::put_report;
use crate::status::Status;
use crate::write::tell;
use fp_base::{ClassDir, Sink};
use fp_report::PrintFault;
use std::alloc::Global;

/// Analyses the class files below a directory as the words ask, and writes the report of the least solution of the selected
/// equations to `out`. A refusal writes one text to `err` and leaves `out` as it was. The call always returns.
pub fn analyse_one<D: ClassDir, S: Sink>(
    alloc: Global,
    words: &[String],
    dir: &mut D,
    out: &mut S,
    err: &mut S,
) -> Status
    // The report, whole.
    ensures done { result ≡ Status.Done → IsTrue (D.tells dir.old) → S.told out.new ≡ append_known (S.told out.old) (output (texts words.now) (D.files dir.old)) }

    // The status is what the told files call for, but for faults and want of memory.
    ensures verdict { IsTrue (D.tells dir.old) → Fits result (verdict (texts words.now) (D.files dir.old)) }
    ensures usage { result ≡ Status.Usage → IsNone (spec.directory_of (texts words.now)) }
    ensures usage_exactly { IsNone (spec.directory_of (texts words.now)) → result ≡ Status.Usage }

    // Each fault has its cause.
    ensures write_fault { result ≡ Status.WriteFault → Rose (S.faults out.old) (S.faults out.new) }
    ensures read_fault { result ≡ Status.ReadFault → IsReadFault (texts words.now) (D.listed dir.new) (D.failed dir.old) (D.failed dir.new) (S.told err.old) (S.told err.new) }
    ensures no_fault { D.failed dir.new ≡ D.failed dir.old → result ≢ Status.ReadFault }
    ensures complete { IsTrue (D.tells dir.old) → verdict (texts words.now) (D.files dir.old) ≡ Status.Done → D.failed dir.new ≡ D.failed dir.old
        → (Rose (S.faults out.old) (S.faults out.new) → ⊥) → (result ≡ Status.Done) ⊎ (result ≡ Status.Memory) }

    // What the sinks and the directory are left with.
    ensures untouched { result ≢ Status.Done → result ≢ Status.WriteFault → result ≢ Status.Memory → out.new ≡ out.old }
    ensures part { IsTrue (D.tells dir.old) → AppendsPart (S.told out.old) (S.told out.new) (output (texts words.now) (D.files dir.old)) }
    ensures silent { result ≡ Status.Done → err.new ≡ err.old }
    ensures message { (text : List ℕ) × IsText (D.tells dir.old) (texts words.now) (D.files dir.old) result text × AppendsPart (S.told err.old) (S.told err.new) text }
    ensures files { D.files dir.new ≡ D.files dir.old }
    ensures kept { TellsTheSame (D.tells dir.old) (D.files dir.old) (D.tells dir.new) (D.files dir.new) }
    ensures grows { Grows (D.failed dir.old) (D.failed dir.new) }

    // Of too many files none is read.
    ensures unread { most_files < length (D.listed dir.new) → D.readings dir.new ≡ D.readings dir.old }
{
    match decide(alloc, words, dir) {
        Ok(run) => match put_report(alloc, run, out) {
            Ok(()) => Status::Done,
            Err(PrintFault::Write) => {
                let _ = err.put(b"write fault\n");
                Status::WriteFault
            }
            Err(PrintFault::Memory) => {
                let _ = err.put(b"out of memory\n");
                Status::Memory
            }
        },
        Err(refusal) => {
            tell(alloc, err, &refusal);
            status_of(&refusal)
        }
    }
}
