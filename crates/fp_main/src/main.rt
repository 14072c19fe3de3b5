//! The program `fpcf`: the analyser over the files and the standard streams of the system.
#![tactic(auto)]

ghost use Rattle.std.specs.Prelude.{◌≡◌, ◌↔◌};
ghost use Rattle.std.specs.IoError.{error_kind};
ghost use Rattle.std.specs.declared.io.ErrorKind.TheVariants.{OutOfMemory};
ghost use Rattle.fp_base.specs.Faults.{AppendsPart};
ghost use Rattle.fp_top.specs.Outcome.{memory_text};
ghost use Rattle.fp_main.specs.declared.ArgumentFault.TheVariants.{Memory};
ghost use Rattle.fp_main.specs.Status as spec;

use fp_base::{HostDir, HostSink, Sink};
use fp_top::{Status, analyse_one};
use std::alloc::{AllocError, Global};
use std::io::ErrorKind;
use std::process::ExitCode;
use std::{env, io};

/// The status of the process for each way that a run ends.
fn exit_code(status: Status) -> u8
    ensures { result ≡ spec.exit_code status }
{
    match status {
        Status::Done => 0,
        Status::Refused => 1,
        Status::Usage => 2,
        Status::ReadFault => 3,
        Status::WriteFault => 4,
        Status::Selection => 5,
        Status::Limit => 6,
        Status::Memory => 7,
    }
}

/// Why the arguments of the process give no words.
#[derive(Clone, Copy, Debug, PartialEq, Eq)]
enum ArgumentFault {
    /// An argument is no text.
    NoText,
    /// Memory ran out.
    Memory,
}

impl From<AllocError> for ArgumentFault {
    ghost from_gives = { λ _ fault. fault ≡ Memory };

    fn from(_: AllocError) -> ArgumentFault {
        ArgumentFault::Memory
    }
}

impl From<io::Error> for ArgumentFault {
    ghost from_gives = { λ error fault. (fault ≡ Memory) ↔ (error_kind error ≡ OutOfMemory) };

    fn from(error: io::Error) -> ArgumentFault {
        match error.kind() {
            ErrorKind::OutOfMemory => ArgumentFault::Memory,
            _ => ArgumentFault::NoText,
        }
    }
}

/// The words behind the name of the program.
fn words_of(alloc: Global, rt: &HostRuntime) -> Result<Vec<String>, ArgumentFault> {
    let words = env::args(rt)?.skip(1).collect::<Vec<String>>(alloc)?;
    Ok(words)
}

/// Ends a run for want of memory, before it began.
fn end_without_memory<S: Sink>(err: &mut S) -> Status
    ensures status { result ≡ Status.Memory }
    ensures message { AppendsPart (S.told err.old) (S.told err.new) memory_text }
{
    let _ = err.put(b"out of memory\n");
    Status::Memory
}

fn main(rt: HostRuntime) -> ExitCode {
    let alloc = rt.alloc();
    let mut out = HostSink::output(&rt);
    let mut err = HostSink::fault_output(&rt);
    let mut dir = HostDir::new(alloc, &rt);
    let status = match words_of(alloc, &rt) {
        Ok(words) => analyse_one(alloc, &words, &mut dir, &mut out, &mut err),
        // An argument that is no text is a faulty word.
        Err(ArgumentFault::NoText) => analyse_one(alloc, &[], &mut dir, &mut out, &mut err),
        Err(ArgumentFault::Memory) => end_without_memory(&mut err),
    };
    ExitCode::from(exit_code(status))
}
