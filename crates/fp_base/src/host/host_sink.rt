ghost use Rattle.std.specs.Prelude.{◌≡◌, None, OnOk, OnErr, IsErrOf};
ghost use Rattle.fp_base.specs.Counters.{one_more};
ghost use Rattle.fp_base.specs.Faults.{AppendsPart, HasSinkCause};

use crate::outside::sink::{Sink, SinkFault};
use std::io::{Error, ErrorKind};
use std::marker::Model;
use std::{io, str};

/// The standard output or the standard error of the process. It tells nothing of what it has taken.
#[derive(Drop)]
pub struct HostSink<'a, R: Print + Eprint> {
    rt: &'a R,
    stream: Stream,
    faults: u64,
}

impl<'a, R: Print + Eprint> Model for HostSink<'a, R> {
    ghost use Rattle.fp_base.specs.Host.{HostSinkState};

    ghost Value = { HostSinkState };

    ghost view = { λ s. record { faults = s.faults } };
}

#[derive(Clone, Copy)]
enum Stream {
    Output,
    FaultOutput,
}

impl<'a, R: Print + Eprint> HostSink<'a, R> {
    /// The standard output.
    pub fn output(rt: &'a R) -> HostSink<'a, R>
        ensures { result.faults ≡ 0 }
    {
        HostSink {
            rt,
            stream: Stream::Output,
            faults: 0,
        }
    }

    /// The standard error, for texts: it takes no piece that isn't UTF-8.
    pub fn fault_output(rt: &'a R) -> HostSink<'a, R>
        ensures { result.faults ≡ 0 }
    {
        HostSink {
            rt,
            stream: Stream::FaultOutput,
            faults: 0,
        }
    }
}

/// Writes the whole piece. A write that takes nothing of a rest is an error.
fn write_output(rt: &impl Print, piece: &[u8]) -> io::Result<()> {
    let mut rest = piece;
    while !rest.is_empty() {
        let written = rt.write_some(rest)?;
        if written == 0 {
            return Err(Error::from(ErrorKind::WriteZero));
        }
        rest = &rest[written..];
    }
    Ok(())
}

/// Prints the whole piece, which is an error where it is no text.
fn print_fault(rt: &impl Eprint, piece: &[u8]) -> io::Result<()> {
    match str::from_utf8(piece) {
        Ok(text) => rt.eprint(text),
        Err(_) => Err(Error::from(ErrorKind::InvalidData)),
    }
}

impl<'a, R: Print + Eprint> Sink for HostSink<'a, R> {
    ghost told = { λ _. None };

    ghost faults = { λ s. s.faults };

    fn put(&mut self, piece: &[u8]) -> Result<(), SinkFault>
        ensures ok { OnOk result (self.new ≡ self.old) }
        ensures err { OnErr result (self.new.faults ≡ one_more self.old.faults) }
        ensures memory { IsErrOf result SinkFault.Memory → ⊥ }

        // What each sink promises, where these don't say it.
        ensures prefix { OnErr result (AppendsPart None None piece.now) }
        ensures cause { HasSinkCause self.old.faults self.new.faults result }
    {
        let written = match self.stream {
            Stream::Output => write_output(self.rt, piece),
            Stream::FaultOutput => print_fault(self.rt, piece),
        };
        if written.is_err() {
            self.faults = self.faults.saturating_add(1);
            return Err(SinkFault::Failed);
        }
        Ok(())
    }
}

#[cfg(test)]
mod tests {
    use super::*;
    use std::cell::Cell;
    use std::fmt::Display;

    /// A printer that takes two bytes at a time, and five in all.
    #[derive(Drop)]
    struct Narrow {
        taken: Cell<usize>,
    }

    impl Print for Narrow {
        fn print<D: Display + Drop>(&self, _value: D) -> io::Result<()> {
            Err(Error::from(ErrorKind::Unsupported))
        }

        fn println<D: Display + Drop>(&self, _value: D) -> io::Result<()> {
            Err(Error::from(ErrorKind::Unsupported))
        }

        fn write_all(&self, _bytes: &[u8]) -> io::Result<()> {
            Err(Error::from(ErrorKind::Unsupported))
        }

        fn write_some(&self, bytes: &[u8]) -> io::Result<usize> {
            let taken = self.taken.get();
            let written = bytes.len().min(2).min(5usize.saturating_sub(taken));
            self.taken.set(taken.saturating_add(written));
            Ok(written)
        }
    }

    impl Eprint for Narrow {
        fn eprint<D: Display + Drop>(&self, _value: D) -> io::Result<()> {
            Err(Error::from(ErrorKind::Unsupported))
        }

        fn eprintln<D: Display + Drop>(&self, _value: D) -> io::Result<()> {
            Err(Error::from(ErrorKind::Unsupported))
        }
    }

    #[test]
    fn pieces_are_written_whole_or_counted(rt: HostRuntime) {
        let narrow = Narrow {
            taken: Cell::new(0),
        };
        let mut output = HostSink::output(&narrow);
        for (piece, answer, taken) in [
            ("abc", Ok(()), 3),
            ("", Ok(()), 3),
            ("de", Ok(()), 5),
            ("f", Err(SinkFault::Failed), 5),
        ] {
            assert_eq!(rt; output.put(piece.as_bytes()), answer, "at {piece}");
            assert_eq!(rt; narrow.taken.get(), taken, "after {piece}");
        }
        assert_eq!(rt; output.faults, 1);
    }

    #[test]
    fn the_fault_output_takes_text_alone(rt: HostRuntime) {
        assert_eq!(rt; HostSink::output(&rt).put(b"output\n"), Ok(()));
        let mut fault_output = HostSink::fault_output(&rt);
        for (piece, answer, faults) in [
            (b"fault output\n".as_slice(), Ok(()), 0),
            (b"\xff", Err(SinkFault::Failed), 1),
        ] {
            assert_eq!(rt; fault_output.put(piece), answer);
            assert_eq!(rt; fault_output.faults, faults);
        }
    }
}
