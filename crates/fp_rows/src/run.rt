ghost use Rattle.std.specs.Prelude.{◌≡◌};
ghost use Rattle.fp_rows.specs.Status as spec;

use crate::case::{Case, Given};
use anyhow::{Result, bail};
use fp_base::{ClassDir, HostDir, MemDir, MemSink, has_distinct_calls};
use fp_top::{Status, analyse_one};
use indexmap::IndexMap;
use std::alloc::Global;
use std::io;
use std::rt::Files;

/// Runs the analyser on a case, and prints its name, how the run ended, and what was put to the output and the error stream.
pub fn run_case<R: Files + Print>(
    rt: &R,
    alloc: Global,
    data: &mut HostDir<R>,
    case: Case,
) -> Result<()> {
    let Case {
        name,
        files,
        calls,
        out,
        err,
        words,
    } = case;
    let files = read_files(alloc, data, &files)?;
    if !has_distinct_calls(&out) || !has_distinct_calls(&err) {
        bail!("a piece stands twice in the case {name}");
    }
    let mut dir = MemDir::new(alloc, files, calls);
    let mut out = MemSink::new(alloc, out);
    let mut err = MemSink::new(alloc, err);
    let status = analyse_one(alloc, &words, &mut dir, &mut out, &mut err);
    println!(rt; "== {name}: {}", status_name(status))?;
    print_text(rt, "out", out.bytes())?;
    print_text(rt, "err", err.bytes())?;
    Ok(())
}

/// The files of a case with their bytes, by their paths.
fn read_files<R: Files>(
    alloc: Global,
    data: &mut HostDir<R>,
    given: &[Given],
) -> Result<IndexMap<String, Vec<u8>>> {
    let mut files = IndexMap::new(alloc);
    for Given { path, file } in given {
        let stored = format!(in alloc; "files/{file}.class")?;
        let Ok(bytes) = data.read(alloc, stored.as_str()) else {
            bail!("{stored} can't be read");
        };
        if files.insert(path.clone()?, bytes)?.is_some() {
            bail!("{path} stands twice");
        }
    }
    Ok(files)
}

/// Prints a text with its number of bytes. Nothing is printed of an empty one.
fn print_text<R: Print>(rt: &R, title: &str, text: &[u8]) -> io::Result<()> {
    if text.is_empty() {
        return Ok(());
    }
    println!(rt; "-- {title}, {} bytes", text.len())?;
    rt.write_all(text)?;
    if !text.ends_with(b"\n") {
        println!(rt;)?;
    }
    Ok(())
}

/// The name of a way that a run ends.
fn status_name(status: Status) -> &'static str
    ensures { result.now ≡ spec.status_name status }
{
    match status {
        Status::Done => "done",
        Status::Refused => "refused",
        Status::Usage => "usage",
        Status::ReadFault => "read fault",
        Status::WriteFault => "write fault",
        Status::Selection => "selection",
        Status::Limit => "limit",
        Status::Memory => "memory",
    }
}
