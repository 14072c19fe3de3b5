//! The command line, read by `clap`.
ghost use Rattle.std.specs.Prelude.{◌≡◌, [], is_some, true, false, unwrap_or, codes, IfOk, IfErr, Some};
ghost use Rattle.clap.specs.Words.{app_of, found_of, rows_of, rule_of, all_of};
ghost use Rattle.clap.specs.declared.error.kind.ErrorKind.TheVariants.{OutOfMemory};
ghost use Rattle.fp_base.specs.Files.{texts};
ghost use Rattle.fp_words.specs.Asked.{run_of_job};
ghost use Rattle.fp_words.specs.Command.{run_app, run_in, root_rule, option_rule};
ghost use Rattle.fp_words.specs.Command as spec;
ghost use Rattle.fp_words.specs.Words.{run_asked};

use crate::fault::WordsFault;
use crate::job::Job;
use crate::list::{copies, list_items};
use crate::number::workers_of;
use clap::error::ErrorKind;
use clap::{Arg, ArgMatches, Command};
use sqlite_items::Items;
use std::alloc::{AllocError, Global};

/// The run that words of the grammar ask for.
///
/// # Errors
/// `Memory` where there is no memory for it.
pub(crate) fn read_run(alloc: Global, words: &[String]) -> Result<Job, WordsFault>
    requires { is_some (run_asked (texts words.now)) ≡ true }
    ensures run { IfOk result (λ job. run_asked (texts words.now) ≡ Some (run_of_job job)) }
    ensures memory { IfErr result (λ fault. fault ≡ WordsFault.Memory) }
{
    let matches = matches_of(alloc, words)?;
    let job = job_of(alloc, &matches)?;
    Ok(job)
}

// What `clap` finds in words of the grammar.
fn matches_of<'a>(alloc: Global, words: &'a [String]) -> Result<ArgMatches<'a>, WordsFault>
    requires { is_some (run_asked (texts words.now)) ≡ true }
    ensures run { IfOk result (λ matches. run_asked (texts words.entry.now) ≡ Some (run_in (rows_of (found_of matches)))) }
    ensures memory { IfErr result (λ fault. fault ≡ WordsFault.Memory) }
{
    let command = command(alloc)?;
    match command.try_get_matches_from(words) {
        Ok(matches) => Ok(matches),
        Err(error) => Err(fault_of(error.kind())),
    }
}

// Why the library failed.
fn fault_of(kind: ErrorKind) -> WordsFault
    ensures { kind ≡ OutOfMemory → result ≡ WordsFault.Memory }
{
    match kind {
        ErrorKind::OutOfMemory => WordsFault::Memory,
        _ => WordsFault::Usage,
    }
}

// The command of a run: its options, its directory and its roots.
fn command<'a>(alloc: Global) -> Result<Command<'a>, AllocError>
    ensures { IfOk result (λ command. app_of command ≡ run_app) }
{
    let command = Command::new(alloc, "fpcf")
        .no_binary_name(true)
        .disable_help_flag(true)
        .disable_version_flag(true);
    let command = command.arg(option(alloc, "analyses"))?;
    let command = command.arg(option(alloc, "show"))?;
    let command = command.arg(option(alloc, "workers"))?;
    let command = command.arg(Arg::new(alloc, "dir"))?;
    command.arg(roots(alloc))
}

// An option with a value in the next word.
fn option<'a>(alloc: Global, name: &'a str) -> Arg<'a>
    ensures rule { rule_of result ≡ option_rule name.entry.now }
    ensures local { result.global ≡ false }
{
    Arg::new(alloc, name).long(name)
}

// The roots, as many as there are.
fn roots<'a>(alloc: Global) -> Arg<'a>
    ensures rule { rule_of result ≡ root_rule }
    ensures local { result.global ≡ false }
{
    Arg::new(alloc, "root").num_args(1..)
}

// The job of the values that were read.
fn job_of(alloc: Global, matches: &ArgMatches<'_>) -> Result<Job, AllocError>
    ensures { IfOk result (λ job. run_of_job job ≡ run_in (rows_of (found_of matches.now))) }
{
    Ok(Job {
        dir: String::from_str(alloc, value_in(matches, "dir"))?,
        roots: roots_in(alloc, matches)?,
        analyses: list_items(alloc, value_in(matches, "analyses"))?,
        show: list_items(alloc, value_in(matches, "show"))?,
        workers: workers_of(value_in(matches, "workers")).unwrap_or(1),
        assume: None,
        all: false,
        cycles: false,
    })
}

// The roots that were given, in their order.
fn roots_in(alloc: Global, matches: &ArgMatches<'_>) -> Result<Items<String>, AllocError>
    ensures { IfOk result (λ roots. texts roots ≡ unwrap_or (all_of (codes "root") (rows_of (found_of matches.now))) []) }
{
    match matches.get_strs("root") {
        Some(roots) => copies(alloc, roots),
        None => Ok(Items::new(alloc)),
    }
}

// The value of an option or of the directory, or no text where it was not given.
fn value_in<'a>(matches: &ArgMatches<'a>, id: &str) -> &'a str
    ensures { result.now ≡ spec.value_in (rows_of (found_of matches.now)) id.now }
{
    matches.get_str(id).unwrap_or("")
}
