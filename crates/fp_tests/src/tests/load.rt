//! How many files are read at most.

use fp_base::MemDir;
use fp_load::{LoadFault, load};
use fp_words::Job;
use indexmap::IndexMap;
use sqlite_items::Items;
use std::alloc::{AllocError, Global};
use std::test::Fail;

/// A directory of so many empty files, whose first reading fails.
fn many_files(alloc: Global, count: u32) -> Result<MemDir, AllocError> {
    let mut files = IndexMap::new(alloc);
    for number in 0..count {
        let path = format!(in alloc; "d/{}.class", number.saturating_add(10_000))?;
        files.insert(path, Vec::new(alloc))?;
    }
    Ok(MemDir::new(alloc, files, vec![in alloc; 1]?))
}

/// A run over the directory `d`.
fn job(alloc: Global) -> Result<Job, AllocError> {
    Ok(Job {
        dir: String::from_str(alloc, "d")?,
        roots: Items::new(alloc),
        analyses: Items::new(alloc),
        show: Items::new(alloc),
        workers: 1,
        assume: None,
        all: false,
        cycles: false,
    })
}

/// What comes of so many files.
fn outcome(alloc: Global, count: u32) -> Result<String, AllocError> {
    let mut dir = many_files(alloc, count)?;
    match load(alloc, &mut dir, &job(alloc)?) {
        Err(LoadFault::Read(path)) => format!(in alloc; "read {path}"),
        Err(LoadFault::Limit(limit, most)) => format!(in alloc; "limit {} {most}", limit.text()),
        _ => String::from_str(alloc, "no fault"),
    }
}

#[test]
fn no_file_is_read_where_there_are_too_many(rt: HostRuntime) -> Result<(), Fail> {
    for (count, text) in [
        (20_000, "read d/10000.class"),
        (20_001, "limit files 20000"),
    ] {
        assert_eq!(rt; outcome(rt.alloc(), count)?.as_str(), text);
    }
    Ok(())
}
