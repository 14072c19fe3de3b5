//! Runs over files that are too many or too long to be stored.
use super::files::words_of;
use fp_base::{MemDir, MemSink};
use fp_top::{Status, analyse_one};
use indexmap::IndexMap;
use std::alloc::{AllocError, Global};
use std::test::Fail;

/// How a run ended, and what it put to the output and to the error stream.
fn run_text(alloc: Global, files: IndexMap<String, Vec<u8>>, words: &str) -> Result<String, Fail> {
    let words = words_of(alloc, words)?;
    let mut dir = MemDir::new(alloc, files, Vec::new(alloc));
    let mut out = MemSink::new(alloc, Vec::new(alloc));
    let mut err = MemSink::new(alloc, Vec::new(alloc));
    let status = analyse_one(alloc, &words, &mut dir, &mut out, &mut err);
    ending_text(alloc, status, out.bytes(), err.bytes())
}

fn ending_text(alloc: Global, status: Status, out: &[u8], err: &[u8]) -> Result<String, Fail> {
    let out = std::str::from_utf8(out)?;
    let err = std::str::from_utf8(err)?;
    Ok(format!(in alloc; "{status:?}\n{out}{err}")?)
}

/// An entry of a constant pool that is a text, shorter than 256 bytes.
fn push_text(text: &str, bytes: &mut Vec<u8>) -> Result<(), AllocError> {
    bytes.extend_from_slice(&[1, 0, u8::try_from(text.len()).unwrap_or(0)])?;
    bytes.extend_from_slice(text.as_bytes())
}

/// A class of this name that extends another.
fn class_file(alloc: Global, name: &str, parent: &str) -> Result<Vec<u8>, AllocError> {
    let mut bytes = Vec::from_slice(alloc, &[0xCA, 0xFE, 0xBA, 0xBE, 0, 0, 0, 0x34, 0, 5])?;
    push_text(name, &mut bytes)?;
    bytes.extend_from_slice(&[7, 0, 1])?;
    push_text(parent, &mut bytes)?;
    bytes.extend_from_slice(&[7, 0, 3, 0, 0x21, 0, 2, 0, 4])?;
    bytes.extend_from_slice(&[0; 8])?;
    Ok(bytes)
}

/// So many classes, each of which extends the one before it.
fn chain(alloc: Global, count: u32) -> Result<IndexMap<String, Vec<u8>>, AllocError> {
    let mut files = IndexMap::new(alloc);
    let mut parent = String::from_str(alloc, "java/lang/Object")?;
    for number in 0..count {
        let name = format!(in alloc; "Link{number}")?;
        let path = format!(in alloc; "d/{name}.class")?;
        files.insert(path, class_file(alloc, name.as_str(), parent.as_str())?)?;
        parent = name;
    }
    Ok(files)
}

#[test]
fn a_chain_of_two_thousand_classes_is_reported(rt: HostRuntime) -> Result<(), Fail> {
    let files = chain(rt.alloc(), 2_000)?;
    let words = "--analyses declared --show declared --workers 1 d";
    let text = run_text(rt.alloc(), files, words)?;
    assert!(rt;
        text.starts_with(
            "Done\ndeclared Link0 final\ndeclared Link1 final\ndeclared Link10 final\n"
        )
    );
    assert!(rt; text.ends_with("declared Link999 final\ncells 2000\n"));
    Ok(())
}

#[test]
fn the_last_of_a_chain_is_reported(rt: HostRuntime) -> Result<(), Fail> {
    let files = chain(rt.alloc(), 2_000)?;
    let words = "--analyses declared --show declared=Link1999 --workers 1 d";
    let text = run_text(rt.alloc(), files, words)?;
    assert_eq!(rt;
        text.as_str(),
        "Done\ndeclared Link1999 final\ncells 2000\n"
    );
    Ok(())
}

/// A file that is cut short, and behind it one of a byte more than a file may have.
fn long_file(alloc: Global) -> Result<IndexMap<String, Vec<u8>>, AllocError> {
    let mut files = IndexMap::new(alloc);
    let long = vec![in alloc; 0u8; 4_194_305]?;
    files.insert(String::from_str(alloc, "d/B.class")?, long)?;
    let cut = Vec::from_slice(alloc, &[0xCA, 0xFE, 0xBA, 0xBE])?;
    files.insert(String::from_str(alloc, "d/A.class")?, cut)?;
    Ok(files)
}

#[test]
fn a_file_that_is_too_long_is_told_before_a_fault(rt: HostRuntime) -> Result<(), Fail> {
    let files = long_file(rt.alloc())?;
    let words = "--analyses declared --show declared --workers 1 d";
    let text = run_text(rt.alloc(), files, words)?;
    assert_eq!(rt; text.as_str(), "Limit\nlimit: file-bytes 4194304\n");
    Ok(())
}
