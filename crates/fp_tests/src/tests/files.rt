//! Class files that tests make, and the sets of classes that they are read into.
ghost use Rattle.std.specs.Prelude.{All, IfOk};
ghost use Rattle.fp_model.specs.ClassSet.{methods_of};
ghost use Rattle.fp_model.specs.SoundCode.{IsSoundMethod};
ghost use Rattle.fp_facts.specs.Kinded.{IsKindedMethod};

use fp_base::{MemDir, Names};
use fp_class::{read_class, to_class};
use fp_facts::Loaded;
use fp_load::{LoadFault, load};
use fp_model::Class;
use fp_words::{Job, Order, read_words};
use indexmap::IndexMap;
use std::alloc::{AllocError, Global};
use std::test::Fail;

/// The words of a run, which parts them by spaces.
pub const WORDS: &str = "--analyses declared --show declared --workers 1 d";

/// The words of a text.
pub fn words_of(alloc: Global, text: &str) -> Result<Vec<String>, AllocError> {
    let mut words = Vec::new(alloc);
    for word in text.split_whitespace() {
        words.push(String::from_str(alloc, word)?)?;
    }
    Ok(words)
}

/// What the words of a text ask for.
pub fn job_of(alloc: Global, text: &str) -> Result<Job, Fail> {
    let words = words_of(alloc, text)?;
    match read_words(alloc, &words) {
        Ok(Order::Run(job)) => Ok(job),
        _ => Err("no run".into()),
    }
}

/// A class A, up to the length of the descriptor of its method m. The text at 6 is that descriptor, and 9 refers to m.
const HEAD: [u8; 45] = [
    0xCA, 0xFE, 0xBA, 0xBE, 0x00, 0x00, 0x00, 0x34, 0x00, 0x0A, 0x01, 0x00, 0x01, 0x41, 0x07, 0x00,
    0x01, 0x01, 0x00, 0x10, 0x6A, 0x61, 0x76, 0x61, 0x2F, 0x6C, 0x61, 0x6E, 0x67, 0x2F, 0x4F, 0x62,
    0x6A, 0x65, 0x63, 0x74, 0x07, 0x00, 0x03, 0x01, 0x00, 0x01, 0x6D, 0x01, 0x00,
];

/// From behind it to the length of the attribute of the method.
const MIDDLE: [u8; 39] = [
    0x01, 0x00, 0x04, 0x43, 0x6F, 0x64, 0x65, 0x0C, 0x00, 0x05, 0x00, 0x06, 0x0A, 0x00, 0x02, 0x00,
    0x08, 0x00, 0x21, 0x00, 0x02, 0x00, 0x04, 0x00, 0x00, 0x00, 0x00, 0x00, 0x01, 0x00, 0x09, 0x00,
    0x05, 0x00, 0x06, 0x00, 0x01, 0x00, 0x07,
];

/// The class file of a class A with a static method m of this descriptor, with two words on its stack and four local variables,
/// by its code and the rows of its exception table.
pub fn method_file(
    alloc: Global,
    descr: &str,
    code: &[u8],
    rows: &[u8],
) -> Result<Vec<u8>, AllocError> {
    let mut bytes = Vec::from_slice(alloc, &HEAD)?;
    bytes.push(u8::try_from(descr.len()).unwrap_or(0))?;
    bytes.extend_from_slice(descr.as_bytes())?;
    bytes.extend_from_slice(&MIDDLE)?;
    let count = u32::try_from(code.len()).unwrap_or(0);
    let rows_len = u32::try_from(rows.len()).unwrap_or(0);
    let length = count.wrapping_add(rows_len).wrapping_add(12);
    bytes.extend_from_slice(&length.to_be_bytes())?;
    bytes.extend_from_slice(&[0, 2, 0, 4])?;
    bytes.extend_from_slice(&count.to_be_bytes())?;
    bytes.extend_from_slice(code)?;
    let row_count = u16::try_from(rows.len() / 8).unwrap_or(0);
    bytes.extend_from_slice(&row_count.to_be_bytes())?;
    bytes.extend_from_slice(rows)?;
    bytes.extend_from_slice(&[0, 0, 0, 0])?;
    Ok(bytes)
}

/// The class of a class file.
pub fn class_of(alloc: Global, bytes: &[u8]) -> Result<Class, Fail>
    ensures { IfOk result (λ class. All IsSoundMethod class.methods) }
{
    if bytes.len() >= 1_000_000 {
        return Err("too long".into());
    }
    let raw = read_class(alloc, bytes)?;
    let mut names = Names::new(alloc);
    match to_class(alloc, &raw, &mut names) {
        Ok(Some(class)) => Ok(class),
        _ => Err("no class".into()),
    }
}

/// What is loaded of files, by the words of a run.
pub fn load_files(
    alloc: Global,
    files: IndexMap<String, Vec<u8>>,
) -> Result<Result<Loaded, LoadFault>, Fail>
    ensures sound { IfOk result (λ r. IfOk r (λ loaded. All IsSoundMethod (methods_of loaded.set.classes))) }
    ensures kinded { IfOk result (λ r. IfOk r (λ loaded. All IsKindedMethod (methods_of loaded.set.classes))) }
{
    let mut dir = MemDir::new(alloc, files, Vec::new(alloc));
    let job = job_of(alloc, WORDS)?;
    Ok(load(alloc, &mut dir, &job))
}

/// The set of one class file.
pub fn load_file(alloc: Global, bytes: Vec<u8>) -> Result<Loaded, Fail>
    ensures sound { IfOk result (λ loaded. All IsSoundMethod (methods_of loaded.set.classes)) }
    ensures kinded { IfOk result (λ loaded. All IsKindedMethod (methods_of loaded.set.classes)) }
{
    let mut files = IndexMap::new(alloc);
    files.insert(String::from_str(alloc, "d/A.class")?, bytes)?;
    match load_files(alloc, files)? {
        Ok(loaded) => Ok(loaded),
        Err(_) => Err("refused".into()),
    }
}
