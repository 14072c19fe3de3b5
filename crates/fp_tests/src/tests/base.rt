//! Names, texts, and the directory and the sink in memory.

use super::table::check;
use fp_base::{
    ClassDir, MemDir, MemSink, Names, Sink, escape_name, escape_text, escaped_name_text,
    has_distinct_calls, sort_texts,
};
use indexmap::IndexMap;
use std::alloc::{AllocError, Global};
use std::str;
use std::test::Fail;

/// The number of each text, which is added where it is new.
fn numbers_text(alloc: Global, names: &mut Names, texts: &str) -> Result<String, AllocError> {
    let mut numbers = Vec::new(alloc);
    for text in texts.split(' ') {
        let number = names.intern(alloc, text.as_bytes());
        numbers.push(format!(in alloc; "{number:?}")?)?;
    }
    numbers.join(alloc, " ")
}

/// What a table of names tells of itself.
fn names_text(alloc: Global, names: &Names) -> Result<String, AllocError> {
    format!(in alloc;
        "{} {:?} {:?} {:?} {:?}",
        names.len(),
        names.find(b"main"),
        names.find(b"mai"),
        names.text(1),
        names.text(2)
    )
}

#[test]
fn a_name_keeps_its_number(rt: HostRuntime) -> Result<(), Fail> {
    let mut names = Names::new(rt.alloc());
    assert!(rt; names.is_empty());
    let numbers = numbers_text(
        rt.alloc(),
        &mut names,
        "java/lang/Object main java/lang/Object",
    )?;
    assert_eq!(rt; numbers.as_str(), "Ok(0) Ok(1) Ok(0)");
    let text = names_text(rt.alloc(), &names)?;
    assert_eq!(rt;
        text.as_str(),
        "2 Some(1) None Some([109, 97, 105, 110]) None"
    );
    Ok(())
}

/// Bytes in hexadecimal digits, each as a text is escaped and as a name is.
const ESCAPED: &str = "\
    20;\\x20 \\x20\n\
    21;! !\n\
    5c;\\x5c \\x5c\n\
    2c;\\x2c \\x2c\n\
    2e;. \\x2e\n\
    28;( \\x28\n\
    3a;: \\x3a\n\
    7e;~ ~\n\
    7f;\\x7f \\x7f\n\
    ff;\\xff \\xff\n\
    ";

fn escaped(alloc: Global, digits: &str) -> Result<String, Fail> {
    let byte = u8::from_str_radix(digits, 16)?;
    let mut text = Vec::new(alloc);
    escape_text(&[byte], &mut text)?;
    text.push(b' ')?;
    escape_name(&[byte], &mut text)?;
    Ok(String::from_utf8(text).ok().ok_or("no text")?)
}

#[test]
fn escapes_what_separates_and_what_does_not_print(rt: HostRuntime) -> Result<(), Fail> {
    check(&rt, rt.alloc(), ESCAPED, escaped)
}

#[test]
fn an_escaped_name_is_a_text(rt: HostRuntime) -> Result<(), Fail> {
    let name = escaped_name_text(rt.alloc(), b"a/B c.d")?;
    assert_eq!(rt; name.as_str(), "a/B\\x20c\\x2ed");
    Ok(())
}

/// The texts of a line, each with `|` before and behind it.
fn texts_of(alloc: Global, line: &str) -> Result<Vec<Vec<u8>>, AllocError> {
    let mut texts = Vec::new(alloc);
    for text in line.split('|') {
        texts.push(Vec::from_slice(alloc, text.as_bytes())?)?;
    }
    Ok(texts)
}

/// The same line with its texts in their order.
fn sorted_line(alloc: Global, line: &str) -> Result<String, Fail> {
    let texts = sort_texts(texts_of(alloc, line)?)?;
    let mut sorted = Vec::new(alloc);
    for text in &texts {
        sorted.push(b'|')?;
        sorted.extend_from_slice(text.as_slice())?;
    }
    Ok(String::from_utf8(sorted).ok().ok_or("no text")?)
}

#[test]
fn texts_stand_in_the_order_of_their_bytes(rt: HostRuntime) -> Result<(), Fail> {
    let sorted = sorted_line(rt.alloc(), "ab||b|a z|ab|a")?;
    assert_eq!(rt; sorted.as_str(), "||a|a z|ab|ab|b");
    Ok(())
}

/// The files of a directory in memory, with what each holds.
const FILES: &str = "\
    d/A.class=a\n\
    d/note.txt=b\n\
    d/e/B.class=c\n\
    dd/C.class=d\n\
    ";

fn add_file(alloc: Global, files: &mut IndexMap<String, Vec<u8>>, line: &str) -> Result<(), Fail> {
    let (path, text) = line.split_once('=').ok_or("no text")?;
    let bytes = Vec::from_slice(alloc, text.as_bytes())?;
    files.insert(String::from_str(alloc, path)?, bytes)?;
    Ok(())
}

/// That directory, which fails at these calls.
fn make_dir(alloc: Global, failing: Vec<u32>) -> Result<MemDir, Fail> {
    let mut files = IndexMap::new(alloc);
    for line in FILES.lines() {
        add_file(alloc, &mut files, line)?;
    }
    Ok(MemDir::new(alloc, files, failing))
}

/// The class files below a path, or the fault.
fn listing_text(alloc: Global, dir: &mut MemDir, path: &str) -> Result<String, AllocError> {
    match dir.list(alloc, path) {
        Ok(paths) => paths.join(alloc, " "),
        Err(fault) => format!(in alloc; "{fault:?}"),
    }
}

/// The same of one path after the other.
fn listings_text(alloc: Global, dir: &mut MemDir, paths: &str) -> Result<String, AllocError> {
    let mut texts = Vec::new(alloc);
    for path in paths.split(' ') {
        texts.push(listing_text(alloc, dir, path)?)?;
    }
    texts.join(alloc, "; ")
}

#[test]
fn lists_the_class_files_below(rt: HostRuntime) -> Result<(), Fail> {
    let mut dir = make_dir(rt.alloc(), vec![in rt.alloc(); 1]?)?;
    let text = listings_text(rt.alloc(), &mut dir, "d d d/e f")?;
    assert_eq!(rt;
        text.as_str(),
        "d/A.class d/e/B.class; Failed; d/e/B.class; "
    );
    Ok(())
}

/// What a file holds, or the fault.
fn reading_text(alloc: Global, dir: &mut MemDir, path: &str) -> Result<String, Fail> {
    match dir.read(alloc, path) {
        Ok(bytes) => Ok(String::from_utf8(bytes).ok().ok_or("no text")?),
        Err(fault) => Ok(format!(in alloc; "{fault:?}")?),
    }
}

/// The same of one file after the other.
fn readings_text(alloc: Global, dir: &mut MemDir, paths: &str) -> Result<String, Fail> {
    let mut texts = Vec::new(alloc);
    for path in paths.split(' ') {
        texts.push(reading_text(alloc, dir, path)?)?;
    }
    Ok(texts.join(alloc, " ")?)
}

#[test]
fn reads_told_files_alone(rt: HostRuntime) -> Result<(), Fail> {
    let mut dir = make_dir(rt.alloc(), vec![in rt.alloc(); 2, 3]?)?;
    let paths = "d/A.class d/Z.class d/A.class d/Z.class d/note.txt";
    let text = readings_text(rt.alloc(), &mut dir, paths)?;
    assert_eq!(rt; text.as_str(), "a Absent Failed Failed b");
    Ok(())
}

/// A directory in which a file is put twice, the second time longer than a class file may be.
fn long_dir(alloc: Global) -> Result<MemDir, AllocError> {
    let mut files = IndexMap::new(alloc);
    for length in [1, 4_194_306] {
        let bytes = vec![in alloc; 7u8; length]?;
        files.insert(String::from_str(alloc, "d/A.class")?, bytes)?;
    }
    Ok(MemDir::new(alloc, files, Vec::new(alloc)))
}

/// How many bytes are read of a file, if it is there.
fn read_length(alloc: Global, dir: &mut MemDir, path: &str) -> Option<usize> {
    let bytes = dir.read(alloc, path).ok()?;
    Some(bytes.len())
}

#[test]
fn reads_the_first_bytes_of_the_last_file_of_a_path(rt: HostRuntime) -> Result<(), Fail> {
    let mut dir = long_dir(rt.alloc())?;
    assert_eq!(rt;
        read_length(rt.alloc(), &mut dir, "d/A.class"),
        Some(4_194_305)
    );
    assert_eq!(rt; read_length(rt.alloc(), &mut dir, "d/B.class"), None);
    Ok(())
}

/// The answer to each piece, and what the sink holds behind it.
fn puts_text(alloc: Global, sink: &mut MemSink, pieces: &str) -> Result<String, Fail> {
    let mut texts = Vec::new(alloc);
    for piece in pieces.split(' ') {
        let answer = sink.put(piece.as_bytes());
        let told = str::from_utf8(sink.bytes())?;
        texts.push(format!(in alloc; "{answer:?} {told}")?)?;
    }
    Ok(texts.join(alloc, ", ")?)
}

#[test]
fn failing_puts_keep_their_part(rt: HostRuntime) -> Result<(), Fail> {
    let failing = vec![in rt.alloc(); (1, 2), (3, 9)]?;
    assert!(rt; has_distinct_calls(&failing));
    let mut sink = MemSink::new(rt.alloc(), failing);
    let text = puts_text(rt.alloc(), &mut sink, "ab cde  fg h")?;
    assert_eq!(rt;
        text.as_str(),
        "Ok(()) ab, Err(Failed) abcd, Ok(()) abcd, Err(Failed) abcdfg, Ok(()) abcdfgh"
    );
    Ok(())
}

#[test]
fn calls_in_two_pairs_are_told(rt: HostRuntime) {
    assert!(rt; has_distinct_calls(&[]));
    assert!(rt; has_distinct_calls(&[(0, 1), (2, 1), (1, 1)]));
    assert!(rt; !has_distinct_calls(&[(0, 1), (2, 1), (0, 2)]));
}
