ghost use Rattle.std.specs.Prelude.{◌≡◌};
ghost use Rattle.fp_rows.specs.Line as spec;

use anyhow::{Context, Result, bail};
use std::alloc::Global;

/// A file that a case has: its path, and the name of the stored file with its bytes.
#[derive(Drop)]
pub struct Given {
    pub path: String,
    pub file: String,
}

/// A case: what the analyser is given, and where the outside fails.
#[derive(Drop)]
pub struct Case {
    pub name: String,
    pub files: Vec<Given>,
    /// The numbers of the calls of the directory that fail.
    pub calls: Vec<u32>,
    /// The numbers of the pieces that the output fails to take, with how many bytes it keeps of each.
    pub out: Vec<(u32, u32)>,
    /// The same of the error stream.
    pub err: Vec<(u32, u32)>,
    pub words: Vec<String>,
}

/// Whether a line of the file of cases is a case.
pub fn is_case(line: &str) -> bool
    ensures { result ≡ spec.is_case line.now }
{
    let bytes = line.as_bytes();
    !bytes.is_empty() && bytes[0] != b'#'
}

/// The case that a line says.
pub fn read_case(alloc: Global, line: &str) -> Result<Case> {
    let (name, rest) = line.split_once('|').context("no | behind the name")?;
    let (given, words) = rest.split_once('|').context("no | before the words")?;
    let mut case = Case {
        name: String::from_str(alloc, name.trim())?,
        files: Vec::new(alloc),
        calls: Vec::new(alloc),
        out: Vec::new(alloc),
        err: Vec::new(alloc),
        words: read_words(alloc, words)?,
    };
    for item in given.split_whitespace() {
        add_item(alloc, &mut case, item)?;
    }
    Ok(case)
}

/// The words of a text, which spaces part.
fn read_words(alloc: Global, text: &str) -> Result<Vec<String>> {
    let mut words = Vec::new(alloc);
    for word in text.split_whitespace() {
        words.push(String::from_str(alloc, word)?)?;
    }
    Ok(words)
}

/// Adds what a case is given by one item: a file, or a call that fails.
fn add_item(alloc: Global, case: &mut Case, item: &str) -> Result<()> {
    if let Some((path, file)) = item.split_once('=') {
        case.files.push(Given {
            path: String::from_str(alloc, path)?,
            file: String::from_str(alloc, file)?,
        })?;
        return Ok(());
    }
    let (kind, numbers) = item.split_once(':').context("neither = nor :")?;
    match kind {
        "call" => case.calls.push(numbers.parse::<u32>()?)?,
        "out" => case.out.push(read_put(numbers)?)?,
        "err" => case.err.push(read_put(numbers)?)?,
        _ => bail!("an item of another kind"),
    }
    Ok(())
}

/// The number of a piece, and how many bytes of it are kept.
fn read_put(numbers: &str) -> Result<(u32, u32)> {
    let (piece, kept) = numbers.split_once(':').context("no : between numbers")?;
    Ok((piece.parse::<u32>()?, kept.parse::<u32>()?))
}
