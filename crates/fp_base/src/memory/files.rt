ghost use Rattle.std.specs.Prelude.{◌≡◌, IfOk};
ghost use Rattle.std.specs.Option.{option_map};
ghost use Rattle.fp_base.specs.Files as spec;

use crate::outside::paths::is_class_file;
use indexmap::IndexMap;
use std::alloc::{AllocError, Global};

/// The contents of the file at a path. Takes no memory.
pub fn contents_at<'a>(files: &'a IndexMap<String, Vec<u8>>, path: &str) -> Option<&'a [u8]>
    ensures { option_map (λ bytes. bytes.now) result ≡ spec.bytes_at (spec.files_of files.now.entries) path.now }
{
    let bytes = files.get(path)?;
    Some(bytes.as_slice())
}

/// The paths of the class files below a directory, in the files' order.
pub fn class_paths(
    alloc: Global,
    files: &IndexMap<String, Vec<u8>>,
    dir: &str,
) -> Result<Vec<String>, AllocError>
    ensures { IfOk result (λ paths. spec.texts paths.items ≡ spec.class_paths (spec.files_of files.now.entries) dir.now) }
{
    let mut paths = Vec::new(alloc);
    for (path, _) in files {
        if is_class_file(dir, path.as_str()) {
            paths.push(String::from_str(alloc, path.as_str())?)?;
        }
    }
    Ok(paths)
}
