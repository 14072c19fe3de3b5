ghost use Rattle.std.specs.Prelude.{◌≡◌};
ghost use Rattle.fp_base.specs.Files as spec;

/// Whether a path lies below a directory and ends in `.class`.
pub fn is_class_file(dir: &str, path: &str) -> bool
    ensures { result ≡ spec.is_class_file dir.now path.now }
{
    let bytes = path.as_bytes();
    bytes.starts_with(dir.as_bytes())
        && bytes.get(dir.len()) == Some(&b'/')
        && bytes.ends_with(b".class")
}
