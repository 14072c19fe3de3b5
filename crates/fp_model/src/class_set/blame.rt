//! The name of the class that a refusal tells.
ghost use Rattle.std.specs.Prelude.{◌≡◌, ◌<◌, length, string_bytes, option_map, IfOk, All};
ghost use Rattle.fp_model.specs.ClassSet.{IsClassOver, earlier, least_text, marked_names};

use crate::class::Class;
use fp_base::{Names, escaped_name_text};
use std::alloc::{AllocError, Global};

/// The first, by its bytes, of the escaped names of those classes that are marked.
pub fn first_marked_name(
    alloc: Global,
    classes: &[Class],
    names: &Names,
    marks: &[bool],
) -> Result<Option<String>, AllocError>
    requires over { All (IsClassOver names.now) classes.now }
    requires marks { length marks.now ≡ length classes.now }
    ensures { IfOk result (λ name. option_map string_bytes name
        ≡ least_text (marked_names names.now classes.now marks.now)) }
{
    let mut first = None;
    for id in (0..classes.len()).rev() {
        if marks[id] {
            let name = names.text(classes[id].name).unwrap();
            first = Some(earlier_of(escaped_name_text(alloc, name)?, first));
        }
    }
    Ok(first)
}

// The one that comes first by its bytes.
fn earlier_of(text: String, other: Option<String>) -> String
    ensures { string_bytes result ≡ earlier (string_bytes text) (option_map string_bytes other) }
{
    let Some(other) = other else {
        return text;
    };
    if other.as_str() < text.as_str() {
        other
    } else {
        text
    }
}
