ghost use Rattle.std.specs.Prelude.{◌≡◌, ℕ, List, ◌^◌, ◌<◌, ◌≤◌, [], ◌∷◌, length, take, false, true, IfSome, IfNone, IfOk, IfErr};
ghost use Rattle.fp_model.specs.Descriptor.{element_len, field_len, first_field, is_field_descriptor, is_method_descriptor, is_result, parameter_words, parameters, words_of, words_of_all, result_of, IsMethodOf, StopsAt, TellsParts};

use super::place::{bad_place, count_dimensions, count_name};

/// Whether a text is a method descriptor (JVMS SE 21 section 4.3.3).
pub fn is_descr(text: &[u8]) -> bool
    ensures { result ≡ is_method_descriptor text.now }
{
    bad_place_of_method(text).is_none()
}

/// The words of a frame that the arguments of a method take, without a receiver, by its descriptor. A long or
/// double takes two. None where the text is no method descriptor.
pub fn arg_words(text: &[u8]) -> Option<u32>
    requires { length text.now < 2 ^ 31 }
    ensures { result ≡ parameter_words text.now }
{
    if is_descr(text) {
        Some(count_words(text))
    } else {
        None
    }
}

/// A law: a text is a method descriptor exactly where the grammar of section 4.3.3 makes it one, and then its parts
/// are those of the grammar.
pub fn law_method_descriptor()
    ensures parts { (text : List ℕ) → is_method_descriptor text ≡ true → IsMethodOf text (parameters text) (result_of text) }
    ensures whole { (text : List ℕ) (fields : List (List ℕ)) (last : List ℕ)
        → IsMethodOf text fields last → TellsParts text fields last }
{}

/// The words of the parameters of a method descriptor.
fn count_words(text: &[u8]) -> u32
    requires short { length text.now < 2 ^ 31 }
    requires method { is_method_descriptor text.now ≡ true }
    ensures { result ≡ words_of_all (parameters text.now) }
{
    let mut words = 0;
    let mut at = 1;
    while text[at] != b')' {
        words += words_by_letter(text[at]);
        at += count_field(&text[at..]);
    }
    words
}

/// The words of a value, by the first letter of its descriptor.
fn words_by_letter(letter: u8) -> u32
    ensures { result ≡ words_of (letter ∷ []) }
{
    match letter {
        b'D' | b'J' => 2,
        _ => 1,
    }
}

/// The first place in a text where no method descriptor goes on, none where it is one.
pub fn bad_place_of_method(text: &[u8]) -> Option<usize>
    ensures none { IfNone result (is_method_descriptor text.now ≡ true) }
    ensures some { IfSome result (StopsAt is_method_descriptor text.now) }
{
    if text.is_empty() {
        return Some(0);
    }
    if text[0] != b'(' {
        return Some(0);
    }
    let mut at = 1;
    while at < text.len() {
        if text[at] == b')' {
            return match bad_place_of_result(&text[at + 1..]) {
                Some(place) => Some(at + 1 + place),
                None => None,
            };
        }
        match len_of_first(&text[at..]) {
            Ok(len) => at += len,
            Err(place) => return Some(at + place),
        }
    }
    Some(at)
}

/// The length of the field descriptor that a text begins with, or the first place where none goes on.
#[tactic(auto, using(crate::proofs::MethodTypes::field_fits))]
fn len_of_first(text: &[u8]) -> Result<usize, usize>
    ensures len { IfOk result (λ len. (len ≡ field_len text.now) × (len ≤ length text.now)
        × (is_field_descriptor (first_field text.now) ≡ true)) }
    ensures place { IfErr result (λ place. (is_field_descriptor (first_field text.now) ≡ false)
        × StopsAt is_field_descriptor (first_field text.now) place) }
{
    let len = count_field(text);
    match bad_place(front(text, len)) {
        Some(place) => Err(place),
        None => Ok(len),
    }
}

/// So many bytes of a text, or all of them.
pub fn front(text: &[u8], len: usize) -> &[u8]
    ensures { result.now ≡ take len text.now }
{
    if len < text.len() { &text[..len] } else { text }
}

/// How many bytes a field descriptor takes at the front of a text.
pub fn count_field(text: &[u8]) -> usize
    ensures { result ≡ field_len text.now }
{
    let dims = count_dimensions(text);
    dims + count_element(&text[dims..])
}

/// How many bytes the type of an array's elements takes at the front of a text.
fn count_element(text: &[u8]) -> usize
    ensures { result ≡ element_len text.now }
{
    match text {
        [b'L', rest @ ..] => count_name(rest) + 2,
        _ => 1,
    }
}

/// The first place where no result of a method goes on.
#[tactic(auto, using(crate::proofs::MethodTypes::results))]
fn bad_place_of_result(text: &[u8]) -> Option<usize>
    ensures none { IfNone result (is_result text.now ≡ true) }
    ensures some { IfSome result (StopsAt is_result text.now) }
{
    if text.is_empty() {
        return bad_place(text);
    }
    if text[0] != b'V' {
        return bad_place(text);
    }
    if text.len() == 1 { None } else { Some(1) }
}
