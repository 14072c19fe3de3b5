ghost use Rattle.std.specs.Prelude.{◌≡◌, ◌+◌, ◌<◌, ◌≤◌, length, codes, false, true, IfSome, IfNone, take_while};
ghost use Rattle.fp_model.specs.Descriptor.{dimensions, is_among, is_ended_name, is_element, is_field_descriptor, is_name_byte, StopsAt, IsBadAt};

/// The most dimensions that an array type may have (JVMS SE 21 section 4.4.1).
const MAX_DIMENSIONS: usize = 255;

/// The first place in a text where no field descriptor goes on (JVMS SE 21 section 4.3.2), none where it is one.
#[tactic(auto, using(crate::proofs::ArrayTypes::field_stops_at))]
pub fn bad_place(text: &[u8]) -> Option<usize>
    ensures none { IfNone result (is_field_descriptor text.now ≡ true) }
    ensures some { IfSome result (IsBadAt text.now) }
{
    let dims = count_dimensions(text);
    if dims > MAX_DIMENSIONS {
        return Some(MAX_DIMENSIONS);
    }
    match bad_place_of_element(&text[dims..]) {
        Some(place) => Some(dims + place),
        None => None,
    }
}

/// How many `[` a text begins with.
pub fn count_dimensions(text: &[u8]) -> usize
    ensures count { result ≡ dimensions text.now }
    ensures within { result ≤ length text.now }
{
    text.iter().take_while(|c| **c == b'[').count()
}

/// The first place where no type of an array's elements, which is no array itself, goes on.
#[tactic(auto, using(crate::proofs::ArrayTypes::element_stops))]
fn bad_place_of_element(text: &[u8]) -> Option<usize>
    ensures none { IfNone result (is_element text.now ≡ true) }
    ensures some { IfSome result (StopsAt is_element text.now) }
{
    match text {
        [] => Some(0),
        [b'L', rest @ ..] => match bad_place_of_name(rest) {
            Some(place) => Some(place + 1),
            None => None,
        },
        [first, rest @ ..] => {
            if !is_primitive(*first) {
                Some(0)
            } else if rest.is_empty() {
                None
            } else {
                Some(1)
            }
        }
    }
}

/// Whether a byte is the letter of a primitive type.
fn is_primitive(letter: u8) -> bool
    ensures { result ≡ is_among (codes "BCDFIJSZ") letter }
{
    matches!(
        letter,
        b'B' | b'C' | b'D' | b'F' | b'I' | b'J' | b'S' | b'Z'
    )
}

/// The first place where one or more bytes of a name, and a `;`, do not go on.
#[tactic(auto, using(crate::proofs::EndedNames::name_stops))]
fn bad_place_of_name(text: &[u8]) -> Option<usize>
    ensures none { IfNone result (is_ended_name text.now ≡ true) }
    ensures some { IfSome result (StopsAt is_ended_name text.now) }
{
    let len = count_name(text);
    if len == 0 || len == text.len() {
        return Some(len);
    }
    if text[len] != b';' {
        return Some(len);
    }
    if len + 1 < text.len() {
        Some(len + 1)
    } else {
        None
    }
}

/// How many bytes of a class name a text begins with.
pub fn count_name(text: &[u8]) -> usize
    ensures count { result ≡ length (take_while is_name_byte text.now) }
    ensures within { result ≤ length text.now }
{
    text.iter().take_while(|c| may_name(**c)).count()
}

/// Whether a class name in a descriptor may have a byte.
fn may_name(byte: u8) -> bool
    ensures { result ≡ is_name_byte byte }
{
    !matches!(byte, b'.' | b';' | b'[')
}
