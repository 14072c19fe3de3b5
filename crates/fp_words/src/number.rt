//! Numbers in words.
ghost use Rattle.std.specs.Prelude.{◌≡◌};
ghost use Rattle.std.specs.Str.{all_ascii_digits};
ghost use Rattle.fp_words.specs.Numbers as spec;

/// The number of workers that a word writes: 1 to 64.
pub fn workers_of(word: &str) -> Option<u32>
    ensures { result ≡ spec.workers_of word.now }
{
    number_between(1, 64, word)
}

/// The number that a word writes, where it lies between two others.
pub fn number_between(least: u32, most: u32, word: &str) -> Option<u32>
    ensures { result ≡ spec.number_between least most word.now }
{
    if !is_numeral(word) {
        return None;
    }
    match word.parse::<u32>() {
        Ok(number) => {
            if least <= number && number <= most {
                Some(number)
            } else {
                None
            }
        }
        Err(_) => None,
    }
}

/// Whether a word has decimal digits alone, and no zero before others.
fn is_numeral(word: &str) -> bool
    ensures { result ≡ spec.is_numeral word.now }
{
    let bytes = word.as_bytes();
    if bytes.is_empty() {
        return false;
    }
    if bytes.len() > 1 && bytes[0] == b'0' {
        return false;
    }
    has_digits_alone(bytes)
}

// Whether each byte is a decimal digit.
fn has_digits_alone(bytes: &[u8]) -> bool
    ensures { result ≡ all_ascii_digits bytes.now }
{
    for byte in bytes {
        if !byte.is_ascii_digit() {
            return false;
        }
    }
    true
}
