//! Whether words are of the grammar, found without memory.
ghost use Rattle.std.specs.Prelude.{◌≡◌, ◌≤◌, is_some, option_map, length};
ghost use Rattle.std.specs.List.{list_all};
ghost use Rattle.fp_base.specs.Files.{texts};
ghost use Rattle.fp_words.specs.Words as spec;
ghost use Rattle.fp_words.specs.Asked.{given_of, parts_of, word_at, has_values, has_option};

use crate::list::is_list;
use crate::number::workers_of;

/// The values of the options that were given.
#[derive(Clone, Copy, Debug)]
pub(crate) struct Given<'a> {
    pub(crate) analyses: Option<&'a str>,
    pub(crate) show: Option<&'a str>,
    pub(crate) workers: Option<&'a str>,
}

/// Whether the words ask for a run. Takes no memory.
pub(crate) fn is_run(words: &[String]) -> bool
    ensures { result ≡ is_some (spec.run_asked (texts words.now)) }
{
    match read_options(words) {
        Some((given, rest)) => completes(given, rest),
        None => false,
    }
}

// Whether the words after the options make up a run with them.
fn completes(given: Given<'_>, rest: &[String]) -> bool
    ensures { result ≡ is_some (spec.run_of (given_of given.entry) (texts rest.now)) }
{
    if rest.is_empty() {
        return false;
    }
    if !are_plain(rest) {
        return false;
    }
    has_each_value(given)
}

// The options in front of the first plain word, and the words from there on.
fn read_options(words: &[String]) -> Option<(Given<'_>, &[String])>
    ensures { option_map parts_of result ≡ spec.options_of spec.none_given (texts words.now) }
{
    let mut given = Given {
        analyses: None,
        show: None,
        workers: None,
    };
    let mut at = 0;
    while has_option_at(words, at) {
        given = with_option(given, word_at(words, at), word_at(words, at + 1))?;
        at += 2;
    }
    Some((given, &words[at..]))
}

// Whether two words stand at a place, and the first is not plain.
fn has_option_at(words: &[String], at: usize) -> bool
    requires { at ≤ length words.now }
    ensures { result ≡ has_option (texts words.now) at }
{
    at + 1 < words.len() && !is_plain(word_at(words, at))
}

// The options with one more, where it was not given before and its value is plain.
fn with_option<'a>(given: Given<'a>, option: &str, value: &'a str) -> Option<Given<'a>>
    ensures { option_map given_of result ≡ spec.with_option (given_of given.entry) option.now value.now }
{
    if !is_plain(value) {
        return None;
    }
    if option == "--analyses" {
        if given.analyses.is_some() {
            return None;
        }
        return Some(Given {
            analyses: Some(value),
            ..given
        });
    }
    if option == "--show" {
        if given.show.is_some() {
            return None;
        }
        return Some(Given {
            show: Some(value),
            ..given
        });
    }
    if option != "--workers" || given.workers.is_some() {
        return None;
    }
    Some(Given {
        workers: Some(value),
        ..given
    })
}

// Whether each option was given, with a value of its form.
fn has_each_value(given: Given<'_>) -> bool
    ensures { result ≡ has_values (given_of given.entry) }
{
    match (given.analyses, given.show, given.workers) {
        (Some(analyses), Some(show), Some(workers)) => {
            is_list(analyses) && is_list(show) && workers_of(workers) == Some(1)
        }
        _ => false,
    }
}

// Whether each word is plain.
fn are_plain(words: &[String]) -> bool
    ensures { result ≡ list_all spec.is_plain (texts words.now) }
{
    for word in words {
        if !is_plain(word) {
            return false;
        }
    }
    true
}

// Whether a word may stand for anything but an option: it is not empty, and begins with no `-`.
fn is_plain(word: &str) -> bool
    ensures { result ≡ spec.is_plain word.now }
{
    match word.as_bytes() {
        [] => false,
        [first, ..] => *first != b'-',
    }
}

// The word at a place, or no text where there is none.
fn word_at(words: &[String], place: usize) -> &str
    ensures { result.now ≡ word_at (texts words.now) place }
{
    match words.get(place) {
        Some(word) => word.as_str(),
        None => "",
    }
}
