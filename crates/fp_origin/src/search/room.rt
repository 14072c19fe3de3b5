//! How many pairs of a word and an origin a group adds.
ghost use Rattle.std.specs.Prelude.{◌≡◌, ◌≤◌, length};
ghost use Rattle.fp_origin.specs.Growth as defined;

use super::lowest::low_zeros;
use fp_facts::{Label, Origin};

/// The room for pairs that is left behind a group, by the labels of its words; none where it is too small.
pub(crate) fn room_after(room: u64, labels: &[Label<u64>], group: &[Origin]) -> Option<u64>
    ensures { defined.IsLeft room (defined.group_pairs group.now labels.now) result }
{
    let mut left = room;
    for label in labels {
        left = room_after_label(left, label, group)?;
    }
    Some(left)
}

// The room that is left behind a label.
fn room_after_label(room: u64, label: &Label<u64>, group: &[Origin]) -> Option<u64>
    ensures { defined.IsLeft room (defined.label_pairs group.now label.now) result }
{
    match label {
        Label::Frame { locals, stack } => {
            let left = room_after_words(room, locals.as_slice(), group)?;
            room_after_words(left, stack.as_slice(), group)
        }
        Label::Unreached | Label::Bad => Some(room),
    }
}

// The room that is left behind words.
fn room_after_words(room: u64, words: &[u64], group: &[Origin]) -> Option<u64>
    ensures { defined.IsLeft room (defined.words_pairs group.now words.now) result }
{
    let mut left = room;
    for word in words {
        left = room_after_word(left, *word, group)?;
    }
    Some(left)
}

// The room that is left behind a word.
fn room_after_word(room: u64, word: u64, group: &[Origin]) -> Option<u64>
    ensures { defined.IsLeft room (length (defined.chosen group.now word)) result }
{
    room.checked_sub(chosen_count(word, group) as u64)
}

// How many origins of a group a word tells.
fn chosen_count(word: u64, group: &[Origin]) -> usize
    ensures { result ≡ length (defined.chosen group.now word) }
{
    if word == 0 {
        return 0;
    }
    let first = low_zeros(word, group);
    count_from(word >> first, &group[first as usize..])
}

// How many they are, counted from the lowest bit on.
fn count_from(word: u64, group: &[Origin]) -> usize
    ensures { result ≡ length (defined.chosen group.now word) }
{
    let mut count = 0;
    let mut rest = word;
    for _origin in group {
        if rest == 0 {
            return count;
        }
        if rest % 2 == 1 {
            count += 1;
        }
        rest /= 2;
    }
    count
}
