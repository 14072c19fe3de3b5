//! The lowest bits of a word, none of which is set.
ghost use Rattle.std.specs.Prelude.{◌≡◌, ◌≤◌, ◌<◌, ◌/◌, ◌^◌, length, drop};
ghost use Rattle.fp_origin.specs.Growth as defined;

use fp_facts::Origin;

/// How many first origins of a group may be passed over with as many low bits of a word, since it tells none of them.
pub(crate) fn low_zeros(word: u64, group: &[Origin]) -> u32
    ensures few { result < 64 }
    ensures within { result ≤ length group.now }
    ensures same { defined.chosen (drop result group.now) (word / 2 ^ result) ≡ defined.chosen group.now word }
{
    if word == 0 {
        return 0;
    }
    let zeros = word.trailing_zeros();
    if (zeros as usize) < group.len() {
        zeros
    } else {
        0
    }
}
