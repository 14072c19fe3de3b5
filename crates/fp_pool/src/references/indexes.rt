//! The indexes of an entry: what they refer to, by its tag.
ghost use Rattle.std.specs.Prelude.{◌≡◌, ◌+◌, ◌^◌, ◌<◌, ℕ, Bool, List};
ghost use Rattle.fp_model.specs.Reading.{Gives};
ghost use Rattle.fp_model.specs.References as format;
ghost use Rattle.fp_model.specs.Entries.{text_at};

use fp_model::look_up::{CLASS, FIELD, INTERFACE_METHOD, METHOD, NAME_AND_TYPE, UTF8, tag};
use fp_model::{Entry, FileFault};

/// Checks that an index, which stands at an offset, is that of an entry of the tag.
fn check_tag(entries: &[Entry], wanted: u8, at: u32, index: u16) -> Result<(), FileFault>
    ensures { Gives result (format.tagged entries.now wanted at index) }
{
    if tag(entries, index) == wanted {
        Ok(())
    } else {
        Err(FileFault::Index { at, index })
    }
}

/// Checks an index of a text, of which it is known whether it is what is asked for.
#[tactic(auto, unfolding(fp_model::specs::References::text_checked))]
pub fn check_text(entries: &[Entry], at: u32, index: u16, passed: bool) -> Result<(), FileFault>
    ensures { (test : List ℕ → Bool) → passed ≡ format.holds_of test (text_at entries.now index)
        → Gives result (format.text_checked entries.now test at index) }
{
    check_tag(entries, UTF8, at, index)?;
    if passed {
        Ok(())
    } else {
        Err(FileFault::Descriptor { at })
    }
}

/// Checks an index of a name and type, of whose descriptor it is known whether it is what is asked for.
#[tactic(auto, unfolding(fp_model::specs::References::pair_described))]
pub fn check_pair(entries: &[Entry], at: u32, pair: u16, passed: bool) -> Result<(), FileFault>
    ensures { (test : List ℕ → Bool) → passed ≡ format.holds_of test (format.descr_at entries.now pair)
        → Gives result (format.pair_described entries.now test at pair) }
{
    check_tag(entries, NAME_AND_TYPE, at, pair)?;
    if passed {
        Ok(())
    } else {
        Err(FileFault::Descriptor { at })
    }
}

/// Checks a name and type, which is spelled at an offset.
#[tactic(auto, unfolding(fp_model::specs::References::pair_checked))]
pub fn check_name_and_type(
    entries: &[Entry],
    at: u32,
    name: u16,
    descr: u16,
    passed: bool,
) -> Result<(), FileFault>
    requires room { at + 5 < 2 ^ 32 }
    requires passed { passed ≡ format.holds_of format.is_descriptor (text_at entries.now descr) }
    ensures { Gives result (format.pair_checked entries.now at name descr) }
{
    check_tag(entries, UTF8, at + 1, name)?;
    check_text(entries, at + 3, descr, passed)
}

/// Checks a reference to a field or a method, which is spelled at an offset.
#[tactic(auto, unfolding(fp_model::specs::References::member_checked))]
pub fn check_member(
    entries: &[Entry],
    at: u32,
    class: u16,
    pair: u16,
    passed: bool,
) -> Result<(), FileFault>
    requires { at + 5 < 2 ^ 32 }
    ensures { (test : List ℕ → Bool) → passed ≡ format.holds_of test (format.descr_at entries.now pair)
        → Gives result (format.member_checked entries.now test at class pair) }
{
    check_tag(entries, CLASS, at + 1, class)?;
    check_pair(entries, at + 3, pair, passed)
}

/// Checks a method handle, which is spelled at an offset.
#[tactic(auto, unfolding(fp_model::specs::References::handle_checked))]
pub fn check_handle(entries: &[Entry], at: u32, kind: u8, index: u16) -> Result<(), FileFault>
    requires { at + 4 < 2 ^ 32 }
    ensures { Gives result (format.handle_checked entries.now at kind index) }
{
    if kind < 1 || kind > 9 {
        return Err(FileFault::Bounds { at: at + 1 });
    }
    if !suits_handle(kind, tag(entries, index)) {
        return Err(FileFault::Index { at: at + 2, index });
    }
    Ok(())
}

/// Whether a method handle of the kind refers to an entry of the tag.
fn suits_handle(kind: u8, tag: u8) -> bool
    ensures { result ≡ format.suits_handle kind tag }
{
    match kind {
        0..=4 => tag == FIELD,
        5 | 8 => tag == METHOD,
        6 | 7 => tag == METHOD || tag == INTERFACE_METHOD,
        _ => tag == INTERFACE_METHOD,
    }
}
