//! The join of labels, whose words are of any sort.
ghost use Rattle.std.specs.Prelude.{◌≡◌, ◌≢◌, IfOk, IsTrue, OnOk, false, length};
ghost use Rattle.fp_facts.specs.Frames as frames;

use crate::word::Word;
use fp_facts::Label;
use sqlite_items::Items;
use std::alloc::{AllocError, Global};

/// Whether a join changes no word.
fn is_above<W: Word>(words: &[W], more: &[W]) -> bool
    requires { length words.now ≡ length more.now }
    ensures same { IsTrue result → frames.join_words W.join words.now more.now ≡ words.now }
    ensures apart { result ≡ false → frames.join_words W.join words.now more.now ≢ words.now }
{
    for (at, word) in words.iter().enumerate() {
        if !word.joined(more[at]).is(*word) {
            return false;
        }
    }
    true
}

/// Joins words into as many others.
fn join_words<W: Word>(into: &mut Items<W>, more: &[W])
    requires { length into.old ≡ length more.now }
    ensures { into.new ≡ frames.join_words W.join into.old more.now }
{
    for (at, word) in more.iter().enumerate() {
        let old = into.as_slice()[at];
        into.set(at, old.joined(*word));
    }
}

/// Joins words into as many others, and tells whether that changed any.
fn join_frame<W: Word>(into: &mut Items<W>, more: &[W]) -> bool
    requires { length into.old ≡ length more.now }
    ensures value { into.new ≡ frames.join_words W.join into.old more.now }
    ensures same { result ≡ false → into.new ≡ into.old }
    ensures changed { IsTrue result → into.new ≢ into.old }
{
    if is_above(into.as_slice(), more) {
        return false;
    }
    join_words(into, more);
    true
}

/// Joins `Bad` into a label, and tells whether that changed.
fn join_bad<W: Word>(into: &mut Label<W>) -> bool
    ensures value { into.new ≡ frames.join_labels W.join into.old Label.Bad }
    ensures same { result ≡ false → into.new ≡ into.old }
    ensures changed { IsTrue result → into.new ≢ into.old }
{
    match into {
        Label::Bad => false,
        _ => {
            *into = Label::Bad;
            true
        }
    }
}

/// Joins a frame into a label, and tells whether that changed. The frame is copied where no way led there.
fn join_with_frame<W: Word>(
    alloc: Global,
    into: &mut Label<W>,
    locals: &[W],
    stack: &[W],
) -> Result<bool, AllocError>
    ensures value { OnOk result (into.new ≡ frames.join_labels W.join into.old (Label.Frame locals.now stack.now)) }
    ensures same { IfOk result (λ changed. changed ≡ false → into.new ≡ into.old) }
    ensures changed { IfOk result (λ changed. IsTrue changed → into.new ≢ into.old) }
{
    match into {
        Label::Unreached => {
            let locals = Items::from_slice(alloc, locals)?;
            let stack = Items::from_slice(alloc, stack)?;
            *into = Label::Frame { locals, stack };
            Ok(true)
        }
        Label::Bad => Ok(false),
        Label::Frame {
            locals: old_locals,
            stack: old_stack,
        } => {
            if old_locals.len() != locals.len() || old_stack.len() != stack.len() {
                *into = Label::Bad;
                return Ok(true);
            }
            let locals_changed = join_frame(old_locals, locals);
            let stack_changed = join_frame(old_stack, stack);
            Ok(locals_changed || stack_changed)
        }
    }
}

/// Joins a label into another one, and tells whether that changed.
pub fn join_label<W: Word>(
    alloc: Global,
    into: &mut Label<W>,
    more: &Label<W>,
) -> Result<bool, AllocError>
    ensures value { OnOk result (into.new ≡ frames.join_labels W.join into.old more.now) }
    ensures same { IfOk result (λ changed. changed ≡ false → into.new ≡ into.old) }
    ensures changed { IfOk result (λ changed. IsTrue changed → into.new ≢ into.old) }
{
    match more {
        Label::Unreached => Ok(false),
        Label::Bad => Ok(join_bad(into)),
        Label::Frame { locals, stack } => {
            join_with_frame(alloc, into, locals.as_slice(), stack.as_slice())
        }
    }
}
