//! One entry of the constant pool, behind its tag.
ghost use Rattle.std.specs.Prelude.{◌≡◌, ◌^◌, ◌<◌, length};
ghost use Rattle.fp_model.specs.Pool as format;
ghost use Rattle.fp_model.specs.Reading.{Gives};

use fp_model::reading::{run_at, u8_at, u16_at, u32_at, u64_at};
use fp_model::{Entry, FileFault};
use std::alloc::Global;

/// The entry of a tag, which stands at an offset of its own, and the offset after the entry.
#[tactic(auto, unfolding(fp_model::specs::Pool::tagged_at, fp_model::specs::Pool::one_at))]
pub fn tagged_entry(
    alloc: Global,
    bytes: &[u8],
    tag_at: u32,
    tag: u8,
    at: u32,
) -> Result<(Entry, u32), FileFault>
    requires { length bytes.now < 2 ^ 32 }
    ensures { Gives result (format.tagged_at tag_at tag bytes.now at) }
{
    match tag {
        1 => text_entry(alloc, bytes, at),
        3 => {
            let (bits, end) = u32_at(bytes, at)?;
            Ok((Entry::Integer(bits), end))
        }
        4 => {
            let (bits, end) = u32_at(bytes, at)?;
            Ok((Entry::Float(bits), end))
        }
        5 => {
            let (bits, end) = u64_at(bytes, at)?;
            Ok((Entry::Long(bits), end))
        }
        6 => {
            let (bits, end) = u64_at(bytes, at)?;
            Ok((Entry::Double(bits), end))
        }
        15 => handle_entry(bytes, at),
        _ => index_entry(bytes, tag_at, tag, at),
    }
}

/// An entry of one index, or of two.
#[tactic(auto, unfolding(fp_model::specs::Pool::index_entry_at, fp_model::specs::Pool::one_at))]
fn index_entry(bytes: &[u8], tag_at: u32, tag: u8, at: u32) -> Result<(Entry, u32), FileFault>
    requires { length bytes.now < 2 ^ 32 }
    ensures { Gives result (format.index_entry_at tag_at tag bytes.now at) }
{
    match tag {
        7 => {
            let (name, end) = u16_at(bytes, at)?;
            Ok((Entry::Class(name), end))
        }
        8 => {
            let (text, end) = u16_at(bytes, at)?;
            Ok((Entry::Text(text), end))
        }
        16 => {
            let (descr, end) = u16_at(bytes, at)?;
            Ok((Entry::MethodType(descr), end))
        }
        19 => {
            let (name, end) = u16_at(bytes, at)?;
            Ok((Entry::Module(name), end))
        }
        20 => {
            let (name, end) = u16_at(bytes, at)?;
            Ok((Entry::Package(name), end))
        }
        _ => pair_entry(bytes, tag_at, tag, at),
    }
}

/// An entry of two indexes.
#[tactic(auto, unfolding(fp_model::specs::Pool::pair_entry_at, fp_model::specs::Pool::two_at))]
fn pair_entry(bytes: &[u8], tag_at: u32, tag: u8, at: u32) -> Result<(Entry, u32), FileFault>
    requires { length bytes.now < 2 ^ 32 }
    ensures { Gives result (format.pair_entry_at tag_at tag bytes.now at) }
{
    match tag {
        9 => {
            let ((class, pair), end) = two_numbers(bytes, at)?;
            Ok((Entry::FieldRef { class, pair }, end))
        }
        10 => {
            let ((class, pair), end) = two_numbers(bytes, at)?;
            Ok((Entry::MethodRef { class, pair }, end))
        }
        11 => {
            let ((class, pair), end) = two_numbers(bytes, at)?;
            Ok((Entry::InterfaceRef { class, pair }, end))
        }
        12 => {
            let ((name, descr), end) = two_numbers(bytes, at)?;
            Ok((Entry::Pair { name, descr }, end))
        }
        17 => {
            let ((boot, pair), end) = two_numbers(bytes, at)?;
            Ok((Entry::Dynamic { boot, pair }, end))
        }
        18 => {
            let ((boot, pair), end) = two_numbers(bytes, at)?;
            Ok((Entry::InvokeDynamic { boot, pair }, end))
        }
        _ => Err(FileFault::Tag { at: tag_at, tag }),
    }
}

/// Two numbers of two bytes.
#[tactic(auto, unfolding(fp_model::specs::Pool::two_numbers_at))]
fn two_numbers(bytes: &[u8], at: u32) -> Result<((u16, u16), u32), FileFault>
    requires { length bytes.now < 2 ^ 32 }
    ensures { Gives result (format.two_numbers_at bytes.now at) }
{
    let (first, next) = u16_at(bytes, at)?;
    let (second, end) = u16_at(bytes, next)?;
    Ok(((first, second), end))
}

/// A method handle: its kind, and an index.
#[tactic(auto, unfolding(fp_model::specs::Pool::handle_at))]
fn handle_entry(bytes: &[u8], at: u32) -> Result<(Entry, u32), FileFault>
    requires { length bytes.now < 2 ^ 32 }
    ensures { Gives result (format.handle_at bytes.now at) }
{
    let (kind, next) = u8_at(bytes, at)?;
    let (index, end) = u16_at(bytes, next)?;
    Ok((Entry::Handle { kind, index }, end))
}

/// A text: its length, and its bytes.
#[tactic(auto, unfolding(fp_model::specs::Pool::text_entry_at))]
fn text_entry(alloc: Global, bytes: &[u8], at: u32) -> Result<(Entry, u32), FileFault>
    requires { length bytes.now < 2 ^ 32 }
    ensures { Gives result (format.text_entry_at bytes.now at) }
{
    let (count, next) = u16_at(bytes, at)?;
    let (text, end) = run_at(alloc, bytes, next, count as u32)?;
    Ok((Entry::Utf8(text), end))
}
