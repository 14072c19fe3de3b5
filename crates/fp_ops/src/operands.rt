//! Where the operands of an instruction end, and whether they are what it asks for (JVMS SE 21 chapter 6).
ghost use Rattle.std.specs.Prelude.{◌≡◌, ◌^◌, ◌<◌, ◌+◌, nat_le, length};
ghost use Rattle.fp_model.specs.Reading.{Gives};
ghost use Rattle.fp_model.specs.Decoding as decoding;

use crate::{constants, switches};
use fp_model::look_up::{self, CLASS, INTERFACE_METHOD, INVOKE_DYNAMIC, is_class};
use fp_model::opcode::RET;
use fp_model::reading::{behind, u8_at, u16_at};
use fp_model::{Entry, FileFault, Form};

/// The codes of primitive types that `newarray` takes.
const FIRST_TYPE: u8 = 4;

const LAST_TYPE: u8 = 11;

/// Whether a local and its words lie in the frame.
fn is_within(max_locals: u16, local: u16, words: u8) -> bool
    ensures { result ≡ nat_le (local + words) max_locals }
{
    local as u32 + words as u32 <= max_locals as u32
}

#[tactic(auto, unfolding(fp_model::specs::Decoding::local_end))]
fn local_end(
    max_locals: u16,
    op_at: u32,
    words: u8,
    bytes: &[u8],
    at: u32,
) -> Result<u32, FileFault>
    requires { length bytes.now < 2 ^ 32 }
    ensures { Gives result (decoding.local_end max_locals op_at words bytes.now at) }
{
    let (local, end) = u8_at(bytes, at)?;
    if !is_within(max_locals, local as u16, words) {
        return Err(FileFault::Bounds { at: op_at });
    }
    Ok(end)
}

#[tactic(auto, unfolding(fp_model::specs::Decoding::increment_end))]
fn increment_end(max_locals: u16, op_at: u32, bytes: &[u8], at: u32) -> Result<u32, FileFault>
    requires { length bytes.now < 2 ^ 32 }
    ensures { Gives result (decoding.increment_end max_locals op_at bytes.now at) }
{
    let (local, next) = u8_at(bytes, at)?;
    let (_by, end) = u8_at(bytes, next)?;
    if !is_within(max_locals, local as u16, 1) {
        return Err(FileFault::Bounds { at: op_at });
    }
    Ok(end)
}

#[tactic(auto, unfolding(fp_model::specs::Decoding::short_constant_end))]
fn short_constant_end(entries: &[Entry], bytes: &[u8], at: u32) -> Result<u32, FileFault>
    requires { length bytes.now < 2 ^ 32 }
    ensures { Gives result (decoding.short_constant_end entries.now bytes.now at) }
{
    let (index, end) = u8_at(bytes, at)?;
    let index = index as u16;
    if constants::words(entries, index) != 1 {
        return Err(FileFault::Index { at, index });
    }
    Ok(end)
}

#[tactic(auto, unfolding(fp_model::specs::Decoding::constant_end))]
fn constant_end(entries: &[Entry], words: u8, bytes: &[u8], at: u32) -> Result<u32, FileFault>
    requires { length bytes.now < 2 ^ 32 }
    ensures { Gives result (decoding.constant_end entries.now words bytes.now at) }
{
    let (index, end) = u16_at(bytes, at)?;
    if constants::words(entries, index) != words {
        return Err(FileFault::Index { at, index });
    }
    Ok(end)
}

#[tactic(auto, unfolding(fp_model::specs::Decoding::refers_end))]
fn refers_end(
    entries: &[Entry],
    tag: u8,
    or_tag: u8,
    bytes: &[u8],
    at: u32,
) -> Result<u32, FileFault>
    requires { length bytes.now < 2 ^ 32 }
    ensures { Gives result (decoding.refers_end entries.now tag or_tag bytes.now at) }
{
    let (index, end) = u16_at(bytes, at)?;
    let found = look_up::tag(entries, index);
    if found != tag && found != or_tag {
        return Err(FileFault::Index { at, index });
    }
    Ok(end)
}

#[tactic(auto, unfolding(fp_model::specs::Decoding::invoke_interface_end))]
fn invoke_interface_end(
    entries: &[Entry],
    op_at: u32,
    bytes: &[u8],
    at: u32,
) -> Result<u32, FileFault>
    requires { length bytes.now < 2 ^ 32 }
    ensures { Gives result (decoding.invoke_interface_end entries.now op_at bytes.now at) }
{
    let (index, next) = u16_at(bytes, at)?;
    let (_count, next) = u8_at(bytes, next)?;
    let (last, end) = u8_at(bytes, next)?;
    if last != 0 {
        return Err(FileFault::Bounds { at: op_at });
    }
    if look_up::tag(entries, index) != INTERFACE_METHOD {
        return Err(FileFault::Index { at, index });
    }
    Ok(end)
}

#[tactic(auto, unfolding(fp_model::specs::Decoding::invoke_dynamic_end))]
fn invoke_dynamic_end(
    entries: &[Entry],
    op_at: u32,
    bytes: &[u8],
    at: u32,
) -> Result<u32, FileFault>
    requires { length bytes.now < 2 ^ 32 }
    ensures { Gives result (decoding.invoke_dynamic_end entries.now op_at bytes.now at) }
{
    let (index, next) = u16_at(bytes, at)?;
    let (third, next) = u8_at(bytes, next)?;
    let (last, end) = u8_at(bytes, next)?;
    if third != 0 || last != 0 {
        return Err(FileFault::Bounds { at: op_at });
    }
    if look_up::tag(entries, index) != INVOKE_DYNAMIC {
        return Err(FileFault::Index { at, index });
    }
    Ok(end)
}

#[tactic(auto, unfolding(fp_model::specs::Decoding::new_end))]
fn new_end(entries: &[Entry], bytes: &[u8], at: u32) -> Result<u32, FileFault>
    requires { length bytes.now < 2 ^ 32 }
    ensures { Gives result (decoding.new_end entries.now bytes.now at) }
{
    let (index, end) = u16_at(bytes, at)?;
    if !is_class(entries, index) {
        return Err(FileFault::Index { at, index });
    }
    Ok(end)
}

#[tactic(auto, unfolding(fp_model::specs::Decoding::new_array_end))]
fn new_array_end(op_at: u32, bytes: &[u8], at: u32) -> Result<u32, FileFault>
    requires { length bytes.now < 2 ^ 32 }
    ensures { Gives result (decoding.new_array_end op_at bytes.now at) }
{
    let (code, end) = u8_at(bytes, at)?;
    if code < FIRST_TYPE || code > LAST_TYPE {
        return Err(FileFault::Bounds { at: op_at });
    }
    Ok(end)
}

#[tactic(auto, unfolding(fp_model::specs::Decoding::multi_new_array_end))]
fn multi_new_array_end(
    entries: &[Entry],
    op_at: u32,
    bytes: &[u8],
    at: u32,
) -> Result<u32, FileFault>
    requires { length bytes.now < 2 ^ 32 }
    ensures { Gives result (decoding.multi_new_array_end entries.now op_at bytes.now at) }
{
    let (index, next) = u16_at(bytes, at)?;
    let (dims, end) = u8_at(bytes, next)?;
    if dims == 0 || !constants::has_dimensions(entries, index, dims) {
        return Err(FileFault::Bounds { at: op_at });
    }
    if look_up::tag(entries, index) != CLASS {
        return Err(FileFault::Index { at, index });
    }
    Ok(end)
}

/// Where the operands end that begin at an offset, for the opcode at `op_at` and its form.
#[tactic(auto, unfolding(fp_model::specs::Decoding::operands_end))]
pub fn operands_end(
    entries: &[Entry],
    max_locals: u16,
    op_at: u32,
    op: u8,
    form: Form,
    bytes: &[u8],
    at: u32,
) -> Result<u32, FileFault>
    requires { length bytes.now < 2 ^ 32 }
    ensures { Gives result (decoding.operands_end entries.now max_locals op_at op form bytes.now at) }
{
    match form {
        Form::Unknown => Err(FileFault::Opcode {
            at: op_at,
            byte: op,
        }),
        Form::Subroutine => Err(FileFault::Subroutine { at: op_at }),
        Form::Plain => Ok(at),
        Form::Push(size) | Form::Branch(size) => behind(bytes, at, size as u32),
        Form::Local(words) => local_end(max_locals, op_at, words, bytes, at),
        Form::Near { local, words } => {
            if is_within(max_locals, local as u16, words) {
                Ok(at)
            } else {
                Err(FileFault::Bounds { at: op_at })
            }
        }
        Form::Increment => increment_end(max_locals, op_at, bytes, at),
        Form::TableSwitch => switches::table_end(op_at, bytes, at),
        Form::LookupSwitch => switches::lookup_end(op_at, bytes, at),
        Form::ShortConstant => short_constant_end(entries, bytes, at),
        Form::Constant(words) => constant_end(entries, words, bytes, at),
        Form::Refers { tag, or_tag } => refers_end(entries, tag, or_tag, bytes, at),
        Form::InvokeInterface => invoke_interface_end(entries, op_at, bytes, at),
        Form::InvokeDynamic => invoke_dynamic_end(entries, op_at, bytes, at),
        Form::New => new_end(entries, bytes, at),
        Form::NewArray => new_array_end(op_at, bytes, at),
        Form::MultiNewArray => multi_new_array_end(entries, op_at, bytes, at),
    }
}

/// Where the operands end that begin at an offset, for the opcode at `op_at`, which stands behind the `wide` at `wide_at`.
#[tactic(auto, unfolding(fp_model::specs::Decoding::wide_end))]
pub fn wide_end(
    max_locals: u16,
    wide_at: u32,
    op_at: u32,
    op: u8,
    form: Form,
    bytes: &[u8],
    at: u32,
) -> Result<u32, FileFault>
    requires { length bytes.now < 2 ^ 32 }
    ensures { Gives result (decoding.wide_end max_locals wide_at op_at op form bytes.now at) }
{
    match form {
        Form::Local(words) => wide_local_end(max_locals, wide_at, words, bytes, at),
        Form::Increment => wide_increment_end(max_locals, wide_at, bytes, at),
        _ if op == RET => Err(FileFault::Subroutine { at: op_at }),
        _ => Err(FileFault::Opcode {
            at: op_at,
            byte: op,
        }),
    }
}

#[tactic(auto, unfolding(fp_model::specs::Decoding::wide_local_end))]
fn wide_local_end(
    max_locals: u16,
    wide_at: u32,
    words: u8,
    bytes: &[u8],
    at: u32,
) -> Result<u32, FileFault>
    requires { length bytes.now < 2 ^ 32 }
    ensures { Gives result (decoding.wide_local_end max_locals wide_at words bytes.now at) }
{
    let (local, end) = u16_at(bytes, at)?;
    if !is_within(max_locals, local, words) {
        return Err(FileFault::Bounds { at: wide_at });
    }
    Ok(end)
}

#[tactic(auto, unfolding(fp_model::specs::Decoding::wide_increment_end))]
fn wide_increment_end(
    max_locals: u16,
    wide_at: u32,
    bytes: &[u8],
    at: u32,
) -> Result<u32, FileFault>
    requires { length bytes.now < 2 ^ 32 }
    ensures { Gives result (decoding.wide_increment_end max_locals wide_at bytes.now at) }
{
    let (local, next) = u16_at(bytes, at)?;
    let (_by, end) = u16_at(bytes, next)?;
    if !is_within(max_locals, local, 1) {
        return Err(FileFault::Bounds { at: wide_at });
    }
    Ok(end)
}
