//! The constant pool.
ghost use Rattle.std.specs.Prelude.{◌≡◌, ◌++◌, length, OnOk};
ghost use Rattle.fp_model.specs.Spelling.{counted, spelled_entry, spelled_pool, u1, u2, u4, u8};

use crate::numbers::{put_count, put_u8, put_u16, put_u32, put_u64};
use fp_model::{Entry, Pool};
use std::alloc::AllocError;

pub fn put_pool(out: &mut Vec<u8>, pool: &Pool) -> Result<(), AllocError>
    ensures { OnOk result (out.new.items ≡ out.old.items ++ spelled_pool pool.now) }
{
    put_entries(out, pool.entries.as_slice())
}

/// How many indexes there are, and what each holds.
fn put_entries(out: &mut Vec<u8>, entries: &[Entry]) -> Result<(), AllocError>
    ensures { OnOk result (out.new.items ≡ out.old.items ++ counted spelled_entry entries.now) }
{
    put_count(out, entries.len())?;
    for entry in entries {
        put_entry(out, entry)?;
    }
    Ok(())
}

fn put_entry(out: &mut Vec<u8>, entry: &Entry) -> Result<(), AllocError>
    ensures { OnOk result (out.new.items ≡ out.old.items ++ spelled_entry entry.now) }
{
    match entry {
        Entry::Unused => Ok(()),
        Entry::Utf8(text) => put_text(out, text.as_slice()),
        Entry::Integer(bits) => put_word(out, 3, *bits),
        Entry::Float(bits) => put_word(out, 4, *bits),
        Entry::Long(bits) => put_long(out, 5, *bits),
        Entry::Double(bits) => put_long(out, 6, *bits),
        Entry::Class(name) => put_index(out, 7, *name),
        Entry::Text(text) => put_index(out, 8, *text),
        Entry::FieldRef { class, pair } => put_indexes(out, 9, *class, *pair),
        Entry::MethodRef { class, pair } => put_indexes(out, 10, *class, *pair),
        Entry::InterfaceRef { class, pair } => put_indexes(out, 11, *class, *pair),
        Entry::Pair { name, descr } => put_indexes(out, 12, *name, *descr),
        Entry::Handle { kind, index } => put_handle(out, *kind, *index),
        Entry::MethodType(descr) => put_index(out, 16, *descr),
        Entry::Dynamic { boot, pair } => put_indexes(out, 17, *boot, *pair),
        Entry::InvokeDynamic { boot, pair } => put_indexes(out, 18, *boot, *pair),
        Entry::Module(name) => put_index(out, 19, *name),
        Entry::Package(name) => put_index(out, 20, *name),
    }
}

fn put_text(out: &mut Vec<u8>, text: &[u8]) -> Result<(), AllocError>
    ensures { OnOk result (out.new.items ≡ out.old.items ++ (u1 1 ++ (u2 (length text.now) ++ text.now))) }
{
    put_u8(out, 1)?;
    put_count(out, text.len())?;
    out.extend_from_slice(text)
}

fn put_word(out: &mut Vec<u8>, tag: u8, bits: u32) -> Result<(), AllocError>
    ensures { OnOk result (out.new.items ≡ out.old.items ++ (u1 tag ++ u4 bits)) }
{
    put_u8(out, tag)?;
    put_u32(out, bits)
}

fn put_long(out: &mut Vec<u8>, tag: u8, bits: u64) -> Result<(), AllocError>
    ensures { OnOk result (out.new.items ≡ out.old.items ++ (u1 tag ++ u8 bits)) }
{
    put_u8(out, tag)?;
    put_u64(out, bits)
}

fn put_index(out: &mut Vec<u8>, tag: u8, index: u16) -> Result<(), AllocError>
    ensures { OnOk result (out.new.items ≡ out.old.items ++ (u1 tag ++ u2 index)) }
{
    put_u8(out, tag)?;
    put_u16(out, index)
}

fn put_indexes(out: &mut Vec<u8>, tag: u8, first: u16, second: u16) -> Result<(), AllocError>
    ensures { OnOk result (out.new.items ≡ out.old.items ++ (u1 tag ++ (u2 first ++ u2 second))) }
{
    put_u8(out, tag)?;
    put_u16(out, first)?;
    put_u16(out, second)
}

fn put_handle(out: &mut Vec<u8>, kind: u8, index: u16) -> Result<(), AllocError>
    ensures { OnOk result (out.new.items ≡ out.old.items ++ (u1 15 ++ (u1 kind ++ u2 index))) }
{
    put_u8(out, 15)?;
    put_u8(out, kind)?;
    put_u16(out, index)
}
