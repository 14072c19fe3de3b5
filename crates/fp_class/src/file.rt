//! Reads a class file (JVMS SE 21 chapter 4).
ghost use Rattle.std.specs.Prelude.{◌≡◌, ◌+◌, ◌^◌, ◌<◌, ◌≤◌, ◌||◌, [], codes, length, IfOk, IsTrue, List, Ok};
ghost use Rattle.std.specs.Str.{bytes_eq};
ghost use Rattle.fp_model.specs.Entries.{class_name_at, passes};
ghost use Rattle.std.specs.List.{flat_map, list_all, list_any};
ghost use Rattle.fp_model.specs.declared.raw.Raw.{Raw};
ghost use Rattle.fp_ops.specs.Checked.{is_short_entry};
ghost use Rattle.fp_model.specs.declared.raw.attribute.BootRow.{BootRow};
ghost use Rattle.fp_model.specs.declared.raw.attribute.RawAttr.{RawAttr};
ghost use Rattle.fp_model.specs.Reading.{Gives};
ghost use Rattle.fp_model.specs.References.{each_checked};
ghost use Rattle.fp_model.specs.Spelling.{spelled, spelled_entry, u2};
ghost use Rattle.fp_class.specs.ClassFile as file;
ghost use Rattle.fp_class.specs.Members.{counted_after, many_after};
ghost use Rattle.fp_class.specs.ClassFile.{boot_number_checked, boots_of, class_attribute_at, class_of, entries_start, interface_checked, names_checked, parts_of, IsWellFormed};

use crate::layout::{Layout, lay_out};
use crate::members::{fields, methods};
use crate::texts::read_texts;
use fp_attr::{Owner, read_attr};
use fp_model::flags::is_module;
use fp_model::look_up::{class_name, is_class};
use fp_model::reading::u16_at;
use fp_model::{BootRow, Entry, FileFault, Pool, Raw, RawAttr, RawBody};
use fp_pool::{check_references, entry_size};
use sqlite_items::Items;
use std::alloc::Global;

/// Where the first entry of the constant pool stands.
const ENTRIES_START: u32 = 10;

/// Whether an index is that of the class without a superclass.
fn is_object(entries: &[Entry], index: u16) -> bool
    ensures { result ≡ passes (bytes_eq (codes "java/lang/Object")) (class_name_at entries.now index) }
{
    match class_name(entries, index) {
        Some(name) => name == b"java/lang/Object".as_slice(),
        None => false,
    }
}

/// Whether the superclass is a class, or none for `java/lang/Object` and in a module.
fn is_parent(entries: &[Entry], flags: u16, this: u16, parent: u16) -> bool
    ensures { result ≡ file.is_parent entries.now flags this parent }
{
    is_class(entries, parent) || parent == 0 && (is_module(flags) || is_object(entries, this))
}

/// Checks the superinterfaces, the first of which stands at an offset.
fn check_interfaces(entries: &[Entry], at: u32, interfaces: &[u16]) -> Result<(), FileFault>
    requires { at + length (flat_map u2 interfaces.now) < 2 ^ 32 }
    ensures { Gives result (each_checked u2 (interface_checked entries.now) at interfaces.now) }
{
    let mut next = at;
    for index in interfaces {
        if !is_class(entries, *index) {
            return Err(FileFault::Index {
                at: next,
                index: *index,
            });
        }
        next += 2;
    }
    Ok(())
}

/// Checks the names of this class, its superclass and its superinterfaces.
#[tactic(auto, unfolding(crate::specs::ClassFile::names_checked))]
fn check_names(layout: &Layout) -> Result<(), FileFault>
    requires { layout.now.flags_at + 8 + length (flat_map u2 layout.now.interfaces) < 2 ^ 32 }
    ensures { Gives result (names_checked layout.now.pool.entries layout.now) }
{
    let entries = layout.pool.entries.as_slice();
    if !is_class(entries, layout.this) {
        return Err(FileFault::Index {
            at: layout.flags_at + 2,
            index: layout.this,
        });
    }
    if !is_parent(entries, layout.flags, layout.this, layout.parent) {
        return Err(FileFault::Index {
            at: layout.flags_at + 4,
            index: layout.parent,
        });
    }
    check_interfaces(entries, layout.flags_at + 8, layout.interfaces.as_slice())
}

/// Whether there are bootstrap methods with one attribute more.
fn has_boots_with(has_boots: bool, attribute: &RawAttr) -> bool
    ensures { result ≡ (has_boots || file.are_boots attribute.now) }
{
    has_boots || matches!(attribute.body, RawBody::Boot(_))
}

/// What an attribute of the class is read as, behind others.
fn owner(has_boots: bool) -> Owner
    ensures { (before : List RawAttr) → has_boots ≡ list_any file.are_boots before → result ≡ file.class_owner before }
{
    if has_boots { Owner::Code } else { Owner::Class }
}

/// So many attributes of the class.
fn many_attributes(
    alloc: Global,
    bytes: &[u8],
    at: u32,
    pool: &Pool,
    count: u16,
) -> Result<(Items<RawAttr>, u32), FileFault>
    requires { length bytes.now < 2 ^ 32 }
    ensures { Gives result (many_after (class_attribute_at pool.now.entries bytes.now) count [] at) }
{
    let mut attributes = Vec::new(alloc);
    let mut has_boots = false;
    let mut next = at;
    for _left in 0..count {
        let (attribute, end) = read_attr(alloc, bytes, next, pool, owner(has_boots))?;
        has_boots = has_boots_with(has_boots, &attribute);
        attributes.push(attribute)?;
        next = end;
    }
    Ok((Items::from_vec(attributes), next))
}

/// How many attributes of the class there are at an offset, each of them, and the offset after them.
#[tactic(auto, unfolding(crate::specs::Members::counted_after))]
fn attributes(
    alloc: Global,
    bytes: &[u8],
    at: u32,
    pool: &Pool,
) -> Result<(Items<RawAttr>, u32), FileFault>
    requires { length bytes.now < 2 ^ 32 }
    ensures { Gives result (counted_after (class_attribute_at pool.now.entries bytes.now) bytes.now at) }
{
    let (count, next) = u16_at(bytes, at)?;
    many_attributes(alloc, bytes, next, pool, count)
}

/// The rows of the bootstrap methods, none where there are none.
pub fn boot_rows(attributes: &[RawAttr]) -> &[BootRow]
    ensures { result.now ≡ boots_of attributes.now }
{
    for attribute in attributes {
        if let RawBody::Boot(rows) = &attribute.body {
            return rows.as_slice();
        }
    }
    &[]
}

/// Checks that a constant that a bootstrap method computes has a row; it is spelled at an offset.
#[tactic(auto, unfolding(crate::specs::ClassFile::boot_number_checked))]
fn check_boot_number(count: usize, at: u32, entry: &Entry) -> Result<(), FileFault>
    requires { at + length (spelled_entry entry.now) < 2 ^ 32 }
    ensures { (rows : List BootRow) → count ≡ length rows → Gives result (boot_number_checked rows at entry.now) }
{
    match entry {
        Entry::Dynamic { boot, .. } | Entry::InvokeDynamic { boot, .. } => {
            if *boot as usize >= count {
                return Err(FileFault::Index {
                    at: at + 1,
                    index: *boot,
                });
            }
            Ok(())
        }
        _ => Ok(()),
    }
}

/// Checks the numbers of bootstrap methods in the entries of a constant pool, the first of which stands at an offset.
fn check_boot_numbers(count: usize, at: u32, entries: &[Entry]) -> Result<(), FileFault>
    requires { at + length (flat_map spelled_entry entries.now) < 2 ^ 32 }
    ensures { (rows : List BootRow) → count ≡ length rows
        → Gives result (each_checked spelled_entry (boot_number_checked rows) at entries.now) }
{
    let mut next = at;
    for entry in entries {
        check_boot_number(count, next, entry)?;
        next += entry_size(entry);
    }
    Ok(())
}

/// The members and the attributes of a file that is laid out, and whose names are checked.
#[tactic(auto, unfolding(crate::specs::ClassFile::parts_of))]
fn read_parts(alloc: Global, bytes: &[u8], layout: Layout) -> Result<Raw, FileFault>
    requires bytes { length bytes.now < 2 ^ 32 }
    requires few { length layout.pool.entries ≤ 65536 }
    requires short { IsTrue (list_all is_short_entry layout.pool.entries) }
    requires room { entries_start + length (flat_map spelled_entry layout.pool.entries) < 2 ^ 32 }
    ensures { Gives result (parts_of bytes.now layout) }
{
    let texts = read_texts(alloc, layout.pool.entries.as_slice())?;
    let (fields, next) = fields(alloc, bytes, layout.fields_at, &layout.pool, &texts)?;
    let (methods, next) = methods(alloc, bytes, next, &layout.pool, &texts)?;
    let (attributes, _end) = attributes(alloc, bytes, next, &layout.pool)?;
    let count = boot_rows(attributes.as_slice()).len();
    check_boot_numbers(count, ENTRIES_START, layout.pool.entries.as_slice())?;
    Ok(Raw {
        minor: layout.minor,
        major: layout.major,
        pool: layout.pool,
        flags: layout.flags,
        this: layout.this,
        parent: layout.parent,
        interfaces: layout.interfaces,
        fields,
        methods,
        attributes,
    })
}

/// The file, or the first fault in its phases.
#[tactic(auto, unfolding(crate::specs::ClassFile::class_of))]
fn read_phases(alloc: Global, bytes: &[u8]) -> Result<Raw, FileFault>
    requires { length bytes.now < 2 ^ 32 }
    ensures { Gives result (class_of bytes.now) }
{
    let layout = lay_out(alloc, bytes)?;
    check_references(alloc, layout.pool.entries.as_slice(), ENTRIES_START)?;
    check_names(&layout)?;
    read_parts(alloc, bytes, layout)
}

/// Reads a class file (JVMS SE 21 chapter 4).
///
/// The bytes are fewer than 2^32. A fault is the first one in this order: the layout of the whole file, with attributes by
/// their lengths alone (`Truncated`, `Magic`, `Version`, `Tag`, `Index` of a `Long` or `Double` without a second index,
/// `Bounds` of an empty constant pool, `Trailing`); what the entries of the constant pool refer to; the names of this class,
/// its superclass and its superinterfaces (`Index`); the fields, the methods and the attributes of the class in the order of
/// the file, a member first whether it repeats one before it (`Repeat`), then its name and descriptor, then its attributes,
/// where a method has one `Code` or, abstract or native, none (`CodeCount`); and the rows of bootstrap methods that
/// constants name (`Index`). `Memory` says nothing of the file.
pub fn read_class(alloc: Global, bytes: &[u8]) -> Result<Raw, FileFault>
    requires { length bytes.now < 2 ^ 32 }
    // The file that the bytes are, or its first fault.
    ensures exact { Gives result (class_of bytes.now) }
    // What is read is well formed, and the bytes are its spelling.
    ensures found { IfOk result (λ raw. IsWellFormed raw × (spelled raw ≡ bytes.now)) }
    // Each well-formed file is read from its spelling, unless memory runs out.
    ensures only { (raw : Raw) → IsWellFormed raw → spelled raw ≡ bytes.now → Gives result (Ok raw) }
{
    read_phases(alloc, bytes)
}
