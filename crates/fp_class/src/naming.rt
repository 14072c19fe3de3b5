//! Class files in numbers of a table of names.
ghost use Rattle.std.specs.Prelude.{◌≡◌, All, ◌↔◌, IsNone, [], ◌∷◌, true, slice_get, unwrap_or, is_some, IsTrue, IfOk, IfSome, OnOk};
ghost use Rattle.std.specs.List.{list_all, flat_map, AllZip};
ghost use Rattle.std.specs.Option.{option_to_list};
ghost use Rattle.fp_class.specs.Classes.{field_names, raw_names, IsClassOf};
ghost use Rattle.fp_model.specs.Entries.{class_name_at, is_class_index, text_at};
ghost use Rattle.fp_model.specs.Interning.{Interned};
ghost use Rattle.fp_model.specs.SoundCode.{IsSoundMethod};
ghost use Rattle.fp_model.specs.Taking.{Taken};
ghost use Rattle.fp_ops.specs.Checked.{is_short_entry};
ghost use Rattle.fp_class.specs.ClassFile as file;
ghost use Rattle.fp_class.specs.ClassFile.{IsWellFormed};
ghost use Rattle.fp_class.specs.Interning.{IsClassName, IsNamedField, IsParentName};
ghost use Rattle.fp_ops.specs.Memos.{IsMemo};
ghost use Rattle.fp_class.specs.Naming.{is_sound_field, taken_names};

use crate::file::boot_rows;
use crate::methods::methods;
use fp_base::{NameFault, Names};
use fp_model::flags::is_module;
use fp_model::{Class, Entry, Field, Raw, RawMember, look_up};
use fp_ops::naming::{class_name, text};
use fp_ops::{Memo, empty_boot_memo, empty_memo, kind_at};
use sqlite_items::Items;
use std::alloc::Global;

/// The number of the name of the superclass, if there is one.
pub fn parent_name(
    alloc: Global,
    entries: &[Entry],
    index: u16,
    names: &mut Names,
    memo: &mut Memo,
) -> Result<Option<u32>, NameFault>
    requires memo { IsMemo names.old entries.now memo.old }
    ensures number { IfOk result (λ n. IsParentName names.new entries.now n index) }
    ensures names { Interned result names.old names.new (option_to_list (class_name_at entries.now index)) }
    ensures memo { OnOk result (IsMemo names.new entries.now memo.new) }
{
    if look_up::class_name(entries, index).is_none() {
        return Ok(None);
    }
    let name = class_name(alloc, entries, index, names, memo)?;
    Ok(Some(name))
}

/// The numbers of the names of classes.
fn class_names(
    alloc: Global,
    entries: &[Entry],
    indexes: &[u16],
    names: &mut Names,
    memo: &mut Memo,
) -> Result<Items<u32>, NameFault>
    requires memo { IsMemo names.old entries.now memo.old }
    requires classes { IsTrue (list_all (is_class_index entries.now) indexes.now) }
    ensures numbers { IfOk result (λ numbers. AllZip (IsClassName names.new entries.now) numbers indexes.now) }
    ensures names { Interned result names.old names.new (flat_map (λ index. option_to_list (class_name_at entries.now index)) indexes.now) }
    ensures memo { OnOk result (IsMemo names.new entries.now memo.new) }
{
    let Ok(mut numbers) = Vec::with_capacity(alloc, indexes.len()) else {
        return Err(NameFault::Memory);
    };
    for index in indexes {
        let number = class_name(alloc, entries, *index, names, memo)?;
        if numbers.push(number).is_err() {
            return Err(NameFault::Memory);
        }
    }
    Ok(Items::from_vec(numbers))
}

/// A field in numbers of the table.
fn field(
    alloc: Global,
    entries: &[Entry],
    member: &RawMember,
    names: &mut Names,
    memo: &mut Memo,
) -> Result<Field, NameFault>
    requires memo { IsMemo names.old entries.now memo.old }
    requires pool { IsTrue (list_all is_short_entry entries.now) }
    requires sound { is_sound_field entries.now member.now ≡ true }
    ensures field { IfOk result (λ f. IsNamedField names.new entries.now f member.now) }
    ensures names { Interned result names.old names.new (field_names entries.now member.now) }
    ensures memo { OnOk result (IsMemo names.new entries.now memo.new) }
{
    let name = text(alloc, entries, member.name, names, memo)?;
    let descr = text(alloc, entries, member.descr, names, memo)?;
    let kind = kind_at(alloc, entries, member.descr, names, memo)?;
    Ok(Field {
        name,
        descr,
        kind,
        flags: member.flags,
    })
}

/// Fields in numbers of the table.
fn fields(
    alloc: Global,
    entries: &[Entry],
    members: &[RawMember],
    names: &mut Names,
    memo: &mut Memo,
) -> Result<Items<Field>, NameFault>
    requires memo { IsMemo names.old entries.now memo.old }
    requires pool { IsTrue (list_all is_short_entry entries.now) }
    requires sound { IsTrue (list_all (is_sound_field entries.now) members.now) }
    ensures fields { IfOk result (λ fields. AllZip (IsNamedField names.new entries.now) fields members.now) }
    ensures names { Interned result names.old names.new (flat_map (field_names entries.now) members.now) }
    ensures memo { OnOk result (IsMemo names.new entries.now memo.new) }
{
    let Ok(mut fields) = Vec::with_capacity(alloc, members.len()) else {
        return Err(NameFault::Memory);
    };
    for member in members {
        let one = field(alloc, entries, member, names, memo)?;
        if fields.push(one).is_err() {
            return Err(NameFault::Memory);
        }
    }
    Ok(Items::from_vec(fields))
}

/// A class in numbers of the table.
fn class(alloc: Global, raw: &Raw, names: &mut Names) -> Result<Class, NameFault>
    requires { IsWellFormed raw.now }
    ensures class { IfOk result (λ class. IsClassOf names.new class raw.now) }
    ensures names { Taken result names.old names.new (raw_names raw.now) }
{
    let entries = raw.pool.entries.as_slice();
    let boots = boot_rows(raw.attributes.as_slice());
    let Ok(mut memo) = empty_memo(alloc, entries) else {
        return Err(NameFault::Memory);
    };
    let Ok(mut boot_memo) = empty_boot_memo(alloc, boots) else {
        return Err(NameFault::Memory);
    };
    let memo = &mut memo;
    let this = class_name(alloc, entries, raw.this, names, memo)?;
    let parent = parent_name(alloc, entries, raw.parent, names, memo)?;
    let interfaces = class_names(alloc, entries, raw.interfaces.as_slice(), names, memo)?;
    let fields = fields(alloc, entries, raw.fields.as_slice(), names, memo)?;
    let methods = methods(
        alloc,
        &raw.pool,
        boots,
        raw.methods.as_slice(),
        names,
        memo,
        &mut boot_memo,
    )?;
    Ok(Class {
        name: this,
        parent,
        interfaces,
        flags: raw.flags,
        fields,
        methods,
    })
}

/// The class of a class file in numbers of the table; its texts are taken into the table.
///
/// None for a module (JVMS SE 21 section 4.1), of which no text is taken. On a fault the table may have grown; it is full
/// only where it would have too many names with all of them.
pub fn to_class(alloc: Global, raw: &Raw, names: &mut Names) -> Result<Option<Class>, NameFault>
    requires { IsWellFormed raw.now }
    // It is the class of the file.
    ensures class { IfOk result (λ c. IfSome c (λ class. IsClassOf names.new class raw.now)) }
    // The code of its methods is sound.
    ensures sound { IfOk result (λ c. IfSome c (λ class. All IsSoundMethod class.methods)) }
    // There is none exactly for a module.
    ensures none { IfOk result (λ c. IsNone c ↔ (file.is_module raw.now.flags ≡ true)) }
    // The table has each text of the class once, behind what it had; it is full only where it would have too many with all
    // of these.
    ensures names { Taken result names.old names.new (taken_names raw.now) }
{
    if is_module(raw.flags) {
        return Ok(None);
    }
    let class = class(alloc, raw, names)?;
    Ok(Some(class))
}
