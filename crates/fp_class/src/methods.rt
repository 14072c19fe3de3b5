//! The methods of a class in numbers of a table of names.
ghost use Rattle.std.specs.Prelude.{◌≡◌, option_copied, true, All, IfOk, IfSome, IsTrue, OnOk};
ghost use Rattle.std.specs.List.{flat_map, list_all, AllZip};
ghost use Rattle.fp_class.specs.Classes.{method_names, IsCodeAmong};
ghost use Rattle.fp_ops.specs.BootMemos.{IsBootMemo};
ghost use Rattle.fp_ops.specs.Memos.{IsMemo};
ghost use Rattle.fp_class.specs.MethodCode.{code_texts, is_sound_code};
ghost use Rattle.fp_class.specs.Methods.{code_of};
ghost use Rattle.fp_class.specs.Naming.{is_sound_method, HasSoundCode, IsNamedMethod};
ghost use Rattle.fp_model.specs.NamedInstructions.{texts_by};
ghost use Rattle.fp_model.specs.Taking.{Taken};
ghost use Rattle.fp_ops.specs.Checked.{is_short_entry};

use crate::code::code_with;
use fp_base::{NameFault, Names};
use fp_model::{BootRow, Code, Method, Pool, RawAttr, RawBody, RawCode, RawMember};
use fp_ops::naming::text;
use fp_ops::{BootMemo, Memo, kinds_at};
use sqlite_items::Items;
use std::alloc::Global;

/// The code that a method has among its attributes.
fn find_code(attributes: &[RawAttr]) -> Option<&RawCode>
    ensures { option_copied result ≡ code_of attributes.now }
{
    for attribute in attributes {
        if let RawBody::Code(code) = &attribute.body {
            return Some(code);
        }
    }
    None
}

/// The code of a method in numbers of the table, none where its attributes have none.
fn code(
    alloc: Global,
    attributes: &[RawAttr],
    pool: &Pool,
    boots: &[BootRow],
    names: &mut Names,
    memo: &mut Memo,
    boot_memo: &mut BootMemo,
) -> Result<Option<Code>, NameFault>
    requires memo { IsMemo names.old pool.now.entries memo.old }
    requires rows { IsBootMemo names.old pool.now.entries boots.now boot_memo.old }
    requires sound { IfSome (code_of attributes.now) (λ code. is_sound_code pool.now.entries boots.now code ≡ true) }
    ensures code { IfOk result (λ c. IsCodeAmong names.new pool.now.entries boots.now c (code_of attributes.now)) }
    ensures names { Taken result names.old names.new (texts_by (code_texts pool.now.entries boots.now) (code_of attributes.now)) }
    ensures memo { OnOk result (IsMemo names.new pool.now.entries memo.new) }
    ensures rows { OnOk result (IsBootMemo names.new pool.now.entries boots.now boot_memo.new) }
{
    let Some(raw) = find_code(attributes) else {
        return Ok(None);
    };
    let code = code_with(alloc, raw, pool, boots, names, memo, boot_memo)?;
    Ok(Some(code))
}

/// A method in numbers of the table.
fn method(
    alloc: Global,
    pool: &Pool,
    boots: &[BootRow],
    member: &RawMember,
    names: &mut Names,
    memo: &mut Memo,
    boot_memo: &mut BootMemo,
) -> Result<Method, NameFault>
    requires memo { IsMemo names.old pool.now.entries memo.old }
    requires rows { IsBootMemo names.old pool.now.entries boots.now boot_memo.old }
    requires pool { IsTrue (list_all is_short_entry pool.now.entries) }
    requires sound { is_sound_method pool.now.entries member.now ≡ true }
    requires code { HasSoundCode pool.now.entries boots.now member.now }
    ensures method { IfOk result (λ m. IsNamedMethod names.new pool.now.entries boots.now m member.now) }
    ensures names { Taken result names.old names.new (method_names pool.now.entries boots.now member.now) }
    ensures memo { OnOk result (IsMemo names.new pool.now.entries memo.new) }
    ensures rows { OnOk result (IsBootMemo names.new pool.now.entries boots.now boot_memo.new) }
{
    let entries = pool.entries.as_slice();
    let name = text(alloc, entries, member.name, names, memo)?;
    let descr = text(alloc, entries, member.descr, names, memo)?;
    let kinds = kinds_at(alloc, entries, member.descr, names, memo)?;
    let code = code(
        alloc,
        member.attributes.as_slice(),
        pool,
        boots,
        names,
        memo,
        boot_memo,
    )?;
    Ok(Method {
        name,
        descr,
        kinds,
        flags: member.flags,
        code,
    })
}

/// Methods in numbers of the table.
pub fn methods(
    alloc: Global,
    pool: &Pool,
    boots: &[BootRow],
    members: &[RawMember],
    names: &mut Names,
    memo: &mut Memo,
    boot_memo: &mut BootMemo,
) -> Result<Items<Method>, NameFault>
    requires memo { IsMemo names.old pool.now.entries memo.old }
    requires rows { IsBootMemo names.old pool.now.entries boots.now boot_memo.old }
    requires pool { IsTrue (list_all is_short_entry pool.now.entries) }
    requires sound { IsTrue (list_all (is_sound_method pool.now.entries) members.now) }
    requires codes { All (HasSoundCode pool.now.entries boots.now) members.now }
    ensures methods { IfOk result (λ methods. AllZip (IsNamedMethod names.new pool.now.entries boots.now) methods members.now) }
    ensures names { Taken result names.old names.new (flat_map (method_names pool.now.entries boots.now) members.now) }
{
    let Ok(mut methods) = Vec::with_capacity(alloc, members.len()) else {
        return Err(NameFault::Memory);
    };
    for member in members {
        let one = method(alloc, pool, boots, member, names, memo, boot_memo)?;
        if methods.push(one).is_err() {
            return Err(NameFault::Memory);
        }
    }
    Ok(Items::from_vec(methods))
}
