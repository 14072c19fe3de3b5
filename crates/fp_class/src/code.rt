//! The code of a method in numbers of a table of names.
ghost use Rattle.std.specs.Prelude.{◌≡◌, ◌<◌, length, true, IfOk, OnOk};
ghost use Rattle.std.specs.List.{flat_map, AllZip};
ghost use Rattle.fp_ops.specs.BootMemos.{IsBootMemo};
ghost use Rattle.fp_ops.specs.Memos.{IsMemo};
ghost use Rattle.fp_class.specs.MethodCode.{code_texts, is_sound_code, row_texts, AreInstrsFrom, IsCodeOf, IsGuardOf};
ghost use Rattle.fp_model.specs.Spelling.{spelled_ins};
ghost use Rattle.fp_model.specs.Taking.{Taken};
ghost use Rattle.fp_ops.specs.Checked.{are_sound_from};
ghost use Rattle.fp_ops.specs.Forms.{instr_texts};

use crate::naming::parent_name;
use fp_base::{NameFault, Names};
use fp_model::{BootRow, CatchRow, Code, Entry, Guard, Instr, Pool, RawCode, RawIns};
use fp_ops::{BootMemo, Memo, empty_boot_memo, empty_memo, instr_with};
use sqlite_items::Items;
use std::alloc::Global;

/// How many bytes an instruction takes.
pub fn size(ins: &RawIns) -> u16
    requires { length (spelled_ins ins.now) < 65536 }
    ensures { result ≡ length (spelled_ins ins.now) }
{
    let wide = if ins.wide { 1 } else { 0 };
    wide + 1 + ins.padding.len() as u16 + ins.args.len() as u16
}

/// The instructions of a code, each with its offset in the code, in bytes.
fn instructions(
    alloc: Global,
    code: &[RawIns],
    pool: &Pool,
    boots: &[BootRow],
    names: &mut Names,
    memo: &mut Memo,
    boot_memo: &mut BootMemo,
) -> Result<Items<(u16, Instr)>, NameFault>
    requires sound { are_sound_from pool.now.entries boots.now 0 code.now ≡ true }
    requires short { length (flat_map spelled_ins code.now) < 65536 }
    requires memo { IsMemo names.old pool.now.entries memo.old }
    requires rows { IsBootMemo names.old pool.now.entries boots.now boot_memo.old }
    ensures instrs { IfOk result (λ instrs. AreInstrsFrom names.new pool.now.entries boots.now 0 instrs code.now) }
    ensures names { Taken result names.old names.new (flat_map (instr_texts pool.now.entries boots.now) code.now) }
    ensures memo { OnOk result (IsMemo names.new pool.now.entries memo.new) }
    ensures rows { OnOk result (IsBootMemo names.new pool.now.entries boots.now boot_memo.new) }
{
    let Ok(mut instrs) = Vec::with_capacity(alloc, code.len()) else {
        return Err(NameFault::Memory);
    };
    let mut pc = 0;
    for ins in code {
        let instr = instr_with(alloc, ins, pc, pool, boots, names, memo, boot_memo)?;
        if instrs.push((pc, instr)).is_err() {
            return Err(NameFault::Memory);
        }
        pc += size(ins);
    }
    Ok(Items::from_vec(instrs))
}

/// A row of the exception table.
fn guard(
    alloc: Global,
    entries: &[Entry],
    row: CatchRow,
    names: &mut Names,
    memo: &mut Memo,
) -> Result<Guard, NameFault>
    requires memo { IsMemo names.old entries.now memo.old }
    ensures guard { IfOk result (λ g. IsGuardOf names.new entries.now g row) }
    ensures names { Taken result names.old names.new (row_texts entries.now row) }
    ensures memo { OnOk result (IsMemo names.new entries.now memo.new) }
{
    let class = parent_name(alloc, entries, row.class, names, memo)?;
    Ok(Guard {
        start: row.start,
        end: row.end,
        handler: row.handler,
        class,
    })
}

/// The rows of an exception table.
fn guards(
    alloc: Global,
    entries: &[Entry],
    rows: &[CatchRow],
    names: &mut Names,
    memo: &mut Memo,
) -> Result<Items<Guard>, NameFault>
    requires memo { IsMemo names.old entries.now memo.old }
    ensures guards { IfOk result (λ guards. AllZip (IsGuardOf names.new entries.now) guards rows.now) }
    ensures names { Taken result names.old names.new (flat_map (row_texts entries.now) rows.now) }
    ensures memo { OnOk result (IsMemo names.new entries.now memo.new) }
{
    let Ok(mut guards) = Vec::with_capacity(alloc, rows.len()) else {
        return Err(NameFault::Memory);
    };
    for row in rows {
        let one = guard(alloc, entries, *row, names, memo)?;
        if guards.push(one).is_err() {
            return Err(NameFault::Memory);
        }
    }
    Ok(Items::from_vec(guards))
}

/// The code of a method in numbers of a table of names, where what is known of the texts and of the rows of
/// `BootstrapMethods` is kept.
pub fn code_with(
    alloc: Global,
    code: &RawCode,
    pool: &Pool,
    boots: &[BootRow],
    names: &mut Names,
    memo: &mut Memo,
    boot_memo: &mut BootMemo,
) -> Result<Code, NameFault>
    requires sound { is_sound_code pool.now.entries boots.now code.now ≡ true }
    requires memo { IsMemo names.old pool.now.entries memo.old }
    requires rows { IsBootMemo names.old pool.now.entries boots.now boot_memo.old }
    ensures code { IfOk result (λ c. IsCodeOf names.new pool.now.entries boots.now c code.now) }
    ensures names { Taken result names.old names.new (code_texts pool.now.entries boots.now code.now) }
    ensures memo { OnOk result (IsMemo names.new pool.now.entries memo.new) }
    ensures rows { OnOk result (IsBootMemo names.new pool.now.entries boots.now boot_memo.new) }
{
    let instrs = instructions(
        alloc,
        code.code.as_slice(),
        pool,
        boots,
        names,
        memo,
        boot_memo,
    )?;
    let rows = guards(
        alloc,
        pool.entries.as_slice(),
        code.rows.as_slice(),
        names,
        memo,
    )?;
    Ok(Code {
        instrs,
        rows,
        max_stack: code.max_stack,
        max_locals: code.max_locals,
    })
}

/// The code of a method in numbers of a table of names, which takes the names that the code has (JVMS SE 21 section 4.7.3).
///
/// The code is one that `fp_ops::decode` gives over this pool, with the rows of `BootstrapMethods`. Where the table is full
/// or memory runs out, the table may have grown; it is full only where it lacks one of the names.
pub fn to_code(
    alloc: Global,
    code: &RawCode,
    pool: &Pool,
    boots: &[BootRow],
    names: &mut Names,
) -> Result<Code, NameFault>
    requires { is_sound_code pool.now.entries boots.now code.now ≡ true }
    ensures code { IfOk result (λ c. IsCodeOf names.new pool.now.entries boots.now c code.now) }
    ensures names { Taken result names.old names.new (code_texts pool.now.entries boots.now code.now) }
{
    let Ok(mut memo) = empty_memo(alloc, pool.entries.as_slice()) else {
        return Err(NameFault::Memory);
    };
    let Ok(mut boot_memo) = empty_boot_memo(alloc, boots) else {
        return Err(NameFault::Memory);
    };
    code_with(alloc, code, pool, boots, names, &mut memo, &mut boot_memo)
}
