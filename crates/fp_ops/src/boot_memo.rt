//! What is known of the rows of `BootstrapMethods`, so that the static arguments of each are made once.
ghost use Rattle.std.specs.Prelude.{◌≡◌, ◌<◌, ℕ, List, Some, length, option_copied, set, IfOk};
ghost use Rattle.fp_ops.specs.BootMemos.{IsBootMemo};
ghost use Rattle.fp_ops.specs.Memos.{known_at};
ghost use Rattle.fp_model.specs.declared.raw.pool.Entry.{Entry};

use crate::memo::unknown;
use fp_model::{BootArg, BootRow, Shared};
use sqlite_items::Items;
use std::alloc::{AllocError, Global};

/// The static arguments of the rows of `BootstrapMethods` (JVMS SE 21 section 4.7.23), by the numbers of the rows, as far as
/// they are known. Those of a row are shared by all call sites that name it.
#[derive(Drop)]
pub struct BootMemo {
    pub args: Vec<Option<Shared<Items<BootArg>>>>,
}

/// A memo in which nothing is known of the rows.
pub fn empty_boot_memo(alloc: Global, boots: &[BootRow]) -> Result<BootMemo, AllocError>
    ensures { IfOk result (λ memo. (names : List (List ℕ)) (entries : List Entry) → IsBootMemo names entries boots.now memo) }
{
    let args = unknown(alloc, boots.len())?;
    Ok(BootMemo { args })
}

/// The static arguments of the row of a number, if they are known.
pub fn known_args(memo: &BootMemo, number: u16) -> Option<&Shared<Items<BootArg>>>
    ensures { option_copied result ≡ known_at memo.now.args.items number }
{
    match memo.args.get(number as usize) {
        Some(Some(args)) => Some(args),
        _ => None,
    }
}

/// Keeps the static arguments of the row of a number.
pub fn keep_args(memo: &mut BootMemo, number: u16, args: Shared<Items<BootArg>>)
    requires { number < length memo.old.args.items }
    ensures { memo.new.args.items ≡ set memo.old.args.items number (Some args) }
{
    memo.args[number as usize] = Some(args);
}
