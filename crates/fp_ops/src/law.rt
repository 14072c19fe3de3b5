ghost use Rattle.std.specs.Prelude.{◌≡◌, ◌<◌, ◌^◌, ℕ, true, List, Ok, length};
ghost use Rattle.fp_model.specs.declared.raw.attribute.BootRow.{BootRow};
ghost use Rattle.fp_model.specs.declared.raw.attribute.RawIns.{RawIns};
ghost use Rattle.fp_model.specs.declared.raw.pool.Entry.{Entry};
ghost use Rattle.fp_model.specs.Branches.{targets_checked};
ghost use Rattle.fp_model.specs.Decoding.{decoded};
ghost use Rattle.fp_ops.specs.Checked.{are_sound_from, AreCheckedBoots, GivesForms, IsCheckedPool};

/// A law: over a constant pool and bootstrap methods without a fault, what `decode` asks of the constants that instructions
/// name, by tags and words, is all that `to_instr` asks of these.
pub fn law_pool_gives_forms()
    ensures { (entries : List Entry) (boots : List BootRow)
        → IsCheckedPool entries
        → AreCheckedBoots entries boots
        → GivesForms entries boots }
{}

/// A law: over a constant pool and bootstrap methods without a fault, what `decode` gives of a code of fewer than 2^16
/// bytes in a file of fewer than 2^32, whose branches lead to instructions, is what `to_instr` asks for.
pub fn law_decoded_gives_forms()
    ensures { (entries : List Entry) (boots : List BootRow) (max_locals len : ℕ) (bytes : List ℕ) (at : ℕ) (code : List RawIns)
        → IsCheckedPool entries
        → AreCheckedBoots entries boots
        → length bytes < 2 ^ 32
        → len < 2 ^ 16
        → decoded entries max_locals len bytes at ≡ Ok code
        → targets_checked code at ≡ Ok tt
        → are_sound_from entries boots 0 code ≡ true }
{}
