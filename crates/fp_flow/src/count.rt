ghost use Rattle.std.specs.Prelude.{◌≡◌, ◌<◌, ◌≤◌, length};
ghost use Rattle.fp_model.specs.SoundCode.{IsSoundCode};

use fp_model::Code;

/// How many instructions a code has. Their offsets ascend, so they are at most as many as there are offsets.
#[tactic(auto, using(crate::proofs::Counting::counting))]
pub fn instr_count(code: &Code) -> u32
    requires { IsSoundCode code.now }
    ensures count { result ≡ length code.now.instrs }
    ensures some { 0 < result }
    ensures few { result ≤ 65536 }
{
    let instrs = code.instrs.as_slice();
    let last = instrs[instrs.len() - 1].0;
    instrs.len().min(usize::from(last) + 1) as u32
}
