//! Laws of edges.
ghost use Rattle.std.specs.Prelude.{◌<◌, length, All};
ghost use Rattle.fp_model.specs.declared.class.Code.{Code};
ghost use Rattle.fp_model.specs.SoundCode.{IsSoundCode};
ghost use Rattle.fp_facts.specs.Edges.{edges_of};
ghost use Rattle.fp_flow.specs.Ascending.{IsAscending};

/// Laws: the edges of a sound code ascend by the instruction that they lead from, and lead from and to its instructions.
pub fn law_edges()
    ensures ascending { (code : Code) → IsSoundCode code → IsAscending (edges_of code) }
    ensures within { (code : Code) → IsSoundCode code → All (λ e. (e.0 < length code.instrs) × (e.1 < length code.instrs)) (edges_of code) }
{}
