ghost use Rattle.std.specs.Prelude.{◌≡◌, ◌<◌, ℕ, Some, length, slice_get};
ghost use Rattle.fp_model.specs.declared.class.Code.{Code};
ghost use Rattle.fp_model.specs.declared.class.Method.{Method};
ghost use Rattle.fp_model.specs.SoundCode.{IsSoundMethod};
ghost use Rattle.fp_facts.specs.Dataflow.{Reaches};
ghost use Rattle.fp_facts.specs.Edges.{edges_of};
ghost use Rattle.fp_kinds.specs.declared.frame.FrameKinds.{FrameKinds};
ghost use Rattle.fp_kinds.specs.declared.frame.Kinds.{Kinds};
ghost use Rattle.fp_kinds.specs.Kinds.{AreKinds};

/// A law: an instruction has a frame exactly where edges lead to it from the first one.
pub fn law_frames()
    ensures reached { (m : Method) (code : Code) (k : Kinds) → IsSoundMethod m → m.code ≡ Some code → AreKinds m code k
        → (number : ℕ) → number < length code.instrs → Reaches (edges_of code) number
        → (frame : FrameKinds) × (slice_get k.frames number ≡ Some (Some frame)) }
    ensures reaches { (m : Method) (code : Code) (k : Kinds) → IsSoundMethod m → m.code ≡ Some code → AreKinds m code k
        → (number : ℕ) (frame : FrameKinds) → number < length code.instrs → slice_get k.frames number ≡ Some (Some frame)
        → Reaches (edges_of code) number }
{}
