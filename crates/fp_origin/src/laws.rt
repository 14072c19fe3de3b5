//! Laws of origins.
ghost use Rattle.std.specs.Prelude.{◌≡◌, ◌<◌, ℕ, All, List, Some, length, slice_get};
ghost use Rattle.fp_model.specs.declared.class.Code.{Code};
ghost use Rattle.fp_model.specs.declared.class.Method.{Method};
ghost use Rattle.fp_model.specs.SoundCode.{IsSoundMethod};
ghost use Rattle.fp_facts.specs.declared.origin.Origin.{Origin};
ghost use Rattle.fp_facts.specs.Dataflow.{Reaches};
ghost use Rattle.fp_facts.specs.Edges.{edges_of};
ghost use Rattle.fp_facts.specs.Kinded.{IsKindedCode};
ghost use Rattle.fp_origin.specs.declared.answer.Origins.{Origins};
ghost use Rattle.fp_origin.specs.Answers.{AreOrigins};
ghost use Rattle.fp_origin.specs.Ascending.{Ascend};

/// A law: an instruction of a kinded code has the origins of a frame exactly where edges lead to it from the first one.
pub fn law_frames()
    ensures reached { (m : Method) (code : Code) (o : Origins) → IsSoundMethod m → m.code ≡ Some code → IsKindedCode m code → AreOrigins m code o
        → (number : ℕ) → number < length code.instrs → Reaches (edges_of code) number
        → (words : List (List Origin)) × (slice_get o.frames number ≡ Some (Some words)) }
    ensures reaches { (m : Method) (code : Code) (o : Origins) → IsSoundMethod m → m.code ≡ Some code → IsKindedCode m code → AreOrigins m code o
        → (number : ℕ) (words : List (List Origin)) → number < length code.instrs → slice_get o.frames number ≡ Some (Some words)
        → Reaches (edges_of code) number }
{}

/// A law: the origins of each word ascend, each once: the arguments by their numbers, then allocations and then results by their
/// offsets, and what comes from elsewhere last.
pub fn law_ascending()
    ensures { (m : Method) (code : Code) (o : Origins) → IsSoundMethod m → m.code ≡ Some code → AreOrigins m code o
        → (number : ℕ) (words : List (List Origin)) → number < length code.instrs → slice_get o.frames number ≡ Some (Some words)
        → All Ascend words }
{}
