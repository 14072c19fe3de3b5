ghost use Rattle.std.specs.Prelude.{◌≡◌, ℕ, true, List, All, IfSome};
ghost use Rattle.fp_base.specs.Names.{AreDistinct};
ghost use Rattle.fp_model.specs.declared.class.Class.{Class};
ghost use Rattle.fp_model.specs.declared.raw.Raw.{Raw};
ghost use Rattle.fp_model.specs.SoundCode.{IsSoundMethod};
ghost use Rattle.fp_model.specs.Spelling.{spelled};
ghost use Rattle.fp_class.specs.Classes.{IsClassOf, class_in};
ghost use Rattle.fp_class.specs.ClassFile.{boots_of, IsWellFormed};
ghost use Rattle.fp_class.specs.MethodCode.{is_sound_code};
ghost use Rattle.fp_class.specs.Methods.{code_of};

/// A law: over a table of distinct names the class of a file is determined.
#[tactic(auto, using(crate::proofs::OneClass::one_class))]
pub fn law_one_class()
    ensures { (names : List (List ℕ)) (c : Class) (raw : Raw) → AreDistinct names → IsClassOf names c raw → c ≡ class_in names raw }
{}

/// A law: no two well-formed class files have one spelling.
pub fn law_spelling()
    ensures { (a b : Raw) → IsWellFormed a → IsWellFormed b → spelled a ≡ spelled b → a ≡ b }
{}

/// A law: the code of each method of a well-formed class file asks for what is there, over its constant pool and its
/// bootstrap methods.
#[tactic(auto, using(crate::proofs::SoundCodes::sound_codes))]
pub fn law_sound_codes()
    ensures { (raw : Raw) → IsWellFormed raw → All (λ method. IfSome (code_of method.attributes) (λ code. is_sound_code raw.pool.entries (boots_of raw.attributes) code ≡ true)) raw.methods }
{}

/// A law: the code of each method of the class of a well-formed class file is sound, over any table of names.
pub fn law_sound_methods()
    ensures { (names : List (List ℕ)) (c : Class) (raw : Raw) → IsWellFormed raw → IsClassOf names c raw → All IsSoundMethod c.methods }
{}
