ghost use Rattle.std.specs.Prelude.{◌≡◌, ◌<◌, ◌⊎◌, ℕ, ◌≤◌, Bool, false, IsTrue, List, length, map, slice_get, All, Some};
ghost use Rattle.std.specs.List.{list_all};
ghost use Rattle.fp_model.specs.ClassSet.{IsSound, SetView};
ghost use Rattle.fp_model.specs.declared.class.Class.{Class};
ghost use Rattle.fp_model.specs.declared.class.Code.{Code};
ghost use Rattle.fp_model.specs.declared.class.Method.{Method};
ghost use Rattle.fp_model.specs.declared.class.instr.Instr.{Instr};
ghost use Rattle.fp_model.specs.declared.kind.Sort.{Sort};
ghost use Rattle.fp_model.specs.declared.kind.Sort.TheVariants.{Unset};
ghost use Rattle.fp_model.specs.SoundCode.{IsSoundMethod};
ghost use Rattle.fp_facts.specs.declared.reference.Reference.{Reference};
ghost use Rattle.fp_facts.specs.Lattices.{Lattice, IsLattice, IsAllBelow, least_of, IsMonotoneStep, IsLeast};
ghost use Rattle.fp_facts.specs.Dataflow.{Edge, Problem, solution, IsSettled, IsLawful, IsLeastFlow, Reaches};
ghost use Rattle.fp_facts.specs.Frames.{frames};
ghost use Rattle.fp_facts.specs.Edges.{edges_of};
ghost use Rattle.fp_facts.specs.Hierarchy.{AreClosed};
ghost use Rattle.fp_facts.specs.Initialisation.{AreBegun, begins};
ghost use Rattle.fp_facts.specs.Effects.{effect_of};
ghost use Rattle.fp_facts.specs.Kinded.{IsKindedCode};
ghost use Rattle.fp_facts.specs.Moves.{map_label, moves_problem, same_label_shape};
ghost use Rattle.fp_facts.specs.Origins.{made_sorts};
ghost use Rattle.fp_facts.specs.References.{reference_candidates, reference_of};
ghost use Rattle.fp_facts.specs.Resolution.{class_of_method};
ghost use Rattle.fp_facts.specs.Seeds.{AreLeastSeeds, seeds};
ghost use Rattle.fp_facts.specs.Selection.{candidates_at};
ghost use Rattle.fp_facts.specs.Sorts.{argument_words, join_sorts, sorts};
ghost use Rattle.fp_facts.specs.Transfer.{frame_before, is_unreached, kinds_problem};

/// A law: over every lattice the labelling by rounds is the least solution of a monotone step.
pub fn law_least_solution<L>()
    ensures { (l : Lattice L) (nodes : ℕ) (step : (ℕ → L) → ℕ → L) (first : ℕ → L) → IsLattice l → IsMonotoneStep l nodes step first → IsLeast l step first (least_of l nodes step first) }
{}

/// A law: the solution of a lawful problem is the least labelling above the first one that is settled at its edges.
pub fn law_least_flow<L>()
    ensures { (d : Problem L) → IsLawful d → IsLeastFlow d (solution d) }
{}

/// A law: what is above the first labels, settled at each edge, and below the solution is the solution.
pub fn law_same_solution<L>()
    ensures { (d : Problem L) (a : ℕ → L) → IsLawful d → IsAllBelow d.lattice d.first a → All (IsSettled d a) d.edges → IsAllBelow d.lattice a (solution d) → a ≡ solution d }
{}

/// A law: a test that node 0 passes, and that each edge keeps, is passed wherever edges lead.
pub fn law_reaches()
    ensures { (es : List Edge) (test : ℕ → Bool) → IsTrue (test 0) → All (λ e. IsTrue (test e.0) → IsTrue (test e.1)) es → (p : ℕ) → Reaches es p → IsTrue (test p) }
{}

/// A law: frames over a lattice of words are a lattice.
pub fn law_frames<W>()
    ensures { (w : Lattice W) (locals stack : ℕ) → IsLattice w → IsLattice (frames w locals stack) }
{}

/// A law: sorts are a lattice, and each stands below itself and Unset alone.
pub fn law_sorts()
    ensures lattice { IsLattice sorts }
    ensures below { (a b : Sort) → join_sorts a b ≡ b → (a ≡ b) ⊎ (b ≡ Unset) }
{}

/// A law: the dataflow problem of kinds is lawful.
pub fn law_kinds()
    ensures { (code : Code) (arguments results : List Sort) (edges : List Edge) → 0 < length code.instrs → length arguments ≤ code.max_locals → All (λ e. (e.0 < length code.instrs) × (e.1 < length code.instrs)) edges → IsLawful (kinds_problem code arguments results edges) }
{}

/// A law: the dataflow of kinds labels the instructions that edges lead to from the first, and no others.
pub fn law_reached()
    ensures labelled { (code : Code) (arguments results : List Sort) (edges : List Edge) → 0 < length code.instrs → All (λ e. (e.0 < length code.instrs) × (e.1 < length code.instrs)) edges → (p : ℕ) → Reaches edges p → is_unreached (solution (kinds_problem code arguments results edges) p) ≡ false }
    ensures reaches { (code : Code) (arguments results : List Sort) (edges : List Edge) (p : ℕ) → is_unreached (solution (kinds_problem code arguments results edges) p) ≡ false → Reaches edges p }
{}

/// A law: over every lattice of words the dataflow problem of moved words is lawful.
pub fn law_moves<W>()
    ensures { (w : Lattice W) (none caught : W) (code : Code) (made : ℕ × Instr → List W) (arguments : List W) (edges : List Edge) → IsLattice w → 0 < length code.instrs → length arguments ≤ code.max_locals → All (λ e. (e.0 < length code.instrs) × (e.1 < length code.instrs)) edges → IsTrue (w.fits none) → IsTrue (w.fits caught) → IsTrue (list_all w.fits arguments) → ((i : ℕ × Instr) → IsTrue (list_all w.fits (made i))) → IsLawful (moves_problem w none caught code made arguments edges) }
{}

/// A law: the dataflow of moved words labels the instructions that edges lead to from the first, and no others.
pub fn law_moves_reached<W>()
    ensures labelled { (w : Lattice W) (none caught : W) (code : Code) (made : ℕ × Instr → List W) (arguments : List W) (edges : List Edge) → 0 < length code.instrs → All (λ e. (e.0 < length code.instrs) × (e.1 < length code.instrs)) edges → (p : ℕ) → Reaches edges p → is_unreached (solution (moves_problem w none caught code made arguments edges) p) ≡ false }
    ensures reaches { (w : Lattice W) (none caught : W) (code : Code) (made : ℕ × Instr → List W) (arguments : List W) (edges : List Edge) (p : ℕ) → is_unreached (solution (moves_problem w none caught code made arguments edges) p) ≡ false → Reaches edges p }
{}

/// A law: a function of words that keeps their joins maps the solution of one problem of moved words to that of the mapped words.
pub fn law_moves_map<W, V>()
    ensures { (w : Lattice W) (v : Lattice V) (h : W → V) (none caught : W) (code : Code) (made : ℕ × Instr → List W) (arguments : List W) (edges : List Edge) → ((x y : W) → h (w.join x y) ≡ v.join (h x) (h y)) → IsLawful (moves_problem w none caught code made arguments edges) → IsLawful (moves_problem v (h none) (h caught) code (λ i. map h (made i)) (map h arguments) edges) → (p : ℕ) → solution (moves_problem v (h none) (h caught) code (λ i. map h (made i)) (map h arguments) edges) p ≡ map_label h (solution (moves_problem w none caught code made arguments edges) p) }
{}

/// A law: in the kinded code of a sound method, the labels of moved words have the shape of the frames of kinds, and so none is bad.
pub fn law_moves_shape<W>()
    ensures { (m : Method) (code : Code) (w : Lattice W) (none caught : W) (made : ℕ × Instr → List W) (arguments : List W) → IsSoundMethod m → m.code ≡ Some code → IsKindedCode m code → All (λ e. (e.0 < length code.instrs) × (e.1 < length code.instrs)) (edges_of code) → length arguments ≡ length (argument_words m) → ((i : ℕ × Instr) → length (made i) ≡ length (made_sorts (effect_of i.1))) → IsLawful (moves_problem w none caught code made arguments (edges_of code)) → (p : ℕ) → IsTrue (same_label_shape (solution (moves_problem w none caught code made arguments (edges_of code)) p) (frame_before m code p)) }
{}

/// A law: the seed classes are the least set of classes that holds the concrete ones which go by a type of a root, and with each class
/// those which go by a type of its instance fields.
pub fn law_seeds()
    ensures { (classes : List Class) (roots : List ℕ) → AreLeastSeeds classes roots (seeds classes roots) }
{}

/// A law: the classes that a code begins to initialise are those with an initialiser among the classes, with their ancestors, that an
/// instruction which a way leads to makes an object of, or whose static member it means (JVMS SE 21 section 5.5).
pub fn law_begins()
    ensures { (set : SetView) (m : Method) (code : Code) → AreBegun set m code (begins set m code) }
{}

/// A law: the ancestors of a class of a sound set are closed: they hold its superclass and that of each of its superclasses, and its
/// superinterfaces and those of each ancestor in the set.
pub fn law_ancestors()
    ensures { (classes : List Class) (id : ℕ) (c : Class) → IsSound classes → slice_get classes id ≡ Some c → AreClosed classes c }
{}

/// A law: what an instruction of a method can reach is what calls of its reference can.
pub fn law_reference_candidates()
    ensures { (set : SetView) (caller class : ℕ) (c : Class) (i : Instr) (r : Reference) → class_of_method set.classes caller ≡ Some class → slice_get set.classes class ≡ Some c → reference_of class i ≡ Some r → reference_candidates set r ≡ candidates_at set caller i }
{}
