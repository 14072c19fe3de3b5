//! What the grammar promises of every list of words.
ghost use Rattle.std.specs.Prelude.{◌≡◌, ℕ, List, ◌∷◌, false};
ghost use Rattle.fp_words.specs.Words.{Given, is_plain, options_of};

/// Options may stand in any order: two that stand side by side may change places, whatever was given before them.
pub fn options_may_change_places()
    ensures { (given : Given) (a x b y : List ℕ) (rest : List (List ℕ))
        → is_plain a ≡ false → is_plain b ≡ false
        → options_of given (a ∷ x ∷ b ∷ y ∷ rest) ≡ options_of given (b ∷ y ∷ a ∷ x ∷ rest) }
{}
