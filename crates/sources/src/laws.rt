ghost use Rattle.std.specs.Prelude.{◌≡◌, List, ℕ};
ghost use Rattle.calculus.specs.Tree.{Tree};
ghost use Rattle.input_faults.specs.Refusals.{Refusal};
ghost use Rattle.sources.specs.Sources.{IsSourceOf, IsRefused};

/// A text spells one accepted process at most, or is refused for one reason at most, and not both.
pub fn one_answer()
    ensures one_term { (text : List ℕ) (t u : Tree) → IsSourceOf text t → IsSourceOf text u → t ≡ u }
    ensures one_refusal { (text : List ℕ) (r s : Refusal) → IsRefused text r → IsRefused text s → r ≡ s }
    ensures not_both { (text : List ℕ) (t : Tree) (r : Refusal) → IsSourceOf text t → IsRefused text r → ⊥ }
{}
