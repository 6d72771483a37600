//! What is true of all proof texts.

ghost use Rattle.std.specs.Prelude.{◌≡◌, ℕ, List};
ghost use Rattle.fol_core.specs.Symbol.{Symbol, AreSymbols};
ghost use Rattle.gs3_rules.specs.Refutes.{ProofTree};
ghost use Rattle.gs3_text.specs.ProofText.{ProofText};

/// No text is the text of two proofs.
pub fn one_tree()
    ensures { (functions : List Symbol) (bytes : List ℕ) (s t : ProofTree) → AreSymbols functions
        → ProofText functions bytes s → ProofText functions bytes t → s ≡ t }
{}
