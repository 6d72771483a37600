//! What is true of every check of a proof.

ghost use Rattle.std.specs.Prelude.{◌≡◌, ℕ, List, Option};
ghost use Rattle.std.specs.List.{AllByRecursion};
ghost use Rattle.fol_core.specs.Symbol.{AreSymbols};
ghost use Rattle.fof_parse.specs.Problem.{PlainProblem, Start};
ghost use Rattle.gs3_rules.specs.Refutes.{ProofTree, Refutes, preorder};
ghost use Rattle.gs3_text.specs.ProofText.{IsSpellable, proof_lines, text_of};
ghost use Rattle.gs3_run.specs.Run.{IsValid, Ran};
ghost use Rattle.gs3_run.specs.Held.{HoldsProof, EndsValid};
ghost use Rattle.gs3_run.specs.declared.run.CheckStatus.{CheckStatus};

/// The text that is written for a tree which refutes a problem's start list is a proof of the problem; and where the
/// shelf holds a problem and a proof of it, `check_run` says Valid of them and nothing else, want of memory and faults
/// of the shelf and the sink apart.
pub fn proofs_are_valid()
    ensures written { (problem : PlainProblem) (tree : ProofTree) → AreSymbols problem.symbols.functions
        → Refutes (Start problem) tree
        → AllByRecursion (IsSpellable problem.symbols.functions) (preorder tree)
        → IsValid problem (text_of (proof_lines problem.symbols.functions (preorder tree))) }
    ensures valid { (words : List (List ℕ)) (holds : List ℕ → Option (List ℕ)) (before after : ℕ)
        (old new : Option (List ℕ)) (faults faults' : ℕ) (s : CheckStatus) → HoldsProof words holds
        → Ran words holds before after old new faults faults' s → EndsValid before after faults faults' s }
{}
