//! What holds of every text and the answer to it.

ghost use Rattle.std.specs.Prelude.{◌≡◌, ◌≢◌, ◌⊎◌, ℕ, false, List};
ghost use Rattle.std.specs.List.{All};
ghost use Rattle.fol_core.specs.Syntax.{PlainFormula, IsClosed, param_in};
ghost use Rattle.fol_core.specs.Symbol.{SymbolTable};
ghost use Rattle.fof_parse.specs.Problem.{PlainProblem, Start};
ghost use Rattle.fof_parse.specs.TheProblem.{IsProblemText, IsGoodText, HasProblem};
ghost use Rattle.fof_parse.specs.WellFormed.{IsClosedOver, UsesSymbols};
ghost use Rattle.fof_parse.specs.Kept.{IsKept};
ghost use Rattle.fof_parse.specs.Refused.{Refuses, HasRefusal};
ghost use Rattle.fof_parse.specs.declared.read.ReadError.{ReadError};
ghost use Rattle.fof_parse.specs.declared.read.ReadError.TheVariants.{OutOfMemory};

/// Each text is a problem or is refused but for want of memory, and not both; it is refused in one way at most. A text
/// whose statements have no fault is a problem.
pub fn one_answer()
    ensures some { (bytes : List ℕ) → HasProblem bytes ⊎ HasRefusal bytes }
    ensures not_both { (bytes : List ℕ) (problem : PlainProblem) → IsProblemText bytes problem → HasRefusal bytes → ⊥ }
    ensures one_refusal { (bytes : List ℕ) (e d : ReadError) → e ≢ OutOfMemory → d ≢ OutOfMemory → Refuses bytes e
        → Refuses bytes d → e ≡ d }
    ensures good { (bytes : List ℕ) → IsGoodText bytes → HasProblem bytes }
{}

/// The formulas of a problem's start list are closed formulas over its symbols: they are closed, hold no parameter, and
/// use the symbols of the table, each with its number of arguments.
pub fn closed_start()
    ensures start { (problem : PlainProblem) → IsKept problem → All (IsClosedOver problem.symbols) (Start problem) }
    ensures closed { (table : SymbolTable) (a : PlainFormula) → IsClosedOver table a → IsClosed a }
    ensures no_param { (table : SymbolTable) (a : PlainFormula) → IsClosedOver table a → (q : ℕ)
        → param_in q a ≡ false }
    ensures symbols { (table : SymbolTable) (a : PlainFormula) → IsClosedOver table a → UsesSymbols table a }
{}
