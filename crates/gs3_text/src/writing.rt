//! Writing a proof text.

ghost use Rattle.std.specs.Prelude.{◌≡◌, ◌++◌, ◌∷◌, [], decimal, OnOk, IfOk};
ghost use Rattle.std.specs.List.{AllByRecursion};
ghost use Rattle.gs3_rules.specs.Apply.{rule_of, rules_of};
ghost use Rattle.gs3_text.specs.ProofText.{line_of, proof_lines, text_of, IsSpellableTerm, HasSmallNumbers, ProofText};
ghost use Rattle.gs3_rules.specs.Refutes.{ProofTree, preorder, HasShape};

use crate::table;
use crate::tree::Tree;
use fol_core::{Symbols, spell_term};
use gs3_rules::Step;
use itoa::Buffer;
use std::alloc::{AllocError, Global};

/// Appends the word and the number.
fn put(out: &mut Vec<u8>, word: &[u8], number: u64) -> Result<(), AllocError>
    ensures { OnOk result (out.new.items ≡ out.old.items ++ word.now ++ decimal number) }
{
    out.extend_from_slice(word)?;
    let mut buffer = Buffer::new();
    out.extend_from_slice(buffer.format(number).as_bytes())
}

/// Appends the step's line.
fn put_step(symbols: &Symbols, step: &Step, out: &mut Vec<u8>) -> Result<(), AllocError>
    requires { IsSpellableTerm symbols.now.functions (rule_of step.now) }
    ensures text { OnOk result (out.new.items
        ≡ out.old.items ++ (line_of symbols.now.functions (rule_of step.now) ++ 10 ∷ [])) }
    ensures numbers { OnOk result (HasSmallNumbers (rule_of step.now)) }
{
    match step {
        Step::Close { atom, negated } => {
            put(out, b"close ", *atom as u64)?;
            put(out, b" ", *negated as u64)?;
        }
        Step::FalseAt { place } => put(out, b"false ", *place as u64)?,
        Step::NotTrue { place } => put(out, b"nottrue ", *place as u64)?,
        Step::Alpha { place } => put(out, b"alpha ", *place as u64)?,
        Step::Beta { place } => put(out, b"beta ", *place as u64)?,
        Step::Delta { place, param } => {
            put(out, b"delta ", *place as u64)?;
            put(out, b" #", *param)?;
        }
        Step::Gamma { place, term } => {
            put(out, b"gamma ", *place as u64)?;
            out.push(b' ')?;
            spell_term(symbols, term, out)?;
        }
    }
    out.push(b'\n')?;
    Ok(())
}

/// The text of these steps, from `gs3 1` on.
fn text_of_steps(alloc: Global, symbols: &Symbols, steps: &[Step]) -> Result<Vec<u8>, AllocError>
    requires { AllByRecursion (IsSpellableTerm symbols.now.functions) (rules_of steps.now) }
    ensures text { IfOk result (λ v. v.items ≡ text_of (proof_lines symbols.now.functions (rules_of steps.now))) }
    ensures numbers { OnOk result (AllByRecursion HasSmallNumbers (rules_of steps.now)) }
{
    let mut out = Vec::from_slice(alloc, b"gs3 1\n")?;
    for step in steps {
        put_step(symbols, step, &mut out)?;
    }
    Ok(out)
}

/// The text of the proof, from `gs3 1` on: a line for each step in preorder.
pub fn write_tree(alloc: Global, symbols: &Symbols, tree: &Tree) -> Result<Vec<u8>, AllocError>
    requires { AllByRecursion (IsSpellableTerm symbols.now.functions) (rules_of tree.now) }
    ensures lines { IfOk result (λ v. v.items ≡ text_of (proof_lines symbols.now.functions (rules_of tree.now))) }
    // It is a text of the proof tree with these steps.
    ensures text { IfOk result (λ v. (whole : ProofTree) → HasShape whole → preorder whole ≡ rules_of tree.now
        → ProofText symbols.now.functions v.items whole) }
{
    table::keeps_symbols(symbols);
    text_of_steps(alloc, symbols, tree.steps().as_slice())
}
