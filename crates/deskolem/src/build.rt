//! The translation's steps with their closed terms.

ghost use Rattle.std.specs.Prelude.{◌≡◌, ◌++◌, map, reverse, IfOk, OnOk};
ghost use Rattle.std.specs.List.{AllByRecursion};
ghost use Rattle.fol_core.specs.View.{term_of};
ghost use Rattle.gs3_rules.specs.Apply.{rules_of};
ghost use Rattle.free_terms.specs.View.{fill_of, fills_of};
ghost use Rattle.unify.specs.View.{offer_of};
ghost use Rattle.translation.specs.Translation.{fill_under};
ghost use Rattle.deskolem.specs.Numbers.{AreValues};
ghost use Rattle.deskolem.specs.View.{names_of};
ghost use Rattle.deskolem.specs.Lines.{HasRoom, IsWithin, expansion_by, opening, rules_of_line, rules_of_lines};
ghost use Rattle.deskolem.specs.Lines.{symbols_of};

use crate::line::{Line, Rewriting};
use crate::parameters::Parameters;
use crate::value::{Values, grounded, metavariable, no_values};
use containers::{Items, Shared};
use fol_core::Term;
use free_terms::Fill;
use gs3_rules::{Step, Steps};
use rewrite_expand::{Expanded, expand};
use std::alloc::{AllocError, Global};
use unify::Subst;

/// The parameters of the Skolem symbols of the lines, in their order.
pub(crate) fn parameters_of(alloc: Global, lines: &[Line]) -> Result<Parameters, AllocError>
    ensures { IfOk result (λ names. names_of names ≡ symbols_of lines.now) }
{
    let mut names = Parameters::new(alloc);
    for line in lines {
        if let Line::Delta { name, .. } = line {
            names = names.with(*name)?;
        }
    }
    Ok(names)
}

fn fill_term(
    alloc: Global,
    s: &Subst,
    names: &Parameters,
    fill: &Fill,
    done: &mut Values,
) -> Result<Term, AllocError>
    requires { AreValues (offer_of s.now) (names_of names.now) done.old }
    ensures term { IfOk result (λ t. term_of t ≡ fill_under (offer_of s.now) (names_of names.now) (fill_of fill.now)) }
    ensures done { IfOk result (λ _. AreValues (offer_of s.now) (names_of names.now) done.new) }
{
    match fill {
        Fill::Given(term) => grounded(alloc, s, names, term, done),
        Fill::Unused => Ok(Term::Param(0)),
    }
}

/// The closed terms of the fills, the last one first.
fn fill_terms(
    alloc: Global,
    s: &Subst,
    names: &Parameters,
    fills: &[Fill],
    done: &mut Values,
) -> Result<Items<Term>, AllocError>
    requires { AreValues (offer_of s.now) (names_of names.now) done.old }
    ensures terms { IfOk result (λ ts. map term_of ts
        ≡ reverse (map (fill_under (offer_of s.now) (names_of names.now)) (fills_of fills.now))) }
    ensures done { IfOk result (λ _. AreValues (offer_of s.now) (names_of names.now) done.new) }
{
    let mut terms = Items::new(alloc);
    let mut at = fills.len();
    while at > 0 {
        at -= 1;
        let term = fill_term(alloc, s, names, &fills[at], done)?;
        terms.push(term)?;
    }
    Ok(terms)
}

fn push_rewriting(
    alloc: Global,
    s: &Subst,
    names: &Parameters,
    rewriting: &Rewriting,
    done: &mut Values,
    out: &mut Steps,
) -> Result<(), AllocError>
    requires within { IsWithin rewriting.now }
    requires done { AreValues (offer_of s.now) (names_of names.now) done.old }
    ensures steps { OnOk result (rules_of out.new
        ≡ rules_of out.old ++ opening (expansion_by (offer_of s.now) (names_of names.now) rewriting.now)) }
    ensures done { OnOk result (AreValues (offer_of s.now) (names_of names.now) done.new) }
{
    let rewritten = rewriting.rewritten.get();
    let fills = fill_terms(alloc, s, names, rewritten.fills.as_slice(), done)?;
    let terms = Shared::new(alloc, fills)?;
    let Expanded {
        before,
        close,
        close_first,
        ..
    } = expand(
        alloc,
        rewriting.len,
        rewriting.axiom,
        rewriting.literal,
        rewriting.positive,
        rewritten.head_left,
        &terms,
    )?;
    out.append(before)?;
    if close_first {
        out.push(close)?;
    }
    Ok(())
}

/// Adds the step, or the steps, that the line stands for.
fn push_line(
    alloc: Global,
    s: &Subst,
    names: &Parameters,
    line: &Line,
    done: &mut Values,
    out: &mut Steps,
) -> Result<(), AllocError>
    requires room { HasRoom line.now }
    requires done { AreValues (offer_of s.now) (names_of names.now) done.old }
    ensures steps { OnOk result (rules_of out.new
        ≡ rules_of out.old ++ rules_of_line (offer_of s.now) (names_of names.now) line.now) }
    ensures done { OnOk result (AreValues (offer_of s.now) (names_of names.now) done.new) }
{
    match line {
        Line::Close { atom, negated } => out.push(Step::Close {
            atom: *atom,
            negated: *negated,
        })?,
        Line::FalseAt { place } => out.push(Step::FalseAt { place: *place })?,
        Line::NotTrue { place } => out.push(Step::NotTrue { place: *place })?,
        Line::Alpha { place } => out.push(Step::Alpha { place: *place })?,
        Line::Beta { place } => out.push(Step::Beta { place: *place })?,
        Line::Delta { place, name } => out.push(Step::Delta {
            place: *place,
            param: names.number(name),
        })?,
        Line::Gamma { place, name } => {
            let value = metavariable(name);
            let term = grounded(alloc, s, names, &value, done)?;
            out.push(Step::Gamma {
                place: *place,
                term,
            })?;
        }
        Line::Rewrite(rewriting) => push_rewriting(alloc, s, names, rewriting, done, out)?,
    }
    Ok(())
}

/// The steps that the lines stand for. The value of each metavariable is built once, and shared.
pub(crate) fn steps_of(
    alloc: Global,
    s: &Subst,
    names: &Parameters,
    lines: &[Line],
) -> Result<Steps, AllocError>
    requires { AllByRecursion HasRoom lines.now }
    ensures { IfOk result (λ steps. rules_of steps ≡ rules_of_lines (offer_of s.now) (names_of names.now) lines.now) }
{
    let mut out = Items::new(alloc);
    let mut done = no_values(alloc);
    for line in lines {
        push_line(alloc, s, names, line, &mut done, &mut out)?;
    }
    Ok(out)
}
