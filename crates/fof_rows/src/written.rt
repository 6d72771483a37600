//! Problems as they are printed.

use fof_parse::Problem;
use fol_core::{Formula, Symbols, Term};
use itoa::Buffer;
use std::alloc::{AllocError, Global};

/// What is still to be written.
#[derive(Clone, Copy)]
enum Part<'a> {
    Formula(&'a Formula),
    Term(&'a Term),
}

/// Appends a letter and a number.
fn push_numbered(out: &mut Vec<u8>, letter: u8, number: u32) -> Result<(), AllocError> {
    out.push(letter)?;
    let mut buffer = Buffer::new();
    out.extend_from_slice(buffer.format(number).as_bytes())
}

/// Puts the terms on the stack, the first on top.
fn stack_terms<'a>(stack: &mut Vec<Part<'a>>, terms: &'a [Term]) -> Result<(), AllocError> {
    for term in terms.iter().rev() {
        stack.push(Part::Term(term))?;
    }
    Ok(())
}

/// Appends a binary operator, and puts its parts on the stack.
fn push_binary<'a>(
    out: &mut Vec<u8>,
    stack: &mut Vec<Part<'a>>,
    operator: u8,
    left: &'a Formula,
    right: &'a Formula,
) -> Result<(), AllocError> {
    out.push(operator)?;
    stack.push(Part::Formula(right))?;
    stack.push(Part::Formula(left))?;
    Ok(())
}

/// Appends an operator of one part, and puts the part on the stack.
fn push_unary<'a>(
    out: &mut Vec<u8>,
    stack: &mut Vec<Part<'a>>,
    operator: u8,
    body: &'a Formula,
) -> Result<(), AllocError> {
    out.push(operator)?;
    stack.push(Part::Formula(body))?;
    Ok(())
}

/// Appends what the formula begins with, and puts its parts on the stack.
fn push_formula<'a>(
    out: &mut Vec<u8>,
    stack: &mut Vec<Part<'a>>,
    formula: &'a Formula,
) -> Result<(), AllocError> {
    match formula {
        Formula::Atom(predicate, terms) => {
            push_numbered(out, b'p', *predicate)?;
            stack_terms(stack, terms.get().as_slice())
        }
        Formula::Verum => Ok(out.push(b'1')?),
        Formula::Falsum => Ok(out.push(b'0')?),
        Formula::Not(body) => push_unary(out, stack, b'~', body.get()),
        Formula::And(left, right) => push_binary(out, stack, b'&', left.get(), right.get()),
        Formula::Or(left, right) => push_binary(out, stack, b'|', left.get(), right.get()),
        Formula::Imp(left, right) => push_binary(out, stack, b'>', left.get(), right.get()),
        Formula::Iff(left, right) => push_binary(out, stack, b'=', left.get(), right.get()),
        Formula::All(body) => push_unary(out, stack, b'!', body.get()),
        Formula::Ex(body) => push_unary(out, stack, b'?', body.get()),
    }
}

/// Appends what the term begins with, and puts its arguments on the stack.
fn push_term<'a>(
    out: &mut Vec<u8>,
    stack: &mut Vec<Part<'a>>,
    term: &'a Term,
) -> Result<(), AllocError> {
    match term {
        Term::Bound(number) => push_numbered(out, b'v', *number),
        Term::Param(_) => Ok(out.push(b'#')?),
        Term::App(function, terms) => {
            push_numbered(out, b'f', *function)?;
            stack_terms(stack, terms.get().as_slice())
        }
    }
}

/// Appends a word and the formula, in a line of their own.
fn push_line(
    alloc: Global,
    out: &mut Vec<u8>,
    word: &[u8],
    formula: &Formula,
) -> Result<(), AllocError> {
    out.extend_from_slice(word)?;
    let mut stack = Vec::new(alloc);
    stack.push(Part::Formula(formula))?;
    for _ in 0..u64::MAX {
        let Some(part) = stack.pop() else {
            break;
        };
        out.push(b' ')?;
        match part {
            Part::Formula(formula) => push_formula(out, &mut stack, formula)?,
            Part::Term(term) => push_term(out, &mut stack, term)?,
        }
    }
    out.push(b'\n')?;
    Ok(())
}

/// Appends a symbol's name and its number of arguments.
fn push_symbol(out: &mut Vec<u8>, name: &[u8], arity: Option<u32>) -> Result<(), AllocError> {
    out.extend_from_slice(name)?;
    push_numbered(out, b'/', arity.unwrap_or(0))
}

/// Appends the function symbols, each with a blank behind it.
fn push_functions(out: &mut Vec<u8>, symbols: &Symbols) -> Result<(), AllocError> {
    for number in 0..u32::MAX {
        let Some(name) = symbols.function_name(number) else {
            break;
        };
        push_symbol(out, name, symbols.function_arity(number))?;
        out.push(b' ')?;
    }
    Ok(())
}

/// Appends the predicate symbols, each with a blank before it.
fn push_predicates(out: &mut Vec<u8>, symbols: &Symbols) -> Result<(), AllocError> {
    for number in 0..u32::MAX {
        let Some(name) = symbols.predicate_name(number) else {
            break;
        };
        out.push(b' ')?;
        push_symbol(out, name, symbols.predicate_arity(number))?;
    }
    Ok(())
}

/// Appends each statement's name and role.
fn push_statements(alloc: Global, out: &mut Vec<u8>, problem: &Problem) -> Result<(), AllocError> {
    for statement in problem.statements.as_slice() {
        out.extend_from_slice(statement.name.as_slice())?;
        let role = format!(in alloc; " {:?}\n", statement.role)?;
        out.extend_from_slice(role.as_bytes())?;
    }
    Ok(())
}

/// Appends the problem: its symbols, its statements, its axioms and its conjecture.
pub fn push_problem(alloc: Global, out: &mut Vec<u8>, problem: &Problem) -> Result<(), AllocError> {
    push_functions(out, &problem.symbols)?;
    out.push(b';')?;
    push_predicates(out, &problem.symbols)?;
    out.push(b'\n')?;
    push_statements(alloc, out, problem)?;
    for axiom in problem.axioms.as_slice() {
        push_line(alloc, out, b"axiom", axiom)?;
    }
    if let Some(conjecture) = &problem.conjecture {
        push_line(alloc, out, b"conjecture", conjecture)?;
    }
    Ok(())
}
