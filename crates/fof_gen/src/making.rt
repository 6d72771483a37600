//! The problems of the bench, made line by line.

ghost use Rattle.std.specs.Prelude.{◌≡◌, ◌≤◌, ◌++◌, ◌∷◌, [], decimal, IfOk, OnOk};
ghost use Rattle.fof_gen.specs.Generated.{rule_line, last_line, problem_text};

use itoa::Buffer;
use std::alloc::{AllocError, Global};

/// Appends the bytes and the number.
fn put(out: &mut Vec<u8>, bytes: &[u8], number: u32) -> Result<(), AllocError>
    ensures { OnOk result (out.new.items ≡ out.old.items ++ (bytes.now ++ decimal number)) }
{
    out.extend_from_slice(bytes)?;
    let mut buffer = Buffer::new();
    out.extend_from_slice(buffer.format(number).as_bytes())
}

/// Appends the line of rule i.
fn put_rule(out: &mut Vec<u8>, i: u32) -> Result<(), AllocError>
    requires { i ≤ 100 }
    ensures { OnOk result (out.new.items ≡ out.old.items ++ (rule_line i ++ 10 ∷ [])) }
{
    put(out, b"fof(r", i)?;
    put(out, b",axiom,![X]:(p", i)?;
    put(out, b"(X)=>p", i + 1)?;
    out.extend_from_slice(b"(X))).\n")?;
    Ok(())
}

/// Appends the last line of problem n.
fn put_last(out: &mut Vec<u8>, n: u32) -> Result<(), AllocError>
    ensures { OnOk result (out.new.items ≡ out.old.items ++ (last_line n ++ 10 ∷ [])) }
{
    put(out, b"fof(g,conjecture,p", n)?;
    out.extend_from_slice(b"(a)).\n")?;
    Ok(())
}

/// The text of problem `n`, from 1 to 100, in TPTP's FOF: a constant has the first of n + 1 properties, what has one of
/// them has the next, and so the constant has the last one. Its tableau of depth 1 has a branch with n splits.
pub fn make_problem(alloc: Global, n: u32) -> Result<Vec<u8>, AllocError>
    requires first { 1 ≤ n }
    requires last { n ≤ 100 }
    ensures { IfOk result (λ text. text.items ≡ problem_text n) }
{
    let mut out = Vec::from_slice(alloc, b"fof(s,axiom,p0(a)).\n")?;
    for i in 0..n {
        put_rule(&mut out, i)?;
    }
    put_last(&mut out, n)?;
    Ok(out)
}
