//! A problem that is read, and a text that is refused.

use crate::{BadKind, ReadError, into_start_list, read_problem, refusal_line, start_list};
use std::test::Fail;

#[test]
fn reads_a_problem(rt: HostRuntime) -> Result<(), Fail> {
    let problem = read_problem(rt.alloc(), b"fof(a,axiom,p(c)).fof(b,conjecture,p(c)).")?;
    assert_eq!(rt; start_list(rt.alloc(), &problem)?.len(), 2);
    let (symbols, start) = into_start_list(rt.alloc(), problem)?;
    assert_eq!(rt; symbols.predicate(b"p", 1), Some(0));
    assert_eq!(rt; start.len(), 2);
    Ok(())
}

#[test]
fn tells_a_refusal(rt: HostRuntime) -> Result<(), Fail> {
    let (offset, kind) = (0, BadKind::Syntax);
    let refused = read_problem(rt.alloc(), b"fof(a,axiom,p").err();
    assert_eq!(rt; refused, Some(ReadError::Bad { offset, kind }));
    let line = refusal_line(rt.alloc(), kind.word(), offset)?;
    assert_eq!(rt; line.as_slice(), b"% refused Syntax at 0\n".as_slice());
    Ok(())
}
