//! Two workers draw from one book.

ghost use Rattle.std.specs.Prelude.{◌≡◌, ◌<◌};

use crate::{Book, Draw};
use std::alloc::{AllocError, Global};
use std::marker::Brand;
use std::process::Abort;
use std::sync::Wait;
use std::sync::ledger::{Blank, Ledger};
use std::test::Fail;

fn three_draws<N: Ledger, M: Ledger, R: Wait>(
    rt: &R,
    alloc: Global,
    tries: Blank,
    cap: Blank,
) -> Result<(Draw, Draw, Draw, u64), AllocError>
    requires tries { (tries.name ≡ N.name) × (tries.parts ≡ N.parts) × (tries.parts ≡ 2) }
    requires cap { (cap.name ≡ M.name) × (cap.parts ≡ M.parts) × (cap.parts ≡ 1) }
{
    let (book, mut shares) = Book::<N, M>::new(alloc, tries, cap, 2, 2)?;
    let Some(mut first) = shares.take_share() else {
        unreachable!();
    };
    let Some(mut second) = shares.take_share() else {
        unreachable!();
    };
    let one = book.draw(rt, &mut first);
    let two = book.draw(rt, &mut second);
    let three = book.draw(rt, &mut first);
    shares.give_share(first);
    shares.give_share(second);
    Ok((one, two, three, book.total(shares)))
}

#[test]
fn two_draws_and_no_third(rt: HostRuntime) -> Result<(), Fail> {
    let drawn = three_draws::<Brand, Brand, HostRuntime>(
        &rt,
        rt.alloc(),
        Blank::new(2),
        Blank::new(1),
    )?;
    assert_eq!(rt; drawn, (Draw::Taken, Draw::Taken, Draw::Spent, 2));
    Ok(())
}
