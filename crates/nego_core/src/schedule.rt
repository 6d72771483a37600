//! Picks drawn from a seed.

ghost use Rattle.std.specs.Prelude.{◌≡◌, IfOk};
ghost use Rattle.nego_core.specs.Schedule.{pick_of, scheduled};

use crate::picks::{Pick, Picks};
use containers::Items;
use rand_core::utils::NextWord;
use rand_pcg::Lcg64Xsh32;
use std::alloc::{AllocError, Global};

/// A pick by two words: the node's number, and the act's number modulo 13.
fn next_pick(generator: &mut Lcg64Xsh32) -> Pick
    ensures { (result, generator.new) ≡ pick_of generator.old }
{
    let node = generator.next_word();
    let act = generator.next_word();
    Pick {
        node: node as u64,
        act: (act % 13) as u8,
    }
}

/// So many picks of the generator that begins with the seed, in its first stream.
pub fn scheduled_picks(alloc: Global, seed: u64, turns: u32) -> Result<Picks, AllocError>
    ensures { IfOk result (λ picks. picks ≡ scheduled seed turns) }
{
    let mut generator = Lcg64Xsh32::new(seed, 1);
    let mut picks = Items::new(alloc);
    for _turn in 0..turns {
        picks.push(next_pick(&mut generator))?;
    }
    Ok(picks)
}
