//! Numbers behind words.

ghost use Rattle.std.specs.Prelude.{◌≡◌, ◌++◌, OnOk, OnErr};

use itoa::{Buffer, Integer};
use std::alloc::AllocError;

/// Appends the word, and behind it the number in decimal digits. After an error `out` is as it was.
#[tactic(auto, using(fol_core::proofs::Grown::growing))]
pub fn spell_number<N: Integer>(word: &[u8], number: N, out: &mut Vec<u8>) -> Result<(), AllocError>
    ensures ok { OnOk result (out.new.items ≡ out.old.items ++ (word.now ++ N.text number)) }
    ensures err { OnErr result (out.new.items ≡ out.old.items) }
{
    let len = out.len();
    out.extend_from_slice(word)?;
    let mut digits = Buffer::new();
    let done = out.extend_from_slice(digits.format(number).as_bytes());
    if done.is_err() {
        out.truncate(len);
    }
    done
}
