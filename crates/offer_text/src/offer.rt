//! The text of offers.

ghost use Rattle.std.specs.Prelude.{◌≡◌, ◌++◌, codes, OnOk, OnErr};
ghost use Rattle.std.specs.List.{join_by};
ghost use Rattle.fol_core.specs.Spelling.{IsGrown};
ghost use Rattle.unify.specs.View.{binding_of, offer_of};
ghost use Rattle.offer_text.specs.Text.{binding_text, offer_text};
ghost use Rattle.offer_text.specs.Separated.{separator};

use crate::term::{append_name, append_term};
use fol_core::Symbols;
use std::alloc::AllocError;
use unify::{Binding, Subst, binding};

/// Appends the metavariable and the term that it is bound to.
#[tactic(auto, using(fol_core::proofs::Grown::growing))]
fn append_binding(symbols: &Symbols, bound: &Binding, out: &mut Vec<u8>) -> Result<(), AllocError>
    ensures ok { OnOk result (out.new.items
        ≡ out.old.items ++ binding_text symbols.now.functions (binding_of bound.now)) }
    ensures grows { IsGrown out.old.items out.new.items }
{
    append_name(b"?", bound.name, out)?;
    out.push(b'=')?;
    append_term(symbols, &bound.term, out)
}

/// Appends the binding that stands at that place, behind a comma where others stand before it.
#[tactic(auto, using(fol_core::proofs::Grown::growing))]
fn append_next(
    symbols: &Symbols,
    place: u32,
    bound: &Binding,
    out: &mut Vec<u8>,
) -> Result<(), AllocError>
    ensures ok { OnOk result (out.new.items
        ≡ out.old.items ++ (separator place ++ binding_text symbols.now.functions (binding_of bound.now))) }
    ensures grows { IsGrown out.old.items out.new.items }
{
    if place > 0 {
        out.push(b',')?;
    }
    append_binding(symbols, bound, out)
}

/// Appends the bindings with a comma between each two. No offer that fits in memory has 2 ^ 32 - 1 of them.
#[tactic(auto, using(fol_core::proofs::Grown::growing))]
fn append_bindings(symbols: &Symbols, offer: &Subst, out: &mut Vec<u8>) -> Result<(), AllocError>
    ensures ok { OnOk result (out.new.items
        ≡ out.old.items ++ join_by (binding_text symbols.now.functions) (codes ",") (offer_of offer.now)) }
    ensures grows { IsGrown out.old.items out.new.items }
{
    for place in 0..u32::MAX {
        let Some(bound) = binding(offer, place) else {
            return Ok(());
        };
        append_next(symbols, place, bound, out)?;
    }
    Err(AllocError)
}

#[tactic(auto, using(fol_core::proofs::Grown::growing))]
fn append_offer(symbols: &Symbols, offer: &Subst, out: &mut Vec<u8>) -> Result<(), AllocError>
    ensures ok { OnOk result (out.new.items
        ≡ out.old.items ++ offer_text symbols.now.functions (offer_of offer.now)) }
    ensures grows { IsGrown out.old.items out.new.items }
{
    out.push(b'{')?;
    append_bindings(symbols, offer, out)?;
    out.push(b'}')?;
    Ok(())
}

/// Appends the text of an offer: its bindings in their order as `?b.k=TERM`, with commas between them, in braces. The
/// terms are those of the bindings, in which no binding is applied. After an error `out` is as it was.
#[tactic(auto, using(fol_core::proofs::Grown::growing))]
pub fn spell_offer(symbols: &Symbols, offer: &Subst, out: &mut Vec<u8>) -> Result<(), AllocError>
    ensures ok { OnOk result (out.new.items
        ≡ out.old.items ++ offer_text symbols.now.functions (offer_of offer.now)) }
    ensures err { OnErr result (out.new.items ≡ out.old.items) }
{
    let len = out.len();
    let done = append_offer(symbols, offer, out);
    if done.is_err() {
        out.truncate(len);
    }
    done
}
