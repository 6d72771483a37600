//! A report of each kind.

ghost use Rattle.std.specs.Prelude.{codes, refl};

use crate::{
    BenchResult, Cause, Found, Reason, Report, bench_report, gave_up_report, proof_report,
};
use history_text::OfferSpelling;
use nego_laws::sets::SetOffer;
use std::alloc::{AllocError, Global};
use tab_tree::{Engine, OpenAnswer};

/// Writes each set as `{}`.
struct Braces;

impl OfferSpelling for Braces {
    type Offer = SetOffer;

    ghost text = { λ _ s. codes "{}" };

    fn spell(&self, _offer: &SetOffer, out: &mut Vec<u8>) -> Result<(), AllocError> {
        out.extend_from_slice(b"{}")
    }

    ghost line = { λ _ s. refl };
}

fn proof(alloc: Global) -> Result<Report, AllocError> {
    let found = Found {
        theorem: true,
        depth: 12,
        engine: Engine::Plain,
        history: None,
        text: Vec::from_slice(alloc, b"gs3 1\nfalse 0\n")?,
    };
    proof_report(alloc, &Braces, "a\n", found)
}

fn gave_up(alloc: Global) -> Result<Report, AllocError> {
    let why = Reason {
        cause: Cause::Depth {
            limit: 8,
            answer: OpenAnswer::Branch(13),
        },
        engine: Engine::Board,
        history: None,
    };
    gave_up_report(alloc, &Braces, "-", &why)
}

#[test]
fn tells_a_proof(rt: HostRuntime) -> Result<(), AllocError> {
    let report = proof(rt.alloc())?;
    let first = b"% SZS status Theorem for a?\n% depth 12\n% engine plain\n\
        % SZS output start Proof for a?\n";
    assert!(rt; report.first.as_slice() == first.as_slice());
    let second = b"gs3 1\nfalse 0\n% SZS output end Proof for a?\n";
    assert!(rt; report.second.as_slice() == second.as_slice());
    Ok(())
}

#[test]
fn tells_a_reason(rt: HostRuntime) -> Result<(), AllocError> {
    let report = gave_up(rt.alloc())?;
    let first = b"% SZS status GaveUp for -\n% reason depth 8 open 13\n% engine board\n";
    assert!(rt; report.first.as_slice() == first.as_slice());
    Ok(())
}

#[test]
fn tells_a_result_of_the_bench(rt: HostRuntime) -> Result<(), AllocError> {
    let ended = BenchResult::Proved {
        depth: 1,
        bytes: 80,
    };
    let report = bench_report(rt.alloc(), 7, ended)?;
    let first = b"% bench 7 status Theorem depth 1 bytes 80\n";
    assert!(rt; report.first.as_slice() == first.as_slice());
    Ok(())
}
