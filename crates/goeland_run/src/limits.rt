//! The limits of a run.

ghost use Rattle.std.specs.Prelude.{◌≡◌};
ghost use Rattle.goeland_run.specs.Searched.{limits_of, bench_limits};

use deepening::Limits;
use goeland_words::ProveWords;

/// Those that the words set.
pub(crate) fn limits_of(asked: &ProveWords) -> Limits
    ensures { result ≡ limits_of asked.now }
{
    Limits {
        depth: asked.depth,
        tries: asked.tries,
        proof_bytes: asked.proof_bytes,
    }
}

/// Those of the bench.
pub(crate) fn bench_limits() -> Limits
    ensures { result ≡ bench_limits }
{
    Limits {
        depth: 8,
        tries: None,
        proof_bytes: 67_108_864,
    }
}
