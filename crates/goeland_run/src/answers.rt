//! What a search comes to.

ghost use Rattle.std.specs.Prelude.{◌≡◌, List};
ghost use Rattle.fof_parse.specs.Problem.{PlainProblem};
ghost use Rattle.rewrite_rules.specs.Rules.{RewriteRule};
ghost use Rattle.deepening.specs.Endings.{EndsSo};
ghost use Rattle.deepening.specs.declared.kept.Kept.{Kept as KeptValue};
ghost use Rattle.deepening.specs.declared.order.Way.{Way as WayOf};
ghost use Rattle.goeland_run.specs.Searched.{HasAnswer};

use deepening::{Ending, Limits};
use goeland_report::Cause;
use gs3_text::Tree;

/// The steps of a proof, or why there is none.
#[derive(Drop)]
pub(crate) enum Answer {
    Steps(Tree),
    GaveUp(Cause),
}

/// What a search comes to that ended so at that depth.
pub(crate) fn answer_of(ending: Ending, limits: Limits, depth: u32) -> Answer
    ensures { (problem : PlainProblem) (rules : List RewriteRule) (way : WayOf) (kept : KeptValue) → kept.depth ≡ depth
        → EndsSo problem rules limits way kept ending → HasAnswer problem rules limits way kept result }
{
    match ending {
        Ending::Found(steps) => Answer::Steps(steps),
        Ending::Exhausted(answer) => Answer::GaveUp(Cause::Depth {
            limit: limits.depth,
            answer,
        }),
        Ending::Spent(made) => Answer::GaveUp(Cause::Tries { made, depth }),
        Ending::Long => Answer::GaveUp(Cause::Bytes {
            limit: limits.proof_bytes,
        }),
        Ending::Deep => Answer::GaveUp(Cause::Nesting),
    }
}
