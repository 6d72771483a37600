//! The round of a problem.

use containers::Shared;
use fof_parse::read_problem;
use rewrite_rules::rules_of;
use std::alloc::{AllocError, Global};
use tab_tree::Round;

/// The round of the problem with the depth and the rewriting of its first line, or None where the text is no problem.
pub(crate) fn round_of(
    alloc: Global,
    first: &str,
    text: &[u8],
) -> Result<Option<Round>, AllocError> {
    let mut words = first.split(' ');
    let depth = words.next().and_then(|word| word.parse().ok()).unwrap_or(1);
    let rewriting = words.next() != Some("off");
    let Ok(problem) = read_problem(alloc, text) else {
        return Ok(None);
    };
    let rules = Shared::new(alloc, rules_of(alloc, &problem, rewriting)?)?;
    let problem = Shared::new(alloc, problem)?;
    Ok(Some(Round::new(problem, rules, depth)))
}
