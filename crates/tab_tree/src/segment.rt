//! The segments of a tableau.

ghost use Rattle.std.specs.Prelude.{◌≡◌, ◌*◌, ◌+◌, ◌<◌, ◌^◌, None, take, IfOk, IfSome, MatchOption};
ghost use Rattle.branch_rules.specs.Branch.{entries};
ghost use Rattle.branch_rules.specs.BranchValue.{branch_of};
ghost use Rattle.tab_tree.specs.Literals.{occurrences};
ghost use Rattle.tab_tree.specs.RunView.{DidRun, site_by};
ghost use Rattle.tab_tree.specs.SiteValue.{segment_of, root_under, IsSegment, IsOfRound, IsRoot, AreParts};

use crate::finding::own_items;
use crate::round::Round;
use crate::site::Site;
use branch_rules::{Branch, Next, TabSteps, halves, len, next, rules, start};
use containers::Items;
use lit_index::LitIndex;
use std::alloc::{AllocError, Global};

/// What a branch does up to a leaf or a split: the branch at the end, the steps, and the principal of the split.
#[derive(Drop)]
pub(crate) struct Run {
    pub(crate) branch: Branch,
    pub(crate) steps: TabSteps,
    pub(crate) splits_at: Option<u32>,
}

/// Does the steps that come next, one after the other, up to a leaf or a split.
fn run_on(alloc: Global, depth: u32, branch: Branch) -> Result<Run, AllocError>
    requires ready { branch.ready ≡ None }
    ensures { IfOk result (λ r. DidRun depth branch r) }
{
    let rules = rules(&branch).copy()?;
    let mut steps = Items::new(alloc);
    let mut at = branch;
    loop {
        match next(alloc, at, rules.get(), depth) {
            Err(_) => return Err(AllocError),
            Ok(Next::One(branch, step)) => {
                steps.push(step)?;
                at = branch;
            }
            Ok(Next::Done(branch)) => {
                return Ok(Run {
                    branch,
                    steps,
                    splits_at: None,
                });
            }
            Ok(Next::Splits { branch, place }) => {
                return Ok(Run {
                    branch,
                    steps,
                    splits_at: Some(place),
                });
            }
        }
    }
}

/// The site that a run of a segment makes. The index holds the literals before the place where its own entries begin.
fn finish(
    alloc: Global,
    name: u128,
    depth: u32,
    from: u32,
    index: LitIndex,
    run: Run,
) -> Result<Site, AllocError>
    requires index { index ≡ occurrences (take from (entries (branch_of run.branch))) }
    requires segment { IsSegment depth (root_under run.branch) (segment_of (site_by name depth from run)) }
    requires ready { run.branch.ready ≡ run.splits_at }
    ensures { IfOk result (λ site. site ≡ site_by name depth from run) }
{
    let mut index = index;
    let items = own_items(alloc, &run.branch, from, &mut index)?;
    let Run {
        branch,
        steps,
        splits_at,
    } = run;
    Ok(Site {
        name,
        depth,
        from,
        branch,
        steps,
        splits_at,
        items,
        index,
    })
}

/// The first segment of the round's tableau. An error is want of memory.
pub fn root(alloc: Global, round: &Round) -> Result<Site, AllocError>
    ensures root { IfOk result (λ site. IsRoot round.now site) }
    ensures name { IfOk result (λ site. site.name ≡ 1) }
{
    let branch = start(alloc, round.problem().get(), round.rules())?;
    let depth = round.depth();
    let run = run_on(alloc, depth, branch)?;
    finish(alloc, 1, depth, 0, LitIndex::new(alloc), run)
}

/// The left and the right part of a segment, which is one of the round's tableau; None exactly where it is a leaf. An
/// error is want of memory.
pub fn split(alloc: Global, round: &Round, site: &Site) -> Result<Option<(Site, Site)>, AllocError>
    requires { IsOfRound round.now site.now }
    ensures parts { IfOk result (λ parts. MatchOption parts (site.now.splits_at ≡ None)
        (λ two. AreParts round.now (segment_of site.now) two.0 two.1)) }
    ensures names { IfOk result (λ parts. IfSome parts (λ two.
        (two.0.name ≡ 2 * site.now.name) × (two.1.name ≡ 2 * site.now.name + 1) × (two.1.name < 2 ^ 128))) }
{
    let Some(place) = site.splits_at else {
        return Ok(None);
    };
    let from = len(&site.branch);
    let (left, right) = halves(alloc, &site.branch, place)?;
    let left = run_on(alloc, site.depth, left)?;
    let right = run_on(alloc, site.depth, right)?;
    let (of_left, of_right) = site.index.fork()?;
    let left = finish(alloc, 2 * site.name, site.depth, from, of_left, left)?;
    let right = finish(alloc, 2 * site.name + 1, site.depth, from, of_right, right)?;
    Ok(Some((left, right)))
}
