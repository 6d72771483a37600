//! The lists that a proof still has to refute. The branches share what they have in common: one list,
//! cut back where the next branch begins.

ghost use Rattle.std.specs.Prelude.{◌≡◌, ◌∷◌, ◌++◌, ◌≤◌, [], take, length, IfOk, IfSome};
ghost use Rattle.fol_core.specs.View.{formulas_of};
ghost use Rattle.gs3_rules.specs.Apply.{rule_of};
ghost use Rattle.gs3_rules.specs.ParamBound.{list_bound};
ghost use Rattle.gs3_kernel.specs.Steps.{DoesStep};
ghost use Rattle.gs3_kernel.specs.OpenLists.{later_lists, open_lists, IsSound, left_of, LeftIsSound};

use fol_core::Formulas;
use gs3_rules::{ApplyError, Premises, Step, apply_below, bound_after, list_bound};
use std::alloc::{AllocError, Global};

/// Where the next branch begins: how much of the list it keeps, what then follows, and a number above all its
/// parameters.
#[derive(Drop)]
pub(crate) struct Cut {
    keep: usize,
    more: Formulas,
    above: u128,
}

/// The list of the branch that is open, a number above all its parameters, and where the branches after it begin, the
/// next one last.
#[derive(Drop)]
pub(crate) struct Open {
    list: Formulas,
    above: u128,
    cuts: Vec<Cut>,
}

pub(crate) fn begin(alloc: Global, list: Formulas) -> Open
    ensures left { open_lists result ≡ formulas_of list ∷ [] }
    ensures sound { IsSound result }
{
    Open {
        above: list_bound(&list),
        list,
        cuts: Vec::new(alloc),
    }
}

fn shorten(list: &mut Formulas, keep: usize)
    requires { keep ≤ length list.old }
    ensures { list.new ≡ take keep list.old }
{
    while list.len() > keep {
        let _ = list.pop();
    }
}

/// The branch is closed, and the next one begins.
fn close(state: Open) -> Result<Option<Open>, AllocError>
    requires { IsSound state }
    ensures left { IfOk result (λ next. left_of next ≡ later_lists state) }
    ensures sound { IfOk result LeftIsSound }
{
    let Open {
        mut list,
        above: _,
        mut cuts,
    } = state;
    match cuts.pop() {
        None => Ok(None),
        Some(cut) => {
            let Cut { keep, more, above } = cut;
            shorten(&mut list, keep);
            list.append(more)?;
            Ok(Some(Open { list, above, cuts }))
        }
    }
}

fn grow(state: Open, more: Formulas, above: u128) -> Result<Open, AllocError>
    requires sound { IsSound state }
    requires below { list_bound (formulas_of state.list ++ formulas_of more) ≤ above }
    ensures left { IfOk result (λ next. open_lists next
        ≡ (formulas_of state.list ++ formulas_of more) ∷ later_lists state) }
    ensures sound { IfOk result IsSound }
{
    let Open {
        mut list,
        above: _,
        cuts,
    } = state;
    list.append(more)?;
    Ok(Open { list, above, cuts })
}

fn fork(state: Open, left: Formulas, right: Formulas, above: u128) -> Result<Open, AllocError>
    requires sound { IsSound state }
    requires left { list_bound (formulas_of state.list ++ formulas_of left) ≤ above }
    requires right { list_bound (formulas_of state.list ++ formulas_of right) ≤ above }
    ensures left { IfOk result (λ next. open_lists next
        ≡ (formulas_of state.list ++ formulas_of left) ∷ (formulas_of state.list ++ formulas_of right)
        ∷ later_lists state) }
    ensures sound { IfOk result IsSound }
{
    let Open {
        mut list,
        above: _,
        mut cuts,
    } = state;
    let keep = list.len();
    cuts.push(Cut {
        keep,
        more: right,
        above,
    })?;
    list.append(left)?;
    Ok(Open { list, above, cuts })
}

/// Does one step on the list that is open. None where its condition fails.
pub(crate) fn advance(
    alloc: Global,
    state: Open,
    step: &Step,
) -> Result<Option<Option<Open>>, AllocError>
    requires { IsSound state }
    ensures left { IfOk result (λ next. DoesStep (open_lists state) (rule_of step.now) next) }
    ensures sound { IfOk result (λ next. IfSome next LeftIsSound) }
{
    let above = bound_after(step, state.above);
    match apply_below(alloc, &state.list, state.above, step) {
        Ok(Premises::Zero) => Ok(Some(close(state)?)),
        Ok(Premises::One(more)) => Ok(Some(Some(grow(state, more, above)?))),
        Ok(Premises::Two(left, right)) => Ok(Some(Some(fork(state, left, right, above)?))),
        Err(ApplyError::Wrong) => Ok(None),
        Err(ApplyError::OutOfMemory) => Err(AllocError),
    }
}
