//! A problem, its rules and a depth.

ghost use Rattle.std.specs.Prelude.{◌≡◌};
ghost use Rattle.tab_tree.specs.RoundValue.{HasRulesOfProblem};

use containers::Shared;
use fof_parse::Problem;
use rewrite_rules::Rules;
use std::marker::Model;

/// A problem with its rules, and the depth of the tableau. The rules are those that the problem gives with rewriting
/// on, or with it off.
#[derive(Drop)]
pub struct Round {
    problem: Shared<Problem>,
    rules: Shared<Rules>,
    depth: u32,
}

impl Model for Round {
    ghost use Rattle.tab_tree.specs.RoundValue.{RoundValue, round_code, HasRulesOfProblem};

    ghost Value = { RoundValue };

    ghost coded = { round_code };

    ghost view = { λ r. record { problem = r.problem; rules = r.rules; depth = r.depth } };

    ghost invariant = { λ r. HasRulesOfProblem (record { problem = r.problem; rules = r.rules; depth = r.depth }) };
}

impl Round {
    /// The round of that depth. The rules are those of the problem, with rewriting on or off.
    pub fn new(problem: Shared<Problem>, rules: Shared<Rules>, depth: u32) -> Round
        requires { HasRulesOfProblem (record { problem = problem; rules = rules; depth = depth }) }
        ensures { result ≡ record { problem = problem; rules = rules; depth = depth } }
    {
        Round {
            problem,
            rules,
            depth,
        }
    }

    /// The problem.
    pub fn problem(&self) -> &Shared<Problem>
        ensures { result.now ≡ self.now.problem }
    {
        &self.problem
    }

    /// The rules.
    pub fn rules(&self) -> &Shared<Rules>
        ensures value { result.now ≡ self.now.rules }
        ensures of_problem { HasRulesOfProblem self.now }
    {
        &self.rules
    }

    /// The depth of the tableau.
    pub fn depth(&self) -> u32
        ensures { result ≡ self.now.depth }
    {
        self.depth
    }
}
