//! A proof as its steps.

ghost use Rattle.std.specs.Prelude.{◌≡◌};
ghost use Rattle.gs3_rules.specs.Refutes.{IsWhole};
ghost use Rattle.gs3_rules.specs.Apply.{rules_of};

use gs3_rules::Steps;
use std::marker::Model;

/// A GS3 proof by its steps in preorder: they are one whole proof by their numbers of premises.
#[derive(Drop)]
pub struct Tree {
    steps: Steps,
}

impl Model for Tree {
    ghost use Rattle.std.specs.Prelude.{List};
    ghost use Rattle.std.specs.Coded.{coded_list};
    ghost use Rattle.gs3_rules.specs.declared.step.Step.{Step};
    ghost use Rattle.gs3_rules.specs.contracts.step.Step as step;
    ghost use Rattle.gs3_rules.specs.Refutes.{IsWhole};
    ghost use Rattle.gs3_rules.specs.Apply.{rules_of};

    ghost Value = { List Step };

    ghost coded = { coded_list step.the_row.coded };

    ghost view = { λ t. t.steps };

    ghost invariant = { λ t. IsWhole (rules_of t.steps) };
}

/// The proof with these steps. It takes no memory.
pub fn tree_of(steps: Steps) -> Tree
    requires { IsWhole (rules_of steps) }
    ensures { result ≡ steps }
{
    Tree { steps }
}

impl Tree {
    /// The steps in preorder. It takes no memory.
    pub fn steps(&self) -> &Steps
        ensures steps { result.now ≡ self.now }
        ensures whole { IsWhole (rules_of self.now) }
    {
        &self.steps
    }
}
