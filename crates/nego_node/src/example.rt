//! A worked example of histories.

ghost use Rattle.std.specs.Prelude.{[], ◌∷◌};
ghost use Rattle.nego_node.specs.TwoAgents.{
  Leads,
  root_history,
  left_history,
  right_history,
  task,
  proposal,
  unbound,
  to_a,
  to_b,
};

/// A worked example with two agents and one variable: the left part binds it to a, which the right part has no use for;
/// then to b, to which the right part agrees. The histories of the three nodes are lawful event by event, and lead to
/// these answers. It does nothing.
pub fn two_agents()
    ensures root { Leads 1 root_history (proposal (task 1 1 unbound []) to_b) }
    ensures left { Leads 2 left_history (proposal (task 2 2 unbound (to_a ∷ [])) to_b) }
    ensures right { Leads 3 right_history (proposal (task 3 2 to_b []) to_b) }
{}
