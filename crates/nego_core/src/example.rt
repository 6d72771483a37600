//! A worked board.

ghost use Rattle.nego_core.specs.Worked.{IsWorked};

/// A worked board over sets of 1 and 2: the left part answers {1} and the right part {2}, which was not asked for a
/// trial of {1} and is refused; the right part is asked again, begins anew under {1}, and answers {1, 2}, to which it
/// agrees. Each of the picks is lawful. It does nothing.
pub fn worked_board()
    ensures { IsWorked }
{}
