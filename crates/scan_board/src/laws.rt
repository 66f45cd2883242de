//! Laws over the definitions alone: each is the contract of a function with an empty body.

ghost use Rattle.std.specs.Prelude.{◌≤◌, ◌*◌};
ghost use Rattle.scan_board.specs.Tables.{State, IsSound, command_count, credit};
ghost use Rattle.scan_board.specs.Turns.{IsDeep};
ghost use Rattle.scan_board.specs.Settling.{IsExact, IsBareRight, IsMade};

/// On a settled board, what is below a bare node is not open however deep.
pub fn bare_nodes_are_closed_below()
    ensures { (s : State) → IsSound s.tables → IsExact s → IsBareRight s →
        IsMade s.tables → IsDeep s }
{}

/// The credit of a board is at most 18 for each of its commands.
pub fn credit_is_bounded()
    ensures { (s : State) → credit s ≤ 18 * command_count s.tables }
{}
