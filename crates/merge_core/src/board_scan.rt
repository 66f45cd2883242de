//! Turns and scans of a board.

ghost use Rattle.std.specs.Prelude.{◌≡◌, ◌+◌, ◌*◌, ◌<◌, ◌≤◌, ℕ, List, IsTrue, is_some, Some};
ghost use Rattle.refluent.specs.Joints.{Joined, IsJoint};
ghost use Rattle.pref_list.specs.declared.rules.Rule.{Rule};
ghost use Rattle.pref_list.specs.Orders.{IsRankingOf};
ghost use Rattle.scan_board.specs.declared.board.Mark.TheVariants as mark;
ghost use Rattle.scan_board.specs.Tables.{number_at, command_count, mark_of, credit};
ghost use Rattle.scan_board.specs.Settling.{IsSettled};
ghost use Rattle.scan_board.specs.Boards.{IsBoardOf, IsFresh};
ghost use Rattle.merge_core.specs.Boards.{IsSettledOf, IsScannedOf};

use pref_list::Ranking;
use scan_board::{Board, Steps};
use std::marker::Model;
use std::sync::ledger::Ledger;

/// The turn of the drawn command at a place of a log's net set, on a settled board of some joint. An open command is
/// taken, and what no drawn set that fits has beside it is blocked; at any other command nothing changes. The board is
/// settled again, for each joint that it is of, and the credit pays for all steps but two. Takes no memory.
pub fn turn<L: Ledger>(board: &mut Board<L>, log: u32, place: usize, steps: &mut Steps<L>)
    requires place { IsTrue (is_some (number_at board.old.tables log place)) }
    requires settled { (j : Joined) × IsJoint j × IsBoardOf j board.old.tables ×
        IsSettledOf j board.old }
    ensures tables { board.new.tables ≡ board.old.tables }
    ensures settled { (j : Joined) → IsJoint j → IsBoardOf j board.old.tables →
        IsSettledOf j board.old → IsSettledOf j board.new }
    ensures kept { (i : ℕ) → i < command_count board.old.tables →
        (mark_of board.old i ≡ mark.Open → ⊥) → mark_of board.new i ≡ mark_of board.old i }
    ensures others { (own i : ℕ) → number_at board.old.tables log place ≡ Some own →
        i < command_count board.old.tables → (i ≡ own → ⊥) →
        mark_of board.new i ≡ mark.Taken → mark_of board.old i ≡ mark.Taken }
    ensures taken { (own : ℕ) → number_at board.old.tables log place ≡ Some own →
        mark_of board.old own ≡ mark.Open → mark_of board.new own ≡ mark.Taken }
    ensures stays { (own : ℕ) → number_at board.old.tables log place ≡ Some own →
        (mark_of board.old own ≡ mark.Open → ⊥) → board.new ≡ board.old }
    ensures steps { steps.new + credit board.new ≤ 2 + steps.old + credit board.old }
{
    scan_board::turn(board, log, place, steps);
}

/// A board that was scanned: `scan` alone makes one.
#[derive(Drop)]
pub struct Scanned<L: Ledger> {
    board: Board<L>,
}

impl<L: Ledger> Model for Scanned<L> {
    ghost use Rattle.scan_board.specs.Tables.{State};

    ghost Value = { State };

    ghost view = { λ s. s.board };
}

impl<L: Ledger> Scanned<L> {
    /// The board. Takes no memory.
    pub fn board(&self) -> &Board<L>
        ensures { result.now ≡ self.now }
    {
        &self.board
    }
}

/// Takes the commands of the first merger under a ranking and blocks all others, on a new board of a joint of which the
/// ranking is: the turn of each command, in the order of the ranking. Takes no memory, and at most 20 steps for each
/// drawn command.
pub fn scan<L: Ledger>(board: Board<L>, ranking: &Ranking, steps: &mut Steps<L>) -> Scanned<L>
    requires fresh { IsFresh board }
    requires settled { IsSettled board }
    requires ranking { (j : Joined) × (rules : List Rule) × IsJoint j × IsBoardOf j board.tables ×
        IsRankingOf j.sets rules ranking.now }
    ensures tables { result.tables ≡ board.tables }
    ensures scanned { (j : Joined) (rules : List Rule) → IsBoardOf j board.tables →
        IsRankingOf j.sets rules ranking.now → IsScannedOf j rules result }
    ensures steps { steps.new ≤ steps.old + 20 * command_count board.tables }
{
    let mut board = board;
    'ranking: for at in 0..ranking.len() {
        let pick = ranking.entry(at);
        scan_board::turn(&mut board, pick.log, pick.place, steps);
    }
    Scanned { board }
}
