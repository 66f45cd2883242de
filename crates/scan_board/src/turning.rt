//! The turn of a command: what can't stand beside it is blocked.

ghost use Rattle.std.specs.Prelude.{IsTrue, is_some, ◌↔◌, ◌≡◌, ℕ, ◌+◌, ◌*◌, ◌<◌, ◌≤◌, ◌⊎◌, [], ◌∷◌, ◌++◌, length, None, Some, slice_set, slice_index, if◌then◌else◌, ◌&&◌, true, false};
ghost use Rattle.scan_board.specs.Tables.{IsBoard, number_at, command_count, node_count, node_of, leaves_of, next_of, first_of, child_of, sibling_of, parent_of, is_bare, is_shut, mark_of, in_row, is_below, is_open, is_open_mark, count, opens, unshut, covered, untaken, credit};
ghost use Rattle.scan_board.specs.Settling.{Clash, IsDirsRight, IsUpWalk, IsSoundDown, IsCoveredDown, OnlyBelow, PilesBelow, IsSettled, IsMade};
ghost use Rattle.scan_board.specs.Turns.{falls_under_rule, blocked_by, Grows, IsWithin, IsOptionWithin, IsAlone, IsIn, IsUnderNode, IsClosedBelow, IsPiled, IsDeep, ChangesBelow, IsShutOk, IsOnWay};

use crate::board::{Board, Mark, Tally};
use crate::steps::Steps;
use std::sync::ledger::Ledger;
use sync_command::Kind;

/// Which commands of a node are blocked: all, those that leave it other than a directory, or those that leave it
/// non-empty.
#[derive(Clone, Copy)]
pub enum Rule {
    All,
    NotDir,
    NotEmpty,
}

fn falls_under(rule: Rule, leaves: Kind) -> bool
    ensures { result ≡ falls_under_rule rule leaves }
{
    match rule {
        Rule::All => true,
        Rule::NotDir => match leaves {
            Kind::Dir => false,
            Kind::Empty | Kind::File => true,
        },
        Rule::NotEmpty => match leaves {
            Kind::Empty => false,
            Kind::Dir | Kind::File => true,
        },
    }
}

/// Blocks an open command, and counts it out of its node's directories.
fn block<L: Ledger>(
    board: &mut Board<L>,
    command: usize,
    node: usize,
    leaves: Kind,
    steps: &mut Steps<L>,
)
    requires board { IsBoard board.old }
    requires command_in { command < command_count board.old.tables }
    requires node_in { node < node_count board.old.tables }
    requires of_node { node_of board.old.tables command ≡ node }
    requires is_open { mark_of board.old command ≡ Mark.Open }
    requires leaves { leaves ≡ leaves_of board.old.tables command }
    ensures same { board.new
        ≡ record board.old {
          marks = slice_set board.old.marks command Mark.Blocked;
          dirs =
              board.new.dirs;
        } }
    ensures board { IsBoard board.new }
    ensures dirs { IsDirsRight board.old → IsDirsRight board.new }
    ensures steps { steps.new ≤ steps.old + 3 }
{
    board.mark(command, Mark::Blocked, steps);
    if let Kind::Dir = leaves {
        let spot = board.spot(node, steps);
        let dirs = spot.tally.dirs.saturating_sub(1);
        board.tally(
            node,
            Tally {
                dirs,
                shut: spot.tally.shut,
                bare: spot.tally.bare,
            },
            steps,
        );
    }
}

fn is_open_one(mark: Mark) -> bool
    ensures { result ≡ is_open_mark mark }
{
    match mark {
        Mark::Open => true,
        Mark::Taken | Mark::Blocked => false,
    }
}

/// Looks at a command of a node, blocks it where it is open and falls under the rule, and gives the next one of the
/// node.
fn block_one<L: Ledger>(
    board: &mut Board<L>,
    node: usize,
    command: usize,
    rule: Rule,
    steps: &mut Steps<L>,
) -> Option<usize>
    requires node_in { node < node_count board.old.tables }
    requires command_in { command < command_count board.old.tables }
    requires of_node { node_of board.old.tables command ≡ node }
    ensures next { result ≡ next_of board.old.tables command }
    ensures same { board.new ≡ record board.old
        { marks = board.new.marks; dirs = board.new.dirs } }
    ensures board { IsBoard board.new }
    ensures here { mark_of board.new command ≡ blocked_by board.old node rule command }
    ensures others { (i : ℕ) → (i ≡ command → ⊥) →
        mark_of board.new i ≡ mark_of board.old i }
    ensures dirs { IsDirsRight board.old → IsDirsRight board.new }
    ensures steps { steps.new + 8 * opens board.new ≤ steps.old + 8 * opens board.old + 1 }
{
    let card = board.look(command, steps);
    if is_open_one(card.mark) {
        if falls_under(rule, card.leaves) {
            block(board, command, node, card.leaves, steps);
        }
    }
    card.next
}

/// Blocks the open commands of a node that fall under the rule.
fn block_row<L: Ledger>(
    board: &mut Board<L>,
    node: usize,
    first: usize,
    rule: Rule,
    steps: &mut Steps<L>,
)
    requires board { IsBoard board.old }
    requires node_in { node < node_count board.old.tables }
    requires first { first ≡ first_of board.old.tables node }
    ensures same { board.new ≡ record board.old
        { marks = board.new.marks; dirs = board.new.dirs } }
    ensures board { IsBoard board.new }
    ensures marks { (i : ℕ) → i < command_count board.old.tables →
        mark_of board.new i ≡ blocked_by board.old node rule i }
    ensures dirs { IsDirsRight board.old → IsDirsRight board.new }
    ensures steps { steps.new + 8 * opens board.new
        ≤ steps.old + 8 * opens board.old + count (in_row board.old.tables node) (command_count
        board.old.tables) }
{
    let mut next = Some(first);
    while let Some(command) = next {
        next = block_one(board, node, command, rule, steps);
    }
}

/// Blocks what leaves a node other than a directory, where this has not been done, and gives the parent then.
fn shut_one<L: Ledger>(board: &mut Board<L>, node: usize, steps: &mut Steps<L>) -> Option<usize>
    requires node_in { node < node_count board.old.tables }
    ensures lower { IsOptionWithin result node }
    ensures same { board.new
        ≡ record board.old {
          marks = board.new.marks;
          dirs = board.new.dirs;
          shut = board.new.shut;
        } }
    ensures board { IsBoard board.new }
    ensures grows { Grows board.old board.new }
    ensures here { is_shut board.new node ≡ true }
    ensures others { (n : ℕ) → (n ≡ node → ⊥) →
        is_shut board.new n ≡ is_shut board.old n }
    ensures row { is_shut board.old node ≡ false → (i : ℕ) → i < command_count board.old.tables →
        node_of board.old.tables i ≡ node → (leaves_of board.old.tables i ≡ Kind.Dir → ⊥) →
        is_open board.new i ≡ false }
    ensures why { (i : ℕ) → i < command_count board.old.tables →
        (mark_of board.new i ≡ mark_of board.old i) ⊎ ((node_of board.old.tables i ≡ node) ×
        (leaves_of board.old.tables i ≡ Kind.Dir → ⊥)) }
    ensures dirs { IsDirsRight board.old → IsDirsRight board.new }
    ensures stops { is_shut board.old node ≡ true → result ≡ None }
    ensures goes { is_shut board.old node ≡ false → result ≡ parent_of board.old.tables node }
    ensures paid { (p : ℕ) → result ≡ Some p →
        steps.new + 8 * opens board.new + 3 * unshut board.new
        ≤ steps.old + 8 * opens board.old + 3 * unshut board.old }
    ensures steps { steps.new + 8 * opens board.new + 3 * unshut board.new
        ≤ steps.old + 8 * opens board.old + 3 * unshut board.old + 1 }
{
    let spot = board.spot(node, steps);
    if spot.tally.shut {
        None
    } else {
        block_row(board, node, spot.first, Rule::NotDir, steps);
        board.tally(
            node,
            Tally {
                dirs: spot.tally.dirs,
                shut: true,
                bare: spot.tally.bare,
            },
            steps,
        );
        spot.parent
    }
}

/// Blocks what leaves one of the nodes from this one up other than a directory.
fn shut_up<L: Ledger>(board: &mut Board<L>, from: Option<usize>, steps: &mut Steps<L>)
    requires board { IsBoard board.old }
    requires from_in { IsOptionWithin from (node_count board.old.tables) }
    ensures same { board.new
        ≡ record board.old {
          marks = board.new.marks;
          dirs = board.new.dirs;
          shut = board.new.shut;
        } }
    ensures board { IsBoard board.new }
    ensures grows { Grows board.old board.new }
    ensures right { IsShutOk board.old → IsShutOk board.new }
    ensures closed { IsShutOk board.old → (i : ℕ) → i < command_count board.old.tables →
        IsOnWay board.old.tables from (node_of board.old.tables i) →
        (leaves_of board.old.tables i ≡ Kind.Dir → ⊥) → is_open board.new i ≡ false }
    ensures walk { IsUpWalk board.old board.new from }
    ensures steps { steps.new + 8 * opens board.new + 3 * unshut board.new
        ≤ steps.old + 8 * opens board.old + 3 * unshut board.old + 1 }
{
    let mut at = from;
    while let Some(node) = at {
        at = shut_one(board, node, steps);
    }
}

/// Blocks what leaves a child non-empty, puts the child on the pile, and gives the next one.
fn cover_one<L: Ledger>(board: &mut Board<L>, child: usize, steps: &mut Steps<L>) -> Option<usize>
    requires child_in { child < node_count board.old.tables }
    requires space { length board.old.pile < 4 * command_count board.old.tables }
    ensures next { result ≡ sibling_of board.old.tables child }
    ensures same { board.new
        ≡ record board.old {
          marks = board.new.marks;
          dirs = board.new.dirs;
          pile = board.old.pile
              ++ child ∷ [];
        } }
    ensures board { IsBoard board.new }
    ensures grows { Grows board.old board.new }
    ensures closed { (i : ℕ) → i < command_count board.old.tables →
        node_of board.old.tables i ≡ child → (leaves_of board.old.tables i ≡ Kind.Empty → ⊥) →
        is_open board.new i ≡ false }
    ensures others { (i : ℕ) → i < command_count board.old.tables →
        (node_of board.old.tables i ≡ child → ⊥) → mark_of board.new i ≡ mark_of board.old i }
    ensures why { (i : ℕ) → i < command_count board.old.tables →
        (mark_of board.new i ≡ mark_of board.old i) ⊎ ((node_of board.old.tables i ≡ child) ×
        (leaves_of board.old.tables i ≡ Kind.Empty → ⊥)) }
    ensures dirs { IsDirsRight board.old → IsDirsRight board.new }
    ensures steps { steps.new + 8 * opens board.new
        ≤ steps.old + 8 * opens board.old + 2 + count (in_row board.old.tables child)
        (command_count board.old.tables) }
{
    let spot = board.spot(child, steps);
    block_row(board, child, spot.first, Rule::NotEmpty, steps);
    board.push(child, steps);
    spot.next_child
}

/// Blocks what leaves a child of a node non-empty, and puts the children on the pile.
fn cover_children<L: Ledger>(
    board: &mut Board<L>,
    node: usize,
    first_child: Option<usize>,
    steps: &mut Steps<L>,
)
    requires board { IsBoard board.old }
    requires node_in { node < node_count board.old.tables }
    requires first_child { first_child ≡ child_of board.old.tables node }
    requires space { length board.old.pile ≤ command_count board.old.tables }
    requires within { IsWithin board.old.pile (node_count board.old.tables) }
    ensures same { board.new
        ≡ record board.old {
          marks = board.new.marks;
          dirs = board.new.dirs;
          pile = board.new.pile;
        } }
    ensures board { IsBoard board.new }
    ensures grows { Grows board.old board.new }
    ensures within { IsWithin board.new.pile (node_count board.old.tables) }
    ensures closed { IsClosedBelow board.new node }
    ensures others { ChangesBelow board.old board.new node }
    ensures why { OnlyBelow board.old board.new node }
    ensures piles { PilesBelow board.old board.new node }
    ensures dirs { IsDirsRight board.old → IsDirsRight board.new }
    ensures piled { IsPiled board.new node }
    ensures pile_kept { (m : ℕ) → IsIn board.old.pile m → IsIn board.new.pile m }
    ensures pile { length board.new.pile
        ≤ length board.old.pile + count (is_below board.old.tables node) (command_count
        board.old.tables) }
    ensures steps { steps.new + 8 * opens board.new + 3 * length board.new.pile
        ≤ steps.old + 8 * opens board.old + 3 * length board.old.pile + 6 * count (is_below
        board.old.tables node) (command_count board.old.tables) }
{
    let mut next = first_child;
    while let Some(child) = next {
        next = cover_one(board, child, steps);
    }
}

/// Blocks what leaves a child of a node non-empty, where this has not been done.
fn cover<L: Ledger>(board: &mut Board<L>, node: usize, steps: &mut Steps<L>)
    requires node_in { node < node_count board.old.tables }
    requires space { length board.old.pile ≤ command_count board.old.tables }
    requires within { IsWithin board.old.pile (node_count board.old.tables) }
    ensures same { board.new
        ≡ record board.old {
          marks = board.new.marks;
          dirs = board.new.dirs;
          bare = board.new.bare;
          pile = board.new.pile;
        } }
    ensures board { IsBoard board.new }
    ensures grows { Grows board.old board.new }
    ensures within { IsWithin board.new.pile (node_count board.old.tables) }
    ensures bare_here { is_bare board.new node ≡ true }
    ensures bare_others { (n : ℕ) → (n ≡ node → ⊥) →
        is_bare board.new n ≡ is_bare board.old n }
    ensures closed { is_bare board.old node ≡ false → IsClosedBelow board.new node }
    ensures piled { is_bare board.old node ≡ false → IsPiled board.new node }
    ensures why { OnlyBelow board.old board.new node }
    ensures piles { PilesBelow board.old board.new node }
    ensures dirs { IsDirsRight board.old → IsDirsRight board.new }
    ensures pile_kept { (m : ℕ) → IsIn board.old.pile m → IsIn board.new.pile m }
    ensures pile { length board.new.pile + covered board.new
        ≤ length board.old.pile + covered board.old }
    ensures steps { steps.new + 8 * opens board.new + 6 * covered board.new + 3 * length
        board.new.pile
        ≤ steps.old + 8 * opens board.old + 6 * covered board.old + 3 * length board.old.pile + 2 }
{
    let spot = board.spot(node, steps);
    if spot.tally.bare {} else {
        cover_children(board, node, spot.first_child, steps);
        board.tally(
            node,
            Tally {
                dirs: spot.tally.dirs,
                shut: spot.tally.shut,
                bare: true,
            },
            steps,
        );
    }
}

/// Blocks what leaves a node below this one non-empty.
fn bare_down<L: Ledger>(board: &mut Board<L>, node: usize, steps: &mut Steps<L>)
    requires board { IsBoard board.old }
    requires node_in { node < node_count board.old.tables }
    requires some { 0 < command_count board.old.tables }
    requires pile { board.old.pile ≡ [] }
    ensures same { board.new
        ≡ record board.old {
          marks = board.new.marks;
          dirs = board.new.dirs;
          bare = board.new.bare;
        } }
    ensures board { IsBoard board.new }
    ensures grows { Grows board.old board.new }
    ensures walk { IsSoundDown board.old board.new node }
    ensures covered { IsCoveredDown board.old board.new }
    ensures closed { IsDeep board.old → (i : ℕ) → i < command_count board.old.tables →
        IsUnderNode board.old.tables (node_of board.old.tables i) node →
        (leaves_of board.old.tables i ≡ Kind.Empty → ⊥) → is_open board.new i ≡ false }
    ensures steps { steps.new + 8 * opens board.new + 6 * covered board.new
        ≤ steps.old + 8 * opens board.old + 6 * covered board.old + 5 }
{
    board.push(node, steps);
    while let Some(top) = board.pop(steps) {
        cover(board, top, steps);
    }
}

/// Blocks above a node what can't stand beside a command that leaves it so.
fn spread_up<L: Ledger>(
    board: &mut Board<L>,
    leaves: Kind,
    parent: Option<usize>,
    steps: &mut Steps<L>,
)
    requires board { IsBoard board.old }
    requires parent_in { IsOptionWithin parent (node_count board.old.tables) }
    ensures same { board.new
        ≡ record board.old {
          marks = board.new.marks;
          dirs = board.new.dirs;
          shut = board.new.shut;
        } }
    ensures board { IsBoard board.new }
    ensures grows { Grows board.old board.new }
    ensures right { IsShutOk board.old → IsShutOk board.new }
    ensures walk { ((leaves ≡ Kind.Empty → ⊥) × IsUpWalk board.old board.new parent) ⊎
        (board.new ≡ board.old) }
    ensures closed { (leaves ≡ Kind.Empty → ⊥) → IsShutOk board.old → (i : ℕ) →
        i < command_count board.old.tables →
        IsOnWay board.old.tables parent (node_of board.old.tables i) →
        (leaves_of board.old.tables i ≡ Kind.Dir → ⊥) → is_open board.new i ≡ false }
    ensures steps { steps.new + 8 * opens board.new + 3 * unshut board.new
        ≤ steps.old + 8 * opens board.old + 3 * unshut board.old + 1 }
{
    if !is_empty(leaves) {
        shut_up(board, parent, steps);
    }
}

/// Blocks below a node what can't stand beside a command that leaves it so.
fn spread_down<L: Ledger>(board: &mut Board<L>, leaves: Kind, node: usize, steps: &mut Steps<L>)
    requires board { IsBoard board.old }
    requires node_in { node < node_count board.old.tables }
    requires some { 0 < command_count board.old.tables }
    requires pile { board.old.pile ≡ [] }
    ensures same { board.new
        ≡ record board.old {
          marks = board.new.marks;
          dirs = board.new.dirs;
          bare = board.new.bare;
        } }
    ensures board { IsBoard board.new }
    ensures grows { Grows board.old board.new }
    ensures walk { ((leaves ≡ Kind.Dir → ⊥) × IsSoundDown board.old board.new node) ⊎
        (board.new ≡ board.old) }
    ensures covered { IsCoveredDown board.old board.new }
    ensures closed { (leaves ≡ Kind.Dir → ⊥) → IsDeep board.old → (i : ℕ) →
        i < command_count board.old.tables →
        IsUnderNode board.old.tables (node_of board.old.tables i) node →
        (leaves_of board.old.tables i ≡ Kind.Empty → ⊥) → is_open board.new i ≡ false }
    ensures steps { steps.new + 8 * opens board.new + 6 * covered board.new
        ≤ steps.old + 8 * opens board.old + 6 * covered board.old + 5 }
{
    if !is_dir(leaves) {
        bare_down(board, node, steps);
    }
}

/// Takes an open command, and blocks what can't stand beside it.
fn take<L: Ledger>(
    board: &mut Board<L>,
    command: usize,
    node: usize,
    leaves: Kind,
    steps: &mut Steps<L>,
)
    requires board { IsBoard board.old }
    requires command_in { command < command_count board.old.tables }
    requires node { node ≡ node_of board.old.tables command }
    requires is_open { mark_of board.old command ≡ Mark.Open }
    requires alone { IsAlone board.old }
    requires leaves { leaves ≡ leaves_of board.old.tables command }
    requires pile { board.old.pile ≡ [] }
    ensures pile { board.new.pile ≡ [] }
    ensures tables { board.new.tables ≡ board.old.tables }
    ensures board { IsBoard board.new }
    ensures own { mark_of board.new command ≡ Mark.Taken }
    ensures others { (i : ℕ) → i < command_count board.old.tables → (i ≡ command → ⊥) →
        (mark_of board.new i ≡ mark_of board.old i) ⊎
        ((mark_of board.old i ≡ Mark.Open) × (mark_of board.new i ≡ Mark.Blocked)) }
    ensures complete { IsDeep board.old → IsShutOk board.old → (j : ℕ) →
        j < command_count board.old.tables → Clash board.old.tables command j →
        is_open board.new j ≡ false }
    ensures right { IsShutOk board.old → IsShutOk board.new }
    ensures settled { IsMade board.old.tables → IsSettled board.old → IsSettled board.new }
    ensures steps { steps.new + credit board.new ≤ steps.old + credit board.old }
{
    board.mark(command, Mark::Taken, steps);
    let spot = board.spot(node, steps);
    block_row(board, node, spot.first, Rule::All, steps);
    spread_up(board, leaves, spot.parent, steps);
    spread_down(board, leaves, node, steps);
}

/// The turn of the drawn command at a place of a log's net set, on a settled board: an open command is taken, and what
/// can't stand beside it is blocked; at any other command nothing changes. The board is settled again, and the steps are
/// at most two more than the credit falls by. Takes no memory.
pub fn turn<L: Ledger>(board: &mut Board<L>, log: u32, place: usize, steps: &mut Steps<L>)
    requires place { IsTrue (is_some (number_at board.old.tables log place)) }
    requires made { IsMade board.old.tables }
    requires settled { IsSettled board.old }
    ensures board { IsBoard board.new }
    ensures settled { IsSettled board.new }
    ensures tables { board.new.tables ≡ board.old.tables }
    ensures kept { (i : ℕ) → i < command_count board.old.tables →
        (mark_of board.old i ≡ Mark.Open → ⊥) → mark_of board.new i ≡ mark_of board.old i }
    ensures others { (own i : ℕ) → number_at board.old.tables log place ≡ Some own →
        i < command_count board.old.tables → (i ≡ own → ⊥) →
        mark_of board.new i ≡ Mark.Taken → mark_of board.old i ≡ Mark.Taken }
    ensures stays { (own : ℕ) → number_at board.old.tables log place ≡ Some own →
        (mark_of board.old own ≡ Mark.Open → ⊥) → board.new ≡ board.old }
    ensures taken { (own : ℕ) → number_at board.old.tables log place ≡ Some own →
        mark_of board.old own ≡ Mark.Open → mark_of board.new own ≡ Mark.Taken }
    ensures steps { steps.new + credit board.new ≤ 2 + steps.old + credit board.old }
{
    let command = board.number(log, place, steps);
    let card = board.look(command, steps);
    if is_open_one(card.mark) {
        take(board, command, card.node, card.leaves, steps);
    }
}

fn is_empty(leaves: Kind) -> bool
    ensures { IsTrue result ↔ (leaves ≡ Kind.Empty) }
{
    match leaves {
        Kind::Empty => true,
        Kind::Dir | Kind::File => false,
    }
}

fn is_dir(leaves: Kind) -> bool
    ensures { IsTrue result ↔ (leaves ≡ Kind.Dir) }
{
    match leaves {
        Kind::Dir => true,
        Kind::Empty | Kind::File => false,
    }
}
