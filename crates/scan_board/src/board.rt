//! The board: its tables, its marks and tallies, and its pile.

ghost use Rattle.std.specs.Prelude.{◌≡◌, ◌+◌, ◌*◌, ◌<◌, ◌≤◌, ◌++◌, ◌∷◌, [], ℕ, IsTrue, is_some, length, slice_set, slice_index, IfOk, IfSome, IfNone, Some, vec_capacity};
ghost use Rattle.scan_board.specs.Tables.{IsBoard, number_at, command_count, node_count, node_of, leaves_of, next_of, starts_of, parent_of, child_of, sibling_of, first_of, mark_of, is_shut, is_bare};
ghost use Rattle.scan_board.specs.Boards.{IsNew, IsBoardOf, taken_commands};
ghost use Rattle.sync_command.specs.Trees.{one_each};
ghost use Rattle.canon_set.specs.Sets.{IsFitting, canonical};

use crate::building::{Naming, cards_of, count_dirs, families_of, name_joint, spots_of};
use crate::collecting::taken_of;
use crate::steps::Steps;
use canon_set::CanonSet;
use pref_list::Numbers;
use refluent::Joint;
use std::alloc::Global;
use std::marker::{Model, PhantomData};
use std::sync::ledger::Ledger;
use sync_command::Kind;
use sync_path::NoMemory;

/// What the scan has found of a command.
#[derive(Clone, Copy, Debug, PartialEq, Eq)]
pub enum Mark {
    Open,
    Taken,
    Blocked,
}

/// A drawn command: the node that it names, the kind of its new value, the next command of the node by number, and its
/// mark.
#[derive(Clone, Copy, Debug)]
pub struct Card {
    pub node: usize,
    pub leaves: Kind,
    pub next: Option<usize>,
    pub mark: Mark,
}

/// What is counted of a node: how many of its commands leave a directory and aren't blocked, whether it must be a
/// directory, and whether nothing can be under it.
#[derive(Clone, Copy, Debug)]
pub struct Tally {
    pub dirs: u64,
    pub shut: bool,
    pub bare: bool,
}

/// A node that a drawn command names: the kind of what the least common tree holds, its parent where a drawn command
/// names that too, its first child, the next child of its parent, its first command by number, and its tally.
#[derive(Clone, Copy, Debug)]
pub struct Spot {
    pub starts: Kind,
    pub parent: Option<usize>,
    pub first_child: Option<usize>,
    pub next_child: Option<usize>,
    pub first: usize,
    pub tally: Tally,
}

/// The board of a merge, whose calls count in the ledger `L`: the numbers of the drawn commands, one card for each of
/// them, one spot for each node that they name, and a pile of numbers.
#[derive(Drop)]
pub struct Board<L: Ledger> {
    numbers: Numbers,
    cards: Vec<Card>,
    spots: Vec<Spot>,
    pile: Vec<usize>,
    ledger: PhantomData<L>,
}

impl<L: Ledger> Model for Board<L> {
    ghost use Rattle.std.specs.Prelude.{◌*◌, ◌≤◌, length, vec_capacity};
    ghost use Rattle.scan_board.specs.Tables.{State, IsBoard};
    ghost use Rattle.scan_board.specs.Inside.{state_of};

    ghost Value = { State };

    ghost view = { λ b. state_of b.numbers b.cards.items b.spots.items b.pile.items };

    ghost invariant = { λ b.
        IsBoard (state_of b.numbers b.cards.items b.spots.items b.pile.items)
        × (4 * length b.cards.items ≤ vec_capacity b.pile) };
}

impl<L: Ledger> Board<L> {
    /// The board of a joint: all its marks are open and its pile is empty, with memory for four numbers for each drawn
    /// command. It is settled.
    pub fn new(alloc: Global, joint: &Joint) -> Result<Board<L>, NoMemory>
        ensures { IfOk result (IsNew joint.now) }
    {
        let naming = name_joint(alloc, joint)?;
        let families = families_of(alloc, joint, &naming)?;
        let cards = cards_of(alloc, joint, &naming)?;
        let dirs = count_dirs(alloc, &cards, naming.names.back.len())?;
        let spots = spots_of(alloc, joint, &naming, &families, &dirs)?;
        let space = cards.len().checked_mul(4).ok_or(NoMemory)?;
        let pile = Vec::with_capacity(alloc, space)?;
        let Naming { numbers, .. } = naming;
        Ok(Board {
            numbers,
            cards,
            spots,
            pile,
            ledger: PhantomData,
        })
    }

    /// The number of the drawn command at a place of a log's net set; logs count from 1. One step.
    pub fn number(&self, log: u32, place: usize, steps: &mut Steps<L>) -> usize
        requires { IsTrue (is_some (number_at self.now.tables log place)) }
        ensures value { number_at self.now.tables log place ≡ Some result }
        ensures within { result < command_count self.now.tables }
        ensures board { IsBoard self.now }
        ensures step { steps.new ≡ steps.old + 1 }
    {
        steps.tick();
        self.numbers.lists[log as usize - 1][place]
    }

    /// The card of a command. One step.
    pub fn look(&self, command: usize, steps: &mut Steps<L>) -> Card
        requires { command < command_count self.now.tables }
        ensures node { result.node ≡ node_of self.now.tables command }
        ensures leaves { result.leaves ≡ leaves_of self.now.tables command }
        ensures next { result.next ≡ next_of self.now.tables command }
        ensures mark { result.mark ≡ mark_of self.now command }
        ensures board { IsBoard self.now }
        ensures step { steps.new ≡ steps.old + 1 }
    {
        steps.tick();
        self.cards[command]
    }

    /// The spot of a node. One step.
    pub fn spot(&self, node: usize, steps: &mut Steps<L>) -> Spot
        requires { node < node_count self.now.tables }
        ensures starts { result.starts ≡ starts_of self.now.tables node }
        ensures parent { result.parent ≡ parent_of self.now.tables node }
        ensures child { result.first_child ≡ child_of self.now.tables node }
        ensures sibling { result.next_child ≡ sibling_of self.now.tables node }
        ensures first { result.first ≡ first_of self.now.tables node }
        ensures dirs { result.tally.dirs ≡ slice_index self.now.dirs node }
        ensures shut { result.tally.shut ≡ is_shut self.now node }
        ensures bare { result.tally.bare ≡ is_bare self.now node }
        ensures board { IsBoard self.now }
        ensures step { steps.new ≡ steps.old + 1 }
    {
        steps.tick();
        self.spots[node]
    }

    /// Marks a command, and gives its card as it then is. One step.
    pub fn mark(&mut self, command: usize, mark: Mark, steps: &mut Steps<L>) -> Card
        requires { command < command_count self.old.tables }
        ensures written { self.new
            ≡ record self.old { marks = slice_set self.old.marks command mark } }
        ensures node { result.node ≡ node_of self.old.tables command }
        ensures leaves { result.leaves ≡ leaves_of self.old.tables command }
        ensures next { result.next ≡ next_of self.old.tables command }
        ensures mark { result.mark ≡ mark }
        ensures board { IsBoard self.new }
        ensures step { steps.new ≡ steps.old + 1 }
    {
        steps.tick();
        let card = Card {
            mark,
            ..self.cards[command]
        };
        self.cards[command] = card;
        card
    }

    /// Writes the tally of a node, and gives its spot as it then is. One step.
    pub fn tally(&mut self, node: usize, value: Tally, steps: &mut Steps<L>) -> Spot
        requires { node < node_count self.old.tables }
        ensures written { self.new ≡ record self.old {
          dirs = slice_set self.old.dirs node value.dirs;
          shut = slice_set self.old.shut node value.shut;
          bare = slice_set self.old.bare node value.bare;
        } }
        ensures starts { result.starts ≡ starts_of self.old.tables node }
        ensures parent { result.parent ≡ parent_of self.old.tables node }
        ensures child { result.first_child ≡ child_of self.old.tables node }
        ensures sibling { result.next_child ≡ sibling_of self.old.tables node }
        ensures first { result.first ≡ first_of self.old.tables node }
        ensures tally { result.tally ≡ value }
        ensures board { IsBoard self.new }
        ensures step { steps.new ≡ steps.old + 1 }
    {
        steps.tick();
        let spot = Spot {
            tally: value,
            ..self.spots[node]
        };
        self.spots[node] = spot;
        spot
    }

    /// Puts a number on the pile, which takes at most four for each command. One step.
    pub fn push(&mut self, number: usize, steps: &mut Steps<L>)
        requires { length self.old.pile < 4 * command_count self.old.tables }
        ensures written { self.new ≡ record self.old { pile = self.old.pile ++ number ∷ [] } }
        ensures board { IsBoard self.new }
        ensures step { steps.new ≡ steps.old + 1 }
    {
        steps.tick();
        let _ = self.pile.push(number);
    }

    /// Takes off the pile the number that was put on last; None comes exactly where it is empty. One step.
    pub fn pop(&mut self, steps: &mut Steps<L>) -> Option<usize>
        ensures some { IfSome result (λ x. self.old
            ≡ record self.new { pile = self.new.pile ++ x ∷ [] }) }
        ensures none { IfNone result ((self.old.pile ≡ []) × (self.new ≡ self.old)) }
        ensures board { IsBoard self.new }
        ensures step { steps.new ≡ steps.old + 1 }
    {
        steps.tick();
        self.pile.pop()
    }

    /// The set of the drawn commands that are marked Taken, which have to fit some tree. It is not counted.
    pub fn taken(&self, alloc: Global, joint: &Joint) -> Result<CanonSet, NoMemory>
        requires of { IsBoardOf joint.now self.now.tables }
        requires one { IsTrue (one_each (taken_commands joint.now.sets self.now)) }
        requires fitting { IsFitting (taken_commands joint.now.sets self.now) }
        ensures { IfOk result (λ set. set ≡ canonical (taken_commands joint.now.sets self.now)) }
    {
        let commands = taken_of(alloc, joint, &self.numbers, &self.cards)?;
        CanonSet::from_parts(alloc, commands)
    }
}
