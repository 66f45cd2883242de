//! Merging: the board of a joint is scanned, and what is taken on it is the first merger.

ghost use Rattle.std.specs.Prelude.{◌≡◌, ◌+◌, ◌*◌, ◌≤◌, List, length, IfOk};
ghost use Rattle.refluent.specs.Drawn.{drawn_of};
ghost use Rattle.refluent.specs.Joints.{IsJoint};
ghost use Rattle.pref_list.specs.declared.rules.Rule.{Rule};
ghost use Rattle.pref_list.specs.Orders.{IsRankingOf};
ghost use Rattle.scan_board.specs.Boards.{IsBoardOf};
ghost use Rattle.merge_core.specs.Boards.{IsScannedOf};
ghost use Rattle.merge_core.specs.FirstMergers.{IsFirstMergerOf};

use crate::board_scan::{Scanned, scan};
use canon_set::CanonSet;
use pref_list::Ranking;
use refluent::Joint;
use scan_board::{Board, Steps};
use std::alloc::Global;
use std::marker::Brand;
use std::sync::ledger::{Blank, Ledger};
use sync_path::NoMemory;

/// The scanned board of a joint: on it exactly the commands of the first merger under the ranking are Taken, and all
/// others are Blocked. At most 20 steps for each drawn command.
pub fn merge_counted<L: Ledger>(
    alloc: Global,
    joint: &Joint,
    ranking: &Ranking,
    steps: &mut Steps<L>,
) -> Result<Scanned<L>, NoMemory>
    requires { (rules : List Rule) × IsRankingOf joint.now.sets rules ranking.now }
    ensures joint { IfOk result (λ scanned. IsJoint joint.now) }
    ensures board { IfOk result (λ scanned. IsBoardOf joint.now scanned.tables) }
    ensures scanned { (rules : List Rule) → IsRankingOf joint.now.sets rules ranking.now →
        IfOk result (IsScannedOf joint.now rules) }
    ensures steps { IfOk result (λ scanned.
        steps.new ≤ steps.old + 20 * length (drawn_of joint.now.sets)) }
{
    let board = Board::new(alloc, joint)?;
    Ok(scan(board, ranking, steps))
}

/// The first merger, counted in the ledger of the blank.
fn merge_in<L: Ledger>(
    alloc: Global,
    joint: &Joint,
    ranking: &Ranking,
    blank: Blank,
) -> Result<CanonSet, NoMemory>
    requires name { blank.name ≡ L.name }
    requires parts { blank.parts ≡ L.parts }
    requires one { blank.parts ≡ 1 }
    requires ranking { (rules : List Rule) × IsRankingOf joint.now.sets rules ranking.now }
    ensures { (rules : List Rule) → IsRankingOf joint.now.sets rules ranking.now →
        IfOk result (IsFirstMergerOf joint.now rules) }
{
    let mut steps = Steps::<L>::new(blank);
    let scanned = merge_counted(alloc, joint, ranking, &mut steps)?;
    scanned.board().taken(alloc, joint)
}

/// The first merger under a ranking of the joint, for every common tree ("First merger" in `docs/MODEL.md`).
pub fn merge(alloc: Global, joint: &Joint, ranking: &Ranking) -> Result<CanonSet, NoMemory>
    requires { (rules : List Rule) × IsRankingOf joint.now.sets rules ranking.now }
    ensures { (rules : List Rule) → IsRankingOf joint.now.sets rules ranking.now →
        IfOk result (IsFirstMergerOf joint.now rules) }
{
    merge_in::<Brand>(alloc, joint, ranking, Blank::new(1))
}
