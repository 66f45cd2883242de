//! What the logs say of nodes, one claim per log and node.

ghost use Rattle.std.specs.Prelude.{◌≡◌, ◌<◌, ◌^◌, List, length, OnOk, IfOk};
ghost use Rattle.std.specs.List.Sorted.{IsPermutation, IsSortedBy};
ghost use Rattle.std.specs.Ordering.{is_lt};
ghost use Rattle.sync_command.specs.Changes.{Change};
ghost use Rattle.canon_set.specs.Sums.{IsSum};
ghost use Rattle.refluent.specs.Joints.{AreSums, EachStandsFor};
ghost use Rattle.refluent.specs.UniqueClaims.{AreUnique};
ghost use Rattle.refluent.specs.Tables.{AddsClaims, AreClaims, AreSorted, claim_above, claim_cmp, claim_touched, leaves_by};

use canon_set::{LogSum, Touch};
use std::alloc::Global;
use std::cmp::Ordering;
use sync_command::Value;
use sync_path::{NoMemory, Path};

/// What a log says of a node that it touches, or of an untouched one above a touched one.
#[derive(Debug, Drop)]
pub(crate) enum Statement {
    /// The node is above a touched one and untouched.
    Above,
    /// The node is touched: its first value, its last, and whether the log leaves it.
    Touches {
        first: Value,
        last: Value,
        left_dir: bool,
    },
}

/// What a log, numbered from 0, says of a node.
#[derive(Debug, Drop)]
pub(crate) struct Claim {
    pub path: Path,
    pub log: usize,
    pub says: Statement,
}

impl Claim {
    /// Whether the log leaves the node.
    pub(crate) fn leaves(&self) -> bool
        ensures { result ≡ leaves_by self.now.says }
    {
        match &self.says {
            Statement::Above => false,
            Statement::Touches { left_dir, .. } => *left_dir,
        }
    }

    /// The order of claims: by node, then by log.
    pub(crate) fn cmp(&self, other: &Claim) -> Ordering
        ensures { result ≡ claim_cmp self.now other.now }
    {
        self.path
            .cmp(&other.path)
            .then_with(|| self.log.cmp(&other.log))
    }
}

/// The claim of a touched node.
fn touched(log: usize, touch: Touch) -> Claim
    ensures { result ≡ claim_touched log touch }
{
    let Touch {
        path,
        first,
        last,
        left_dir,
    } = touch;
    Claim {
        path,
        log,
        says: Statement::Touches {
            first,
            last,
            left_dir,
        },
    }
}

/// The claim of an untouched node above a touched one.
fn above(log: usize, path: Path) -> Claim
    ensures { result ≡ claim_above log path }
{
    Claim {
        path,
        log,
        says: Statement::Above,
    }
}

/// Appends the claims of one log.
fn gather_log(claims: &mut Vec<Claim>, log: usize, sum: LogSum) -> Result<(), NoMemory>
    ensures log { OnOk result (IsSum sum) }
    ensures claims { OnOk result (AddsClaims claims.old.items claims.new.items log sum) }
{
    let (touches, paths) = sum.into_parts()?;
    'touches: for touch in touches {
        claims.push(touched(log, touch))?;
    }
    'paths: for path in paths {
        claims.push(above(log, path))?;
    }
    Ok(())
}

/// All claims of the logs, which are numbered from 0.
pub(crate) fn gather(alloc: Global, sums: Vec<LogSum>) -> Result<Vec<Claim>, NoMemory>
    requires { length sums.items < 2 ^ 32 }
    ensures sums { OnOk result (AreSums sums.items) }
    ensures claims { (logs : List (List Change)) → EachStandsFor sums.items logs →
        IfOk result (λ claims. AreClaims claims.items logs) }
    ensures once { IfOk result (λ claims. AreUnique claims.items) }
{
    let mut claims = Vec::new(alloc);
    let mut log = 0;
    'sums: for sum in sums {
        gather_log(&mut claims, log, sum)?;
        log += 1;
    }
    Ok(claims)
}

/// The claims by node, and those of a node by log.
pub(crate) fn sorted(claims: Vec<Claim>) -> Vec<Claim>
    ensures permutation { IsPermutation claims.items result.items }
    ensures sorted { IsSortedBy (λ c d. is_lt (claim_cmp c d)) result.items }
{
    let mut claims = claims;
    claims.sort_unstable_by(|one, other| one.cmp(other));
    claims
}
