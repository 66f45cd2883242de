//! The parts of the board of a joint.

ghost use Rattle.std.specs.Prelude.{◌≡◌, ◌+◌, ◌<◌, ◌^◌, ℕ, List, Vec, None, Some, length, replicate, slice_get, slice_index, slice_set, vec_len, IfOk};
ghost use Rattle.std.specs.Global.{Global};
ghost use Rattle.sync_command.specs.declared.commands.Row.{Row};
ghost use Rattle.sync_command.specs.declared.values.Kind.TheVariants as kind;
ghost use Rattle.sync_command.specs.Changes.{Change};
ghost use Rattle.refluent.specs.Joints.{is_ascending};
ghost use Rattle.pref_list.specs.Picks.{command_of};
ghost use Rattle.pref_list.specs.Numbers.{AreAllNodesOf, IsNodeAt, IsNumberingOf, IsPick};
ghost use Rattle.scan_board.specs.Columns.{IsColumn};
ghost use Rattle.scan_board.specs.Built.{IsKey, IsNamingOf, IsUp, IsFamiliesOf, IsCard, IsDirs, IsSpot, no_spot};
ghost use Rattle.scan_board.specs.Boards.{card_at, no_card};

use crate::board::{Card, Mark, Spot, Tally};
use crate::chains::{Chains, chain, through};
use crate::naming::{Names, name};
use pref_list::{Numbers, command_at, nodes_of, number_all};
use refluent::{Joint, Pick};
use std::alloc::Global;
use sync_command::Kind;
use sync_path::NoMemory;

/// The numbers of the drawn commands, the place of each one's node among those of the joint, the commands of each node,
/// and the nodes that are named.
#[derive(Drop)]
pub(crate) struct Naming {
    pub numbers: Numbers,
    pub keys: Vec<Option<usize>>,
    pub rows: Chains,
    pub names: Names,
}

/// The parents of the named nodes, and the children of each.
#[derive(Drop)]
pub(crate) struct Families {
    pub parents: Vec<Option<usize>>,
    pub kids: Chains,
}

/// The place of the node of a pick's command.
fn node_at(nodes: &[Vec<usize>], pick: Pick) -> usize
    requires { (rows : List Row) × (sets : List (List Change)) ×
        AreAllNodesOf rows sets nodes.now × IsPick sets pick }
    ensures { (rows : List Row) (sets : List (List Change)) (c : Change) →
        AreAllNodesOf rows sets nodes.now → command_of sets pick ≡ Some c →
        IsNodeAt rows result c.node }
{
    nodes[pick.log as usize - 1][pick.place]
}

/// The places of the nodes of the drawn commands, by number.
fn keys_of(alloc: Global, joint: &Joint, numbers: &Numbers) -> Result<Vec<Option<usize>>, NoMemory>
    requires { IsNumberingOf joint.now numbers.now }
    ensures { IfOk result (λ keys. IsColumn keys.items None
        (IsKey joint.now numbers.now.picks.items) (length numbers.now.picks.items)) }
{
    let nodes = nodes_of(alloc, joint)?;
    let mut keys = Vec::with_capacity(alloc, numbers.picks.len())?;
    'numbers: for number in 0..numbers.picks.len() {
        let pick = numbers.picks[number];
        let node = node_at(&nodes, pick);
        keys.push(Some(node))?;
    }
    Ok(keys)
}

/// Numbers the drawn commands of a joint, and the nodes that they name.
pub(crate) fn name_joint(alloc: Global, joint: &Joint) -> Result<Naming, NoMemory>
    ensures { IfOk result (IsNamingOf joint.now) }
{
    let _logs = joint.logs();
    let numbers = number_all(alloc, joint)?;
    let keys = keys_of(alloc, joint, &numbers)?;
    let rows = chain(alloc, &keys, joint.nodes())?;
    let names = name(alloc, &rows.heads)?;
    Ok(Naming {
        numbers,
        keys,
        rows,
        names,
    })
}

/// The numbers of the parents of the named nodes.
fn parents_of(alloc: Global, joint: &Joint, naming: &Naming) -> Result<Vec<Option<usize>>, NoMemory>
    requires { IsNamingOf joint.now naming.now }
    ensures { IfOk result (λ parents. IsColumn parents.items None
        (IsUp joint.now naming.now) (length naming.now.names.back.items)) }
{
    let mut parents = Vec::with_capacity(alloc, naming.names.back.len())?;
    'nodes: for node in 0..naming.names.back.len() {
        let place = naming.names.back[node];
        let parent = through(&naming.names.index, joint.parent(place));
        parents.push(parent)?;
    }
    Ok(parents)
}

/// The parents of the named nodes, and the children of each.
pub(crate) fn families_of(
    alloc: Global,
    joint: &Joint,
    naming: &Naming,
) -> Result<Families, NoMemory>
    requires { IsNamingOf joint.now naming.now }
    ensures { IfOk result (IsFamiliesOf joint.now naming.now) }
{
    let parents = parents_of(alloc, joint, naming)?;
    let kids = chain(alloc, &parents, naming.names.back.len())?;
    Ok(Families { parents, kids })
}

/// The cards of the drawn commands: all marks are open.
pub(crate) fn cards_of(alloc: Global, joint: &Joint, naming: &Naming) -> Result<Vec<Card>, NoMemory>
    requires { IsNamingOf joint.now naming.now }
    ensures { IfOk result (λ cards. IsColumn cards.items no_card
        (IsCard joint.now naming.now) (length naming.now.numbers.picks.items)) }
{
    let count = naming.numbers.picks.len();
    let mut cards = Vec::with_capacity(alloc, count)?;
    'numbers: for number in 0..count {
        let command = command_at(joint, naming.numbers.picks[number]);
        let node = through(&naming.names.index, naming.keys[number]).unwrap_or(0);
        cards.push(Card {
            node,
            leaves: command.new_value().kind(),
            next: naming.rows.nexts[number],
            mark: Mark::Open,
        })?;
    }
    Ok(cards)
}

/// Counts a command of a node, where it leaves a directory.
fn add_dir(dirs: &mut Vec<u64>, node: usize, leaves: Kind)
    requires node { node < vec_len dirs.old }
    requires space { slice_index dirs.old.items node + 1 < 2 ^ 64 }
    ensures dir { leaves ≡ kind.Dir →
        dirs.new.items ≡ slice_set dirs.old.items node (slice_index dirs.old.items node + 1) }
    ensures other { (leaves ≡ kind.Dir → ⊥) → dirs.new.items ≡ dirs.old.items }
{
    if let Kind::Dir = leaves {
        let more = dirs[node] + 1;
        dirs[node] = more;
    }
}

/// So many zeros.
fn zeros(alloc: Global, total: usize) -> Result<Vec<u64>, NoMemory>
    ensures { IfOk result (λ v. v.items ≡ replicate total 0) }
{
    let zero: u64 = 0;
    Ok(vec![in alloc; zero; total]?)
}

/// How many commands of each node leave a directory.
pub(crate) fn count_dirs(alloc: Global, cards: &[Card], total: usize) -> Result<Vec<u64>, NoMemory>
    requires { (i : ℕ) → i < length cards.now → (card_at cards.now i).node < total }
    ensures { IfOk result (λ dirs. IsColumn dirs.items 0 (IsDirs cards.now) total) }
{
    let mut dirs = zeros(alloc, total)?;
    'cards: for number in 0..cards.len() {
        let card = cards[number];
        add_dir(&mut dirs, card.node, card.leaves);
    }
    Ok(dirs)
}

/// The spots of the named nodes.
pub(crate) fn spots_of(
    alloc: Global,
    joint: &Joint,
    naming: &Naming,
    families: &Families,
    dirs: &[u64],
) -> Result<Vec<Spot>, NoMemory>
    requires naming { IsNamingOf joint.now naming.now }
    requires families { IsFamiliesOf joint.now naming.now families.now }
    requires dirs { length dirs.now ≡ length naming.now.names.back.items }
    ensures { IfOk result (λ spots. IsColumn spots.items no_spot
        (IsSpot joint.now naming.now families.now dirs.now) (length naming.now.names.back.items)) }
{
    let count = naming.names.back.len();
    let mut spots = Vec::with_capacity(alloc, count)?;
    'nodes: for node in 0..count {
        let place = naming.names.back[node];
        let first = naming.rows.heads[place].unwrap_or(0);
        spots.push(Spot {
            starts: joint.first(place).kind(),
            parent: families.parents[node],
            first_child: families.kids.heads[node],
            next_child: families.kids.nexts[node],
            first,
            tally: Tally {
                dirs: dirs[node],
                shut: false,
                bare: false,
            },
        })?;
    }
    Ok(spots)
}
