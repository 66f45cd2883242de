//! The children of each node, from one sibling to the next.

ghost use Rattle.std.specs.Prelude.{◌≡◌, ◌<◌, ◌≤◌, ◌+◌, ◌^◌, ℕ, length, slice_set, slice_index_or, Some, None, IfOk};
ghost use Rattle.refluent.specs.Families.{AreFamilies, place_or, up_at};
ghost use Rattle.refluent.specs.declared.joint.Link.{Link};

use crate::joint::Link;
use std::alloc::Global;
use sync_path::NoMemory;

/// For each node the place of its first child and that of its next sibling. The first root comes after all first
/// children, and roots are siblings of one another.
#[derive(Debug, Drop)]
pub(crate) struct Families {
    pub children: Vec<Option<usize>>,
    pub siblings: Vec<Option<usize>>,
}

/// The place of the parent, or the number of nodes for a root.
fn up_of(link: Link, count: usize) -> usize
    ensures { result ≡ place_or link.parent count }
{
    match link.parent {
        Some(place) => place,
        None => count,
    }
}

/// Makes a node the first child of its parent, and what was the first its next sibling.
fn put_first(
    children: &mut Vec<Option<usize>>,
    siblings: &mut Vec<Option<usize>>,
    up: usize,
    place: usize,
)
    requires up { up < length children.old.items }
    requires place { place < length siblings.old.items }
    ensures siblings { siblings.new.items ≡ slice_set siblings.old.items place
        (slice_index_or children.old.items up None) }
    ensures children { children.new.items ≡ slice_set children.old.items up (Some place) }
{
    siblings[place] = children[up];
    children[up] = Some(place);
}

/// The children of each node.
pub(crate) fn families_of(alloc: Global, links: &[Link]) -> Result<Families, NoMemory>
    requires few { length links.now + 1 < 2 ^ 64 }
    requires up { (i : ℕ) → i < length links.now → up_at links.now i ≤ length links.now }
    ensures { IfOk result (λ f. AreFamilies links.now 0 f.children.items f.siblings.items) }
{
    let count = links.len();
    let mut children: Vec<Option<usize>> = vec![in alloc; None; count + 1]?;
    let mut siblings: Vec<Option<usize>> = vec![in alloc; None; count]?;
    'places: for done in 0..count {
        let place = count - 1 - done;
        let up = up_of(links[place], count);
        put_first(&mut children, &mut siblings, up, place);
    }
    Ok(Families { children, siblings })
}
