//! Lists of equal keys: each leads from the least index of a key to the next one.

ghost use Rattle.std.specs.Prelude.{◌≡◌, ℕ, ◌<◌, length, None, Some, slice_set, slice_index_or, IfSome, IfNone, IfOk, vec_len, replicate};
ghost use Rattle.scan_board.specs.Linked.{IsOptionWithin, option_at, through, IsLinked};

use std::alloc::Global;
use sync_path::NoMemory;

/// For each key its least index, and for each index the next one with its key.
#[derive(Drop)]
pub(crate) struct Chains {
    pub heads: Vec<Option<usize>>,
    pub nexts: Vec<Option<usize>>,
}

/// So many empty places.
fn empty_places(alloc: Global, count: usize) -> Result<Vec<Option<usize>>, NoMemory>
    ensures { IfOk result (λ v. v.items ≡ replicate count None) }
{
    let none: Option<usize> = None;
    Ok(vec![in alloc; none; count]?)
}

/// What a list holds for a key.
pub(crate) fn through(list: &[Option<usize>], key: Option<usize>) -> Option<usize>
    requires { IsOptionWithin key (length list.now) }
    ensures { result ≡ through list.now key }
{
    match key {
        None => None,
        Some(q) => list[q],
    }
}

/// Makes the index the head of its key, and gives the head before.
fn put_first(heads: &mut Vec<Option<usize>>, key: Option<usize>, index: usize) -> Option<usize>
    requires { IsOptionWithin key (vec_len heads.old) }
    ensures none { IfNone key ((result ≡ None) × (heads.new.items ≡ heads.old.items)) }
    ensures some { IfSome key (λ q. (result ≡ option_at heads.old.items q) ×
        (heads.new.items ≡ slice_set heads.old.items q (Some index))) }
{
    match key {
        None => None,
        Some(q) => {
            let old = heads[q];
            heads[q] = Some(index);
            old
        }
    }
}

/// Links the indexes of each key, in ascending order.
pub(crate) fn chain(
    alloc: Global,
    keys: &[Option<usize>],
    buckets: usize,
) -> Result<Chains, NoMemory>
    requires { (i : ℕ) → i < length keys.now → IsOptionWithin (option_at keys.now i) buckets }
    ensures { IfOk result (λ c. IsLinked keys.now buckets c.heads.items c.nexts.items 0) }
{
    let mut heads = empty_places(alloc, buckets)?;
    let mut nexts = empty_places(alloc, keys.len())?;
    let mut i = keys.len();
    while i > 0 {
        i -= 1;
        let next = put_first(&mut heads, keys[i], i);
        nexts[i] = next;
    }
    Ok(Chains { heads, nexts })
}
