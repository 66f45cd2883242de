//! The keys that have a head, numbered in ascending order.

ghost use Rattle.std.specs.Prelude.{length, IfOk};
ghost use Rattle.scan_board.specs.Named.{IsNamed};

use std::alloc::Global;
use sync_path::NoMemory;

/// The number of each named node, and the named nodes.
#[derive(Drop)]
pub(crate) struct Names {
    pub index: Vec<Option<usize>>,
    pub back: Vec<usize>,
}

/// Numbers the keys that have a head, in ascending order.
pub(crate) fn name(alloc: Global, heads: &[Option<usize>]) -> Result<Names, NoMemory>
    ensures { IfOk result (λ n. IsNamed heads.now n.index.items n.back.items (length heads.now)) }
{
    let mut index = Vec::new(alloc);
    let mut back = Vec::new(alloc);
    for q in 0..heads.len() {
        match heads[q] {
            None => {
                index.push(None)?;
            }
            Some(_) => {
                index.push(Some(back.len()))?;
                back.push(q)?;
            }
        }
    }
    Ok(Names { index, back })
}
