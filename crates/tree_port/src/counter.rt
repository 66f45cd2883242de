//! The four counts of a tree.

ghost use Rattle.std.specs.Prelude.{◌≡◌, Err};
ghost use Rattle.tree_port.specs.States.{CountsRefusals, IsCounted, unknown_tree};
ghost use Rattle.tree_port.specs.Calls.{IsChanging};
ghost use Rattle.tree_port.specs.InMemory.{counts_of, no_counts};
ghost use Rattle.tree_port.specs.declared.faults.TreeFault.TheVariants.{Failed, Memory};

use crate::TreeFault;

/// How many calls of a tree failed, were denied and ran out of memory, and how many changes were done.
#[derive(Drop)]
pub(crate) struct Counter {
    faults: u64,
    denials: u64,
    out_of_memory: u64,
    changes: u64,
}

impl Counter {
    pub(crate) fn new() -> Counter
        ensures { counts_of result ≡ no_counts }
    {
        Counter {
            faults: 0,
            denials: 0,
            out_of_memory: 0,
            changes: 0,
        }
    }

    /// How many changes were done.
    pub(crate) fn changes(&self) -> u64
        ensures { result ≡ self.now.changes }
    {
        self.changes
    }

    /// Counts the answer of a reading call.
    pub(crate) fn read<T>(&mut self, answer: &Result<T, TreeFault>)
        ensures refusals { CountsRefusals answer.now (counts_of self.old) (counts_of self.new) }
        ensures changes { self.new.changes ≡ self.old.changes }
    {
        match answer {
            Ok(_) => {}
            Err(TreeFault::Failed) => self.faults = self.faults.saturating_add(1),
            Err(TreeFault::Denied) => self.denials = self.denials.saturating_add(1),
            Err(TreeFault::Memory) => self.out_of_memory = self.out_of_memory.saturating_add(1),
        }
    }

    /// Counts the answer of a changing call.
    pub(crate) fn changed(&mut self, answer: &Result<(), TreeFault>)
        ensures { IsChanging answer.now (unknown_tree (counts_of self.old))
            (unknown_tree (counts_of self.new)) }
    {
        match answer {
            Ok(()) => self.changes = self.changes.saturating_add(1),
            Err(TreeFault::Failed) => self.faults = self.faults.saturating_add(1),
            Err(TreeFault::Denied) => self.denials = self.denials.saturating_add(1),
            Err(TreeFault::Memory) => self.out_of_memory = self.out_of_memory.saturating_add(1),
        }
    }

    /// Counts a fault, and gives it.
    pub(crate) fn failed(&mut self) -> TreeFault
        ensures changing { IsChanging {T = Unit {0}} (Err result)
            (unknown_tree (counts_of self.old)) (unknown_tree (counts_of self.new)) }
        ensures failed { result ≡ Failed }
    {
        self.faults = self.faults.saturating_add(1);
        TreeFault::Failed
    }

    /// Counts a fault in the place of the answer, and gives it. Where memory ran out that is counted too.
    pub(crate) fn failed_after(&mut self, answer: Result<(), TreeFault>) -> TreeFault
        ensures changing { IsChanging {T = Unit {0}} (Err result)
            (unknown_tree (counts_of self.old)) (unknown_tree (counts_of self.new)) }
        ensures failed { result ≡ Failed }
        ensures memory { answer ≡ Err Memory →
            IsCounted self.old.out_of_memory self.new.out_of_memory }
    {
        if let Err(TreeFault::Memory) = answer {
            self.out_of_memory = self.out_of_memory.saturating_add(1);
        }
        self.failed()
    }
}
