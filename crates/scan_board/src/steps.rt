//! The count of steps.

ghost use Rattle.std.specs.Prelude.{◌≡◌, ◌+◌, ◌^◌, ◌<◌};

use std::marker::Model;
use std::sync::ledger::{Blank, Book, Ledger, Share};

/// How many counted calls were made, in a ledger of its own: only `tick` changes it. Contracts see the number itself;
/// what is kept at run time stays at 2^64 - 1 once it is reached.
#[derive(Drop)]
pub struct Steps<L: Ledger> {
    kept: u64,
    book: Book<L>,
    share: Share<L>,
}

impl<L: Ledger> Model for Steps<L> {
    ghost use Rattle.std.specs.Prelude.{◌<◌, ℕ};
    ghost use Rattle.scan_board.specs.Counts.{IsKept};

    ghost Value = { ℕ };

    ghost view = { λ s. s.book.total };

    ghost invariant = { λ s. (0 < s.share.parts) × IsKept s.kept s.book.total };
}

impl<L: Ledger> Steps<L> {
    /// No steps, counted in the blank ledger, of which there is one for each counter.
    pub fn new(blank: Blank) -> Steps<L>
        requires name { blank.name ≡ L.name }
        requires parts { blank.parts ≡ L.parts }
        requires some { 0 < L.parts }
        ensures { result ≡ 0 }
    {
        let (book, share) = blank.open::<L>();
        Steps {
            kept: 0,
            book,
            share,
        }
    }

    /// One step more. Takes no memory.
    pub fn tick(&mut self)
        ensures { self.new ≡ self.old + 1 }
    {
        self.book.add(&mut self.share, 1);
        self.kept = self.kept.saturating_add(1);
    }

    /// The number of steps, below 2^64. Takes no memory.
    pub fn count(&self) -> u64
        ensures { self.now < 2 ^ 64 → result ≡ self.now }
    {
        self.kept
    }
}
