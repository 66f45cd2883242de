//! `Places`.

ghost use Rattle.std.specs.Prelude.{◌≡◌};

use std::marker::Model;

/// Places of nodes of a joint. Contracts see the list of them.
#[derive(Debug, Drop)]
pub struct Places {
    places: Vec<usize>,
}

impl Model for Places {
    ghost use Rattle.std.specs.Prelude.{List, ℕ};

    ghost Value = { List ℕ };

    ghost view = { λ p. p.places.items };
}

impl Places {
    /// These places, in their order. Takes no memory.
    pub fn new(places: Vec<usize>) -> Places
        ensures { result ≡ places.items }
    {
        Places { places }
    }

    /// The places, in order. Takes no memory.
    pub fn as_slice(&self) -> &[usize]
        ensures { result.now ≡ self.now }
    {
        self.places.as_slice()
    }
}
