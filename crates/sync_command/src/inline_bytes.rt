//! A few bytes that stand in the value itself.

ghost use Rattle.std.specs.Prelude.{◌≡◌, ◌≤◌, ◌<◌, length};

use std::marker::Model;

/// Up to `N` bytes, with no memory of their own. Contracts see the list of them.
#[derive(Debug, Drop)]
pub(crate) struct InlineBytes<const N: usize> {
    len: u8,
    bytes: [u8; N],
}

impl<const N: usize> Model for InlineBytes<N> {
    ghost use Rattle.std.specs.Prelude.{◌≡◌, ◌≤◌, List, ℕ, length, take};

    ghost Value = { List ℕ };

    ghost view = { λ b. take b.len b.bytes };

    ghost invariant = { λ b. (b.len ≤ N) × (length b.bytes ≡ N) };
}

impl<const N: usize> InlineBytes<N> {
    /// These bytes.
    pub(crate) fn from_slice(bytes: &[u8]) -> InlineBytes<N>
        requires within { length bytes.now ≤ N }
        requires small { N < 256 }
        ensures { result ≡ bytes.now }
    {
        let mut array = [0; N];
        array[..bytes.len()].copy_from_slice(bytes);
        InlineBytes {
            len: bytes.len() as u8,
            bytes: array,
        }
    }

    /// The bytes.
    pub(crate) fn as_slice(&self) -> &[u8]
        ensures { result.now ≡ self.now }
    {
        &self.bytes[..usize::from(self.len)]
    }

    /// The same bytes.
    pub(crate) fn copy(&self) -> InlineBytes<N>
        ensures { result ≡ self.now }
    {
        InlineBytes {
            len: self.len,
            bytes: self.bytes,
        }
    }
}
