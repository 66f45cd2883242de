//! Undoing a set, composing the sets of several rounds, and rebasing recorded work on them.
//!
//! `specs/` holds the definitions, and `docs/MODEL.md` explains them in words.
#![tactic(auto)]

mod composing;
mod faults;
pub mod laws;
mod rebasing;

pub use self::composing::{compose, set_sum};
pub use self::faults::ComposeFault;
pub use self::rebasing::{Side, rebase};
