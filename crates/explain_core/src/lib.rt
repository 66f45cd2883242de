//! Why drawn commands are left out of a merger: each with its first chain, one by one, and whether a chain is one.
//!
//! `specs/` holds the definitions, and `docs/MODEL.md` explains them in words.
#![tactic(auto)]

pub mod laws;
mod nexts;
mod places;
mod reasons;
mod showing;
mod walk;
mod ways;

pub use self::places::Places;
pub use self::reasons::{Reason, Reasons};
pub use self::showing::shows;
