//! The clashes of drawn commands, one by one.
//!
//! `specs/` holds the definitions, and `docs/MODEL.md` explains them in words.
#![tactic(auto)]

mod clashes;
mod cursor;
mod drawn;
pub mod laws;
mod walk;

pub use self::clashes::{Clash, Clashes};
