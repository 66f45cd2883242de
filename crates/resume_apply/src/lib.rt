//! Applying a set of commands to a live tree, in one go or in several.
//!
//! `specs/Ready.antt` says when a tree is ready for a set, and what is left to do; `docs/MODEL.md` says it in words.
#![tactic(auto)]

mod faults;
mod finishing;
pub mod laws;
mod preparing;

pub use self::faults::ApplyFault;
pub use self::finishing::finish;
pub use self::preparing::prepare;
