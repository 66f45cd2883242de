//! Transitions: what leads from the result of one log to that of a merger.
//!
//! `specs/` holds the definitions, and `docs/MODEL.md` explains them in words.
#![tactic(auto)]

pub mod laws;
mod transitions;

pub use self::transitions::transition;
