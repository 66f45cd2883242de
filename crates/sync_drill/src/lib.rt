//! Drills: logs that are made from a number, joined and merged, and a summary of them in numbers.
//!
//! `specs/` holds the definitions, and `docs/MODEL.md` explains them in words.
#![tactic(auto)]

mod base;
mod counts;
mod draws;
mod logs;
mod steps;
mod summary;
mod text;

pub use self::summary::{Summary, summarize};
pub use self::text::drill;
