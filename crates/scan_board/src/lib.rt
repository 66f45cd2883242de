//! The board of a merge, and its turns.
//!
//! `specs/` holds the definitions, and `docs/MODEL.md` explains them in words.
#![tactic(auto)]

mod board;
mod building;
mod chains;
mod collecting;
pub mod laws;
mod naming;
mod steps;
mod turning;

pub use self::board::{Board, Card, Mark, Spot, Tally};
pub use self::steps::Steps;
pub use self::turning::turn;
