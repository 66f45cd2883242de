//! A round over a list of trees: each is led to the result of one merger by the transition of its own log.
//!
//! `specs/Rounds.antt` says when trees are ready for a round and where it leads them, `specs/Rounding.antt` what one
//! leaves, whatever it answers; `docs/MODEL.md` says it in words.
#![tactic(auto)]

mod faults;
pub mod laws;
mod rounding;

pub use self::faults::RoundFault;
pub use self::rounding::round;
