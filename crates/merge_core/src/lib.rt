//! Mergers of joined logs.
//!
//! `specs/` holds the definitions, and `docs/MODEL.md` explains them in words.
#![tactic(auto)]

mod board_scan;
mod checking;
pub mod laws;
mod merging;
mod parents;
mod steering_rules;

pub use self::board_scan::{Scanned, scan, turn};
pub use self::checking::{Verdict, check};
pub use self::merging::{merge, merge_counted};
pub use self::steering_rules::{SteerFault, steer};
