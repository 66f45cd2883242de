//! Joining logs: the least common tree, the logs' net sets and the drawn commands, or the first disagreement.
//!
//! `specs/` holds the definitions, and `docs/MODEL.md` explains them in words.
#![tactic(auto)]

mod claims;
mod demands;
mod families;
mod faults;
mod joining;
mod joint;
pub mod laws;
mod numbering;
mod parts;
mod table;

pub use self::faults::JoinFault;
pub use self::joining::join;
pub use self::joint::{Joint, MAX_LOGS, Pick};
