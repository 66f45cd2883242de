//! Preference rules, their texts, and the ranking of the drawn commands under them.
//!
//! `specs/` holds the definitions, and `docs/MODEL.md` explains them in words.
#![tactic(auto)]

mod faults;
pub mod laws;
mod lines;
mod nodes;
mod numbers;
mod prefs;
mod ranking;
mod rule_list;
mod rules;
mod stages;

pub use self::faults::RankFault;
pub use self::nodes::{find_node, nodes_of};
pub use self::numbers::{Numbers, command_at, number_all};
pub use self::prefs::{print_prefs, read_prefs};
pub use self::ranking::{Ranking, rank};
pub use self::rules::{MAX_WIDE, Rule};
