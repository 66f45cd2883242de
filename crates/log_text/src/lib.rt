//! The texts of logs and of snapshots: read to their first fault, at once or in pieces, and printed.
//!
//! `docs/FORMATS.md` describes the forms and the order of the faults; `specs/Frame.antt` defines what
//! they share.
#![tactic(auto)]

mod commands;
mod faults;
pub mod frame;
pub mod laws;
mod log;
mod open_log;
pub mod pieces;
mod queue;
mod reader;
mod rows;
mod snapshot;

pub use self::faults::{LineFault, LogFault, TextFault, TextKind};
pub use self::log::{print_log, read_log};
pub use self::open_log::read_open_log;
pub use self::reader::LogReader;
pub use self::snapshot::{print_snapshot, read_snapshot};
