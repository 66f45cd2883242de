//! Files that are read and sinks that are written to: what the program meets of the outside world.
//!
//! `docs/MODEL.md` says what a file, a sink, a fault and a stop are. What an object of this crate holds may be
//! known, as of the ones in memory, or not, as of the ones of the system. A caller cannot ask which.
#![tactic(auto)]

mod entries;
mod faults;
mod host;
mod mem_files;
mod mem_sink;
mod ports;
mod sending;
mod whole;

pub use self::faults::{PortFault, SinkFailed, WholeFault};
pub use self::host::{HostFiles, HostSink};
pub use self::mem_files::MemFiles;
pub use self::mem_sink::MemSink;
pub use self::ports::{Files, Sink};
pub use self::sending::{send, send_path};
pub use self::whole::{PIECE, read_piece, read_whole};
