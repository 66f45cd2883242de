//! Live trees: what may be asked of a tree and done to it, trees in memory, a tree over a folder, and a whole tree read
//! into a map.
//!
//! `docs/MODEL.md` says what a live tree, its conditions and its counts are. What a tree holds may be known, as of the
//! ones in memory, or not, as of one over a folder. A caller cannot ask which.
#![tactic(auto)]

mod counter;
mod dumping;
mod faults;
mod fuse;
mod host;
mod maps;
mod mem;
mod tree;

pub use self::dumping::dump;
pub use self::faults::TreeFault;
pub use self::fuse::{FuseTree, Shot};
pub use self::host::HostTree;
pub use self::mem::MemTree;
pub use self::tree::Tree;
