//! Recording: a script of operations changes a tree, and each change is on a log before it is made.
#![tactic(auto)]

mod changing;
mod faults;
mod framing;
mod labelling;
pub mod laws;
mod limits;
mod log_size;
mod measuring;
mod ops;
mod planning;
mod reading;
mod recording;
mod script;
mod sealing;
mod stepping;
mod steps;
mod subtrees;
mod walking;
mod words;

pub use self::faults::{RecordFault, SealFault, Why};
pub use self::limits::MAX_LOG_LEN;
pub use self::ops::Op;
pub use self::recording::record;
pub use self::script::read_script;
pub use self::sealing::seal;
