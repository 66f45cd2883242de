//! The limits of a log that is recorded.

/// The most bytes of a log, 2^28.
pub const MAX_LOG_LEN: u64 = 268_435_456;
