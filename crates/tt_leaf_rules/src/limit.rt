//! Limits of what claims are worth.

/// A claim is worth at most this for each of its targets, 2^44: a price is below 2^32, and is paid for at most `MAX_LECTURES` lectures.
pub const MAX_TARGET_VALUE: u64 = 17_592_186_044_416;
