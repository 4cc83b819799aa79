//! The answer of a call.

/// The output of a command, its status, and the files that it writes.
#[derive(Debug, Drop)]
pub struct Answer {
    /// 0 means yes, or that the work is done; 1 means that a hard rule is broken, or that there is no timetable.
    pub status: u8,
    /// The text for standard output.
    pub out: Vec<u8>,
    /// The text of a solution file.
    pub table: Option<Vec<u8>>,
    /// The text of a proof file.
    pub proof: Option<Vec<u8>>,
}
