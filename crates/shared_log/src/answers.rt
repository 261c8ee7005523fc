//! What a log answers.

use crate::line::{Line, Lines};

/// The answer to an append of a line under a number.
#[derive(Debug, Drop)]
pub enum AppendAnswer {
    /// The log took the line under this number.
    Appended,
    /// It had a line under this number: this one.
    Taken(Line),
    /// It had no line under the number before.
    Behind,
}

/// The answer to a read of lines from a number on.
#[derive(Debug, Drop)]
pub struct PageAnswer {
    /// The lines from that number on, or the first of them.
    pub lines: Lines,
    /// Whether the log had more. If so, there is a line.
    pub more: bool,
}

/// The answer to a read of the head of a log.
#[derive(Debug, Drop)]
pub struct HeadAnswer {
    /// The number of lines.
    pub count: u32,
    /// The last of them, if there is one.
    pub last: Option<Line>,
}
