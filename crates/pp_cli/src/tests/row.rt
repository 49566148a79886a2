//! A row of a table: an input, its status, and its report.
use pp_core::Status;

/// The name of the case, the lines of its input, its status and its report.
pub(crate) struct Row {
    pub(crate) what: &'static str,
    pub(crate) header: &'static [u8],
    pub(crate) records: &'static [u8],
    pub(crate) status: Status,
    pub(crate) report: &'static [u8],
}

/// The header of one counter.
pub(crate) const COUNTER: &[u8] =
    br#"{"run":1,"style":"rules","objects":[{"name":"c","kind":"counter"}]}
"#;

/// The header of one memory.
pub(crate) const MEMORY: &[u8] = br#"{"run":1,"style":"rules","objects":[{"name":"m","kind":"mem"}]}
"#;

/// The header of one queue.
pub(crate) const QUEUE: &[u8] =
    br#"{"run":1,"style":"rules","objects":[{"name":"q","kind":"queue"}]}
"#;

/// The header of one stack.
pub(crate) const STACK: &[u8] =
    br#"{"run":1,"style":"rules","objects":[{"name":"k","kind":"stack"}]}
"#;

/// The header of one priority queue.
pub(crate) const PRIORITY_QUEUE: &[u8] =
    br#"{"run":1,"style":"rules","objects":[{"name":"h","kind":"prio"}]}
"#;
