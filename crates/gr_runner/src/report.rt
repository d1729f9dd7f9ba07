// What a run reports of itself.
use super::Status;
use gr_base::{ListOf, SessionNo};
use gr_root::Root;
use gr_session::Done;
use std::sync::Arc;

/// The replies of a session, in order.
pub type Dones = ListOf<Done>;

/// The sessions of a run, in order of their numbers.
pub type SessionLogs = ListOf<SessionLog>;

/// How a session ended.
#[derive(Clone, Copy, Debug, PartialEq, Eq)]
pub enum End {
    /// Its source was read to its end, and each command has its reply.
    Finished,
    /// A read failed.
    Read {
        /// The source's count of faults just after.
        faults: u64,
    },
    /// Its source gave more bytes than the limit.
    SourceTooLong {
        /// How many it gave.
        bytes: u64,
    },
    /// No memory was found.
    NoMemory,
}

/// What one session did.
#[derive(Drop)]
pub struct SessionLog {
    /// Its number, from 1 in the order of the sources over all phases.
    pub number: SessionNo,
    /// The number of its phase, from 1.
    pub phase: u32,
    /// The journal's length when it opened.
    pub opened: u64,
    /// Its replies.
    pub done: Dones,
    /// How it ended.
    pub end: End,
}

/// What a run did.
#[derive(Drop)]
pub struct Report {
    /// How it ended.
    pub status: Status,
    /// The last state, whose journal is the one of the run; none where no memory was found for the first.
    pub root: Option<Arc<Root>>,
    /// Its sessions.
    pub sessions: SessionLogs,
}
