// How a run ended, as its process says it.
ghost use Rattle.std.specs.Prelude.{◌≡◌, None, Some, MatchOption};
ghost use Rattle.gr_runner.specs.Status.{exit_code, message_of};

/// How a run ended.
#[derive(Clone, Copy, Debug, PartialEq, Eq)]
pub enum Status {
    /// Every source was read to its end, and every text was written.
    Ok = 0,
    /// The words are refused, and nothing was opened.
    Usage = 2,
    /// A file could not be opened, and nothing was run.
    Open = 3,
    /// A read of a session's source failed.
    Read = 4,
    /// A write failed.
    Write = 5,
    /// No memory was found.
    NoMemory = 6,
    /// A session's source gave more bytes than the limit.
    SourceTooLong = 7,
}

impl Status {
    /// The exit status of the process.
    pub fn code(self) -> u8
        ensures { result ≡ exit_code self }
    {
        self as u8
    }

    /// What the process says on standard error, where it says anything.
    pub fn message(self) -> Option<&'static str>
        ensures { MatchOption result (message_of self ≡ None) (λ text. message_of self ≡ Some text.now) }
    {
        match self {
            Status::Ok => None,
            Status::Usage => Some("usage: groonga-run FILE"),
            Status::Open => Some("open"),
            Status::Read => Some("read"),
            Status::Write => Some("write"),
            Status::NoMemory => Some("no memory"),
            Status::SourceTooLong => Some("source too long"),
        }
    }
}
