//! Why the program stops before its work is done.

use crate::status::Status;
use anyhow::Error;
use std::alloc::AllocError;
use std::fmt::{self, Display};
use std::io::{self, ErrorKind};
use x509_report_parts::shown::ShownBytes;

/// Why the program stops: its status, and what it says.
#[derive(Drop)]
pub struct Stop {
    /// The status.
    pub status: Status,
    /// What is written to standard error, with its causes (`{:#}`): nothing, if the pipe was closed.
    pub error: Option<Error>,
}

impl Stop {
    /// An input is refused, or failed. (An error holds 120 bytes of each of its messages, so that a long path doesn't hide
    /// the reason.)
    pub fn at(status: Status, path: &str, why: impl Display + Drop) -> Stop {
        Stop {
            status,
            error: Some(Error::msg(why).context(ShownBytes(path.as_bytes()))),
        }
    }

    /// The program was called in a wrong way.
    pub fn usage(error: Error) -> Stop {
        Stop {
            status: Status::Usage,
            error: Some(error),
        }
    }

    /// Memory was refused.
    pub fn memory() -> Stop {
        Stop {
            status: Status::OutOfMemory,
            error: Some(Error::msg("out of memory")),
        }
    }
}

impl From<io::Error> for Stop {
    fn from(error: io::Error) -> Stop {
        match error.kind() {
            ErrorKind::OutOfMemory => Stop::memory(),
            ErrorKind::BrokenPipe => Stop {
                status: Status::Failed,
                error: None,
            },
            _ => Stop {
                status: Status::Failed,
                error: Some(Error::msg(error)),
            },
        }
    }
}

impl From<AllocError> for Stop {
    fn from(_refused: AllocError) -> Stop {
        Stop::memory()
    }
}

/// Writing into memory fails for want of it alone.
impl From<fmt::Error> for Stop {
    fn from(_failed: fmt::Error) -> Stop {
        Stop::memory()
    }
}
