//! What the program says and answers when it fails.

ghost use Rattle.std.specs.Prelude.{◌≡◌};
ghost use Rattle.avsim.specs.Failure.{number_of, failure_of};

use av_replay::Status;
use thiserror::Error;

/// Why the program failed, in the words that it prints.
#[derive(Debug, Drop, Error)]
pub enum Failure {
    #[error("usage: avsim run FRAMES [SWAP..] | avsim work SEED LINES FRAMES [SWAP..] | \
         avsim audit FRAMES [SWAP..]")]
    Usage,
    #[error("line {0}: not a command")]
    BadLine(u32),
    #[error("read failed")]
    Read,
    #[error("write failed")]
    Write,
    #[error("out of memory")]
    Memory,
    #[error("too many lines")]
    TooMany,
    #[error("swap file can't be opened")]
    Attach,
    #[error("reply {0}: not legal")]
    Illegal(u32),
    #[error("transcript too long")]
    TooLong,
}

impl Failure {
    /// The failure of a status, if it is one.
    pub fn of(status: Status) -> Option<Failure>
        ensures { result ≡ failure_of status }
    {
        match status {
            Status::Done => None,
            Status::Usage => Some(Failure::Usage),
            Status::BadLine(line) => Some(Failure::BadLine(line)),
            Status::ReadFault => Some(Failure::Read),
            Status::WriteFault => Some(Failure::Write),
            Status::Memory => Some(Failure::Memory),
            Status::TooMany => Some(Failure::TooMany),
            Status::AttachFault => Some(Failure::Attach),
            Status::Illegal(reply) => Some(Failure::Illegal(reply)),
            Status::TooLong => Some(Failure::TooLong),
        }
    }
}

/// The number with which the program ends.
pub fn exit_number(status: Status) -> u8
    ensures { result ≡ number_of status }
{
    match status {
        Status::Done => 0,
        Status::Usage => 2,
        Status::BadLine(_) => 3,
        Status::ReadFault => 4,
        Status::WriteFault => 5,
        Status::Memory => 6,
        Status::TooMany => 7,
        Status::AttachFault => 8,
        Status::Illegal(_) => 9,
        Status::TooLong => 10,
    }
}
